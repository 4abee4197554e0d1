ghost use Rattle.std.specs.Prelude.{◌≡◌, IfOk, map};
ghost use Rattle.bsv_net.specs.AtHand.{net_data};
ghost use Rattle.bsv_share.specs.Outputs as spec;

use bsv_bits::OutOfMemory;
use bsv_net::{Net, NetData, NetNode};
use sqlite_items::{Items, at};
use std::alloc::Global;

/// The place of a node in a list, or this number where it has none.
fn place_or(places: &[u32], none: u32, node: u32) -> u32
    ensures { result ≡ spec.place_or places.now none node }
{
    match at(places, node as usize) {
        Some(place) => *place,
        None => none,
    }
}

/// The places of nodes, and this number where there is none.
fn places_of(
    alloc: Global,
    places: &[u32],
    none: u32,
    nodes: &[u32],
) -> Result<Items<u32>, OutOfMemory>
    ensures { IfOk result (λ found. found ≡ map (spec.place_or places.now none) nodes.now) }
{
    let mut found = Items::new(alloc);
    for node in nodes {
        found.push(place_or(places, none, *node))?;
    }
    Ok(found)
}

/// The net with other nodes: what it gives is at these places among them.
pub fn with_nodes(
    alloc: Global,
    net: &Net,
    nodes: Items<NetNode>,
    places: &[u32],
) -> Result<Net, OutOfMemory>
    ensures { IfOk result (λ made.
        net_data made ≡ spec.with_nodes (net_data net.now) nodes places.now) }
{
    let Ok(none) = u32::try_from(nodes.len()) else {
        return Err(OutOfMemory);
    };
    let net_data = NetData {
        inputs: Items::from_slice(alloc, net.inputs.as_slice())?,
        registers: Items::from_slice(alloc, net.registers.as_slice())?,
        nodes,
        nexts: places_of(alloc, places, none, net.nexts.as_slice())?,
        fires: places_of(alloc, places, none, net.fires.as_slice())?,
        readies: places_of(alloc, places, none, net.readies.as_slice())?,
        results: places_of(alloc, places, none, net.results.as_slice())?,
        sites: Items::new(alloc),
    };
    match Net::new(alloc, net_data)? {
        Some(made) => Ok(made),
        // the nodes keep their widths, so that the data are in order
        None => Err(OutOfMemory),
    }
}
