ghost use Rattle.std.specs.Prelude.{◌≡◌, IfOk, map, replicate, length, None, []};
ghost use Rattle.bsv_fire.specs.FireBuilder as spec;

use bsv_bits::OutOfMemory;
use bsv_design::NamedPart;
use bsv_net::{MethodPort, NetNode, Site};
use bsv_prim::Primitive;
use sqlite_items::Items;
use std::alloc::Global;

/// The net so far.
#[derive(Drop)]
pub struct NetSoFar {
    pub nodes: Items<NetNode>,
    /// Of each part, of each of its methods, its nodes where they are placed.
    pub ports: Vec<Items<Option<MethodPort>>>,
    /// Of each element the node that is 1 where one that fires stops it, if there is one.
    pub stoppers: Vec<Option<u32>>,
    /// Of each element the node that is 1 where it fires.
    pub fires: Vec<u32>,
    /// Of each element the node that is 1 where it is ready.
    pub readies: Vec<u32>,
    /// Of each element the node of what it gives.
    pub results: Vec<Option<u32>>,
    /// Of each element the nodes of its calls.
    pub sites: Vec<Items<Site>>,
}

/// No nodes of the methods of any part.
fn no_ports(
    alloc: Global,
    parts: &[NamedPart],
) -> Result<Vec<Items<Option<MethodPort>>>, OutOfMemory>
    ensures { IfOk result (λ ports. ports.items ≡ spec.no_ports (map (λ p. p.kind) parts.now)) }
{
    let mut ports = Vec::new(alloc);
    for part in parts {
        ports.push(no_methods(alloc, part.kind.methods())?)?;
    }
    Ok(ports)
}

fn no_methods(alloc: Global, methods: u32) -> Result<Items<Option<MethodPort>>, OutOfMemory>
    ensures { IfOk result (λ ports. ports ≡ replicate methods None) }
{
    let mut ports = Items::new(alloc);
    for _ in 0..methods {
        ports.push(None)?;
    }
    Ok(ports)
}

fn no_sites(alloc: Global, count: usize) -> Result<Vec<Items<Site>>, OutOfMemory>
    ensures { IfOk result (λ sites. sites.items ≡ replicate count []) }
{
    let mut sites = Vec::new(alloc);
    for _ in 0..count {
        sites.push(Items::new(alloc))?;
    }
    Ok(sites)
}

impl NetSoFar {
    ghost use Rattle.bsv_fire.specs.AtHand as hand;

    /// The net of these nodes, in which no element stands yet.
    pub fn new(
        alloc: Global,
        nodes: Items<NetNode>,
        parts: &[NamedPart],
        elements: usize,
    ) -> Result<NetSoFar, OutOfMemory>
        ensures { IfOk result (λ net_so_far. hand.net_so_far net_so_far
            ≡ spec.none_placed (map (λ p. p.kind) parts.now) elements nodes) }
    {
        Ok(NetSoFar {
            nodes,
            ports: no_ports(alloc, parts)?,
            stoppers: vec![in alloc; None; elements]?,
            fires: vec![in alloc; 0u32; elements]?,
            readies: vec![in alloc; 0u32; elements]?,
            results: vec![in alloc; None; elements]?,
            sites: no_sites(alloc, elements)?,
        })
    }
}
