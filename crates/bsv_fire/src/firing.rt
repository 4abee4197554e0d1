ghost use Rattle.std.specs.Prelude.{◌≡◌, ◌+◌, IfOk, false, length, map, unwrap_or};
ghost use Rattle.bsv_graph.specs.Edges.{numbers_below};
ghost use Rattle.bsv_fire.specs.AtHand as hand;
ghost use Rattle.bsv_fire.specs.Nets as spec;
ghost use Rattle.bsv_clock.specs.Shows.{cells_of, input_widths_of};
ghost use Rattle.bsv_clock.specs.Grounds.{IsScheduleOf, KeepsRules};
ghost use Rattle.bsv_design.specs.design.Guards.{needs_of};
ghost use Rattle.bsv_design.specs.scheme.Schemes.{design_scheme, kinds_of, outline};
ghost use Rattle.bsv_design.specs.scheme.Seen.{design_data};
ghost use Rattle.bsv_fire.specs.Firing.{Fires};
ghost use Rattle.bsv_net.specs.AtHand.{net_data};

use crate::builder::FireBuilder;
use crate::net_so_far::NetSoFar;
use bsv_bits::OutOfMemory;
use bsv_design::{Design, Guards, Schedule};
use bsv_net::{Net, NetData};
use bsv_ports::{
    all_call_sites, first_nodes, input_starts, inputs_of, register_starts, registers_of,
};
use sqlite_items::Items;
use std::alloc::Global;

/// Of each element the node of what it gives, or their number where it gives nothing.
fn results_of(alloc: Global, results: &[Option<u32>], count: u32) -> Result<Items<u32>, OutOfMemory>
    ensures { IfOk result (λ found. found ≡ map (λ o. unwrap_or o count) results.now) }
{
    let mut found = Items::new(alloc);
    for given in results {
        found.push(given.unwrap_or(count))?;
    }
    Ok(found)
}

/// The nodes of so many registers, of which the first is here.
fn kept(alloc: Global, first: u32, count: u32) -> Result<Items<u32>, OutOfMemory>
    ensures { IfOk result (λ found. found ≡ map (λ k. first + k) (numbers_below count)) }
{
    let mut found = Items::new(alloc);
    for number in 0..count {
        let Some(node) = first.checked_add(number) else {
            return Err(OutOfMemory);
        };
        found.push(node)?;
    }
    Ok(found)
}

/// The net in which all elements of the design stand, after so many inputs and registers.
#[tactic(auto, unfolding(crate::specs::Nets::net))]
fn whole_draft(
    alloc: Global,
    design: &Design,
    guards: &Guards,
    schedule: &Schedule,
    inputs: u32,
    registers: u32,
) -> Result<NetSoFar, OutOfMemory>
    requires inputs { inputs ≡ length (input_widths_of (map outline design.now.elements)) }
    requires registers { registers ≡ length (cells_of (kinds_of (design_data design.now))) }
    ensures { IfOk result (λ net_so_far. hand.net_so_far net_so_far
        ≡ spec.net (design_data design.now) guards.now.needs schedule.now) }
{
    let parts = design.parts.as_slice();
    let elements = design.elements.as_slice();
    let Some(none) = inputs.checked_add(registers) else {
        return Err(OutOfMemory);
    };
    let call_sites = all_call_sites(alloc, parts, elements, schedule.execution.as_slice())?;
    let input_starts = input_starts(alloc, elements)?;
    let register_starts = register_starts(alloc, inputs, parts)?;
    let nodes = first_nodes(alloc, inputs, registers)?;
    let mut net_so_far = NetSoFar::new(alloc, nodes, parts, elements.len())?;
    let builder = FireBuilder {
        alloc,
        design,
        guards,
        schedule,
        call_sites: &call_sites,
        inputs: &input_starts,
        registers: &register_starts,
        none,
    };
    builder.grow(&mut net_so_far)?;
    Ok(net_so_far)
}

/// The net of a design, in which every register keeps its word.
fn firing_net(
    alloc: Global,
    design: &Design,
    guards: &Guards,
    schedule: &Schedule,
) -> Result<NetData, OutOfMemory>
    ensures { IfOk result
        (spec.IsFiringNet (design_data design.now) guards.now.needs schedule.now) }
{
    let widths = inputs_of(alloc, design.elements.as_slice())?;
    let registers = registers_of(alloc, design.parts.as_slice())?;
    let Ok(inputs) = u32::try_from(widths.len()) else {
        return Err(OutOfMemory);
    };
    let Ok(count) = u32::try_from(registers.len()) else {
        return Err(OutOfMemory);
    };
    let net_so_far = whole_draft(alloc, design, guards, schedule, inputs, count)?;
    let Ok(last) = u32::try_from(net_so_far.nodes.len()) else {
        return Err(OutOfMemory);
    };
    let results = results_of(alloc, net_so_far.results.as_slice(), last)?;
    let nexts = kept(alloc, inputs, count)?;
    Ok(NetData {
        inputs: widths,
        registers,
        nodes: net_so_far.nodes,
        nexts,
        fires: Items::from_vec(net_so_far.fires),
        readies: Items::from_vec(net_so_far.readies),
        results,
        sites: Items::from_vec(net_so_far.sites),
    })
}

/// The net of a design up to its firing: in each clock it tells which elements fire, which are ready, what those give, and
/// their calls. Every register keeps its word.
pub fn add_fire(
    alloc: Global,
    design: &Design,
    guards: &Guards,
    schedule: &Schedule,
) -> Result<Net, OutOfMemory>
    requires rules { KeepsRules (design_scheme (design_data design.now)) }
    requires needs { guards.now.needs
        ≡ needs_of (kinds_of (design_data design.now)) design.now.elements }
    requires schedule { IsScheduleOf (design_scheme (design_data design.now)) schedule.now }
    ensures { IfOk result (λ net. Fires false (design_scheme (design_data design.now))
        schedule.now (net_data net)) }
{
    let net_data = firing_net(alloc, design, guards, schedule)?;
    match Net::new(alloc, net_data)? {
        Some(net) => Ok(net),
        None => Err(OutOfMemory),
    }
}
