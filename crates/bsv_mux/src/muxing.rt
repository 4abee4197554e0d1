ghost use Rattle.std.specs.Prelude.{◌≡◌, ◌+◌, [], IfOk, OnOk, false, map, length, slice_get};
ghost use Rattle.bsv_clock.specs.Grounds.{IsScheduleOf, KeepsRules};
ghost use Rattle.bsv_design.specs.scheme.Schemes.{design_scheme, kinds_of};
ghost use Rattle.bsv_design.specs.scheme.Seen.{design_data};
ghost use Rattle.bsv_ports.specs.CallSites.{or_none};
ghost use Rattle.bsv_fire.specs.Firing.{Fires};
ghost use Rattle.bsv_net.specs.AtHand.{net_data};
ghost use Rattle.bsv_mux.specs.AtHand as hand;
ghost use Rattle.bsv_net.specs.ShowsByNet.{NamesResults, NetCarries};
ghost use Rattle.bsv_mux.specs.Nexts as spec;

use crate::parts::Muxing;
use bsv_bits::{OutOfMemory, Word};
use bsv_design::{Design, NamedPart, Schedule};
use bsv_net::{Net, NetData, NetNode, add, node_at};
use bsv_ports::{CallSite, Firing, all_call_sites, register_starts};
use sqlite_items::{Items, at};
use std::alloc::Global;

/// So many registers, and a bit that is 0, come after the nodes.
fn add_registers(nodes: &mut Items<NetNode>, count: u32) -> Result<(), OutOfMemory>
    ensures { OnOk result (nodes.new ≡ spec.with_registers nodes.old count) }
{
    for number in 0..count {
        add(nodes, NetNode::Register(number))?;
    }
    add(nodes, NetNode::Constant(Word::bit(false)))?;
    Ok(())
}

/// The call sites on a part.
fn call_sites_on(call_sites: &[Items<CallSite>], part: u32) -> &[CallSite]
    ensures { result.now ≡ or_none (slice_get call_sites.now part) }
{
    match at(call_sites, part as usize) {
        Some(found) => found.as_slice(),
        None => &[],
    }
}

/// The next words of all registers.
#[tactic(auto, unfolding(crate::specs::Nexts::nexts))]
fn next_words(
    muxing: Muxing<'_>,
    nodes: &mut Items<NetNode>,
    parts: &[NamedPart],
    starts: &[u32],
    call_sites: &[Items<CallSite>],
) -> Result<Items<u32>, OutOfMemory>
    ensures nodes { OnOk result (nodes.new ≡ (spec.nexts (hand.told muxing.entry) starts.now
        call_sites.now 0 nodes.old [] (map (λ p. p.kind) parts.now)).nodes) }
    ensures nexts { IfOk result (λ nexts. nexts ≡ (spec.nexts (hand.told muxing.entry)
        starts.now call_sites.now 0 nodes.old [] (map (λ p. p.kind) parts.now)).places) }
{
    let mut nexts = Items::new(muxing.alloc);
    let mut number = 0u32;
    let mut rest = parts;
    while let Some((part, after)) = rest.split_first() {
        let start = node_at(starts, number);
        let found = call_sites_on(call_sites, number);
        muxing.part_nexts(nodes, &mut nexts, &part.kind, start, found)?;
        let Some(next) = number.checked_add(1) else {
            return Err(OutOfMemory);
        };
        number = next;
        rest = after;
    }
    Ok(nexts)
}

/// What gives nothing names the number of nodes, however many there are.
fn results_of(
    alloc: Global,
    results: &[u32],
    before: usize,
    behind: u32,
) -> Result<Items<u32>, OutOfMemory>
    ensures { IfOk result (λ found. found ≡ map (spec.renamed before behind) results.now) }
{
    let mut found = Items::new(alloc);
    for place in results {
        let renamed = if (*place as usize) < before {
            *place
        } else {
            behind
        };
        found.push(renamed)?;
    }
    Ok(found)
}

/// The nodes of a net, and after them those of the next words; and which these are.
#[derive(Drop)]
struct Extended {
    nodes: Items<NetNode>,
    nexts: Items<u32>,
}

/// The nodes of the next words come after those of the net.
#[tactic(auto, unfolding(crate::specs::Nexts::next_words))]
fn with_next_words(
    alloc: Global,
    design: &Design,
    schedule: &Schedule,
    net: &Net,
) -> Result<Extended, OutOfMemory>
    ensures nodes { IfOk result (λ made. made.nodes
        ≡ (spec.next_words (design_data design.now) schedule.now (net_data net.now)).nodes) }
    ensures nexts { IfOk result (λ made. made.nexts
        ≡ (spec.next_words (design_data design.now) schedule.now (net_data net.now)).places) }
{
    let parts = design.parts.as_slice();
    let Ok(first) = u32::try_from(net.nodes.len()) else {
        return Err(OutOfMemory);
    };
    let Ok(count) = u32::try_from(net.registers.len()) else {
        return Err(OutOfMemory);
    };
    let Some(none) = first.checked_add(count) else {
        return Err(OutOfMemory);
    };
    let execution = schedule.execution.as_slice();
    let call_sites = all_call_sites(alloc, parts, design.elements.as_slice(), execution)?;
    let starts = register_starts(alloc, first, parts)?;
    let mut nodes = Items::from_slice(alloc, net.nodes.as_slice())?;
    add_registers(&mut nodes, count)?;
    let firing = Firing {
        fires: net.fires.as_slice(),
        sites: net.sites.as_slice(),
    };
    let muxing = Muxing {
        alloc,
        firing,
        none,
    };
    let nexts = next_words(muxing, &mut nodes, parts, &starts, &call_sites)?;
    Ok(Extended { nodes, nexts })
}

/// The data of a net with the next word of each register.
fn next_net(
    alloc: Global,
    design: &Design,
    schedule: &Schedule,
    net: Net,
) -> Result<NetData, OutOfMemory>
    ensures { IfOk result (spec.IsNextNet (design_data design.now) schedule.now (net_data net)) }
{
    let made = with_next_words(alloc, design, schedule, &net)?;
    let before = net.nodes.len();
    let Ok(behind) = u32::try_from(made.nodes.len()) else {
        return Err(OutOfMemory);
    };
    let results = results_of(alloc, net.results.as_slice(), before, behind)?;
    Ok(NetData {
        inputs: net.inputs,
        registers: net.registers,
        nodes: made.nodes,
        nexts: made.nexts,
        fires: net.fires,
        readies: net.readies,
        results,
        sites: Items::new(alloc),
    })
}

/// The net of a design: in each clock it tells which elements fire, which are ready and what those give, and the next word
/// of each register, so that the registers show the state after the clock. The net that is given tells of the design what
/// `add_fire` promises.
pub fn add_next(
    alloc: Global,
    design: &Design,
    schedule: &Schedule,
    net: Net,
) -> Result<Net, OutOfMemory>
    requires rules { KeepsRules (design_scheme (design_data design.now)) }
    requires schedule { IsScheduleOf (design_scheme (design_data design.now)) schedule.now }
    requires fires { Fires false (design_scheme (design_data design.now)) schedule.now
        (net_data net) }
    ensures carries { IfOk result (λ made.
        NetCarries false (design_scheme (design_data design.now)) schedule.now made) }
    ensures results { IfOk result (λ made.
        NamesResults (design_scheme (design_data design.now)) (net_data made)) }
    ensures sites { IfOk result (λ made. made.sites ≡ []) }
{
    let net_data = next_net(alloc, design, schedule, net)?;
    match Net::new(alloc, net_data)? {
        Some(made) => Ok(made),
        None => Err(OutOfMemory),
    }
}
