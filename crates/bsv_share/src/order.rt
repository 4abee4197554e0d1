ghost use Rattle.std.specs.Prelude.{◌≡◌, true, All, IfOk, map};
ghost use Rattle.bsv_graph.specs.Orders.{In};
ghost use Rattle.bsv_net.specs.AtHand.{net_data};
ghost use Rattle.bsv_share.specs.Sharing.{operands};
ghost use Rattle.bsv_share.specs.Ordering as spec;

use crate::key::key_of;
use bsv_bits::OutOfMemory;
use bsv_net::{Net, NetNode, node_at};
use sqlite_items::{Items, at};
use std::alloc::Global;

/// Marks the node of this place.
fn mark(marks: &mut Items<bool>, place: u32)
    ensures { spec.MarksOnly (λ k. k ≡ place) marks.old marks.new }
{
    let place = place as usize;
    if place < marks.len() {
        marks.set(place, true);
    }
}

/// Marks the nodes of these places.
fn mark_all(marks: &mut Items<bool>, places: &[u32])
    ensures { spec.MarksOnly (In places.now) marks.old marks.new }
{
    for place in places {
        mark(marks, *place);
    }
}

/// Marks the nodes that a node reads.
fn mark_operands(marks: &mut Items<bool>, node: NetNode)
    ensures { spec.MarksOnly (In (operands node)) marks.old marks.new }
{
    match node {
        NetNode::Input(_) | NetNode::Register(_) | NetNode::Constant(_) => {}
        NetNode::Not(a) => mark_all(marks, &[a]),
        NetNode::Two(_, a, b) => mark_all(marks, &[a, b]),
        NetNode::Pick(test, a, b) => mark_all(marks, &[test, a, b]),
        NetNode::Slice(a, _, _) => mark_all(marks, &[a]),
        NetNode::Join(a, b) => mark_all(marks, &[a, b]),
        NetNode::Extend(a, _) | NetNode::SignExtend(a, _) => mark_all(marks, &[a]),
    }
}

/// Whether the node of this place is marked.
fn is_marked(marks: &[bool], place: usize) -> bool
    ensures { result ≡ spec.is_marked marks.now place }
{
    match at(marks, place) {
        Some(mark) => *mark,
        None => false,
    }
}

/// So many nodes of which none is marked.
fn unmarked(alloc: Global, count: usize) -> Result<Items<bool>, OutOfMemory>
    ensures { IfOk result (λ marks. spec.NoneMarked marks) }
{
    let mut marks = Items::new(alloc);
    for _ in 0..count {
        marks.push(false)?;
    }
    Ok(marks)
}

/// Which nodes are what the net gives.
fn outputs(alloc: Global, net: &Net) -> Result<Items<bool>, OutOfMemory>
    ensures { IfOk result (λ marks. spec.AllReached (net_data net.now) marks) }
{
    let mut marks = unmarked(alloc, net.nodes.len())?;
    mark_all(&mut marks, net.nexts.as_slice());
    mark_all(&mut marks, net.fires.as_slice());
    mark_all(&mut marks, net.readies.as_slice());
    mark_all(&mut marks, net.results.as_slice());
    Ok(marks)
}

/// Which nodes are needed: what the net gives, and what these read.
fn needed(alloc: Global, net: &Net) -> Result<Items<bool>, OutOfMemory>
    ensures { IfOk result (λ marks. spec.AllReached (net_data net.now) marks) }
{
    let nodes = net.nodes.as_slice();
    let mut marks = outputs(alloc, net)?;
    for place in (0..nodes.len()).rev() {
        if is_marked(marks.as_slice(), place) {
            mark_operands(&mut marks, nodes[place]);
        }
    }
    Ok(marks)
}

/// One more than the highest level of the nodes that a node reads, or 0 where it reads none.
fn level(levels: &[u32], node: NetNode) -> u32 {
    match node {
        NetNode::Input(_) | NetNode::Register(_) | NetNode::Constant(_) => 0,
        NetNode::Not(a)
        | NetNode::Slice(a, _, _)
        | NetNode::Extend(a, _)
        | NetNode::SignExtend(a, _) => node_at(levels, a).saturating_add(1),
        NetNode::Two(_, a, b) | NetNode::Join(a, b) => {
            node_at(levels, a).max(node_at(levels, b)).saturating_add(1)
        }
        NetNode::Pick(test, a, b) => node_at(levels, test)
            .max(node_at(levels, a))
            .max(node_at(levels, b))
            .saturating_add(1),
    }
}

/// Where a node stands: by its level, by its form, and as it stood.
#[derive(Clone, Copy, PartialEq, Eq, PartialOrd, Ord)]
struct Rank {
    level: u32,
    form: u32,
    place: u32,
}

/// The nodes that are needed, each with where it stands.
fn ranks(alloc: Global, nodes: &[NetNode], marks: &[bool]) -> Result<Vec<Rank>, OutOfMemory>
    ensures { IfOk result (λ found.
        All (λ rank. spec.is_marked marks.now rank.place ≡ true) found.items) }
{
    let mut found = Vec::new(alloc);
    let mut levels = Items::new(alloc);
    let mut place = 0u32;
    for node in nodes {
        let level = level(levels.as_slice(), *node);
        levels.push(level)?;
        if is_marked(marks, place as usize) {
            let form = key_of(*node).form;
            found.push(Rank { level, form, place })?;
        }
        let Some(next) = place.checked_add(1) else {
            return Err(OutOfMemory);
        };
        place = next;
    }
    Ok(found)
}

/// The places of nodes that stand so.
fn places(alloc: Global, ranks: &[Rank]) -> Result<Items<u32>, OutOfMemory>
    ensures { IfOk result (λ found. found ≡ map (λ rank. rank.place) ranks.now) }
{
    let mut found = Items::new(alloc);
    for rank in ranks {
        found.push(rank.place)?;
    }
    Ok(found)
}

/// The places of the nodes that are needed, by level and in a level by form.
pub fn order(alloc: Global, net: &Net) -> Result<Items<u32>, OutOfMemory>
    ensures { IfOk result (λ found. spec.PlacesReached (net_data net.now) found) }
{
    let marks = needed(alloc, net)?;
    let mut found = ranks(alloc, net.nodes.as_slice(), marks.as_slice())?;
    found.sort()?;
    places(alloc, &found)
}
