ghost use Rattle.std.specs.Prelude.{◌≡◌, IfOk, length};
ghost use Rattle.std.specs.List.{list_all};
ghost use Rattle.bsv_net.specs.AtHand.{net_data};
ghost use Rattle.bsv_share.specs.Moving as spec;

use crate::operands::renamed;
use crate::outputs::with_nodes;
use bsv_bits::OutOfMemory;
use bsv_net::{Net, NetNode};
use sqlite_items::{Items, at};
use std::alloc::Global;

/// Where nodes go: which node comes to each place, and the place to which each node goes.
#[derive(Clone, Copy)]
struct Moves<'a> {
    from: &'a [u32],
    to: &'a [u32],
}

impl Moves<'_> {
    /// Whether the node goes to a place before this one.
    fn goes_before(self, node: u32, count: usize) -> bool
        ensures { result ≡ spec.goes_before self.entry.from.now self.entry.to.now count node }
    {
        match at(self.to, node as usize) {
            Some(place) => (*place as usize) < count && self.comes_to(node, *place),
            None => false,
        }
    }

    /// Whether the node comes to the place.
    fn comes_to(self, node: u32, place: u32) -> bool
        ensures { result ≡ spec.comes_to self.entry.from.now self.entry.to.now node place }
    {
        match at(self.from, place as usize) {
            Some(found) => *found == node,
            None => false,
        }
    }

    /// Whether all nodes that a node reads go to places before this one.
    fn reads_before(self, node: NetNode, count: usize) -> bool
        ensures { result ≡ spec.reads_before self.entry.from.now self.entry.to.now count node }
    {
        match node {
            NetNode::Input(_) | NetNode::Register(_) | NetNode::Constant(_) => true,
            NetNode::Not(a)
            | NetNode::Slice(a, _, _)
            | NetNode::Extend(a, _)
            | NetNode::SignExtend(a, _) => self.goes_before(a, count),
            NetNode::Two(_, a, b) | NetNode::Join(a, b) => {
                self.goes_before(a, count) && self.goes_before(b, count)
            }
            NetNode::Pick(test, a, b) => {
                self.goes_before(test, count)
                    && self.goes_before(a, count)
                    && self.goes_before(b, count)
            }
        }
    }

    /// Whether all these nodes go to places, but for numbers that name none.
    fn keeps_all(self, nodes: &[u32], count: usize) -> bool
        ensures { result
            ≡ list_all (spec.keeps self.entry.from.now self.entry.to.now count) nodes.now }
    {
        let mut rest = nodes;
        while let Some((node, after)) = rest.split_first() {
            if (*node as usize) < self.to.len() && !self.goes_before(*node, count) {
                return false;
            }
            rest = after;
        }
        true
    }

    /// The node that comes to the place after so many.
    fn node(self, nodes: &[NetNode], old: u32, count: usize) -> Result<NetNode, OutOfMemory>
        ensures { IfOk result (λ node.
            spec.Comes self.entry.from.now self.entry.to.now nodes.now old count node) }
    {
        let Some(node) = at(nodes, old as usize) else {
            return Err(OutOfMemory);
        };
        let Some(to) = at(self.to, old as usize) else {
            return Err(OutOfMemory);
        };
        // `order` puts each node once, and after those that it reads
        if (*to as usize) != count || !self.reads_before(*node, count) {
            return Err(OutOfMemory);
        }
        Ok(renamed(*node, self.to))
    }

    /// The nodes at their new places.
    fn nodes(self, alloc: Global, nodes: &[NetNode]) -> Result<Items<NetNode>, OutOfMemory>
        ensures { IfOk result (λ found.
            spec.AreMoved self.entry.from.now self.entry.to.now nodes.now found) }
    {
        let mut found = Items::new(alloc);
        for old in self.from {
            let node = self.node(nodes, *old, found.len())?;
            found.push(node)?;
        }
        Ok(found)
    }
}

/// Of so many nodes, the place to which each goes, where each of these comes to the place that it has in the list.
fn destinations(alloc: Global, from: &[u32], count: usize) -> Result<Items<u32>, OutOfMemory>
    ensures { IfOk result (λ to. length to ≡ count) }
{
    let mut to = Items::new(alloc);
    for _ in 0..count {
        to.push(u32::MAX)?;
    }
    let mut place = 0u32;
    for node in from {
        if (*node as usize) < count {
            to.set(*node as usize, place);
        }
        let Some(next) = place.checked_add(1) else {
            return Err(OutOfMemory);
        };
        place = next;
    }
    Ok(to)
}

/// The net with these nodes alone, in this order.
pub fn moved(alloc: Global, net: &Net, from: &[u32]) -> Result<Net, OutOfMemory>
    ensures { IfOk result (λ made.
        spec.IsMoveOf from.now (net_data net.now) (net_data made)) }
{
    let to = destinations(alloc, from, net.nodes.len())?;
    let moves = Moves {
        from,
        to: to.as_slice(),
    };
    let count = from.len();
    // `order` keeps what the net gives
    if !moves.keeps_all(net.nexts.as_slice(), count)
        || !moves.keeps_all(net.fires.as_slice(), count)
        || !moves.keeps_all(net.readies.as_slice(), count)
        || !moves.keeps_all(net.results.as_slice(), count)
    {
        return Err(OutOfMemory);
    }
    let nodes = moves.nodes(alloc, net.nodes.as_slice())?;
    with_nodes(alloc, net, nodes, moves.to)
}
