ghost use Rattle.std.specs.Prelude.{◌≡◌, IfOk, OnOk};
ghost use Rattle.bsv_net.specs.Placing as spec;

use crate::node::NetNode;
use bsv_bits::{Operator, OutOfMemory};
use sqlite_items::Items;

/// Adds a node after the others, and gives its place. There are fewer nodes than numbers of 32 bits.
pub fn add(nodes: &mut Items<NetNode>, node: NetNode) -> Result<u32, OutOfMemory>
    ensures nodes { OnOk result (nodes.new ≡ (spec.add nodes.old node).nodes) }
    ensures place { IfOk result (λ n. n ≡ (spec.add nodes.old node).place) }
{
    let Ok(place) = u32::try_from(nodes.len()) else {
        return Err(OutOfMemory);
    };
    if place == u32::MAX {
        return Err(OutOfMemory);
    }
    nodes.push(node)?;
    Ok(place)
}

/// The bit that is 1 where both are.
pub fn both(nodes: &mut Items<NetNode>, a: u32, b: u32) -> Result<u32, OutOfMemory>
    ensures nodes { OnOk result (nodes.new ≡ (spec.both nodes.old a b).nodes) }
    ensures place { IfOk result (λ n. n ≡ (spec.both nodes.old a b).place) }
{
    add(nodes, NetNode::Two(Operator::And, a, b))
}

/// The bit that is 1 where one of them is.
pub fn either(nodes: &mut Items<NetNode>, a: u32, b: u32) -> Result<u32, OutOfMemory>
    ensures nodes { OnOk result (nodes.new ≡ (spec.either nodes.old a b).nodes) }
    ensures place { IfOk result (λ n. n ≡ (spec.either nodes.old a b).place) }
{
    add(nodes, NetNode::Two(Operator::Or, a, b))
}

/// The bit that is 1 where the other is 0.
pub fn negated(nodes: &mut Items<NetNode>, a: u32) -> Result<u32, OutOfMemory>
    ensures nodes { OnOk result (nodes.new ≡ (spec.negated nodes.old a).nodes) }
    ensures place { IfOk result (λ n. n ≡ (spec.negated nodes.old a).place) }
{
    add(nodes, NetNode::Not(a))
}
