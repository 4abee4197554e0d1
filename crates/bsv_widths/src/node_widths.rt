ghost use Rattle.std.specs.Prelude.{◌≡◌, [], IfOk, map, option_map, slice_get};
ghost use Rattle.bsv_design.specs.design.Widths as spec;

use crate::calls::result_width;
use crate::operators::{
    extend_width, join_width, pick_width, slice_width, two_width, width_at, word_width,
};
use bsv_bits::OutOfMemory;
use bsv_design::{Call, NamedPart, Node, Port};
use sqlite_items::{Items, at};
use std::alloc::Global;

/// The width of the argument of this place, if there is one.
fn argument_width(ports: &[Port], place: u32) -> Option<u32>
    ensures { result ≡ option_map (λ p. p.width) (slice_get ports.now place) }
{
    match at(ports, place as usize) {
        Some(port) => Some(port.width),
        None => None,
    }
}

/// The width of a node after nodes of these widths.
fn node_width(
    ports: &[Port],
    parts: &[NamedPart],
    calls: &[Call],
    widths: &[u32],
    node: Node,
) -> Option<u32>
    ensures { result ≡
        spec.node_width ports.now (map (λ p. p.kind) parts.now) calls.now widths.now node }
{
    match node {
        Node::Constant(word) => word_width(word),
        Node::Argument(place) => argument_width(ports, place),
        Node::Result(place) => result_width(parts, widths, calls, place),
        Node::Not(a) => width_at(widths, a),
        Node::Two(operator, a, b) => {
            two_width(operator, width_at(widths, a), width_at(widths, b))
        }
        Node::Pick(test, a, b) => pick_width(
            width_at(widths, test),
            width_at(widths, a),
            width_at(widths, b),
        ),
        Node::Slice(a, high, low) => slice_width(width_at(widths, a), high, low),
        Node::Join(a, b) => join_width(width_at(widths, a), width_at(widths, b)),
        Node::Extend(a, width) => extend_width(width_at(widths, a), width),
        Node::SignExtend(a, width) => extend_width(width_at(widths, a), width),
    }
}

/// The widths of all nodes, where each has one.
#[tactic(auto, unfolding(bsv_design::specs::design::Widths::widths_from))]
pub fn widths(
    alloc: Global,
    ports: &[Port],
    parts: &[NamedPart],
    calls: &[Call],
    nodes: &[Node],
) -> Result<Option<Items<u32>>, OutOfMemory>
    ensures { IfOk result (λ found. found ≡
        spec.widths_from ports.now (map (λ p. p.kind) parts.now) calls.now [] nodes.now) }
{
    let mut found = Items::new(alloc);
    let mut rest = nodes;
    while let Some((node, after)) = rest.split_first() {
        let Some(width) = node_width(ports, parts, calls, found.as_slice(), *node) else {
            return Ok(None);
        };
        found.push(width)?;
        rest = after;
    }
    Ok(Some(found))
}
