ghost use Rattle.std.specs.Prelude.{◌≡◌, slice_get};
ghost use Rattle.bsv_share.specs.Simplifying as spec;

use bsv_bits::{Operator, Word};
use bsv_design::{between, extended, joined, picked, sign_extended, sliced};
use bsv_net::NetNode;
use sqlite_items::at;

/// The word of a node that is a constant.
fn constant_at(nodes: &[NetNode], place: u32) -> Option<Word>
    ensures { result ≡ spec.constant_in (slice_get nodes.now place) }
{
    match at(nodes, place as usize) {
        Some(NetNode::Constant(word)) => Some(*word),
        _ => None,
    }
}

/// What an operator gives for two constants.
fn constant_two(nodes: &[NetNode], operator: Operator, a: u32, b: u32) -> Option<Word>
    ensures { result ≡ spec.constant_word nodes.now (NetNode.Two operator a b) }
{
    let one = constant_at(nodes, a)?;
    let other = constant_at(nodes, b)?;
    Some(between(operator, one, other))
}

/// The constant that a pick of constants gives.
fn constant_pick(nodes: &[NetNode], test: u32, a: u32, b: u32) -> Option<Word>
    ensures { result ≡ spec.constant_word nodes.now (NetNode.Pick test a b) }
{
    let test = constant_at(nodes, test)?;
    let one = constant_at(nodes, a)?;
    let other = constant_at(nodes, b)?;
    Some(picked(test, one, other))
}

/// A constant above another one.
fn constant_join(nodes: &[NetNode], a: u32, b: u32) -> Option<Word>
    ensures { result ≡ spec.constant_word nodes.now (NetNode.Join a b) }
{
    let high = constant_at(nodes, a)?;
    let low = constant_at(nodes, b)?;
    Some(joined(high, low))
}

/// The word of a node that reads constants alone.
pub fn constant_word(nodes: &[NetNode], node: NetNode) -> Option<Word>
    ensures { result ≡ spec.constant_word nodes.now node }
{
    match node {
        NetNode::Input(_) | NetNode::Register(_) => None,
        NetNode::Constant(word) => Some(word),
        NetNode::Not(a) => Some(constant_at(nodes, a)?.not()),
        NetNode::Two(operator, a, b) => constant_two(nodes, operator, a, b),
        NetNode::Pick(test, a, b) => constant_pick(nodes, test, a, b),
        NetNode::Slice(a, high, low) => Some(sliced(constant_at(nodes, a)?, high, low)),
        NetNode::Join(a, b) => constant_join(nodes, a, b),
        NetNode::Extend(a, width) => Some(extended(constant_at(nodes, a)?, width)),
        NetNode::SignExtend(a, width) => Some(sign_extended(constant_at(nodes, a)?, width)),
    }
}

/// Whether the node is a constant whose bits are all 0.
fn is_zeros(nodes: &[NetNode], place: u32) -> bool
    ensures { result ≡ spec.is_zeros (slice_get nodes.now place) }
{
    match constant_at(nodes, place) {
        Some(word) => word.value() == 0,
        None => false,
    }
}

/// Whether the node is a constant whose bits are all 1.
fn is_ones(nodes: &[NetNode], place: u32) -> bool
    ensures { result ≡ spec.is_ones (slice_get nodes.now place) }
{
    match constant_at(nodes, place) {
        Some(word) => word.not().value() == 0,
        None => false,
    }
}

/// Whether the node is the constant 1 of one bit.
fn is_one(nodes: &[NetNode], place: u32) -> bool
    ensures { result ≡ spec.is_true (slice_get nodes.now place) }
{
    match constant_at(nodes, place) {
        Some(word) => word.width() == 1 && word.value() == 1,
        None => false,
    }
}

/// The node that is what `and` gives of two.
fn and_place(nodes: &[NetNode], a: u32, b: u32) -> Option<u32>
    ensures { result ≡ spec.and_place nodes.now a b }
{
    if is_zeros(nodes, a) || is_ones(nodes, b) {
        return Some(a);
    }
    if is_ones(nodes, a) || is_zeros(nodes, b) {
        return Some(b);
    }
    None
}

/// The node that is what `or` gives of two.
fn or_place(nodes: &[NetNode], a: u32, b: u32) -> Option<u32>
    ensures { result ≡ spec.or_place nodes.now a b }
{
    if is_ones(nodes, a) || is_zeros(nodes, b) {
        return Some(a);
    }
    if is_zeros(nodes, a) || is_ones(nodes, b) {
        return Some(b);
    }
    None
}

/// The node that is picked.
fn picked_place(nodes: &[NetNode], test: u32, a: u32, b: u32) -> Option<u32>
    ensures { result ≡ spec.picked_place nodes.now test a b }
{
    if a == b {
        return Some(a);
    }
    if is_one(nodes, a) && is_zeros(nodes, b) {
        return Some(test);
    }
    match constant_at(nodes, test) {
        Some(word) => Some(if word.value() == 1 { a } else { b }),
        None => None,
    }
}

/// The node that is turned twice.
fn turned_place(nodes: &[NetNode], a: u32) -> Option<u32>
    ensures { result ≡ spec.turned_place (slice_get nodes.now a) }
{
    match at(nodes, a as usize) {
        Some(NetNode::Not(inner)) => Some(*inner),
        _ => None,
    }
}

/// The operand where the bits are all of it.
fn whole_place(a: u32, high: u32, low: u32, width: u32) -> Option<u32>
    ensures { result ≡ spec.whole_place a high low width }
{
    if low == 0 && high < width && width - high == 1 {
        return Some(a);
    }
    None
}

/// The earlier node that has the word of a node, whose first operand has this width.
pub fn same_word(nodes: &[NetNode], node: NetNode, width: u32) -> Option<u32>
    ensures { result ≡ spec.same_word nodes.now width node }
{
    match node {
        NetNode::Not(a) => turned_place(nodes, a),
        NetNode::Two(Operator::And, a, b) => and_place(nodes, a, b),
        NetNode::Two(Operator::Or, a, b) => or_place(nodes, a, b),
        NetNode::Pick(test, a, b) => picked_place(nodes, test, a, b),
        NetNode::Slice(a, high, low) => whole_place(a, high, low, width),
        NetNode::Extend(a, wide) | NetNode::SignExtend(a, wide) => {
            if wide == width { Some(a) } else { None }
        }
        _ => None,
    }
}
