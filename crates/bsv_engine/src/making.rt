ghost use Rattle.std.specs.Prelude.{◌≡◌, [], length, slice_index, IfOk};
ghost use Rattle.bsv_design.specs.design.Widths.{gives_bit};
ghost use Rattle.bsv_net.specs.Nets.{register_widths};
ghost use Rattle.bsv_engine.specs.Runs.{AllStand};
ghost use Rattle.bsv_engine.specs.Widths as spec;

use crate::run::Run;
use bsv_bits::{Operator, OutOfMemory};
use bsv_net::NetNode;
use bsv_prim::RegisterInfo;
use sqlite_items::Items;
use std::alloc::Global;

/// The width at this place, or 0 where there is none.
fn width_at(widths: &[u32], place: u32) -> u32
    ensures { result ≡ slice_index widths.now place }
{
    match widths.get(place as usize) {
        Some(width) => *width,
        None => 0,
    }
}

/// The width of the register of this place, or 0 where there is none.
fn register_width(registers: &[RegisterInfo], place: u32) -> u32
    ensures { result ≡ slice_index (register_widths registers.now) place }
{
    match registers.get(place as usize) {
        Some(register) => register.width,
        None => 0,
    }
}

/// Whether the operator compares, and so gives one bit.
fn gives_bit(operator: Operator) -> bool
    ensures { result ≡ gives_bit operator }
{
    matches!(
        operator,
        Operator::Same | Operator::Less | Operator::LessSigned
    )
}

/// The width of a node after nodes of these widths, where it is in order.
fn width_of(inputs: &[u32], registers: &[RegisterInfo], widths: &[u32], node: NetNode) -> u32
    ensures { result ≡ spec.width_of inputs.now registers.now widths.now node }
{
    match node {
        NetNode::Input(number) => width_at(inputs, number),
        NetNode::Register(number) => register_width(registers, number),
        NetNode::Constant(word) => word.width(),
        NetNode::Not(a) => width_at(widths, a),
        NetNode::Two(operator, a, _) => {
            if gives_bit(operator) {
                1
            } else {
                width_at(widths, a)
            }
        }
        NetNode::Pick(_, a, _) => width_at(widths, a),
        NetNode::Slice(a, high, low) => {
            let width = high.saturating_sub(low).saturating_add(1);
            width.min(width_at(widths, a))
        }
        NetNode::Join(a, b) => width_at(widths, a).saturating_add(width_at(widths, b)),
        NetNode::Extend(_, width) => width,
        NetNode::SignExtend(_, width) => width,
    }
}

/// The widths of nodes that are in order.
pub fn widths_of(
    alloc: Global,
    inputs: &[u32],
    registers: &[RegisterInfo],
    nodes: &[NetNode],
) -> Result<Items<u32>, OutOfMemory>
    ensures { IfOk result (λ widths. widths
        ≡ spec.widths_of inputs.now registers.now [] nodes.now) }
{
    let mut widths = Items::new(alloc);
    let mut rest = nodes;
    while let Some((node, after)) = rest.split_first() {
        let width = width_of(inputs, registers, widths.as_slice(), *node);
        widths.push(width)?;
        rest = after;
    }
    Ok(widths)
}

/// The runs of nodes of these widths.
pub fn make_runs(
    alloc: Global,
    nodes: &[NetNode],
    widths: &[u32],
) -> Result<Items<Run>, OutOfMemory>
    requires { length widths.now ≡ length nodes.now }
    ensures { IfOk result (λ runs. AllStand widths.now nodes.now 0 (length nodes.now) runs) }
{
    let mut runs = Items::new(alloc);
    let mut place = 0;
    while place < nodes.len() {
        let (_, rest) = nodes.split_at(place);
        let (before, own) = widths.split_at(place);
        let run = Run::first(alloc, rest, own, before)?;
        place += run.len();
        runs.push(run)?;
    }
    Ok(runs)
}
