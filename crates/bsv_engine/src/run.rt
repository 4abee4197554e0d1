ghost use Rattle.std.specs.Prelude.{◌≡◌, ◌≤◌, ◌++◌, length, drop, false, IfOk};
ghost use Rattle.bsv_engine.specs.Runs as spec;

use crate::bitwise::{And, Not, Or, Xor};
use crate::orders::{Less, LessSigned, Same};
use crate::parts::{Extended, Join, Known, Pick, SignExtended, Slice};
use crate::shifts::{Sar, Shl, Shr};
use crate::step;
use crate::sums::{Add, Mul, Sub};
use bsv_bits::{Operator, Word};
use bsv_net::NetNode;
use sqlite_items::Items;
use std::alloc::{AllocError, Global};

/// Neighbouring nodes of one form, which read words before the first of them, or one node.
#[derive(Drop)]
pub enum Run {
    /// One node, whose word or one of whose operands may be wide.
    One,
    /// The inputs of these places.
    Input(Items<u32>),
    /// The registers of these places.
    Register(Items<u32>),
    Not(Items<Not>),
    And(Items<And>),
    Or(Items<Or>),
    Xor(Items<Xor>),
    Add(Items<Add>),
    Sub(Items<Sub>),
    Mul(Items<Mul>),
    Same(Items<Same>),
    Less(Items<Less>),
    LessSigned(Items<LessSigned>),
    Shl(Items<Shl>),
    Shr(Items<Shr>),
    Sar(Items<Sar>),
    Known(Items<Known>),
    Pick(Items<Pick>),
    Slice(Items<Slice>),
    Join(Items<Join>),
    Extended(Items<Extended>),
    SignExtended(Items<SignExtended>),
}

impl Run {
    /// How many words it writes.
    pub fn len(&self) -> usize
        ensures { result ≡ spec.size self.now }
    {
        match self {
            Run::One => 1,
            Run::Input(places) => places.len(),
            Run::Register(places) => places.len(),
            Run::Not(steps) => steps.len(),
            Run::And(steps) => steps.len(),
            Run::Or(steps) => steps.len(),
            Run::Xor(steps) => steps.len(),
            Run::Add(steps) => steps.len(),
            Run::Sub(steps) => steps.len(),
            Run::Mul(steps) => steps.len(),
            Run::Same(steps) => steps.len(),
            Run::Less(steps) => steps.len(),
            Run::LessSigned(steps) => steps.len(),
            Run::Shl(steps) => steps.len(),
            Run::Shr(steps) => steps.len(),
            Run::Sar(steps) => steps.len(),
            Run::Known(steps) => steps.len(),
            Run::Pick(steps) => steps.len(),
            Run::Slice(steps) => steps.len(),
            Run::Join(steps) => steps.len(),
            Run::Extended(steps) => steps.len(),
            Run::SignExtended(steps) => steps.len(),
        }
    }

    /// Whether it is one node.
    pub fn is_single(&self) -> bool
        ensures { result ≡ spec.is_single self.now }
    {
        matches!(self, Run::One)
    }

    /// Writes its words after those that are seen, where it is not one node.
    pub fn run(&self, inputs: &[Word], registers: &[Word], seen: &[u64], rest: &mut [u64])
        requires within { spec.Within (length seen.now) self.now }
        requires room { spec.size self.now ≤ length rest.old }
        ensures { spec.is_single self.now ≡ false → rest.new
            ≡ spec.numbers inputs.now registers.now seen.now self.now
            ++ drop (spec.size self.now) rest.old }
    {
        match self {
            Run::One => {}
            Run::Input(places) => step::load(places.as_slice(), inputs, rest),
            Run::Register(places) => step::load(places.as_slice(), registers, rest),
            Run::Not(steps) => step::run(steps.as_slice(), seen, rest),
            Run::And(steps) => step::run(steps.as_slice(), seen, rest),
            Run::Or(steps) => step::run(steps.as_slice(), seen, rest),
            Run::Xor(steps) => step::run(steps.as_slice(), seen, rest),
            Run::Add(steps) => step::run(steps.as_slice(), seen, rest),
            Run::Sub(steps) => step::run(steps.as_slice(), seen, rest),
            Run::Mul(steps) => step::run(steps.as_slice(), seen, rest),
            Run::Same(steps) => step::run(steps.as_slice(), seen, rest),
            Run::Less(steps) => step::run(steps.as_slice(), seen, rest),
            Run::LessSigned(steps) => step::run(steps.as_slice(), seen, rest),
            Run::Shl(steps) => step::run(steps.as_slice(), seen, rest),
            Run::Shr(steps) => step::run(steps.as_slice(), seen, rest),
            Run::Sar(steps) => step::run(steps.as_slice(), seen, rest),
            Run::Known(steps) => step::run(steps.as_slice(), seen, rest),
            Run::Pick(steps) => step::run(steps.as_slice(), seen, rest),
            Run::Slice(steps) => step::run(steps.as_slice(), seen, rest),
            Run::Join(steps) => step::run(steps.as_slice(), seen, rest),
            Run::Extended(steps) => step::run(steps.as_slice(), seen, rest),
            Run::SignExtended(steps) => step::run(steps.as_slice(), seen, rest),
        }
    }
}

/// The run of the nodes in front that have the operator of the first one, which may be none.
fn operating(
    alloc: Global,
    operator: Operator,
    nodes: &[NetNode],
    own: &[u32],
    before: &[u32],
) -> Result<Run, AllocError>
    requires { length own.now ≡ length nodes.now }
    ensures { IfOk result (λ run. spec.Stands before.now own.now nodes.now run) }
{
    Ok(match operator {
        Operator::And => Run::And(step::taken(alloc, nodes, own, before)?),
        Operator::Or => Run::Or(step::taken(alloc, nodes, own, before)?),
        Operator::Xor => Run::Xor(step::taken(alloc, nodes, own, before)?),
        Operator::Add => Run::Add(step::taken(alloc, nodes, own, before)?),
        Operator::Sub => Run::Sub(step::taken(alloc, nodes, own, before)?),
        Operator::Mul => Run::Mul(step::taken(alloc, nodes, own, before)?),
        Operator::Same => Run::Same(step::taken(alloc, nodes, own, before)?),
        Operator::Less => Run::Less(step::taken(alloc, nodes, own, before)?),
        Operator::LessSigned => Run::LessSigned(step::taken(alloc, nodes, own, before)?),
        Operator::Shl => Run::Shl(step::taken(alloc, nodes, own, before)?),
        Operator::Shr => Run::Shr(step::taken(alloc, nodes, own, before)?),
        Operator::Sar => Run::Sar(step::taken(alloc, nodes, own, before)?),
    })
}

/// The run of the nodes in front that have the form of this one, which may be none.
fn formed(
    alloc: Global,
    first: NetNode,
    nodes: &[NetNode],
    own: &[u32],
    before: &[u32],
) -> Result<Run, AllocError>
    requires { length own.now ≡ length nodes.now }
    ensures { IfOk result (λ run. spec.Stands before.now own.now nodes.now run) }
{
    match first {
        NetNode::Input(_) => Ok(Run::Input(step::inputs(alloc, nodes, own)?)),
        NetNode::Register(_) => Ok(Run::Register(step::registers(alloc, nodes, own)?)),
        NetNode::Constant(_) => Ok(Run::Known(step::taken(alloc, nodes, own, before)?)),
        NetNode::Not(_) => Ok(Run::Not(step::taken(alloc, nodes, own, before)?)),
        NetNode::Two(operator, _, _) => operating(alloc, operator, nodes, own, before),
        NetNode::Pick(_, _, _) => Ok(Run::Pick(step::taken(alloc, nodes, own, before)?)),
        NetNode::Slice(_, _, _) => Ok(Run::Slice(step::taken(alloc, nodes, own, before)?)),
        NetNode::Join(_, _) => Ok(Run::Join(step::taken(alloc, nodes, own, before)?)),
        NetNode::Extend(_, _) => Ok(Run::Extended(step::taken(alloc, nodes, own, before)?)),
        NetNode::SignExtend(_, _) => {
            Ok(Run::SignExtended(step::taken(alloc, nodes, own, before)?))
        }
    }
}

impl Run {
    /// The run of the nodes in front, of which there are some, after nodes of the widths `before`.
    pub fn first(
        alloc: Global,
        nodes: &[NetNode],
        own: &[u32],
        before: &[u32],
    ) -> Result<Run, AllocError>
        requires some { 1 ≤ length nodes.now }
        requires widths { length own.now ≡ length nodes.now }
        ensures stands { IfOk result (λ run. spec.Stands before.now own.now nodes.now run) }
        ensures some { IfOk result (λ run. 1 ≤ spec.size run) }
    {
        let run = formed(alloc, nodes[0], nodes, own, before)?;
        Ok(if run.len() == 0 { Run::One } else { run })
    }
}
