ghost use Rattle.std.specs.Prelude.{◌≡◌, drop, map};
ghost use Rattle.bsv_fail.specs.Given.{Gives, GivesBy};
ghost use Rattle.bsv_types.specs.Kinds.{kind};
ghost use Rattle.bsv_tree.specs.carrying.Applied as applied;
ghost use Rattle.bsv_tree.specs.meaning.Operators as operators;
ghost use Rattle.bsv_carry.specs.AtHand as spec;

use crate::carrier::Carrier;
use crate::integers::{fitted, number_between};
use bsv_bits::Operator;
use bsv_design::word;
use bsv_fail::Fail;
use bsv_tree::{
    Constant, Got, Value, Valued, Work, between, extend, inverted, join, pick, sign_extend, slice,
};
use bsv_types::{Field, Op, Ty, counted_widths};
use std::alloc::Global;

/// A word that is known.
pub(crate) fn constant_of(bits: u32, number: u128) -> Value
    ensures { result ≡ applied.constant_of bits number }
{
    Value::Static(Constant::Bits(word(bits, number)))
}

/// A value inverted.
fn not_of(found: (Value, Work)) -> Valued
    ensures { Gives result (applied.inverted_value found) }
{
    let (value, work) = found;
    inverted(work, value)
}

fn less(ty: &Ty) -> Operator
    ensures { result ≡ operators.less (kind ty.now) }
{
    match ty {
        Ty::Int(_) => Operator::LessSigned,
        _ => Operator::Less,
    }
}

fn right(ty: &Ty) -> Operator
    ensures { result ≡ operators.right (kind ty.now) }
{
    match ty {
        Ty::Int(_) => Operator::Sar,
        _ => Operator::Shr,
    }
}

/// Parts side by side, the first one most significant.
#[tactic(auto, unfolding(bsv_tree::specs::carrying::Applied::together))]
pub(crate) fn together(first: Value, others: &[Value], work: Work) -> Valued
    ensures { Gives result (applied.together first others.now work) }
{
    let mut value = first;
    let mut work = work;
    let mut rest = others;
    while let Some((other, after)) = rest.split_first() {
        let (next, behind) = join(work, value, *other)?;
        value = next;
        work = behind;
        rest = after;
    }
    Ok((value, work))
}

impl Carrier<'_> {
    /// A shift by a word, or by an Integer of at least 0.
    fn shifted(self, operator: Operator, one: Value, amount: Value, work: Work) -> Valued
        ensures { Gives result (spec.shifted self.entry operator one amount work) }
    {
        match amount {
            Value::Static(Constant::Number(number)) => match u64::try_from(number) {
                Ok(number) => between(work, operator, one, constant_of(64, u128::from(number))),
                Err(_) => Err(Fail::Fault(self.static_fault())),
            },
            amount => between(work, operator, one, amount),
        }
    }

    /// `fromMaybe(d, e)`, where d has the type.
    fn from_maybe(self, ty: &Ty, otherwise: Value, maybe: Value, work: Work) -> Valued
        ensures { Gives result (spec.from_maybe self.entry (kind ty.now) otherwise maybe work) }
    {
        let width = self.width(ty);
        let (tag, work) = slice(work, &maybe, width, width)?;
        let (payload, work) = slice(work, &maybe, width.saturating_sub(1), 0)?;
        pick(work, tag, payload, otherwise)
    }

    /// What an operator gives from two operands with bits, of which the first has the type.
    fn bits_between(self, op: Op, ty: &Ty, one: Value, other: Value, work: Work) -> Valued
        ensures { Gives result (spec.bits_between self.entry op (kind ty.now) one other work) }
    {
        match op {
            Op::Mul => between(work, Operator::Mul, one, other),
            Op::Add => between(work, Operator::Add, one, other),
            Op::Sub => between(work, Operator::Sub, one, other),
            Op::Shl => self.shifted(Operator::Shl, one, other, work),
            Op::Shr => self.shifted(right(ty), one, other, work),
            Op::Less => between(work, less(ty), one, other),
            Op::Greater => between(work, less(ty), other, one),
            Op::LessOrSame => not_of(between(work, less(ty), other, one)?),
            Op::GreaterOrSame => not_of(between(work, less(ty), one, other)?),
            Op::Same => between(work, Operator::Same, one, other),
            Op::Different => not_of(between(work, Operator::Same, one, other)?),
            Op::And | Op::Both => between(work, Operator::And, one, other),
            Op::Xor => between(work, Operator::Xor, one, other),
            Op::Or | Op::Either => between(work, Operator::Or, one, other),
            _ => self.from_maybe(ty, one, other, work),
        }
    }

    /// What an operator gives from two operands, of which the first has the type.
    pub(crate) fn two_operands(
        self,
        op: Op,
        ty: &Ty,
        one: Value,
        other: Value,
        work: Work,
    ) -> Valued
        ensures { Gives result (spec.two_operands self.entry op (kind ty.now) one other work) }
    {
        match (one, other) {
            (Value::Static(Constant::Number(one)), Value::Static(Constant::Number(other))) => {
                match number_between(op, one, other) {
                    Some(constant) => Ok((Value::Static(constant), work)),
                    None => Err(Fail::Fault(self.static_fault())),
                }
            }
            (one, other) => self.bits_between(op, ty, one, other, work),
        }
    }

    fn negated(self, ty: &Ty, value: Value, work: Work) -> Valued
        ensures { Gives result (spec.negated self.entry (kind ty.now) value work) }
    {
        match value {
            Value::Static(Constant::Number(number)) => {
                match number_between(Op::Sub, 0, number) {
                    Some(constant) => Ok((Value::Static(constant), work)),
                    None => Err(Fail::Fault(self.static_fault())),
                }
            }
            value => between(work, Operator::Sub, constant_of(self.width(ty), 0), value),
        }
    }

    fn from_integer(self, ty: &Ty, value: Value, work: Work) -> Valued
        ensures { Gives result (spec.from_integer self.entry (kind ty.now) value work) }
    {
        match value {
            Value::Static(Constant::Number(number)) => {
                match fitted(ty, self.width(ty), number) {
                    Some(constant) => Ok((Value::Static(constant), work)),
                    None => Err(Fail::Fault(self.static_fault())),
                }
            }
            _ => Err(Fail::Fault(self.static_fault())),
        }
    }

    /// What an operator gives from one operand: the type of the result, and that of the operand.
    pub(crate) fn one_operand(self, op: Op, ty: &Ty, from: &Ty, value: Value, work: Work) -> Valued
        ensures { Gives result
            (spec.one_operand self.entry op (kind ty.now) (kind from.now) value work) }
    {
        match op {
            Op::Negate => self.negated(ty, value, work),
            Op::Complement | Op::Not => inverted(work, value),
            Op::Truncate | Op::ValidValue => {
                slice(work, &value, self.width(ty).saturating_sub(1), 0)
            }
            Op::ZeroExtend => extend(work, value, self.width(ty)),
            Op::SignExtend => sign_extend(work, value, self.width(ty)),
            Op::FromInteger => self.from_integer(ty, value, work),
            Op::Valid => join(work, constant_of(1, 1), value),
            Op::IsValid => {
                let tag = self.width(from).saturating_sub(1);
                slice(work, &value, tag, tag)
            }
            _ => Ok((value, work)),
        }
    }

    /// A number below the limit.
    pub(crate) fn number_below(self, limit: u32, value: Value) -> Got<u32>
        ensures { Gives result (spec.number_below self.entry limit value) }
    {
        match value {
            Value::Static(Constant::Number(number)) => match u32::try_from(number) {
                Ok(number) if number < limit => Ok(number),
                _ => Err(Fail::Fault(self.static_fault())),
            },
            _ => Err(Fail::Fault(self.static_fault())),
        }
    }
}
