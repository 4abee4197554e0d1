ghost use Rattle.std.specs.Prelude.{◌≡◌, IfOk};
ghost use Rattle.bsv_fail.specs.Given.{Gives, GivesBy};
ghost use Rattle.bsv_types.specs.Kinds.{kind};
ghost use Rattle.bsv_carry.specs.AtHand as spec;

use crate::carrier::Carrier;
use crate::suffixes::{BitRange, are_suffixes, from_left};
use bsv_fail::Fail;
use bsv_tree::{Got, Local, Value, Valued, Work, counted, slice};
use bsv_types::{Expr, Field, Op, Ty};

impl<'a> Carrier<'a> {
    /// Operators and their operands.
    #[cycle(carry)]
    #[tactic(auto, unfolding(bsv_tree::specs::carrying::Carrying::apply))]
    pub(crate) fn apply(
        self,
        ty: &Ty,
        ops: &[Op],
        operands: &[Expr],
        locals: &[Local],
        work: Work,
    ) -> Valued
        ensures { Gives result
            (spec.apply self.entry (kind ty.now) ops.now operands.now locals.now work) }
    {
        let work = counted(work, ops.len())?;
        let from = self.first_type(ty, operands);
        if from_left(ops) {
            return self.in_turn(from, ops, operands, locals, work);
        }
        let (values, work) = self.all(operands, locals, work)?;
        self.applied(ty, from, ops, values.as_slice(), work)
    }

    /// Operators that are applied from left to right, where the first operand has the type.
    #[cycle(carry)]
    #[tactic(auto, unfolding(bsv_tree::specs::carrying::Carrying::in_turn))]
    fn in_turn(
        self,
        from: &Ty,
        ops: &[Op],
        operands: &[Expr],
        locals: &[Local],
        work: Work,
    ) -> Valued
        ensures { Gives result
            (spec.in_turn self.entry (kind from.now) ops.now operands.now locals.now work) }
    {
        match operands.split_first() {
            None => Err(Fail::Fault(self.static_fault())),
            Some((first, others)) => {
                let (value, work) = self.expr(first, locals, work)?;
                if are_suffixes(ops) {
                    self.suffixed(from, ops, value, others, locals, work)
                } else {
                    self.chained(ops, from, value, others, locals, work)
                }
            }
        }
    }

    /// Operators of one level, each one applied as soon as its right operand was carried out.
    #[cycle(carry)]
    #[tactic(auto, unfolding(bsv_tree::specs::carrying::Carrying::chained))]
    fn chained(
        self,
        ops: &[Op],
        from: &Ty,
        first: Value,
        operands: &[Expr],
        locals: &[Local],
        work: Work,
    ) -> Valued
        ensures { Gives result
            (spec.chained self.entry ops.now (kind from.now) first operands.now locals.now work) }
    {
        let mut value = first;
        let mut work = work;
        let mut left = ops;
        let mut rest = operands;
        while let (Some((op, more)), Some((operand, after))) = (
            left.split_first(),
            rest.split_first(),
        ) {
            let (other, asked) = self.expr(operand, locals, work)?;
            let (next, behind) = self.two_operands(*op, from, value, other, asked)?;
            value = next;
            work = behind;
            left = more;
            rest = after;
        }
        if left.is_empty() && rest.is_empty() {
            Ok((value, work))
        } else {
            Err(Fail::Fault(self.static_fault()))
        }
    }

    /// The bits that a suffix names of a value of so many bits with these fields, and the operands that are
    /// left, of which an index is one.
    #[cycle(carry)]
    #[tactic(auto, unfolding(bsv_tree::specs::carrying::Carrying::part_of))]
    fn part_of<'b>(
        self,
        bits: u32,
        fields: &'a [Field],
        op: Op,
        operands: &'b [Expr],
        locals: &[Local],
        work: Work,
    ) -> Got<(BitRange<'a>, &'b [Expr], Work)>
        ensures part { GivesBy (λ r. (spec.part r.0, spec.expressions self.entry r.1.now, r.2))
            result (spec.part_of self.entry bits fields.now op operands.now locals.now work) }
        ensures left { IfOk result (λ r. r.1.now ≡ spec.operands_after op operands.now) }
    {
        match op {
            Op::Index => match operands.split_first() {
                None => Err(Fail::Fault(self.static_fault())),
                Some((index, after)) => {
                    let (value, work) = self.expr(index, locals, work)?;
                    let at = self.number_below(bits, value)?;
                    let part = BitRange {
                        high: at,
                        low: at,
                        inner: &[],
                    };
                    Ok((part, after, work))
                }
            },
            Op::Slice(high, low) => {
                let part = BitRange {
                    high,
                    low,
                    inner: &[],
                };
                Ok((part, operands, work))
            }
            Op::Field(number) => Ok((self.field_part(fields, number), operands, work)),
            _ => Err(Fail::Fault(self.static_fault())),
        }
    }

    /// Suffixes, each one applied as soon as its index was carried out.
    #[cycle(carry)]
    #[tactic(auto, using(crate::proofs::Depths::suffixes), unfolding(bsv_tree::specs::carrying::Carrying::suffixed))]
    fn suffixed(
        self,
        from: &Ty,
        ops: &[Op],
        whole: Value,
        operands: &[Expr],
        locals: &[Local],
        work: Work,
    ) -> Valued
        ensures { Gives result (spec.suffixed self.entry (spec.width self.entry (kind from.now))
            (spec.fields self.entry (kind from.now)) ops.now whole operands.now locals.now
            work) }
    {
        let mut bits = self.width(from);
        let mut fields = self.fields(from);
        let mut value = whole;
        let mut work = work;
        let mut left = ops;
        let mut rest = operands;
        while let Some((op, more)) = left.split_first() {
            let (part, after, asked) = self.part_of(bits, fields, *op, rest, locals, work)?;
            let (next, behind) = slice(asked, &value, part.high, part.low)?;
            bits = part.high.saturating_sub(part.low).saturating_add(1);
            fields = part.inner;
            value = next;
            work = behind;
            left = more;
            rest = after;
        }
        if rest.is_empty() {
            Ok((value, work))
        } else {
            Err(Fail::Fault(self.static_fault()))
        }
    }
}
