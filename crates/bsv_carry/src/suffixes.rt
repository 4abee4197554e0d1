ghost use Rattle.std.specs.Prelude.{◌≡◌, IfOk};
ghost use Rattle.bsv_fail.specs.Given.{Gives};
ghost use Rattle.bsv_types.specs.Kinds.{kind};
ghost use Rattle.bsv_tree.specs.carrying.Operated as operated;
ghost use Rattle.bsv_tree.specs.meaning.Operators as the_operators;
ghost use Rattle.bsv_carry.specs.AtHand as spec;

use crate::carrier::Carrier;
use crate::operators::{constant_of, together};
use bsv_tree::{Value, Valued, Work, truth};
use bsv_types::{Field, Op, Ty, counted_widths};
use sqlite_items::Items;
use std::alloc::{AllocError, Global};

/// The bits of a value that a suffix names, and their fields where they are a struct.
#[derive(Clone, Copy)]
pub(crate) struct BitRange<'a> {
    pub high: u32,
    pub low: u32,
    pub inner: &'a [Field],
}

fn sets(number: usize, op: Op) -> bool
    ensures { result ≡ the_operators.sets number op }
{
    match op {
        Op::Set(set) => set as usize == number,
        _ => false,
    }
}

/// The value that a field is set to.
#[tactic(auto, unfolding(bsv_tree::specs::carrying::Operated::set_to))]
fn set_to(number: usize, ops: &[Op], values: &[Value]) -> Value
    ensures { result ≡ operated.set_to number ops.now values.now }
{
    let mut left = ops;
    let mut rest = values;
    while let (Some((op, more)), Some((value, after))) = (left.split_first(), rest.split_first()) {
        if sets(number, *op) {
            return *value;
        }
        left = more;
        rest = after;
    }
    truth(false)
}

/// The values that fields are set to.
#[tactic(auto, unfolding(bsv_tree::specs::carrying::Operated::set_from))]
fn set_values(
    alloc: Global,
    fields: &[Field],
    ops: &[Op],
    values: &[Value],
) -> Result<Items<Value>, AllocError>
    ensures { IfOk result (λ found. found
        ≡ operated.set_from 0 fields.now ops.now values.now) }
{
    let mut found = Items::new(alloc);
    let mut rest = fields;
    while let Some((_field, after)) = rest.split_first() {
        let number = found.len();
        found.push(set_to(number, ops, values))?;
        rest = after;
    }
    Ok(found)
}

fn all_together(values: &[Value], work: Work) -> Valued
    ensures { Gives result (operated.all_together values.now work) }
{
    match values.split_first() {
        None => Ok((truth(false), work)),
        Some((first, others)) => together(*first, others, work),
    }
}

/// Whether the operators construct a struct.
fn builds(ops: &[Op]) -> bool
    ensures { result ≡ the_operators.builds ops.now }
{
    match ops.split_first() {
        Some((op, _)) => matches!(op, Op::Set(_)),
        None => false,
    }
}

fn is_suffix(op: Op) -> bool
    ensures { result ≡ the_operators.is_suffix op }
{
    matches!(op, Op::Index | Op::Slice(_, _) | Op::Field(_))
}

/// Whether the operators are suffixes.
pub(crate) fn are_suffixes(ops: &[Op]) -> bool
    ensures { result ≡ operated.are_suffixes ops.now }
{
    match ops.split_first() {
        None => false,
        Some((op, _)) => is_suffix(*op),
    }
}

/// Whether each operator is applied as soon as its right operand or its index was carried out.
pub(crate) fn from_left(ops: &[Op]) -> bool
    ensures { result ≡ operated.from_left ops.now }
{
    match ops.split_first() {
        None => false,
        Some((op, more)) => match op {
            Op::Set(_) => false,
            op => !more.is_empty() || is_suffix(*op),
        },
    }
}

impl<'a> Carrier<'a> {
    /// The bits of a field. The last one is in the lowest bits.
    pub(crate) fn field_part(self, fields: &'a [Field], number: u32) -> BitRange<'a>
        ensures { spec.part result ≡ spec.field_part self.entry fields.now number }
    {
        let at = number as usize;
        match fields.get(at) {
            None => BitRange {
                high: 0,
                low: 0,
                inner: &[],
            },
            Some(field) => {
                let below = &fields[at + 1..];
                let low = match counted_widths(&self.typed.enums, &self.typed.structs, below) {
                    Some(width) => width,
                    None => 0,
                };
                let above = low.saturating_add(self.width(&field.ty));
                BitRange {
                    high: above.saturating_sub(1),
                    low,
                    inner: self.fields(&field.ty),
                }
            }
        }
    }

    /// What one operator that is no suffix gives.
    fn single(
        self,
        ty: &Ty,
        from: &Ty,
        op: Op,
        first: Value,
        others: &[Value],
        work: Work,
    ) -> Valued
        ensures { Gives result
            (spec.single self.entry (kind ty.now) (kind from.now) op first others.now work) }
    {
        match op {
            Op::Concat => together(first, others, work),
            op => match others.split_first() {
                None => self.one_operand(op, ty, from, first, work),
                Some((other, _)) => self.two_operands(op, from, first, *other, work),
            },
        }
    }

    /// What operators give that construct no struct.
    fn not_built(
        self,
        ty: &Ty,
        from: &Ty,
        ops: &[Op],
        first: Value,
        others: &[Value],
        work: Work,
    ) -> Valued
        ensures { Gives result
            (spec.not_built self.entry (kind ty.now) (kind from.now) ops.now first others.now
            work) }
    {
        match ops.split_first() {
            None => Ok((first, work)),
            Some((op, _)) => self.single(ty, from, *op, first, others, work),
        }
    }

    /// What operators give from the values of all operands: the type of the result, and that of the first
    /// operand.
    #[tactic(auto, unfolding(bsv_tree::specs::carrying::Operated::applied))]
    pub(crate) fn applied(
        self,
        ty: &Ty,
        from: &Ty,
        ops: &[Op],
        values: &[Value],
        work: Work,
    ) -> Valued
        ensures { Gives result
            (spec.applied self.entry (kind ty.now) (kind from.now) ops.now values.now work) }
    {
        match values.split_first() {
            None => Ok((constant_of(self.width(ty), 0), work)),
            Some((first, others)) => {
                if builds(ops) {
                    let fields = set_values(self.alloc, self.fields(ty), ops, values)?;
                    all_together(fields.as_slice(), work)
                } else {
                    self.not_built(ty, from, ops, *first, others, work)
                }
            }
        }
    }
}
