ghost use Rattle.std.specs.Prelude.{◌≡◌, ◌∷◌, [], map, Some, option_map, unwrap_or, IfOk};
ghost use Rattle.std.specs.List.{list_all};
ghost use Rattle.bsv_types.specs.declared.operators.Op.TheVariants as op;
ghost use Rattle.bsv_types.specs.Kinds.{integer, kind, maybe};
ghost use Rattle.bsv_context.specs.Env.{applied};
ghost use Rattle.bsv_typing.specs.Forms as spec;
ghost use Rattle.bsv_typing.specs.Typing as table;
ghost use Rattle.bsv_typing.specs.Typing.{ordered};
ghost use Rattle.bsv_context.specs.Seen.{Gives, made, limits, label_named, expected};
ghost use Rattle.bsv_typing.specs.Seen.{front_of};

use crate::front::{Front, value_at};
use bsv_ast::{Level, Literal, Operator};
use bsv_bits::Name;
use bsv_context::{
    Context, Fail, TypedExpr, applied, applied_to_one, as_wanted, fits, fits_negated,
    is_below_power, literal, one,
};
use bsv_types::{Boxed, Expr as Typed, Items, Op, Ty};
use std::alloc::{AllocError, Global};

/// The expected type, or Integer.
fn wanted_or_integer(alloc: Global, want: Option<&Ty>) -> Result<Ty, AllocError>
    ensures { IfOk result (λ t. kind t ≡ unwrap_or (expected want.entry) integer) }
{
    match want {
        Some(ty) => ty.copy(alloc),
        None => Ok(Ty::Integer),
    }
}

/// A number without a size.
#[tactic(auto, unfolding(crate::specs::Forms::number_case))]
fn unsized_number(
    alloc: Global,
    context: &Context,
    number: u128,
    want: Option<&Ty>,
) -> Result<TypedExpr, Fail>
    ensures { Gives made result (spec.number_case (limits context.now) number
        (expected want.entry)) }
{
    let ty = wanted_or_integer(alloc, want)?;
    if fits(context, number, &ty) {
        Ok(literal(alloc, ty, number)?)
    } else {
        Err(Fail::Fault)
    }
}

/// A number with a size.
#[tactic(auto, unfolding(crate::specs::Forms::sized_case))]
fn sized_number(
    alloc: Global,
    size: u32,
    number: u128,
    want: Option<&Ty>,
) -> Result<TypedExpr, Fail>
    ensures { Gives made result (spec.sized_case size number (expected want.entry)) }
{
    match want {
        Some(Ty::UInt(width)) => {
            if size == *width {
                Ok(literal(alloc, Ty::UInt(*width), number)?)
            } else {
                Err(Fail::Fault)
            }
        }
        Some(Ty::Int(width)) => {
            if size == *width {
                Ok(literal(alloc, Ty::Int(*width), number)?)
            } else {
                Err(Fail::Fault)
            }
        }
        _ => as_wanted(want, literal(alloc, Ty::Bit(size), number)?),
    }
}

/// A number.
#[tactic(auto, unfolding(crate::specs::Typing::literal_case))]
pub(crate) fn number(
    alloc: Global,
    context: &Context,
    written: Literal,
    want: Option<&Ty>,
) -> Result<TypedExpr, Fail>
    ensures { Gives made result (table.literal_case (limits context.now) written
        (expected want.entry)) }
{
    match written.size {
        None => unsized_number(alloc, context, written.value, want),
        Some(size) => {
            if is_below_power(written.value, size) {
                sized_number(alloc, size, written.value, want)
            } else {
                Err(Fail::Fault)
            }
        }
    }
}

/// `-` in front of a number without a size.
#[tactic(auto, unfolding(crate::specs::Forms::negated_case))]
pub(crate) fn negated(
    alloc: Global,
    context: &Context,
    number: u128,
    want: Option<&Ty>,
) -> Result<TypedExpr, Fail>
    ensures { Gives made result (spec.negated_case (limits context.now) number
        (expected want.entry)) }
{
    let ty = wanted_or_integer(alloc, want)?;
    if !fits_negated(context, number, &ty) {
        return Err(Fail::Fault);
    }
    let own = ty.copy(alloc)?;
    let positive = literal(alloc, own, number)?;
    Ok(applied_to_one(alloc, ty, Op::Negate, positive.expr)?)
}

/// A label.
#[tactic(auto, unfolding(crate::specs::Typing::label_case))]
pub(crate) fn label(
    alloc: Global,
    context: &Context,
    name: &Name,
    want: Option<&Ty>,
) -> Result<TypedExpr, Fail>
    ensures { Gives made result (table.label_case (label_named context.now name.now) name.now
        (expected want.entry)) }
{
    if name.bytes() == b"True".as_slice() {
        return as_wanted(want, literal(alloc, Ty::Bool, 1)?);
    }
    if name.bytes() == b"False".as_slice() {
        return as_wanted(want, literal(alloc, Ty::Bool, 0)?);
    }
    let Some(found) = context.labels.find(name) else {
        return Err(Fail::Fault);
    };
    let ty = Ty::Enum(found.of_enum);
    as_wanted(want, literal(alloc, ty, u128::from(found.number))?)
}

/// `tagged Invalid`.
#[tactic(auto, unfolding(crate::specs::Forms::invalid_case))]
pub(crate) fn invalid(alloc: Global, want: Option<&Ty>) -> Result<TypedExpr, Fail>
    ensures { Gives made result (spec.invalid_case (expected want.entry)) }
{
    match want {
        Some(Ty::Maybe(held)) => {
            let ty = maybe_of(alloc, held.get())?;
            let ops = one(alloc, Op::Invalid)?;
            Ok(applied(alloc, ty, ops, Items::new(alloc))?)
        }
        _ => Err(Fail::Fault),
    }
}

/// The Maybe of a type.
fn maybe_of(alloc: Global, ty: &Ty) -> Result<Ty, AllocError>
    ensures { IfOk result (λ t. kind t ≡ maybe (kind ty.now)) }
{
    let payload = ty.copy(alloc)?;
    Ok(Ty::Maybe(Boxed::new(alloc, payload)?))
}

/// `tagged Valid e`, of a typed e of the type.
pub(crate) fn tagged(alloc: Global, ty: &Ty, payload: Typed) -> Result<TypedExpr, AllocError>
    ensures { IfOk result (λ m. made m ≡ applied (maybe (kind ty.now)) (op.Valid ∷ [])
        (payload ∷ [])) }
{
    let ty = maybe_of(alloc, ty)?;
    applied_to_one(alloc, ty, Op::Valid, payload)
}

/// The value of what a name or a suffix stands for.
pub(crate) fn front_value(
    alloc: Global,
    context: &Context,
    front: Front,
    want: Option<&Ty>,
) -> Result<TypedExpr, Fail>
    ensures { Gives made result (ordered (limits context.now)
        (table.front_case (limits context.now) (Some (front_of front))) (expected want.entry)) }
{
    let typed = value_at(alloc, context, front)?;
    context.in_order(as_wanted(want, typed)?)
}

/// Operands that agree, without their type.
pub(crate) fn without_type(agreeing: (Ty, Items<Typed>)) -> Items<Typed>
    ensures { result ≡ agreeing.1 }
{
    let (_, operands) = agreeing;
    operands
}

/// The operator that a sign is.
fn operator(sign: Operator) -> Op
    ensures { result ≡ table.operator sign }
{
    match sign {
        Operator::Mul => Op::Mul,
        Operator::Add => Op::Add,
        Operator::Sub => Op::Sub,
        Operator::Shl => Op::Shl,
        Operator::Shr => Op::Shr,
        Operator::Less => Op::Less,
        Operator::LessOrSame => Op::LessOrSame,
        Operator::Greater => Op::Greater,
        Operator::GreaterOrSame => Op::GreaterOrSame,
        Operator::Same => Op::Same,
        Operator::Different => Op::Different,
        Operator::And => Op::And,
        Operator::Xor => Op::Xor,
        Operator::Or => Op::Or,
        Operator::Both => Op::Both,
        Operator::Either => Op::Either,
    }
}

/// Whether the operator is one of the level.
fn is_of_level(level: Level, sign: Operator) -> bool
    ensures { result ≡ table.is_of_level level sign }
{
    match level {
        Level::Product => sign == Operator::Mul,
        Level::Sum => matches!(sign, Operator::Add | Operator::Sub),
        Level::Shift => matches!(sign, Operator::Shl | Operator::Shr),
        Level::Order => matches!(
            sign,
            Operator::Less | Operator::LessOrSame | Operator::Greater | Operator::GreaterOrSame
        ),
        Level::Equality => matches!(sign, Operator::Same | Operator::Different),
        Level::And => sign == Operator::And,
        Level::Xor => sign == Operator::Xor,
        Level::Or => sign == Operator::Or,
        Level::Both => sign == Operator::Both,
        Level::Either => sign == Operator::Either,
    }
}

/// Whether the operators are all of the level.
fn are_of_level(level: Level, signs: &[Operator]) -> bool
    ensures { result ≡ list_all (table.is_of_level level) signs.now }
{
    signs.iter().all(|sign| is_of_level(level, *sign))
}

/// Whether so many operands and these operators make a chain of the level.
#[tactic(auto, unfolding(crate::specs::Typing::is_chain))]
pub(crate) fn is_chain(level: Level, signs: &[Operator], operands: usize) -> bool
    ensures { result ≡ table.is_chain level signs.now operands }
{
    are_of_level(level, signs) && operands > 1 && operands == signs.len() + 1
}

/// Whether so many conditions and values make a choice.
#[tactic(auto, unfolding(crate::specs::Typing::is_choice))]
pub(crate) fn is_choice(conditions: usize, values: usize) -> bool
    ensures { result ≡ table.is_choice conditions values }
{
    values > conditions && values - conditions == 1
}

/// The operators that signs are.
pub(crate) fn operators(alloc: Global, signs: &[Operator]) -> Result<Items<Op>, AllocError>
    ensures { IfOk result (λ os. os ≡ map table.operator signs.now) }
{
    let mut found = Items::new(alloc);
    for sign in signs {
        found.push(operator(*sign))?;
    }
    Ok(found)
}

/// An operator that sets a field, for each of these.
pub(crate) fn sets(alloc: Global, fields: &[u32]) -> Result<Items<Op>, AllocError>
    ensures { IfOk result (λ os. os ≡ map op.Set fields.now) }
{
    let mut found = Items::new(alloc);
    for field in fields {
        found.push(Op::Set(*field))?;
    }
    Ok(found)
}

/// Whether the number is one of these.
pub(crate) fn is_among(number: u32, numbers: &[u32]) -> bool
    ensures { result ≡ spec.is_among number numbers.now }
{
    numbers.iter().any(|other| number == *other)
}

/// How many fields the struct has.
#[tactic(auto, unfolding(crate::specs::Forms::field_count))]
pub(crate) fn field_count(context: &Context, structure: u32) -> usize
    ensures { result ≡ spec.field_count (limits context.now) structure }
{
    match context.structs.get(structure as usize) {
        Some(found) => found.fields.len(),
        None => 0,
    }
}

/// The type of what a Maybe holds.
pub fn payload(ty: &Ty) -> Option<&Ty>
    ensures { option_map (λ t. kind t.now) result ≡ spec.payload (kind ty.now) }
{
    match ty {
        Ty::Maybe(held) => Some(held.get()),
        _ => None,
    }
}
