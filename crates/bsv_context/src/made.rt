ghost use Rattle.std.specs.Prelude.{◌≡◌, [], ◌∷◌, Some, IfOk};
ghost use Rattle.bsv_types.specs.Kinds.{kind};
ghost use Rattle.bsv_types.specs.Operators.{is_suffix};
ghost use Rattle.bsv_context.specs.Env as spec;
ghost use Rattle.bsv_context.specs.Env.{wanted};
ghost use Rattle.bsv_context.specs.Suffixes as suffix;
ghost use Rattle.bsv_context.specs.Seen.{Gives, expected, made};

use crate::fail::Fail;
use bsv_types::{Expr, Items, Op, Ty};
use std::alloc::{AllocError, Global};

/// A typed expression, with its type.
#[derive(Drop)]
pub struct TypedExpr {
    pub ty: Ty,
    pub expr: Expr,
}

/// A literal of the type.
#[tactic(auto, using(crate::proofs::TypesBack::types_back))]
pub fn literal(alloc: Global, ty: Ty, number: u128) -> Result<TypedExpr, AllocError>
    ensures { IfOk result (λ m. made m ≡ spec.literal (kind ty) number) }
{
    let own = ty.copy(alloc)?;
    Ok(TypedExpr {
        ty,
        expr: Expr::Literal(own, number),
    })
}

/// Operators with their operands, of the type.
#[tactic(auto, using(crate::proofs::TypesBack::types_back))]
pub fn applied(
    alloc: Global,
    ty: Ty,
    operators: Items<Op>,
    operands: Items<Expr>,
) -> Result<TypedExpr, AllocError>
    ensures { IfOk result (λ m. made m ≡ spec.applied (kind ty) operators operands) }
{
    let own = ty.copy(alloc)?;
    Ok(TypedExpr {
        ty,
        expr: Expr::Apply(own, operators, operands),
    })
}

/// A call of the function of this number, whose result is of the type.
#[tactic(auto, using(crate::proofs::TypesBack::types_back))]
pub fn called(
    alloc: Global,
    ty: &Ty,
    number: u32,
    operands: Items<Expr>,
) -> Result<TypedExpr, AllocError>
    ensures { IfOk result (λ m. made m ≡ spec.called (kind ty.now) number operands) }
{
    let own = ty.copy(alloc)?;
    Ok(TypedExpr {
        ty: ty.copy(alloc)?,
        expr: Expr::Call(own, number, operands),
    })
}

/// A choice by conditions between values of the type.
#[tactic(auto, using(crate::proofs::TypesBack::types_back))]
pub fn chosen(
    alloc: Global,
    ty: Ty,
    conditions: Items<Expr>,
    values: Items<Expr>,
) -> Result<TypedExpr, AllocError>
    ensures { IfOk result (λ m. made m ≡ spec.chosen (kind ty) conditions values) }
{
    let own = ty.copy(alloc)?;
    Ok(TypedExpr {
        ty,
        expr: Expr::Choice(own, conditions, values),
    })
}

/// One operator with one operand, of the type.
pub fn applied_to_one(alloc: Global, ty: Ty, op: Op, operand: Expr) -> Result<TypedExpr, AllocError>
    ensures { IfOk result (λ m. made m ≡ spec.applied (kind ty) (op ∷ []) (operand ∷ [])) }
{
    let operands = one(alloc, operand)?;
    let operators = one(alloc, op)?;
    applied(alloc, ty, operators, operands)
}

/// One operator with two operands, of the type.
pub fn applied_to_two(
    alloc: Global,
    ty: Ty,
    op: Op,
    first: Expr,
    second: Expr,
) -> Result<TypedExpr, AllocError>
    ensures { IfOk result (λ m. made m ≡ spec.applied (kind ty) (op ∷ []) (first ∷ second ∷ [])) }
{
    let mut operands = one(alloc, first)?;
    operands.push(second)?;
    let operators = one(alloc, op)?;
    applied(alloc, ty, operators, operands)
}

/// Whether the operator comes after its operand.
fn is_suffix(op: Op) -> bool
    ensures { result ≡ is_suffix op }
{
    matches!(op, Op::Index | Op::Slice(_, _) | Op::Field(_))
}

/// Whether operators are suffixes.
fn are_suffixes(operators: &[Op]) -> bool
    ensures { result ≡ suffix.are_suffixes operators.now }
{
    match operators.split_first() {
        Some((first, _)) => is_suffix(*first),
        None => false,
    }
}

/// The suffixes of an expression, with their operands.
#[tactic(auto, unfolding(crate::specs::Suffixes::suffixes))]
fn suffixes(alloc: Global, expr: Expr) -> Result<(Items<Op>, Items<Expr>), AllocError>
    ensures { IfOk result (λ r. r ≡ suffix.suffixes expr) }
{
    match expr {
        Expr::Apply(ty, operators, operands) => {
            if are_suffixes(operators.as_slice()) {
                Ok((operators, operands))
            } else {
                let whole = Expr::Apply(ty, operators, operands);
                Ok((Items::new(alloc), one(alloc, whole)?))
            }
        }
        other => Ok((Items::new(alloc), one(alloc, other)?)),
    }
}

/// One suffix more after an expression, with the place of an index, of the type.
pub fn with_suffix(
    alloc: Global,
    ty: Ty,
    op: Op,
    place: Items<Expr>,
    operand: Expr,
) -> Result<TypedExpr, AllocError>
    ensures { IfOk result (λ m. made m ≡ suffix.with_suffix (kind ty) op place operand) }
{
    let (mut operators, mut operands) = suffixes(alloc, operand)?;
    operators.push(op)?;
    operands.append(place)?;
    applied(alloc, ty, operators, operands)
}

/// A list of one item.
pub fn one<T: Drop>(alloc: Global, item: T) -> Result<Items<T>, AllocError>
    ensures { IfOk result (λ items. items ≡ item ∷ []) }
{
    let mut items = Items::new(alloc);
    items.push(item)?;
    Ok(items)
}

/// The typed expression, if it has the expected type.
pub fn as_wanted(want: Option<&Ty>, typed: TypedExpr) -> Result<TypedExpr, Fail>
    ensures { Gives made result (wanted (expected want.entry) (made typed)) }
{
    match want {
        Some(ty) => {
            if typed.ty.same(ty) {
                Ok(typed)
            } else {
                Err(Fail::Fault)
            }
        }
        None => Ok(typed),
    }
}
