ghost use Rattle.std.specs.Prelude.{◌≡◌, ◌≤◌, map, length, take, drop};
ghost use Rattle.bsv_ast.specs.Depths.{expr_depth, greatest};
ghost use Rattle.bsv_typing.specs.Operands as spec;
ghost use Rattle.bsv_typing.specs.Seen.{seen, all_seen};
ghost use Rattle.bsv_typing.specs.Typing as typing;

use bsv_ast::{Expr, Level, Literal, UnaryOperator};
use bsv_bits::Name;
use bsv_context::{Context, Variable};
use bsv_scopes::Scopes;
use bsv_types::GivenFunction;

/// The number of an unsized literal.
fn unsized_number(literal: &Literal) -> Option<u128>
    ensures { result ≡ typing.unsized literal.now }
{
    match literal.size {
        None => Some(literal.value),
        Some(_) => None,
    }
}

/// Whether an expression has no type of its own.
#[cycle(open_expr)]
#[tactic(auto, unfolding(crate::specs::Typing::chain_operand, crate::specs::Typing::unary_operand, crate::specs::Typing::choice_operand))]
pub(crate) fn is_open(context: &Context, variables: &Scopes<Variable>, expr: &Expr) -> bool
    ensures { result ≡ (seen context.now variables.now expr.now).is_open }
{
    match expr {
        Expr::Number(_, number) => unsized_number(number).is_some(),
        Expr::Call(_, name, _) => is_open_call(&name.name),
        Expr::Group(_, inner) => is_open(context, variables, inner.get()),
        Expr::Unary(_, UnaryOperator::Complement | UnaryOperator::Negate, operand) => {
            is_open(context, variables, operand.get())
        }
        Expr::Unary(_, UnaryOperator::Not, _) => false,
        Expr::Invalid(_) => true,
        Expr::Chain(_, level, _, operands) => match level {
            Level::Product | Level::Sum | Level::And | Level::Xor | Level::Or => {
                are_open(context, variables, operands.as_slice())
            }
            Level::Shift | Level::Order | Level::Equality | Level::Both | Level::Either => false,
        },
        Expr::Choice(_, _, values) => are_open(context, variables, values.as_slice()),
        _ => false,
    }
}

/// Whether a call of the function has no type of its own.
fn is_open_call(name: &Name) -> bool
    ensures { result ≡ typing.is_open_call name.now }
{
    match GivenFunction::named(name.bytes()) {
        Some(function) => function.has_open_type(),
        None => false,
    }
}

/// Whether each of them has no type of its own.
#[cycle(open_expr)]
pub(crate) fn are_open(context: &Context, variables: &Scopes<Variable>, exprs: &[Expr]) -> bool
    ensures { result ≡ spec.are_open (all_seen context.now variables.now exprs.now) }
{
    let mut rest = exprs;
    while let Some((expr, after)) = rest.split_first() {
        if !is_open(context, variables, expr) {
            return false;
        }
        rest = after;
    }
    true
}

/// Whether an expression is made of unsized literals alone.
#[cycle(literal_expr)]
#[tactic(auto, unfolding(crate::specs::Typing::chain_operand, crate::specs::Typing::unary_operand, crate::specs::Typing::choice_operand))]
fn is_literals(context: &Context, variables: &Scopes<Variable>, expr: &Expr) -> bool
    ensures { result ≡ (seen context.now variables.now expr.now).literals }
{
    match expr {
        Expr::Number(_, number) => unsized_number(number).is_some(),
        Expr::Group(_, inner) => is_literals(context, variables, inner.get()),
        Expr::Unary(_, UnaryOperator::Complement | UnaryOperator::Negate, operand) => {
            is_literals(context, variables, operand.get())
        }
        Expr::Unary(_, UnaryOperator::Not, _) => false,
        Expr::Chain(_, level, _, operands) => match level {
            Level::Product | Level::Sum | Level::And | Level::Xor | Level::Or => {
                are_literals(context, variables, operands.as_slice())
            }
            Level::Shift | Level::Order | Level::Equality | Level::Both | Level::Either => false,
        },
        Expr::Choice(_, _, values) => are_literals(context, variables, values.as_slice()),
        _ => false,
    }
}

/// Whether each of them is made of unsized literals alone.
#[cycle(literal_expr)]
pub(crate) fn are_literals(context: &Context, variables: &Scopes<Variable>, exprs: &[Expr]) -> bool
    ensures { result ≡ spec.are_literals (all_seen context.now variables.now exprs.now) }
{
    let mut rest = exprs;
    while let Some((expr, after)) = rest.split_first() {
        if !is_literals(context, variables, expr) {
            return false;
        }
        rest = after;
    }
    true
}

/// The number of an expression that is an unsized literal.
#[tactic(auto, unfolding(crate::specs::Typing::chain_operand, crate::specs::Typing::unary_operand, crate::specs::Typing::choice_operand))]
pub(crate) fn literal(context: &Context, variables: &Scopes<Variable>, expr: &Expr) -> Option<u128>
    ensures { result ≡ (seen context.now variables.now expr.now).literal }
{
    match expr {
        Expr::Number(_, number) => unsized_number(number),
        Expr::Group(_, inner) => literal(context, variables, inner.get()),
        _ => None,
    }
}

/// How many of them come before the first that has a type of its own.
fn open_front(context: &Context, variables: &Scopes<Variable>, exprs: &[Expr]) -> usize
    ensures count { result ≡ spec.open_front (all_seen context.now variables.now exprs.now) }
    ensures within { result ≤ length exprs.now }
{
    for (count, expr) in exprs.iter().enumerate() {
        if !is_open(context, variables, expr) {
            return count;
        }
    }
    exprs.len()
}

/// Those before the first that has a type of its own, and the others.
#[tactic(auto, using(crate::proofs::Lists::splits))]
pub(crate) fn split_open<'a>(
    context: &Context,
    variables: &Scopes<Variable>,
    exprs: &'a [Expr],
) -> (&'a [Expr], &'a [Expr])
    ensures front { all_seen context.now variables.now result.0.now
        ≡ take (spec.open_front (all_seen context.now variables.now exprs.now))
        (all_seen context.now variables.now exprs.now) }
    ensures rest { all_seen context.now variables.now result.1.now
        ≡ drop (spec.open_front (all_seen context.now variables.now exprs.now))
        (all_seen context.now variables.now exprs.now) }
    ensures front_within { greatest (map expr_depth result.0.now) ≤ greatest
        (map expr_depth exprs.now) }
    ensures rest_within { greatest (map expr_depth result.1.now) ≤ greatest
        (map expr_depth exprs.now) }
{
    exprs.split_at(open_front(context, variables, exprs))
}
