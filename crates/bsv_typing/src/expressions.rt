ghost use Rattle.std.specs.Prelude.{◌≡◌, ◌∷◌, [], Some, length, map};
ghost use Rattle.bsv_ast.specs.declared.expressions.UnaryOperator.TheVariants as unary;
ghost use Rattle.bsv_types.specs.declared.operators.Op.TheVariants as op;
ghost use Rattle.bsv_types.specs.Kinds.{bit, kind, no_wider};
ghost use Rattle.bsv_typing.specs.Forms as spec;
ghost use Rattle.bsv_typing.specs.Operands as sharing;
ghost use Rattle.bsv_typing.specs.Operands.{check_if};
ghost use Rattle.bsv_typing.specs.Places as places;
ghost use Rattle.bsv_typing.specs.Typing as table;
ghost use Rattle.bsv_typing.specs.Typing.{typed, ordered, term, instance_named};
ghost use Rattle.bsv_context.specs.Seen.{Gives, made, limits, env, expected, header, params_of};
ghost use Rattle.bsv_typing.specs.Seen.{exprs, agreed};
ghost use Rattle.bsv_typing.specs.Seen.{seen, terms_seen, all_seen, fields_seen, suffix_seen};
ghost use Rattle.bsv_typing.specs.Seen.{suffixes_seen, front_of, instance_of};
ghost use Rattle.bsv_context.specs.Seen.{function_named, structure_named};

use crate::forms::{
    field_count, front_value, invalid, is_among, is_chain, is_choice, label, negated, number,
    operators, payload, sets, tagged, without_type,
};
use crate::front::{
    Front, Instance, field_named, in_order_front, member_after, method_call, name_front,
    place_number, read, slice_after,
};
use crate::openness::{are_literals, are_open, is_open, literal, split_open};
use bsv_ast::{Expr, FieldValue, Level, Operator, Suffix, UnaryOperator};
use bsv_bits::Name;
use bsv_context::{
    Context, Fail, FunctionHeader, Params, TypedExpr, Variable, applied, applied_to_one,
    applied_to_two, as_wanted, beside, called, chosen, has_family, is_amount, is_bit, is_number,
    method_named, no_wider, one, with_suffix,
};
use bsv_scopes::Scopes;
use bsv_types::{Boxed, Expr as Typed, GivenFunction, Items, Op, Ty};
use std::alloc::Global;
use std::slice;

/// The typed expression, of the expected type or of its own.
#[cycle(typing)]
pub fn typing(
    alloc: Global,
    context: &Context,
    variables: &Scopes<Variable>,
    expr: &Expr,
    want: Option<&Ty>,
) -> Result<TypedExpr, Fail>
    ensures { Gives made result (typed (env context.now variables.now) expr.now
        (expected want.entry)) }
{
    match expr {
        Expr::Number(_, literal) => context.in_order(number(alloc, context, *literal, want)?),
        Expr::Label(_, name) => context.in_order(label(alloc, context, &name.name, want)?),
        Expr::Name(_, name) => {
            let front = name_front(alloc, context, variables, &name.name)?;
            front_value(alloc, context, front, want)
        }
        Expr::Call(_, name, arguments) => {
            let given = arguments.as_slice();
            context.in_order(call(alloc, context, variables, &name.name, given, want)?)
        }
        Expr::Group(_, inner) => typing(alloc, context, variables, inner.get(), want),
        Expr::Concat(_, parts) => concat(alloc, context, variables, parts.as_slice(), want),
        Expr::Struct(_, name, given) => {
            construct(
                alloc,
                context,
                variables,
                &name.name,
                given.as_slice(),
                want,
            )
        }
        Expr::Postfix(_, primary, suffixes) => {
            let front = postfix(
                alloc,
                context,
                variables,
                primary.get(),
                suffixes.as_slice(),
            )?;
            front_value(alloc, context, front, want)
        }
        Expr::Unary(_, operator, operand) => {
            unary(alloc, context, variables, *operator, operand.get(), want)
        }
        Expr::Valid(_, payload) => valid(alloc, context, variables, payload.get(), want),
        Expr::Invalid(_) => context.in_order(invalid(alloc, want)?),
        Expr::Chain(_, level, signs, operands) => {
            chain(
                alloc,
                context,
                variables,
                *level,
                signs.as_slice(),
                operands.as_slice(),
                want,
            )
        }
        Expr::Choice(_, conditions, values) => {
            choice(
                alloc,
                context,
                variables,
                conditions.as_slice(),
                values.as_slice(),
                want,
            )
        }
    }
}

/// A chain of operators of one level.
#[cycle(typing)]
#[tactic(auto, using(crate::proofs::Lists::lengths))]
fn chain(
    alloc: Global,
    context: &Context,
    variables: &Scopes<Variable>,
    level: Level,
    signs: &[Operator],
    operands: &[Expr],
    want: Option<&Ty>,
) -> Result<TypedExpr, Fail>
    ensures { Gives made result (check_if (table.is_chain level signs.now
        (length (terms_seen context.now variables.now operands.now)))
        (table.chain_operand (limits context.now) level (map table.operator signs.now)
        (all_seen context.now variables.now operands.now)).check (expected want.entry)) }
{
    if !is_chain(level, signs, operands.len()) {
        return Err(Fail::Fault);
    }
    let ops = operators(alloc, signs)?;
    chained(alloc, context, variables, level, ops, operands, want)
}

/// Operands with the operators of one level between them.
#[cycle(typing)]
#[tactic(auto, unfolding(crate::specs::Typing::chain_operand))]
fn chained(
    alloc: Global,
    context: &Context,
    variables: &Scopes<Variable>,
    level: Level,
    ops: Items<Op>,
    operands: &[Expr],
    want: Option<&Ty>,
) -> Result<TypedExpr, Fail>
    ensures { Gives made result ((table.chain_operand (limits context.now) level ops
        (all_seen context.now variables.now operands.now)).check (expected want.entry)) }
{
    match level {
        Level::Product | Level::Sum => numbers(alloc, context, variables, operands, ops, want),
        Level::Shift => shift(alloc, context, variables, operands, ops, want),
        Level::Order => order(alloc, context, variables, operands, ops, want),
        Level::Equality => equality(alloc, context, variables, operands, ops, want),
        Level::And | Level::Xor | Level::Or => bits(alloc, context, variables, operands, ops, want),
        Level::Both | Level::Either => truths(alloc, context, variables, operands, ops, want),
    }
}

/// An operator in front of an operand.
#[cycle(typing)]
#[tactic(auto, unfolding(crate::specs::Typing::unary_operand))]
fn unary(
    alloc: Global,
    context: &Context,
    variables: &Scopes<Variable>,
    operator: UnaryOperator,
    operand: &Expr,
    want: Option<&Ty>,
) -> Result<TypedExpr, Fail>
    ensures { Gives made result ((table.unary_operand (limits context.now) operator
        (seen context.now variables.now operand.now)).check (expected want.entry)) }
{
    let alone = slice::from_ref(operand);
    match operator {
        UnaryOperator::Not => {
            truths(alloc, context, variables, alone, one(alloc, Op::Not)?, want)
        }
        UnaryOperator::Complement => {
            bits(
                alloc,
                context,
                variables,
                alone,
                one(alloc, Op::Complement)?,
                want,
            )
        }
        UnaryOperator::Negate => match literal(context, variables, operand) {
            Some(number) => context.in_order(negated(alloc, context, number, want)?),
            None => numbers(
                alloc,
                context,
                variables,
                alone,
                one(alloc, Op::Negate)?,
                want,
            ),
        },
    }
}

/// Operands that have this type.
#[cycle(typing)]
#[tactic(auto, using(crate::proofs::Lists::fronts), unfolding(crate::specs::Operands::all_as))]
fn all_as(
    alloc: Global,
    context: &Context,
    variables: &Scopes<Variable>,
    operands: &[Expr],
    ty: &Ty,
) -> Result<Items<Typed>, Fail>
    ensures { Gives exprs result (sharing.all_as (kind ty.now)
        (all_seen context.now variables.now operands.now)) }
{
    let mut found = Items::new(alloc);
    let mut rest = operands;
    while let Some((operand, after)) = rest.split_first() {
        let typed = typing(alloc, context, variables, operand, Some(ty))?;
        found.push(typed.expr)?;
        rest = after;
    }
    Ok(found)
}

/// Operands of the type of one of them.
#[cycle(typing)]
#[tactic(auto, using(crate::proofs::Lists::appended), unfolding(crate::specs::Operands::around))]
fn around(
    alloc: Global,
    context: &Context,
    variables: &Scopes<Variable>,
    front: &[Expr],
    operand: &Expr,
    after: &[Expr],
) -> Result<(Ty, Items<Typed>), Fail>
    ensures { Gives agreed result (sharing.around (all_seen context.now variables.now front.now)
        (seen context.now variables.now operand.now ∷ all_seen context.now variables.now
        after.now)) }
{
    let TypedExpr { ty, expr } = typing(alloc, context, variables, operand, None)?;
    let operand = Boxed::new(alloc, expr)?;
    let mut found = all_as(alloc, context, variables, front, &ty)?;
    let rest = all_as(alloc, context, variables, after, &ty)?;
    found.push(operand.into_inner())?;
    found.append(rest)?;
    Ok((ty, found))
}

/// Operands of the type of the first that is not open.
#[cycle(typing)]
#[tactic(auto, unfolding(crate::specs::Operands::by_first, crate::specs::Operands::around))]
fn by_first(
    alloc: Global,
    context: &Context,
    variables: &Scopes<Variable>,
    operands: &[Expr],
) -> Result<(Ty, Items<Typed>), Fail>
    ensures { Gives agreed result (sharing.by_first
        (all_seen context.now variables.now operands.now)) }
{
    let (front, rest) = split_open(context, variables, operands);
    match rest.split_first() {
        Some((operand, after)) => around(alloc, context, variables, front, operand, after),
        None => Err(Fail::Fault),
    }
}

/// Operands of the type of the result.
#[cycle(typing)]
#[tactic(auto, unfolding(crate::specs::Operands::agree_with_result))]
fn agree_with_result(
    alloc: Global,
    context: &Context,
    variables: &Scopes<Variable>,
    operands: &[Expr],
    want: Option<&Ty>,
) -> Result<(Ty, Items<Typed>), Fail>
    ensures { Gives agreed result (sharing.agree_with_result
        (all_seen context.now variables.now operands.now) (expected want.entry)) }
{
    if let Some(ty) = want {
        let found = all_as(alloc, context, variables, operands, ty)?;
        return Ok((ty.copy(alloc)?, found));
    }
    if are_literals(context, variables, operands) {
        let found = all_as(alloc, context, variables, operands, &Ty::Integer)?;
        Ok((Ty::Integer, found))
    } else {
        by_first(alloc, context, variables, operands)
    }
}

/// Operands of one type that is not that of the result.
#[cycle(typing)]
#[tactic(auto, unfolding(crate::specs::Operands::agree))]
fn agree(
    alloc: Global,
    context: &Context,
    variables: &Scopes<Variable>,
    operands: &[Expr],
) -> Result<(Ty, Items<Typed>), Fail>
    ensures { Gives agreed result (sharing.agree
        (all_seen context.now variables.now operands.now)) }
{
    if are_open(context, variables, operands) {
        let found = all_as(alloc, context, variables, operands, &Ty::Integer)?;
        Ok((Ty::Integer, found))
    } else {
        by_first(alloc, context, variables, operands)
    }
}

/// `!`, `&&` and `||`.
#[cycle(typing)]
#[tactic(auto, unfolding(crate::specs::Forms::truth_case))]
fn truths(
    alloc: Global,
    context: &Context,
    variables: &Scopes<Variable>,
    operands: &[Expr],
    ops: Items<Op>,
    want: Option<&Ty>,
) -> Result<TypedExpr, Fail>
    ensures { Gives made result (ordered (limits context.now)
        (spec.truth_case ops (all_seen context.now variables.now operands.now))
        (expected want.entry)) }
{
    let found = all_as(alloc, context, variables, operands, &Ty::Bool)?;
    let typed = applied(alloc, Ty::Bool, ops, found)?;
    context.in_order(as_wanted(want, typed)?)
}

/// `+`, `-`, `*`, and `-` in front.
#[cycle(typing)]
#[tactic(auto, unfolding(crate::specs::Forms::number_op_case))]
fn numbers(
    alloc: Global,
    context: &Context,
    variables: &Scopes<Variable>,
    operands: &[Expr],
    ops: Items<Op>,
    want: Option<&Ty>,
) -> Result<TypedExpr, Fail>
    ensures { Gives made result (ordered (limits context.now)
        (spec.number_op_case ops (all_seen context.now variables.now operands.now))
        (expected want.entry)) }
{
    let (ty, found) = agree_with_result(alloc, context, variables, operands, want)?;
    if is_number(&ty) {
        context.in_order(applied(alloc, ty, ops, found)?)
    } else {
        Err(Fail::Fault)
    }
}

/// `&`, `^`, `|` and `~`.
#[cycle(typing)]
#[tactic(auto, unfolding(crate::specs::Forms::bits_op_case))]
fn bits(
    alloc: Global,
    context: &Context,
    variables: &Scopes<Variable>,
    operands: &[Expr],
    ops: Items<Op>,
    want: Option<&Ty>,
) -> Result<TypedExpr, Fail>
    ensures { Gives made result (ordered (limits context.now)
        (spec.bits_op_case ops (all_seen context.now variables.now operands.now))
        (expected want.entry)) }
{
    let (ty, found) = agree_with_result(alloc, context, variables, operands, want)?;
    if has_family(&ty) {
        context.in_order(applied(alloc, ty, ops, found)?)
    } else {
        Err(Fail::Fault)
    }
}

/// How far a shift goes.
#[cycle(typing)]
#[tactic(auto, unfolding(crate::specs::Forms::amount))]
fn amount(
    alloc: Global,
    context: &Context,
    variables: &Scopes<Variable>,
    operand: &Expr,
) -> Result<Typed, Fail>
    ensures { Gives (λ x. x) result (spec.amount (seen context.now variables.now operand.now)) }
{
    let typed = if is_open(context, variables, operand) {
        typing(alloc, context, variables, operand, Some(&Ty::Integer))?
    } else {
        typing(alloc, context, variables, operand, None)?
    };
    if is_amount(&typed.ty) {
        Ok(typed.expr)
    } else {
        Err(Fail::Fault)
    }
}

/// How far shifts go.
#[cycle(typing)]
#[tactic(auto, using(crate::proofs::Lists::fronts), unfolding(crate::specs::Forms::amounts))]
fn amounts(
    alloc: Global,
    context: &Context,
    variables: &Scopes<Variable>,
    operands: &[Expr],
) -> Result<Items<Typed>, Fail>
    ensures { Gives exprs result (spec.amounts (all_seen context.now variables.now operands.now)) }
{
    let mut found = Items::new(alloc);
    let mut rest = operands;
    while let Some((operand, after)) = rest.split_first() {
        found.push(amount(alloc, context, variables, operand)?)?;
        rest = after;
    }
    Ok(found)
}

/// `<<` and `>>`.
#[cycle(typing)]
#[tactic(auto, unfolding(crate::specs::Forms::shift_case))]
fn shift(
    alloc: Global,
    context: &Context,
    variables: &Scopes<Variable>,
    operands: &[Expr],
    ops: Items<Op>,
    want: Option<&Ty>,
) -> Result<TypedExpr, Fail>
    ensures { Gives made result (ordered (limits context.now)
        (spec.shift_case ops (all_seen context.now variables.now operands.now))
        (expected want.entry)) }
{
    let Some((left, rights)) = operands.split_first() else {
        return Err(Fail::Fault);
    };
    let TypedExpr { ty, expr } = typing(alloc, context, variables, left, want)?;
    let mut found = one(alloc, expr)?;
    let rest = amounts(alloc, context, variables, rights)?;
    if !has_family(&ty) {
        return Err(Fail::Fault);
    }
    found.append(rest)?;
    context.in_order(applied(alloc, ty, ops, found)?)
}

/// `<`, `<=`, `>` and `>=`.
#[cycle(typing)]
#[tactic(auto, unfolding(crate::specs::Forms::order_case))]
fn order(
    alloc: Global,
    context: &Context,
    variables: &Scopes<Variable>,
    operands: &[Expr],
    ops: Items<Op>,
    want: Option<&Ty>,
) -> Result<TypedExpr, Fail>
    ensures { Gives made result (ordered (limits context.now)
        (spec.order_case ops (all_seen context.now variables.now operands.now))
        (expected want.entry)) }
{
    let Some((_, rest)) = operands.split_first() else {
        return Err(Fail::Fault);
    };
    let Some((_, more)) = rest.split_first() else {
        return Err(Fail::Fault);
    };
    if more.split_first().is_some() {
        return Err(Fail::Fault);
    }
    let agreeing = agree(alloc, context, variables, operands)?;
    if !is_number(&agreeing.0) {
        return Err(Fail::Fault);
    }
    let typed = applied(alloc, Ty::Bool, ops, without_type(agreeing))?;
    context.in_order(as_wanted(want, typed)?)
}

/// `==` and `!=`.
#[cycle(typing)]
#[tactic(auto, unfolding(crate::specs::Forms::equality_case))]
fn equality(
    alloc: Global,
    context: &Context,
    variables: &Scopes<Variable>,
    operands: &[Expr],
    ops: Items<Op>,
    want: Option<&Ty>,
) -> Result<TypedExpr, Fail>
    ensures { Gives made result (ordered (limits context.now)
        (spec.equality_case ops (all_seen context.now variables.now operands.now))
        (expected want.entry)) }
{
    let Some((_, rest)) = operands.split_first() else {
        return Err(Fail::Fault);
    };
    let Some((_, more)) = rest.split_first() else {
        return Err(Fail::Fault);
    };
    let two = &operands[..2];
    let mut found = without_type(agree(alloc, context, variables, two)?);
    let rest = all_as(alloc, context, variables, more, &Ty::Bool)?;
    found.append(rest)?;
    let typed = applied(alloc, Ty::Bool, ops, found)?;
    context.in_order(as_wanted(want, typed)?)
}

/// `a ? b : c`.
#[cycle(typing)]
#[tactic(auto, using(crate::proofs::Lists::lengths), unfolding(crate::specs::Typing::choice_operand, crate::specs::Forms::choice_case))]
fn choice(
    alloc: Global,
    context: &Context,
    variables: &Scopes<Variable>,
    conditions: &[Expr],
    values: &[Expr],
    want: Option<&Ty>,
) -> Result<TypedExpr, Fail>
    ensures { Gives made result (check_if (table.is_choice
        (length (terms_seen context.now variables.now conditions.now))
        (length (terms_seen context.now variables.now values.now)))
        (table.choice_operand (limits context.now)
        (all_seen context.now variables.now conditions.now)
        (all_seen context.now variables.now values.now)).check (expected want.entry)) }
{
    if !is_choice(conditions.len(), values.len()) {
        return Err(Fail::Fault);
    }
    let tests = all_as(alloc, context, variables, conditions, &Ty::Bool)?;
    let (ty, found) = agree_with_result(alloc, context, variables, values, want)?;
    context.in_order(chosen(alloc, ty, tests, found)?)
}

/// Parts of Bit types, with their widths together.
#[cycle(typing)]
#[tactic(auto, using(crate::proofs::Values::values), unfolding(crate::specs::Forms::joined))]
fn joined(
    alloc: Global,
    context: &Context,
    variables: &Scopes<Variable>,
    parts: &[Expr],
) -> Result<(Ty, Items<Typed>), Fail>
    ensures { Gives agreed result (spec.joined (bit 0)
        (all_seen context.now variables.now parts.now)) }
{
    let mut found = Items::new(alloc);
    let mut ty = Ty::Bit(0);
    let mut rest = parts;
    while let Some((part, after)) = rest.split_first() {
        let typed = typing(alloc, context, variables, part, None)?;
        let Some(wider) = beside(&ty, &typed.ty) else {
            return Err(Fail::Fault);
        };
        ty = wider;
        found.push(typed.expr)?;
        rest = after;
    }
    Ok((ty, found))
}

/// `{a, b, ..}`.
#[cycle(typing)]
#[tactic(auto, unfolding(crate::specs::Forms::concat_case))]
fn concat(
    alloc: Global,
    context: &Context,
    variables: &Scopes<Variable>,
    parts: &[Expr],
    want: Option<&Ty>,
) -> Result<TypedExpr, Fail>
    ensures { Gives made result (ordered (limits context.now)
        (spec.concat_case (all_seen context.now variables.now parts.now)) (expected want.entry)) }
{
    let (ty, found) = joined(alloc, context, variables, parts)?;
    let ops = one(alloc, Op::Concat)?;
    let typed = applied(alloc, ty, ops, found)?;
    context.in_order(as_wanted(want, typed)?)
}

/// `tagged Valid e`.
#[cycle(typing)]
#[tactic(auto, unfolding(crate::specs::Forms::valid_case))]
fn valid(
    alloc: Global,
    context: &Context,
    variables: &Scopes<Variable>,
    payload: &Expr,
    want: Option<&Ty>,
) -> Result<TypedExpr, Fail>
    ensures { Gives made result (ordered (limits context.now)
        (spec.valid_case (limits context.now) (seen context.now variables.now payload.now))
        (expected want.entry)) }
{
    match want {
        Some(Ty::Maybe(held)) => {
            let typed = typing(alloc, context, variables, payload, Some(held.get()))?;
            context.in_order(tagged(alloc, held.get(), typed.expr)?)
        }
        Some(_) => Err(Fail::Fault),
        None => {
            let typed = typing(alloc, context, variables, payload, None)?;
            let packed = context.packed(&typed.ty);
            if packed.is_none() {
                return Err(Fail::Fault);
            }
            let TypedExpr { ty, expr } = typed;
            context.in_order(tagged(alloc, &ty, expr)?)
        }
    }
}

/// A call of a function that the language gives, or of one of the program.
#[cycle(typing)]
#[tactic(auto, unfolding(crate::specs::Typing::call_case))]
fn call(
    alloc: Global,
    context: &Context,
    variables: &Scopes<Variable>,
    name: &Name,
    given: &[Expr],
    want: Option<&Ty>,
) -> Result<TypedExpr, Fail>
    ensures { Gives made result (table.call_case (limits context.now)
        (function_named context.now name.now) name.now
        (all_seen context.now variables.now given.now) (expected want.entry)) }
{
    match GivenFunction::named(name.bytes()) {
        Some(function) => given_call(alloc, context, variables, function, given, want),
        None => function_call(alloc, context, variables, name, given, want),
    }
}

/// A call of a function that the language gives.
#[cycle(typing)]
#[tactic(auto, unfolding(crate::specs::Typing::given_case, crate::specs::Typing::two_case))]
fn given_call(
    alloc: Global,
    context: &Context,
    variables: &Scopes<Variable>,
    function: GivenFunction,
    given: &[Expr],
    want: Option<&Ty>,
) -> Result<TypedExpr, Fail>
    ensures { Gives made result (table.given_case (limits context.now) function
        (all_seen context.now variables.now given.now) (expected want.entry)) }
{
    let Some((first, rest)) = given.split_first() else {
        return Err(Fail::Fault);
    };
    let Some((second, more)) = rest.split_first() else {
        return call_of_one(alloc, context, variables, function, first, want);
    };
    match more.split_first() {
        Some(_) => Err(Fail::Fault),
        None => match function {
            GivenFunction::FromMaybe => from_maybe(alloc, context, variables, first, second, want),
            _ => Err(Fail::Fault),
        },
    }
}

/// A call of a function that takes one argument.
#[cycle(typing)]
#[tactic(auto, unfolding(crate::specs::Typing::one_case))]
fn call_of_one(
    alloc: Global,
    context: &Context,
    variables: &Scopes<Variable>,
    function: GivenFunction,
    operand: &Expr,
    want: Option<&Ty>,
) -> Result<TypedExpr, Fail>
    ensures { Gives made result (table.one_case (limits context.now) function
        (seen context.now variables.now operand.now) (expected want.entry)) }
{
    match function {
        GivenFunction::Truncate => truncate(alloc, context, variables, operand, want),
        GivenFunction::ZeroExtend => {
            extend(alloc, context, variables, Op::ZeroExtend, operand, want)
        }
        GivenFunction::SignExtend => {
            extend(alloc, context, variables, Op::SignExtend, operand, want)
        }
        GivenFunction::Unpack => unpack(alloc, context, variables, operand, want),
        GivenFunction::FromInteger => from_integer(alloc, context, variables, operand, want),
        GivenFunction::Pack => pack(alloc, context, variables, operand, want),
        GivenFunction::IsValid => is_valid(alloc, context, variables, operand, want),
        GivenFunction::ValidValue => valid_value(alloc, context, variables, operand, want),
        GivenFunction::FromMaybe => Err(Fail::Fault),
    }
}

/// `truncate(e)`.
#[cycle(typing)]
#[tactic(auto, unfolding(crate::specs::Forms::resized_case))]
fn truncate(
    alloc: Global,
    context: &Context,
    variables: &Scopes<Variable>,
    operand: &Expr,
    want: Option<&Ty>,
) -> Result<TypedExpr, Fail>
    ensures { Gives made result (spec.resized_case op.Truncate spec.no_narrower
        (seen context.now variables.now operand.now) (expected want.entry)) }
{
    let Some(ty) = want else {
        return Err(Fail::Fault);
    };
    let typed = Boxed::new(alloc, typing(alloc, context, variables, operand, None)?)?;
    if !no_wider(ty, &typed.get().ty) {
        return Err(Fail::Fault);
    }
    let own = ty.copy(alloc)?;
    let operand = typed.into_inner().expr;
    Ok(applied_to_one(alloc, own, Op::Truncate, operand)?)
}

/// `zeroExtend(e)` and `signExtend(e)`.
#[cycle(typing)]
#[tactic(auto, unfolding(crate::specs::Forms::resized_case))]
fn extend(
    alloc: Global,
    context: &Context,
    variables: &Scopes<Variable>,
    extension: Op,
    operand: &Expr,
    want: Option<&Ty>,
) -> Result<TypedExpr, Fail>
    ensures { Gives made result (spec.resized_case extension no_wider
        (seen context.now variables.now operand.now) (expected want.entry)) }
{
    let Some(ty) = want else {
        return Err(Fail::Fault);
    };
    let typed = Boxed::new(alloc, typing(alloc, context, variables, operand, None)?)?;
    if !no_wider(&typed.get().ty, ty) {
        return Err(Fail::Fault);
    }
    let own = ty.copy(alloc)?;
    let operand = typed.into_inner().expr;
    Ok(applied_to_one(alloc, own, extension, operand)?)
}

/// `unpack(e)`.
#[cycle(typing)]
#[tactic(auto, unfolding(crate::specs::Forms::unpack_case))]
fn unpack(
    alloc: Global,
    context: &Context,
    variables: &Scopes<Variable>,
    operand: &Expr,
    want: Option<&Ty>,
) -> Result<TypedExpr, Fail>
    ensures { Gives made result (spec.unpack_case (limits context.now)
        (seen context.now variables.now operand.now) (expected want.entry)) }
{
    let Some(ty) = want else {
        return Err(Fail::Fault);
    };
    let Some(packed) = context.packed(ty) else {
        return Err(Fail::Fault);
    };
    let own = ty.copy(alloc)?;
    let typed = typing(alloc, context, variables, operand, Some(&packed))?;
    Ok(applied_to_one(alloc, own, Op::Unpack, typed.expr)?)
}

/// `fromInteger(e)`.
#[cycle(typing)]
#[tactic(auto, unfolding(crate::specs::Forms::from_integer_case))]
fn from_integer(
    alloc: Global,
    context: &Context,
    variables: &Scopes<Variable>,
    operand: &Expr,
    want: Option<&Ty>,
) -> Result<TypedExpr, Fail>
    ensures { Gives made result (spec.from_integer_case (seen context.now variables.now operand.now)
        (expected want.entry)) }
{
    let Some(ty) = want else {
        return Err(Fail::Fault);
    };
    if !has_family(ty) {
        return Err(Fail::Fault);
    }
    let own = ty.copy(alloc)?;
    let typed = typing(alloc, context, variables, operand, Some(&Ty::Integer))?;
    Ok(applied_to_one(alloc, own, Op::FromInteger, typed.expr)?)
}

/// `pack(e)`.
#[cycle(typing)]
#[tactic(auto, unfolding(crate::specs::Forms::pack_case))]
fn pack(
    alloc: Global,
    context: &Context,
    variables: &Scopes<Variable>,
    operand: &Expr,
    want: Option<&Ty>,
) -> Result<TypedExpr, Fail>
    ensures { Gives made result (spec.pack_case (limits context.now)
        (seen context.now variables.now operand.now) (expected want.entry)) }
{
    let typed = typing(alloc, context, variables, operand, None)?;
    let Some(packed) = context.packed(&typed.ty) else {
        return Err(Fail::Fault);
    };
    as_wanted(want, applied_to_one(alloc, packed, Op::Pack, typed.expr)?)
}

/// `isValid(e)`.
#[cycle(typing)]
#[tactic(auto, unfolding(crate::specs::Forms::is_valid_case))]
fn is_valid(
    alloc: Global,
    context: &Context,
    variables: &Scopes<Variable>,
    operand: &Expr,
    want: Option<&Ty>,
) -> Result<TypedExpr, Fail>
    ensures { Gives made result (spec.is_valid_case (seen context.now variables.now operand.now)
        (expected want.entry)) }
{
    let typed = typing(alloc, context, variables, operand, None)?;
    match payload(&typed.ty) {
        Some(_) => as_wanted(
            want,
            applied_to_one(alloc, Ty::Bool, Op::IsValid, typed.expr)?,
        ),
        None => Err(Fail::Fault),
    }
}

/// `validValue(e)`.
#[cycle(typing)]
#[tactic(auto, unfolding(crate::specs::Forms::valid_value_case))]
fn valid_value(
    alloc: Global,
    context: &Context,
    variables: &Scopes<Variable>,
    operand: &Expr,
    want: Option<&Ty>,
) -> Result<TypedExpr, Fail>
    ensures { Gives made result (spec.valid_value_case (seen context.now variables.now operand.now)
        (expected want.entry)) }
{
    let typed = Boxed::new(alloc, typing(alloc, context, variables, operand, None)?)?;
    let Some(held) = payload(&typed.get().ty) else {
        return Err(Fail::Fault);
    };
    let ty = held.copy(alloc)?;
    let operand = typed.into_inner().expr;
    as_wanted(want, applied_to_one(alloc, ty, Op::ValidValue, operand)?)
}

/// `fromMaybe(d, e)`: the Maybe decides the type of the default.
#[cycle(typing)]
#[tactic(auto, unfolding(crate::specs::Forms::from_maybe_case))]
fn from_maybe(
    alloc: Global,
    context: &Context,
    variables: &Scopes<Variable>,
    default: &Expr,
    operand: &Expr,
    want: Option<&Ty>,
) -> Result<TypedExpr, Fail>
    ensures { Gives made result (spec.from_maybe_case (seen context.now variables.now default.now)
        (seen context.now variables.now operand.now) (expected want.entry)) }
{
    let typed = Boxed::new(alloc, typing(alloc, context, variables, operand, None)?)?;
    let Some(held) = payload(&typed.get().ty) else {
        return Err(Fail::Fault);
    };
    let ty = held.copy(alloc)?;
    let other = typing(alloc, context, variables, default, Some(held))?;
    let operand = typed.into_inner().expr;
    as_wanted(
        want,
        applied_to_two(alloc, ty, Op::FromMaybe, other.expr, operand)?,
    )
}

/// A call of a function of the program.
#[cycle(typing)]
#[tactic(auto, unfolding(crate::specs::Forms::function_case))]
fn function_call(
    alloc: Global,
    context: &Context,
    variables: &Scopes<Variable>,
    name: &Name,
    given: &[Expr],
    want: Option<&Ty>,
) -> Result<TypedExpr, Fail>
    ensures { Gives made result (spec.function_case (function_named context.now name.now)
        (all_seen context.now variables.now given.now) (expected want.entry)) }
{
    match context.function(name) {
        Some(function) => call_of_header(alloc, context, variables, function, given, want),
        None => Err(Fail::Fault),
    }
}

/// A call of the function with this header.
#[cycle(typing)]
#[tactic(auto, unfolding(crate::specs::Forms::function_case))]
fn call_of_header(
    alloc: Global,
    context: &Context,
    variables: &Scopes<Variable>,
    function: &FunctionHeader,
    given: &[Expr],
    want: Option<&Ty>,
) -> Result<TypedExpr, Fail>
    ensures { Gives made result (spec.function_case (Some (header function.now))
        (all_seen context.now variables.now given.now) (expected want.entry)) }
{
    let params = Params::Types(function.params.as_slice());
    let operands = arguments(alloc, context, variables, given, params)?;
    let typed = called(alloc, &function.result, function.number, operands)?;
    as_wanted(want, typed)
}

/// Arguments of the types of parameters, and no others.
#[cycle(typing)]
#[tactic(auto, using(crate::proofs::Lists::fronts), unfolding(crate::specs::Forms::arguments))]
pub fn arguments(
    alloc: Global,
    context: &Context,
    variables: &Scopes<Variable>,
    given: &[Expr],
    params: Params<'_>,
) -> Result<Items<Typed>, Fail>
    ensures { Gives exprs result (spec.arguments (params_of params.entry)
        (all_seen context.now variables.now given.now)) }
{
    let mut found = Items::new(alloc);
    let mut rest = given;
    let mut types = params;
    while let Some((argument, after)) = rest.split_first() {
        let Some((ty, more)) = types.split_first() else {
            return Err(Fail::Fault);
        };
        let typed = typing(alloc, context, variables, argument, Some(ty))?;
        found.push(typed.expr)?;
        rest = after;
        types = more;
    }
    match types.split_first() {
        None => Ok(found),
        Some(_) => Err(Fail::Fault),
    }
}

/// `S { f: e, .. }`.
#[cycle(typing)]
#[tactic(auto, using(crate::proofs::Lists::lengths), unfolding(crate::specs::Forms::construct_case))]
fn construct(
    alloc: Global,
    context: &Context,
    variables: &Scopes<Variable>,
    name: &Name,
    given: &[FieldValue],
    want: Option<&Ty>,
) -> Result<TypedExpr, Fail>
    ensures { Gives made result (ordered (limits context.now)
        (spec.construct_case (limits context.now) (structure_named context.now name.now)
        (fields_seen context.now variables.now given.now)) (expected want.entry)) }
{
    let Some(structure) = context.structure(name) else {
        return Err(Fail::Fault);
    };
    let ty = Ty::Struct(structure);
    let (numbers, found) = field_values(alloc, context, variables, given, &ty)?;
    if given.len() != field_count(context, structure) {
        return Err(Fail::Fault);
    }
    let ops = sets(alloc, numbers.as_slice())?;
    let typed = applied(alloc, ty, ops, found)?;
    context.in_order(as_wanted(want, typed)?)
}

/// Values of fields, none twice, with the places of their fields.
#[cycle(typing)]
#[tactic(auto, using(crate::proofs::Values::values), unfolding(crate::specs::Forms::field_values))]
fn field_values(
    alloc: Global,
    context: &Context,
    variables: &Scopes<Variable>,
    given: &[FieldValue],
    ty: &Ty,
) -> Result<(Items<u32>, Items<Typed>), Fail>
    ensures { Gives (λ r. r) result (spec.field_values (limits context.now) (kind ty.now) []
        (fields_seen context.now variables.now given.now)) }
{
    let mut numbers = Items::new(alloc);
    let mut found = Items::new(alloc);
    let mut rest = given;
    while let Some((value, after)) = rest.split_first() {
        let Some((place, field)) = field_named(context, ty, value.field.name.bytes()) else {
            return Err(Fail::Fault);
        };
        let number = place_number(place)?;
        if is_among(number, numbers.as_slice()) {
            return Err(Fail::Fault);
        }
        let typed = typing(alloc, context, variables, &value.value, Some(field))?;
        numbers.push(number)?;
        found.push(typed.expr)?;
        rest = after;
    }
    Ok((numbers, found))
}

/// What comes before suffixes.
#[cycle(typing)]
fn front(
    alloc: Global,
    context: &Context,
    variables: &Scopes<Variable>,
    expr: &Expr,
) -> Result<Front, Fail>
    ensures { Gives front_of result (term (env context.now variables.now) expr.now).front }
{
    match expr {
        Expr::Name(_, name) => name_front(alloc, context, variables, &name.name),
        Expr::Postfix(_, primary, suffixes) => {
            postfix(
                alloc,
                context,
                variables,
                primary.get(),
                suffixes.as_slice(),
            )
        }
        _ => Ok(Front::Whole(typing(alloc, context, variables, expr, None)?)),
    }
}

/// The instance that an expression names. In brackets no instance stands.
pub fn handed_instance(
    alloc: Global,
    context: &Context,
    variables: &Scopes<Variable>,
    expr: &Expr,
) -> Result<Instance, Fail>
    ensures { Gives instance_of result (instance_named
        (term (env context.now variables.now) expr.now)) }
{
    match front(alloc, context, variables, expr)? {
        Front::Instance(instance) => Ok(instance),
        _ => Err(Fail::Fault),
    }
}

/// What comes after suffixes.
#[cycle(typing)]
fn postfix(
    alloc: Global,
    context: &Context,
    variables: &Scopes<Variable>,
    primary: &Expr,
    suffixes: &[Suffix],
) -> Result<Front, Fail>
    ensures { Gives front_of result (table.postfix_front
        (term (env context.now variables.now) primary.now)
        (suffixes_seen context.now variables.now suffixes.now)) }
{
    let mut found = front(alloc, context, variables, primary)?;
    let mut rest = suffixes;
    while let Some((suffix, after)) = rest.split_first() {
        found = behind(alloc, context, variables, suffix, found)?;
        rest = after;
    }
    Ok(found)
}

/// What comes after one suffix.
#[cycle(typing)]
fn behind(
    alloc: Global,
    context: &Context,
    variables: &Scopes<Variable>,
    suffix: &Suffix,
    front: Front,
) -> Result<Front, Fail>
    ensures { Gives front_of result (suffix_seen context.now variables.now suffix.now
        (front_of front)) }
{
    match suffix {
        Suffix::Member(_, name) => {
            let found = member_after(alloc, context, name.name.bytes(), front)?;
            in_order_front(context, found)
        }
        Suffix::Method(_, name, given) => {
            let name = name.name.bytes();
            let found = method_after(alloc, context, variables, name, given.as_slice(), front)?;
            in_order_front(context, found)
        }
        Suffix::Index(_, place) => {
            let found = index_after(alloc, context, variables, place, front)?;
            in_order_front(context, found)
        }
        Suffix::Slice(_, high, low) => {
            let high = literal(context, variables, high);
            let low = literal(context, variables, low);
            let found = slice_after(alloc, context, high, low, front)?;
            in_order_front(context, found)
        }
    }
}

/// `.m(args)`: a value method.
#[cycle(typing)]
#[tactic(auto, unfolding(crate::specs::Places::method_after, crate::specs::Places::call_of))]
fn method_after(
    alloc: Global,
    context: &Context,
    variables: &Scopes<Variable>,
    name: &[u8],
    given: &[Expr],
    front: Front,
) -> Result<Front, Fail>
    ensures { Gives front_of result (places.method_after (limits context.now) name.now
        (all_seen context.now variables.now given.now) (front_of front)) }
{
    let Front::Instance(instance) = front else {
        return Err(Fail::Fault);
    };
    let instance = Boxed::new(alloc, instance)?;
    let interface = instance.get().ty.copy(alloc)?;
    let Some(method) = method_named(context, &interface, name) else {
        return Err(Fail::Fault);
    };
    let ty = method.effect.value_type(alloc)?;
    let operands = arguments(alloc, context, variables, given, method.params)?;
    let instance = instance.into_inner();
    Ok(Front::Whole(method_call(alloc, instance, method.number, ty, operands)?))
}

/// `[i]`: a place of an array, or a bit.
#[cycle(typing)]
#[tactic(auto, unfolding(crate::specs::Places::index_after, crate::specs::Places::value_at))]
fn index_after(
    alloc: Global,
    context: &Context,
    variables: &Scopes<Variable>,
    place: &Expr,
    front: Front,
) -> Result<Front, Fail>
    ensures { Gives front_of result (places.index_after (limits context.now)
        (seen context.now variables.now place.now) (front_of front)) }
{
    match front {
        Front::Array(level, ty) => {
            let typed = typing(alloc, context, variables, place, Some(&Ty::Integer))?;
            let index = Some(Boxed::new(alloc, typed.expr)?);
            Ok(Front::Instance(Instance { level, index, ty }))
        }
        Front::Whole(typed) => bit_of(alloc, context, variables, place, typed),
        Front::Instance(instance) => {
            let typed = read(alloc, context, instance)?;
            bit_of(alloc, context, variables, place, typed)
        }
    }
}

/// A bit of a Bit.
#[cycle(typing)]
#[tactic(auto, unfolding(crate::specs::Places::bit_of))]
fn bit_of(
    alloc: Global,
    context: &Context,
    variables: &Scopes<Variable>,
    place: &Expr,
    typed: TypedExpr,
) -> Result<Front, Fail>
    ensures { Gives front_of result (places.bit_of (seen context.now variables.now place.now)
        (made typed)) }
{
    let typed = Boxed::new(alloc, typed)?;
    if !is_bit(&typed.get().ty) {
        return Err(Fail::Fault);
    }
    let index = typing(alloc, context, variables, place, Some(&Ty::Integer))?;
    let index = one(alloc, index.expr)?;
    let operand = typed.into_inner().expr;
    let bit = with_suffix(alloc, Ty::Bit(1), Op::Index, index, operand)?;
    Ok(Front::Whole(bit))
}
