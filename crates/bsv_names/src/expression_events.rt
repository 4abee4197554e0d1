ghost use Rattle.std.specs.Prelude.{◌≡◌, ◌++◌, OnOk};
ghost use Rattle.bsv_names.specs.ExpressionEvents as spec;

use crate::event::{Event, use_name, use_value};
use bsv_ast::{Expr, FieldValue, Items, Suffix, TypeArgument, WrittenType};
use bsv_bits::OutOfMemory;
use bsv_scopes::Space;
use std::alloc::Global;

/// Adds the names of a type.
pub(crate) fn type_events(
    alloc: Global,
    written: &WrittenType,
    found: &mut Items<Event>,
) -> Result<(), OutOfMemory>
    ensures { OnOk result (found.new ≡ found.old ++ spec.type_events written.now) }
{
    match written {
        WrittenType::Named(_, name) => use_name(alloc, Space::Types, name, found),
        WrittenType::Applied(_, name, argument) => {
            use_name(alloc, Space::Types, name, found)?;
            match argument.get() {
                TypeArgument::Written(_, inner) => type_events(alloc, inner, found),
                TypeArgument::Number(_, _) => Ok(()),
            }
        }
        WrittenType::Int(_) => Ok(()),
    }
}

/// Adds the names of an expression.
#[cycle(expression_events)]
pub(crate) fn expr_events(
    alloc: Global,
    expr: &Expr,
    found: &mut Items<Event>,
) -> Result<(), OutOfMemory>
    ensures { OnOk result (found.new ≡ found.old ++ spec.expr_events expr.now) }
{
    match expr {
        Expr::Number(_, _) | Expr::Invalid(_) => Ok(()),
        Expr::Label(_, name) => use_name(alloc, Space::Labels, name, found),
        Expr::Name(_, name) => use_value(alloc, name, found),
        Expr::Call(_, name, arguments) => {
            use_name(alloc, Space::Functions, name, found)?;
            exprs_events(alloc, arguments.as_slice(), found)
        }
        Expr::Group(_, inner) | Expr::Unary(_, _, inner) | Expr::Valid(_, inner) => {
            expr_events(alloc, inner.get(), found)
        }
        Expr::Concat(_, operands) | Expr::Chain(_, _, _, operands) => {
            exprs_events(alloc, operands.as_slice(), found)
        }
        Expr::Struct(_, name, fields) => {
            use_name(alloc, Space::Types, name, found)?;
            fields_events(alloc, fields.as_slice(), found)
        }
        Expr::Postfix(_, primary, suffixes) => {
            expr_events(alloc, primary.get(), found)?;
            suffixes_events(alloc, suffixes.as_slice(), found)
        }
        Expr::Choice(_, conditions, values) => {
            choice_events(alloc, conditions.as_slice(), values.as_slice(), found)
        }
    }
}

/// Adds the names of expressions, one after the other.
#[cycle(expression_events)]
pub(crate) fn exprs_events(
    alloc: Global,
    exprs: &[Expr],
    found: &mut Items<Event>,
) -> Result<(), OutOfMemory>
    ensures { OnOk result (found.new ≡ found.old ++ spec.exprs_events exprs.now) }
{
    let mut rest = exprs;
    while let Some((expr, after)) = rest.split_first() {
        expr_events(alloc, expr, found)?;
        rest = after;
    }
    Ok(())
}

#[cycle(expression_events)]
fn fields_events(
    alloc: Global,
    fields: &[FieldValue],
    found: &mut Items<Event>,
) -> Result<(), OutOfMemory>
    ensures { OnOk result (found.new ≡ found.old ++ spec.fields_events fields.now) }
{
    let mut rest = fields;
    while let Some((field, after)) = rest.split_first() {
        expr_events(alloc, &field.value, found)?;
        rest = after;
    }
    Ok(())
}

#[cycle(expression_events)]
fn suffix_events(
    alloc: Global,
    suffix: &Suffix,
    found: &mut Items<Event>,
) -> Result<(), OutOfMemory>
    ensures { OnOk result (found.new ≡ found.old ++ spec.suffix_events suffix.now) }
{
    match suffix {
        Suffix::Member(_, _) => Ok(()),
        Suffix::Method(_, _, arguments) => exprs_events(alloc, arguments.as_slice(), found),
        Suffix::Index(_, place) => expr_events(alloc, place, found),
        Suffix::Slice(_, high, low) => {
            expr_events(alloc, high, found)?;
            expr_events(alloc, low, found)
        }
    }
}

#[cycle(expression_events)]
fn suffixes_events(
    alloc: Global,
    suffixes: &[Suffix],
    found: &mut Items<Event>,
) -> Result<(), OutOfMemory>
    ensures { OnOk result (found.new ≡ found.old ++ spec.suffixes_events suffixes.now) }
{
    let mut rest = suffixes;
    while let Some((suffix, after)) = rest.split_first() {
        suffix_events(alloc, suffix, found)?;
        rest = after;
    }
    Ok(())
}

/// Adds the names of conditions and values in the order of the text.
#[cycle(expression_events)]
fn choice_events(
    alloc: Global,
    conditions: &[Expr],
    values: &[Expr],
    found: &mut Items<Event>,
) -> Result<(), OutOfMemory>
    ensures { OnOk result (found.new ≡ found.old ++ spec.choice_events conditions.now values.now) }
{
    let mut conditions = conditions;
    let mut values = values;
    while let Some((condition, more_conditions)) = conditions.split_first() {
        let Some((value, more_values)) = values.split_first() else {
            return exprs_events(alloc, conditions, found);
        };
        expr_events(alloc, condition, found)?;
        expr_events(alloc, value, found)?;
        conditions = more_conditions;
        values = more_values;
    }
    exprs_events(alloc, values, found)
}
