use crate::shown::{Shown, close, note, open, put, show_name};
use crate::types::show_literal;
use bsv_ast::{Expr, FieldValue, Items, Level, Operator, Suffix, UnaryOperator};
use std::alloc::AllocError;

#[cycle(show_expressions)]
pub(crate) fn show_exprs(
    shown: &mut Shown,
    exprs: &Items<Expr>,
    fuel: usize,
) -> Result<(), AllocError> {
    let Some(fuel) = fuel.checked_sub(1) else {
        return put(shown, b"?");
    };
    for expr in exprs.as_slice() {
        show_expr(shown, expr, fuel)?;
    }
    Ok(())
}

#[cycle(show_expressions)]
pub(crate) fn show_expr(shown: &mut Shown, expr: &Expr, fuel: usize) -> Result<(), AllocError> {
    let Some(fuel) = fuel.checked_sub(1) else {
        return put(shown, b"?");
    };
    match expr {
        Expr::Number(span, literal) => return show_literal(shown, *span, literal),
        Expr::Label(span, name) => {
            note(shown, "label", *span)?;
            return show_name(shown, name);
        }
        Expr::Name(span, name) => {
            note(shown, "variable", *span)?;
            return show_name(shown, name);
        }
        _ => {}
    }
    open(shown, expr_kind(expr), expr.span())?;
    match expr {
        Expr::Number(_, _) | Expr::Label(_, _) | Expr::Name(_, _) | Expr::Invalid(_) => {}
        Expr::Call(_, name, arguments) => {
            show_name(shown, name)?;
            show_exprs(shown, arguments, fuel)?;
        }
        Expr::Group(_, inner) | Expr::Valid(_, inner) | Expr::Unary(_, _, inner) => {
            show_expr(shown, inner.get(), fuel)?;
        }
        Expr::Concat(_, parts) => show_exprs(shown, parts, fuel)?,
        Expr::Struct(_, name, fields) => {
            show_name(shown, name)?;
            show_fields(shown, fields, fuel)?;
        }
        Expr::Postfix(_, first, suffixes) => {
            show_expr(shown, first.get(), fuel)?;
            show_suffixes(shown, suffixes, fuel)?;
        }
        Expr::Chain(_, _, operators, operands) => show_chain(shown, operators, operands, fuel)?,
        Expr::Choice(_, conditions, values) => show_choice(shown, conditions, values, fuel)?,
    }
    close(shown)
}

/// What an expression is.
fn expr_kind(expr: &Expr) -> &'static str {
    match expr {
        Expr::Number(_, _) => "number",
        Expr::Label(_, _) => "label",
        Expr::Name(_, _) => "variable",
        Expr::Call(_, _, _) => "apply",
        Expr::Group(_, _) => "group",
        Expr::Concat(_, _) => "concat",
        Expr::Struct(_, _, _) => "build",
        Expr::Postfix(_, _, _) => "post",
        Expr::Unary(_, operator, _) => unary_kind(*operator),
        Expr::Valid(_, _) => "valid",
        Expr::Invalid(_) => "invalid",
        Expr::Chain(_, level, _, _) => level_kind(*level),
        Expr::Choice(_, _, _) => "choice",
    }
}

fn unary_kind(operator: UnaryOperator) -> &'static str {
    match operator {
        UnaryOperator::Not => "!",
        UnaryOperator::Complement => "~",
        UnaryOperator::Negate => "-",
    }
}

fn level_kind(level: Level) -> &'static str {
    match level {
        Level::Product => "product",
        Level::Sum => "sum",
        Level::Shift => "shift",
        Level::Order => "order",
        Level::Equality => "equality",
        Level::And => "and",
        Level::Xor => "xor",
        Level::Or => "or",
        Level::Both => "both",
        Level::Either => "either",
    }
}

fn operator_text(operator: Operator) -> &'static [u8] {
    match operator {
        Operator::Mul => b" *",
        Operator::Add => b" +",
        Operator::Sub => b" -",
        Operator::Shl => b" <<",
        Operator::Shr => b" >>",
        Operator::Less => b" <",
        Operator::LessOrSame => b" <=",
        Operator::Greater => b" >",
        Operator::GreaterOrSame => b" >=",
        Operator::Same => b" ==",
        Operator::Different => b" !=",
        Operator::And => b" &",
        Operator::Xor => b" ^",
        Operator::Or => b" |",
        Operator::Both => b" &&",
        Operator::Either => b" ||",
    }
}

#[cycle(show_expressions)]
fn show_chain(
    shown: &mut Shown,
    operators: &Items<Operator>,
    operands: &Items<Expr>,
    fuel: usize,
) -> Result<(), AllocError> {
    let Some(fuel) = fuel.checked_sub(1) else {
        return put(shown, b"?");
    };
    for (at, operand) in operands.as_slice().iter().enumerate() {
        show_expr(shown, operand, fuel)?;
        if let Some(operator) = operators.get(at) {
            put(shown, operator_text(*operator))?;
        }
    }
    Ok(())
}

#[cycle(show_expressions)]
fn show_choice(
    shown: &mut Shown,
    conditions: &Items<Expr>,
    values: &Items<Expr>,
    fuel: usize,
) -> Result<(), AllocError> {
    let Some(fuel) = fuel.checked_sub(1) else {
        return put(shown, b"?");
    };
    put(shown, b" (of")?;
    show_exprs(shown, conditions, fuel)?;
    put(shown, b") (of")?;
    show_exprs(shown, values, fuel)?;
    close(shown)
}

#[cycle(show_expressions)]
fn show_fields(
    shown: &mut Shown,
    fields: &Items<FieldValue>,
    fuel: usize,
) -> Result<(), AllocError> {
    let Some(fuel) = fuel.checked_sub(1) else {
        return put(shown, b"?");
    };
    for field in fields.as_slice() {
        open(shown, "field", field.span)?;
        show_name(shown, &field.field)?;
        show_expr(shown, &field.value, fuel)?;
        close(shown)?;
    }
    Ok(())
}

#[cycle(show_expressions)]
fn show_suffixes(
    shown: &mut Shown,
    suffixes: &Items<Suffix>,
    fuel: usize,
) -> Result<(), AllocError> {
    let Some(fuel) = fuel.checked_sub(1) else {
        return put(shown, b"?");
    };
    for suffix in suffixes.as_slice() {
        match suffix {
            Suffix::Member(span, name) => {
                open(shown, "member", *span)?;
                show_name(shown, name)?;
            }
            Suffix::Method(span, name, arguments) => {
                open(shown, "method", *span)?;
                show_name(shown, name)?;
                show_exprs(shown, arguments, fuel)?;
            }
            Suffix::Index(span, index) => {
                open(shown, "at", *span)?;
                show_expr(shown, index, fuel)?;
            }
            Suffix::Slice(span, high, low) => {
                open(shown, "slice", *span)?;
                show_expr(shown, high, fuel)?;
                show_expr(shown, low, fuel)?;
            }
        }
        close(shown)?;
    }
    Ok(())
}
