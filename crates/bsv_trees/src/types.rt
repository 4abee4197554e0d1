use crate::shown::{Shown, close, note, open, put, show_name};
use bsv_ast::{Base, Items, Literal, Param, Span, TypeArgument, WrittenType};
use itoa::Buffer;
use std::alloc::AllocError;

/// A number: its size, the letter of its base and its value, in decimal digits.
pub(crate) fn show_literal(
    shown: &mut Shown,
    span: Span,
    literal: &Literal,
) -> Result<(), AllocError> {
    note(shown, "number", span)?;
    put(shown, b" ")?;
    let mut digits = Buffer::new();
    if let Some(size) = literal.size {
        put(shown, digits.format(size).as_bytes())?;
    }
    let letter: &[u8] = match literal.base {
        None => b"",
        Some(Base::Binary) => b"b",
        Some(Base::Octal) => b"o",
        Some(Base::Decimal) => b"d",
        Some(Base::Hexadecimal) => b"h",
    };
    put(shown, letter)?;
    put(shown, digits.format(literal.value).as_bytes())
}

pub(crate) fn show_type(
    shown: &mut Shown,
    written: &WrittenType,
    fuel: usize,
) -> Result<(), AllocError> {
    let Some(fuel) = fuel.checked_sub(1) else {
        return put(shown, b"?");
    };
    match written {
        WrittenType::Named(span, name) => {
            note(shown, "type", *span)?;
            show_name(shown, name)
        }
        WrittenType::Int(span) => {
            note(shown, "type", *span)?;
            put(shown, b" int")
        }
        WrittenType::Applied(span, name, argument) => {
            open(shown, "type", *span)?;
            show_name(shown, name)?;
            note(shown, "argument", argument.get().span())?;
            match argument.get() {
                TypeArgument::Written(_, inner) => show_type(shown, inner, fuel)?,
                TypeArgument::Number(span, literal) => show_literal(shown, *span, literal)?,
            }
            close(shown)
        }
    }
}

pub(crate) fn show_params(
    shown: &mut Shown,
    params: &Items<Param>,
    fuel: usize,
) -> Result<(), AllocError> {
    for param in params.as_slice() {
        open(shown, "param", param.span)?;
        show_type(shown, &param.written, fuel)?;
        show_name(shown, &param.name)?;
        close(shown)?;
    }
    Ok(())
}
