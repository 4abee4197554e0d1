ghost use Rattle.std.specs.Prelude.{◌≡◌, [], ◌∷◌, IfOk};
ghost use Rattle.bsv_lex.specs.declared.terminal.Terminal.TheVariants as word;
ghost use Rattle.bsv_expr.specs.Reading as reading;
ghost use Rattle.bsv_expr.specs.Reading.{Gives};
ghost use Rattle.bsv_blocks.specs.Types as grammar;
ghost use Rattle.bsv_blocks.specs.Types.{part};

use bsv_ast::{Base, Boxed, Ident, Literal, Span, TypeArgument, WrittenType};
use bsv_expr::{Lexeme, ReadFault, expect, name, number, refusal, same_terminal, starts, text, to};
use bsv_lex::{Terminal, literal};
use std::alloc::{AllocError, Global};

/// A number in a type, and the tokens after it.
#[tactic(auto, unfolding(bsv_expr::specs::Reading::take_leaf))]
fn size<'a>(
    source: &[u8],
    lexemes: &'a [Lexeme],
) -> Result<((Span, Literal), &'a [Lexeme]), ReadFault>
    ensures { Gives (λ x. (x.0, x.1.now)) result
        (reading.take_leaf source.now (word.Number ∷ []) grammar.size_told lexemes.now) }
{
    match lexemes {
        [next, rest @ ..] if same_terminal(next.terminal, Terminal::Number) => {
            match literal(text(source, next.span)) {
                Some(value) if value.size.is_none() && value.value <= 65_535 => {
                    Ok(((next.span, value), rest))
                }
                _ => Err(refusal(lexemes)),
            }
        }
        _ => Err(refusal(lexemes)),
    }
}

/// A name alone, or with what it is applied to.
fn named_or_applied(
    alloc: Global,
    name: Ident,
    found: Option<(TypeArgument, Span)>,
) -> Result<WrittenType, AllocError>
    ensures { IfOk result (λ x. x ≡ grammar.named_or_applied name found) }
{
    match found {
        None => Ok(WrittenType::Named(name.span, name)),
        Some((argument, close)) => {
            let span = to(name.span, close);
            Ok(WrittenType::Applied(span, name, Boxed::new(alloc, argument)?))
        }
    }
}

/// A type in which fewer than `depth` brackets are open at once.
#[cycle(written)]
#[tactic(auto, unfolding(crate::specs::Types::written))]
pub fn written<'a>(
    alloc: Global,
    source: &[u8],
    lexemes: &'a [Lexeme],
    depth: usize,
) -> Result<(WrittenType, &'a [Lexeme]), ReadFault>
    ensures { Gives (λ x. (x.0, x.1.now)) result (grammar.written source.now depth lexemes.now) }
{
    if depth == 0 {
        return Err(ReadFault::TooDeep);
    }
    outer(alloc, source, lexemes, depth - 1)
}

/// `type | Number`
#[cycle(written)]
#[tactic(auto, unfolding(crate::specs::Types::argument, bsv_expr::specs::Reading::read))]
fn argument<'a>(
    alloc: Global,
    source: &[u8],
    lexemes: &'a [Lexeme],
    depth: usize,
) -> Result<(TypeArgument, &'a [Lexeme]), ReadFault>
    ensures { Gives (λ x. (x.0, x.1.now)) result
        (part source.now depth grammar.argument lexemes.now) }
{
    if starts(&[Terminal::Number], lexemes) {
        let ((span, value), rest) = size(source, lexemes)?;
        return Ok((TypeArgument::Number(span, value), rest));
    }
    let (found, rest) = written(alloc, source, lexemes, depth)?;
    Ok((TypeArgument::Written(found.span(), found), rest))
}

/// `"#" "(" targ ")"`, if it is there, and where its `)` stands.
#[cycle(written)]
#[tactic(auto, unfolding(crate::specs::Types::applied, bsv_expr::specs::Reading::read))]
fn applied<'a>(
    alloc: Global,
    source: &[u8],
    lexemes: &'a [Lexeme],
    depth: usize,
) -> Result<(Option<(TypeArgument, Span)>, &'a [Lexeme]), ReadFault>
    ensures { Gives (λ x. (x.0, x.1.now)) result
        (part source.now depth grammar.applied lexemes.now) }
{
    if !starts(&[Terminal::Hash], lexemes) {
        return Ok((None, lexemes));
    }
    let (_, rest) = expect(Terminal::Hash, lexemes)?;
    let (_, rest) = expect(Terminal::OpenParen, rest)?;
    let (found, rest) = argument(alloc, source, rest, depth)?;
    let (close, rest) = expect(Terminal::CloseParen, rest)?;
    Ok((Some((found, close)), rest))
}

/// `Upper [ "#" "(" targ ")" ] | "int"`
#[cycle(written)]
#[tactic(auto, unfolding(crate::specs::Types::outer, bsv_expr::specs::Reading::read))]
fn outer<'a>(
    alloc: Global,
    source: &[u8],
    lexemes: &'a [Lexeme],
    depth: usize,
) -> Result<(WrittenType, &'a [Lexeme]), ReadFault>
    ensures { Gives (λ x. (x.0, x.1.now)) result (part source.now depth grammar.outer lexemes.now) }
{
    if starts(&[Terminal::Int], lexemes) {
        let (span, rest) = expect(Terminal::Int, lexemes)?;
        return Ok((WrittenType::Int(span), rest));
    }
    let (name, rest) = name(alloc, source, Terminal::Upper, lexemes)?;
    let (found, rest) = applied(alloc, source, rest, depth)?;
    Ok((named_or_applied(alloc, name, found)?, rest))
}
