ghost use Rattle.std.specs.Prelude.{◌≡◌, ℕ, List, [], ◌∷◌, Err};
ghost use Rattle.bsv_expr.specs.Reading as spec;
ghost use Rattle.bsv_expr.specs.Reading.{Gives};
ghost use Rattle.bsv_expr.specs.Expressions as grammar;
ghost use Rattle.bsv_lex.specs.declared.terminal.Terminal.TheVariants as word;

use crate::fault::ReadFault;
use crate::lexeme::{Lexeme, is_in, same_terminal, text};
use bsv_ast::{Ident, Literal, Span, UnaryOperator};
use bsv_bits::Name;
use bsv_lex::{Terminal, literal};
use std::alloc::Global;

/// The fault that nothing goes on with the next token.
pub fn refusal(lexemes: &[Lexeme]) -> ReadFault
    ensures { result ≡ spec.fault_at lexemes.now }
{
    ReadFault::Syntax(lexemes.len())
}

/// This word, and the tokens after it.
#[tactic(auto, unfolding(crate::specs::Reading::take_leaf))]
pub fn expect(terminal: Terminal, lexemes: &[Lexeme]) -> Result<(Span, &[Lexeme]), ReadFault>
    ensures { (source : List ℕ) → Gives (λ x. (x.0, x.1.now)) result
        (spec.expect source terminal lexemes.now) }
{
    match lexemes {
        [next, rest @ ..] if same_terminal(next.terminal, terminal) => Ok((next.span, rest)),
        _ => Err(refusal(lexemes)),
    }
}

/// A name of this kind, and the tokens after it.
#[tactic(auto, unfolding(crate::specs::Reading::take_leaf))]
pub fn name<'a>(
    alloc: Global,
    source: &[u8],
    terminal: Terminal,
    lexemes: &'a [Lexeme],
) -> Result<(Ident, &'a [Lexeme]), ReadFault>
    ensures { Gives (λ x. (x.0, x.1.now)) result
        (spec.take_leaf source.now (terminal ∷ []) grammar.name_told lexemes.now) }
{
    match lexemes {
        [next, rest @ ..] if same_terminal(next.terminal, terminal) => {
            let name = Name::new(alloc, text(source, next.span))?;
            Ok((
                Ident {
                    span: next.span,
                    name,
                },
                rest,
            ))
        }
        _ => Err(refusal(lexemes)),
    }
}

/// A number, and the tokens after it.
#[tactic(auto, unfolding(crate::specs::Reading::take_leaf))]
pub fn number<'a>(
    source: &[u8],
    lexemes: &'a [Lexeme],
) -> Result<((Span, Literal), &'a [Lexeme]), ReadFault>
    ensures { Gives (λ x. (x.0, x.1.now)) result
        (spec.take_leaf source.now (word.Number ∷ []) grammar.number_told lexemes.now) }
{
    match lexemes {
        [next, rest @ ..] if same_terminal(next.terminal, Terminal::Number) => {
            match literal(text(source, next.span)) {
                Some(value) => Ok(((next.span, value), rest)),
                None => Err(refusal(lexemes)),
            }
        }
        _ => Err(refusal(lexemes)),
    }
}

/// `Valid` or `Invalid`, where it stands and whether it is `Valid`, and the tokens after it.
#[tactic(auto, unfolding(crate::specs::Reading::take_leaf))]
pub fn tag<'a>(
    source: &[u8],
    lexemes: &'a [Lexeme],
) -> Result<((Span, bool), &'a [Lexeme]), ReadFault>
    ensures { Gives (λ x. (x.0, x.1.now)) result
        (spec.take_leaf source.now (word.Upper ∷ []) grammar.tag_told lexemes.now) }
{
    match lexemes {
        [next, rest @ ..] if same_terminal(next.terminal, Terminal::Upper) => {
            let name = text(source, next.span);
            if name == b"Valid".as_slice() {
                Ok(((next.span, true), rest))
            } else if name == b"Invalid".as_slice() {
                Ok(((next.span, false), rest))
            } else {
                Err(refusal(lexemes))
            }
        }
        _ => Err(refusal(lexemes)),
    }
}
