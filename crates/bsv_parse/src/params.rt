ghost use Rattle.bsv_expr.specs.Reading.{Gives};
ghost use Rattle.bsv_parse.specs.Places.{part};
ghost use Rattle.bsv_parse.specs.Definitions as grammar;

use bsv_ast::{Items, Param};
use bsv_blocks::written;
use bsv_expr::{Lexeme, ReadFault, expect, name, starts, to};
use bsv_lex::Terminal;
use std::alloc::Global;

/// `type Lower`
#[tactic(auto, unfolding(crate::specs::Definitions::param, crate::specs::Places::inner, bsv_expr::specs::Reading::read))]
fn param<'a>(
    alloc: Global,
    source: &[u8],
    lexemes: &'a [Lexeme],
    depth: usize,
) -> Result<(Param, &'a [Lexeme]), ReadFault>
    ensures { Gives (λ x. (x.0, x.1.now)) result (part source.now depth grammar.param lexemes.now) }
{
    let (written, rest) = written(alloc, source, lexemes, depth)?;
    let (name, rest) = name(alloc, source, Terminal::Lower, rest)?;
    let span = to(written.span(), name.span);
    Ok((
        Param {
            span,
            written,
            name,
        },
        rest,
    ))
}

/// `"," type Lower`
#[tactic(auto, unfolding(crate::specs::Definitions::next_param, bsv_expr::specs::Reading::read))]
fn next_param<'a>(
    alloc: Global,
    source: &[u8],
    lexemes: &'a [Lexeme],
    depth: usize,
) -> Result<(Param, &'a [Lexeme]), ReadFault>
    ensures { Gives (λ x. (x.0, x.1.now)) result
        (part source.now depth grammar.next_param lexemes.now) }
{
    let (_, rest) = expect(Terminal::Comma, lexemes)?;
    param(alloc, source, rest, depth)
}

/// `type Lower { "," type Lower }`
#[tactic(auto, using(bsv_expr::proofs::Turns::turns_of), unfolding(crate::specs::Definitions::params, bsv_expr::specs::Reading::read))]
pub fn params<'a>(
    alloc: Global,
    source: &[u8],
    lexemes: &'a [Lexeme],
    depth: usize,
) -> Result<(Items<Param>, &'a [Lexeme]), ReadFault>
    ensures { Gives (λ x. (x.0, x.1.now)) result
        (part source.now depth grammar.params lexemes.now) }
{
    let mut found = Items::new(alloc);
    let (first, mut rest) = param(alloc, source, lexemes, depth)?;
    found.push(first)?;
    for _turn in 0..rest.len() {
        if !starts(&[Terminal::Comma], rest) {
            return Ok((found, rest));
        }
        let (next, after) = next_param(alloc, source, rest, depth)?;
        found.push(next)?;
        rest = after;
    }
    Ok((found, rest))
}

/// `"(" [ params ] ")"`
#[tactic(auto, unfolding(crate::specs::Definitions::bracketed_params, bsv_blocks::specs::Types::type_first, bsv_expr::specs::Reading::read))]
pub fn bracketed_params<'a>(
    alloc: Global,
    source: &[u8],
    lexemes: &'a [Lexeme],
    depth: usize,
) -> Result<(Items<Param>, &'a [Lexeme]), ReadFault>
    ensures { Gives (λ x. (x.0, x.1.now)) result
        (part source.now depth grammar.bracketed_params lexemes.now) }
{
    let (_, rest) = expect(Terminal::OpenParen, lexemes)?;
    if !starts(&[Terminal::Upper, Terminal::Int], rest) {
        let (_, rest) = expect(Terminal::CloseParen, rest)?;
        return Ok((Items::new(alloc), rest));
    }
    let (found, rest) = params(alloc, source, rest, depth)?;
    let (_, rest) = expect(Terminal::CloseParen, rest)?;
    Ok((found, rest))
}

/// `[ "(" [ params ] ")" ]`
#[tactic(auto, unfolding(crate::specs::Definitions::optional_params, bsv_expr::specs::Reading::read))]
pub fn optional_params<'a>(
    alloc: Global,
    source: &[u8],
    lexemes: &'a [Lexeme],
    depth: usize,
) -> Result<(Items<Param>, &'a [Lexeme]), ReadFault>
    ensures { Gives (λ x. (x.0, x.1.now)) result
        (part source.now depth grammar.optional_params lexemes.now) }
{
    if !starts(&[Terminal::OpenParen], lexemes) {
        return Ok((Items::new(alloc), lexemes));
    }
    bracketed_params(alloc, source, lexemes, depth)
}
