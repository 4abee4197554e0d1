ghost use Rattle.std.specs.Prelude.{◌≡◌};
ghost use Rattle.bsv_expr.specs.Reading.{Gives};
ghost use Rattle.bsv_parse.specs.Places as places;
ghost use Rattle.bsv_parse.specs.Places.{part};
ghost use Rattle.bsv_parse.specs.Definitions as grammar;
ghost use Rattle.bsv_parse.specs.ModuleTrees as trees;

use bsv_ast::{Body, Expr, Items, Span, Stmt};
use bsv_blocks::{STMT_FIRST, stmt, word};
use bsv_expr::{Lexeme, ReadFault, expect, expr, starts, to};
use bsv_lex::Terminal;
use std::alloc::Global;

/// `{ stmt }`
#[tactic(auto, using(bsv_expr::proofs::Turns::turns_of), unfolding(crate::specs::Places::stmts, bsv_blocks::specs::Statements::stmt_first, crate::specs::Places::inner, bsv_expr::specs::Reading::read))]
pub fn stmts<'a>(
    alloc: Global,
    source: &[u8],
    lexemes: &'a [Lexeme],
    depth: usize,
) -> Result<(Items<Stmt>, &'a [Lexeme]), ReadFault>
    ensures { Gives (λ x. (x.0, x.1.now)) result (part source.now depth places.stmts lexemes.now) }
{
    let mut found = Items::new(alloc);
    let mut rest = lexemes;
    for _turn in 0..lexemes.len() {
        if !starts(&STMT_FIRST, rest) {
            return Ok((found, rest));
        }
        let (next, after) = stmt(alloc, source, rest, depth)?;
        found.push(next)?;
        rest = after;
    }
    Ok((found, rest))
}

/// `"(" expr ")"`
#[tactic(auto, unfolding(crate::specs::Definitions::asked, crate::specs::Places::inner, bsv_expr::specs::Reading::read))]
pub fn asked<'a>(
    alloc: Global,
    source: &[u8],
    lexemes: &'a [Lexeme],
    depth: usize,
) -> Result<(Expr, &'a [Lexeme]), ReadFault>
    ensures { Gives (λ x. (x.0, x.1.now)) result (part source.now depth grammar.asked lexemes.now) }
{
    let (_, rest) = expect(Terminal::OpenParen, lexemes)?;
    let (found, rest) = expr(alloc, source, rest, depth, false)?;
    let (_, rest) = expect(Terminal::CloseParen, rest)?;
    Ok((found, rest))
}

/// The name that an `end..` word ends, if it is there again, as in `[ ":" Lower ]`; and where the
/// definition ends.
#[tactic(auto, unfolding(bsv_expr::specs::Reading::read))]
pub fn ending<'a>(
    source: &[u8],
    kind: Terminal,
    name: &[u8],
    close: Span,
    lexemes: &'a [Lexeme],
) -> Result<(Span, &'a [Lexeme]), ReadFault>
    ensures { Gives (λ x. (x.0, x.1.now)) result
        (part source.now 0 (grammar.ending kind name.now close) lexemes.now) }
{
    if !starts(&[Terminal::Colon], lexemes) {
        return Ok((close, lexemes));
    }
    let (_, rest) = expect(Terminal::Colon, lexemes)?;
    word(source, kind, name, rest)
}

/// Where the statements of a body stand, with the `;` in front of them.
fn statements_span(start: Span, found: &Items<Stmt>) -> Span
    ensures { result ≡ trees.statements_span start found.now }
{
    match found.as_slice().last() {
        Some(last) => to(start, last.span()),
        None => start,
    }
}

/// `";" { stmt }`, the `end..` word and `[ ":" Lower ]`
#[tactic(auto, unfolding(crate::specs::Definitions::statements_body, crate::specs::Definitions::statements_front, bsv_expr::specs::Reading::read))]
fn statements_body<'a>(
    alloc: Global,
    source: &[u8],
    last: Terminal,
    name: &[u8],
    lexemes: &'a [Lexeme],
    depth: usize,
) -> Result<((Body, Span), &'a [Lexeme]), ReadFault>
    ensures { Gives (λ x. (x.0, x.1.now)) result
        (part source.now depth (grammar.statements_body last name.now) lexemes.now) }
{
    let (start, rest) = expect(Terminal::Semicolon, lexemes)?;
    let (found, rest) = stmts(alloc, source, rest, depth)?;
    let (close, rest) = expect(last, rest)?;
    let (close, rest) = ending(source, Terminal::Lower, name, close, rest)?;
    let span = statements_span(start, &found);
    Ok(((Body::Statements(span, found), close), rest))
}

/// `"=" expr ";"`
#[tactic(auto, unfolding(crate::specs::Definitions::value_body, crate::specs::Places::inner, bsv_expr::specs::Reading::read))]
fn value_body<'a>(
    alloc: Global,
    source: &[u8],
    lexemes: &'a [Lexeme],
    depth: usize,
) -> Result<((Body, Span), &'a [Lexeme]), ReadFault>
    ensures { Gives (λ x. (x.0, x.1.now)) result
        (part source.now depth grammar.value_body lexemes.now) }
{
    let (open, rest) = expect(Terminal::Equal, lexemes)?;
    let (value, rest) = expr(alloc, source, rest, depth, false)?;
    let (close, rest) = expect(Terminal::Semicolon, rest)?;
    Ok(((Body::Value(to(open, close), value), close), rest))
}

/// What a method or a function of this name does, and where it ends.
#[tactic(auto, unfolding(crate::specs::Definitions::body, bsv_expr::specs::Reading::read))]
pub fn body<'a>(
    alloc: Global,
    source: &[u8],
    last: Terminal,
    name: &[u8],
    lexemes: &'a [Lexeme],
    depth: usize,
) -> Result<((Body, Span), &'a [Lexeme]), ReadFault>
    ensures { Gives (λ x. (x.0, x.1.now)) result
        (part source.now depth (grammar.body last name.now) lexemes.now) }
{
    if starts(&[Terminal::Semicolon], lexemes) {
        return statements_body(alloc, source, last, name, lexemes, depth);
    }
    value_body(alloc, source, lexemes, depth)
}
