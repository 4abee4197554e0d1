ghost use Rattle.std.specs.Prelude.{◌≡◌};
ghost use Rattle.bsv_expr.specs.Reading.{Gives};
ghost use Rattle.bsv_parse.specs.Places.{part};
ghost use Rattle.bsv_parse.specs.Definitions as grammar;
ghost use Rattle.bsv_parse.specs.ModuleTrees as trees;

use bsv_ast::{Declaration, DeclaredType, Expr, Ident, Items, Make, ModuleStmt, Span, WrittenType};
use bsv_blocks::written;
use bsv_expr::{Lexeme, ReadFault, arguments, expect, expr, name, starts, to};
use bsv_lex::Terminal;
use std::alloc::Global;

/// What comes after `type Lower`, and where its `;` stands.
#[derive(Drop)]
pub enum Given {
    /// `"<-" make ";"`
    Instance(Make, Span),
    /// `"[" expr "]" ";"`
    Array(Expr, Span),
    /// `"=" expr ";"`
    Value(Expr, Span),
}

/// What comes after the name of a statement that changes what is there, and where its `;` stands.
#[derive(Drop)]
pub enum Changed {
    /// `"[" expr "]" "<-" make ";"`
    Place(Expr, Make, Span),
    /// `"=" expr ";"`
    Value(Expr, Span),
}

/// An instance's maker, with its arguments if there are any.
fn make_of(alloc: Global, maker: Ident, found: Option<(Items<Expr>, Span)>) -> Make
    ensures { result ≡ trees.make_of maker found }
{
    match found {
        None => Make {
            span: maker.span,
            maker,
            arguments: Items::new(alloc),
        },
        Some((arguments, close)) => Make {
            span: to(maker.span, close),
            maker,
            arguments,
        },
    }
}

/// A name and its value, after a type or `let`.
fn declaration(
    start: Span,
    declared: DeclaredType,
    name: Ident,
    value: Expr,
    close: Span,
) -> ModuleStmt
    ensures { result ≡ trees.declaration start declared name value close }
{
    let span = to(start, close);
    ModuleStmt::Declare(
        span,
        Declaration {
            span,
            declared,
            name,
            value,
        },
    )
}

/// `type Lower`, and what comes after it.
fn typed_of(written: WrittenType, name: Ident, found: Given) -> ModuleStmt
    ensures { result ≡ trees.typed_of (written, name) found }
{
    let start = written.span();
    match found {
        Given::Instance(make, close) => {
            ModuleStmt::Instance(to(start, close), written, name, make)
        }
        Given::Array(size, close) => ModuleStmt::Array(to(start, close), written, name, size),
        Given::Value(value, close) => {
            declaration(
                start,
                DeclaredType::Written(start, written),
                name,
                value,
                close,
            )
        }
    }
}

/// A name, and what comes after it.
fn changed_of(name: Ident, found: Changed) -> ModuleStmt
    ensures { result ≡ trees.changed_of name found }
{
    match found {
        Changed::Place(at, make, close) => {
            ModuleStmt::Place(to(name.span, close), name, at, make)
        }
        Changed::Value(value, close) => ModuleStmt::Assign(to(name.span, close), name, value),
    }
}

/// `Lower [ "(" [ exprs ] ")" ]`
#[tactic(auto, unfolding(crate::specs::Definitions::make, crate::specs::Places::inner, bsv_expr::specs::Reading::read))]
fn make<'a>(
    alloc: Global,
    source: &[u8],
    lexemes: &'a [Lexeme],
    depth: usize,
) -> Result<(Make, &'a [Lexeme]), ReadFault>
    ensures { Gives (λ x. (x.0, x.1.now)) result (part source.now depth grammar.make lexemes.now) }
{
    let (maker, rest) = name(alloc, source, Terminal::Lower, lexemes)?;
    if !starts(&[Terminal::OpenParen], rest) {
        return Ok((make_of(alloc, maker, None), rest));
    }
    let (found, rest) = arguments(alloc, source, rest, depth)?;
    Ok((make_of(alloc, maker, Some(found)), rest))
}

/// `"<-" make ";"`, and where its `;` stands.
#[tactic(auto, unfolding(crate::specs::Definitions::made, bsv_expr::specs::Reading::read))]
fn made<'a>(
    alloc: Global,
    source: &[u8],
    lexemes: &'a [Lexeme],
    depth: usize,
) -> Result<((Make, Span), &'a [Lexeme]), ReadFault>
    ensures { Gives (λ x. (x.0, x.1.now)) result (part source.now depth grammar.made lexemes.now) }
{
    let (_, rest) = expect(Terminal::LeftArrow, lexemes)?;
    let (found, rest) = make(alloc, source, rest, depth)?;
    let (close, rest) = expect(Terminal::Semicolon, rest)?;
    Ok(((found, close), rest))
}

/// `"=" expr ";"`, and where its `;` stands.
#[tactic(auto, unfolding(crate::specs::Definitions::valued, crate::specs::Places::inner, bsv_expr::specs::Reading::read))]
fn valued<'a>(
    alloc: Global,
    source: &[u8],
    lexemes: &'a [Lexeme],
    depth: usize,
) -> Result<((Expr, Span), &'a [Lexeme]), ReadFault>
    ensures { Gives (λ x. (x.0, x.1.now)) result
        (part source.now depth grammar.valued lexemes.now) }
{
    let (_, rest) = expect(Terminal::Equal, lexemes)?;
    let (value, rest) = expr(alloc, source, rest, depth, false)?;
    let (close, rest) = expect(Terminal::Semicolon, rest)?;
    Ok(((value, close), rest))
}

/// `"[" expr "]"`
#[tactic(auto, unfolding(crate::specs::Definitions::indexed, crate::specs::Places::inner, bsv_expr::specs::Reading::read))]
fn indexed<'a>(
    alloc: Global,
    source: &[u8],
    lexemes: &'a [Lexeme],
    depth: usize,
) -> Result<(Expr, &'a [Lexeme]), ReadFault>
    ensures { Gives (λ x. (x.0, x.1.now)) result
        (part source.now depth grammar.indexed lexemes.now) }
{
    let (_, rest) = expect(Terminal::OpenBracket, lexemes)?;
    let (at, rest) = expr(alloc, source, rest, depth, false)?;
    let (_, rest) = expect(Terminal::CloseBracket, rest)?;
    Ok((at, rest))
}

/// `"<-" make ";" | "[" expr "]" ";" | "=" expr ";"`
#[tactic(auto, unfolding(crate::specs::Definitions::given_after, crate::specs::Definitions::sized, bsv_expr::specs::Reading::read))]
fn given_after<'a>(
    alloc: Global,
    source: &[u8],
    lexemes: &'a [Lexeme],
    depth: usize,
) -> Result<(Given, &'a [Lexeme]), ReadFault>
    ensures { Gives (λ x. (x.0, x.1.now)) result
        (part source.now depth grammar.given_after lexemes.now) }
{
    if starts(&[Terminal::LeftArrow], lexemes) {
        let ((make, close), rest) = made(alloc, source, lexemes, depth)?;
        return Ok((Given::Instance(make, close), rest));
    }
    if starts(&[Terminal::OpenBracket], lexemes) {
        let (size, rest) = indexed(alloc, source, lexemes, depth)?;
        let (close, rest) = expect(Terminal::Semicolon, rest)?;
        return Ok((Given::Array(size, close), rest));
    }
    let ((value, close), rest) = valued(alloc, source, lexemes, depth)?;
    Ok((Given::Value(value, close), rest))
}

/// `type Lower`, and what comes after it.
#[tactic(auto, unfolding(crate::specs::Definitions::typed, crate::specs::Places::inner, bsv_expr::specs::Reading::read))]
fn typed<'a>(
    alloc: Global,
    source: &[u8],
    lexemes: &'a [Lexeme],
    depth: usize,
) -> Result<(ModuleStmt, &'a [Lexeme]), ReadFault>
    ensures { Gives (λ x. (x.0, x.1.now)) result (part source.now depth grammar.typed lexemes.now) }
{
    let (written, rest) = written(alloc, source, lexemes, depth)?;
    let (name, rest) = name(alloc, source, Terminal::Lower, rest)?;
    let (found, rest) = given_after(alloc, source, rest, depth)?;
    Ok((typed_of(written, name, found), rest))
}

/// `"let" Lower "=" expr ";"`
#[tactic(auto, unfolding(crate::specs::Definitions::defined, bsv_expr::specs::Reading::read))]
fn defined<'a>(
    alloc: Global,
    source: &[u8],
    lexemes: &'a [Lexeme],
    depth: usize,
) -> Result<(ModuleStmt, &'a [Lexeme]), ReadFault>
    ensures { Gives (λ x. (x.0, x.1.now)) result
        (part source.now depth grammar.defined lexemes.now) }
{
    let (start, rest) = expect(Terminal::Let, lexemes)?;
    let (name, rest) = name(alloc, source, Terminal::Lower, rest)?;
    let ((value, close), rest) = valued(alloc, source, rest, depth)?;
    let declared = DeclaredType::Let(start);
    Ok((declaration(start, declared, name, value, close), rest))
}

/// `"[" expr "]" "<-" make ";" | "=" expr ";"`
#[tactic(auto, unfolding(crate::specs::Definitions::changed_after, crate::specs::Definitions::placed, bsv_expr::specs::Reading::read))]
fn changed_after<'a>(
    alloc: Global,
    source: &[u8],
    lexemes: &'a [Lexeme],
    depth: usize,
) -> Result<(Changed, &'a [Lexeme]), ReadFault>
    ensures { Gives (λ x. (x.0, x.1.now)) result
        (part source.now depth grammar.changed_after lexemes.now) }
{
    if starts(&[Terminal::OpenBracket], lexemes) {
        let (at, rest) = indexed(alloc, source, lexemes, depth)?;
        let ((make, close), rest) = made(alloc, source, rest, depth)?;
        return Ok((Changed::Place(at, make, close), rest));
    }
    let ((value, close), rest) = valued(alloc, source, lexemes, depth)?;
    Ok((Changed::Value(value, close), rest))
}

/// `Lower`, and what comes after it.
#[tactic(auto, unfolding(crate::specs::Definitions::rewritten, bsv_expr::specs::Reading::read))]
fn rewritten<'a>(
    alloc: Global,
    source: &[u8],
    lexemes: &'a [Lexeme],
    depth: usize,
) -> Result<(ModuleStmt, &'a [Lexeme]), ReadFault>
    ensures { Gives (λ x. (x.0, x.1.now)) result
        (part source.now depth grammar.rewritten lexemes.now) }
{
    let (name, rest) = name(alloc, source, Terminal::Lower, lexemes)?;
    let (found, rest) = changed_after(alloc, source, rest, depth)?;
    Ok((changed_of(name, found), rest))
}

/// A statement that holds no other.
#[tactic(auto, unfolding(crate::specs::Definitions::simple, bsv_blocks::specs::Types::type_first, bsv_expr::specs::Reading::read))]
pub fn simple<'a>(
    alloc: Global,
    source: &[u8],
    lexemes: &'a [Lexeme],
    depth: usize,
) -> Result<(ModuleStmt, &'a [Lexeme]), ReadFault>
    ensures { Gives (λ x. (x.0, x.1.now)) result
        (part source.now depth grammar.simple lexemes.now) }
{
    if starts(&[Terminal::Upper, Terminal::Int], lexemes) {
        return typed(alloc, source, lexemes, depth);
    }
    if starts(&[Terminal::Let], lexemes) {
        return defined(alloc, source, lexemes, depth);
    }
    rewritten(alloc, source, lexemes, depth)
}
