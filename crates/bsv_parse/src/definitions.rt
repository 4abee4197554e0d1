ghost use Rattle.std.specs.Prelude.{◌≡◌, ℕ};
ghost use Rattle.bsv_expr.specs.Reading.{Gives};
ghost use Rattle.bsv_parse.specs.Places.{part};
ghost use Rattle.bsv_parse.specs.Definitions as grammar;
ghost use Rattle.bsv_parse.specs.ModuleTrees as trees;

use crate::bodies::ending;
use crate::params::optional_params;
use crate::rules::header;
use bsv_ast::{Field, Ident, Import, Interface, Items, MethodHeader, Span, Typedef};
use bsv_blocks::written;
use bsv_expr::{Lexeme, ReadFault, expect, name, starts, to};
use bsv_lex::Terminal;
use std::alloc::Global;

/// The definition of a type, which begins at its `typedef`.
fn opened(start: Span, found: Typedef) -> Typedef
    ensures { result ≡ trees.opened start found }
{
    match found {
        Typedef::Alias(span, written, name) => Typedef::Alias(to(start, span), written, name),
        Typedef::Enum(span, labels, name, classes) => {
            Typedef::Enum(to(start, span), labels, name, classes)
        }
        Typedef::Struct(span, fields, name, classes) => {
            Typedef::Struct(to(start, span), fields, name, classes)
        }
    }
}

/// `"import" Upper "::" "*" ";"`
#[tactic(auto, unfolding(crate::specs::Definitions::import, bsv_expr::specs::Reading::read))]
pub fn import<'a>(
    alloc: Global,
    source: &[u8],
    lexemes: &'a [Lexeme],
) -> Result<(Import, &'a [Lexeme]), ReadFault>
    ensures { (n : ℕ) → Gives (λ x. (x.0, x.1.now)) result
        (part source.now n grammar.import lexemes.now) }
{
    let (start, rest) = expect(Terminal::Import, lexemes)?;
    let (package, rest) = name(alloc, source, Terminal::Upper, rest)?;
    let (_, rest) = expect(Terminal::DoubleColon, rest)?;
    let (_, rest) = expect(Terminal::Star, rest)?;
    let (close, rest) = expect(Terminal::Semicolon, rest)?;
    let span = to(start, close);
    Ok((Import { span, package }, rest))
}

/// `"," Upper`
#[tactic(auto, unfolding(crate::specs::Definitions::next_name, bsv_expr::specs::Reading::read))]
fn next_name<'a>(
    alloc: Global,
    source: &[u8],
    lexemes: &'a [Lexeme],
) -> Result<(Ident, &'a [Lexeme]), ReadFault>
    ensures { (n : ℕ) → Gives (λ x. (x.0, x.1.now)) result
        (part source.now n grammar.next_name lexemes.now) }
{
    let (_, rest) = expect(Terminal::Comma, lexemes)?;
    name(alloc, source, Terminal::Upper, rest)
}

/// `Upper { "," Upper }`
#[tactic(auto, using(bsv_expr::proofs::Turns::turns_of), unfolding(crate::specs::Definitions::names, bsv_expr::specs::Reading::read))]
fn names<'a>(
    alloc: Global,
    source: &[u8],
    lexemes: &'a [Lexeme],
) -> Result<(Items<Ident>, &'a [Lexeme]), ReadFault>
    ensures { (n : ℕ) → Gives (λ x. (x.0, x.1.now)) result
        (part source.now n grammar.names lexemes.now) }
{
    let mut found = Items::new(alloc);
    let (first, mut rest) = name(alloc, source, Terminal::Upper, lexemes)?;
    found.push(first)?;
    for _turn in 0..rest.len() {
        if !starts(&[Terminal::Comma], rest) {
            return Ok((found, rest));
        }
        let (next, after) = next_name(alloc, source, rest)?;
        found.push(next)?;
        rest = after;
    }
    Ok((found, rest))
}

/// `[ deriving ]`
#[tactic(auto, unfolding(crate::specs::Definitions::optional_deriving, bsv_expr::specs::Reading::read))]
fn optional_deriving<'a>(
    alloc: Global,
    source: &[u8],
    lexemes: &'a [Lexeme],
) -> Result<(Items<Ident>, &'a [Lexeme]), ReadFault>
    ensures { (n : ℕ) → Gives (λ x. (x.0, x.1.now)) result
        (part source.now n grammar.optional_deriving lexemes.now) }
{
    if !starts(&[Terminal::Deriving], lexemes) {
        return Ok((Items::new(alloc), lexemes));
    }
    let (_, rest) = expect(Terminal::Deriving, lexemes)?;
    let (_, rest) = expect(Terminal::OpenParen, rest)?;
    let (found, rest) = names(alloc, source, rest)?;
    let (_, rest) = expect(Terminal::CloseParen, rest)?;
    Ok((found, rest))
}

/// `Upper [ deriving ] ";"`, and where its `;` stands.
#[tactic(auto, unfolding(crate::specs::Definitions::named, bsv_expr::specs::Reading::read))]
fn named<'a>(
    alloc: Global,
    source: &[u8],
    lexemes: &'a [Lexeme],
) -> Result<((Ident, (Items<Ident>, Span)), &'a [Lexeme]), ReadFault>
    ensures { (n : ℕ) → Gives (λ x. (x.0, x.1.now)) result
        (part source.now n grammar.named lexemes.now) }
{
    let (name, rest) = name(alloc, source, Terminal::Upper, lexemes)?;
    let (classes, rest) = optional_deriving(alloc, source, rest)?;
    let (close, rest) = expect(Terminal::Semicolon, rest)?;
    Ok(((name, (classes, close)), rest))
}

/// `type Upper ";"`
#[tactic(auto, unfolding(crate::specs::Definitions::alias, crate::specs::Places::inner, bsv_expr::specs::Reading::read))]
fn alias<'a>(
    alloc: Global,
    source: &[u8],
    lexemes: &'a [Lexeme],
    depth: usize,
) -> Result<(Typedef, &'a [Lexeme]), ReadFault>
    ensures { Gives (λ x. (x.0, x.1.now)) result (part source.now depth grammar.alias lexemes.now) }
{
    let (written, rest) = written(alloc, source, lexemes, depth)?;
    let (name, rest) = name(alloc, source, Terminal::Upper, rest)?;
    let (close, rest) = expect(Terminal::Semicolon, rest)?;
    let span = to(written.span(), close);
    Ok((Typedef::Alias(span, written, name), rest))
}

/// `"{" Upper { "," Upper } "}"`
#[tactic(auto, unfolding(crate::specs::Definitions::labels, bsv_expr::specs::Reading::read))]
fn labels<'a>(
    alloc: Global,
    source: &[u8],
    lexemes: &'a [Lexeme],
) -> Result<(Items<Ident>, &'a [Lexeme]), ReadFault>
    ensures { (n : ℕ) → Gives (λ x. (x.0, x.1.now)) result
        (part source.now n grammar.labels lexemes.now) }
{
    let (_, rest) = expect(Terminal::OpenBrace, lexemes)?;
    let (found, rest) = names(alloc, source, rest)?;
    let (_, rest) = expect(Terminal::CloseBrace, rest)?;
    Ok((found, rest))
}

/// `"enum" "{" Upper { "," Upper } "}" Upper [ deriving ] ";"`
#[tactic(auto, unfolding(crate::specs::Definitions::enumeration, bsv_expr::specs::Reading::read))]
fn enumeration<'a>(
    alloc: Global,
    source: &[u8],
    lexemes: &'a [Lexeme],
) -> Result<(Typedef, &'a [Lexeme]), ReadFault>
    ensures { (n : ℕ) → Gives (λ x. (x.0, x.1.now)) result
        (part source.now n grammar.enumeration lexemes.now) }
{
    let (start, rest) = expect(Terminal::Enum, lexemes)?;
    let (labels, rest) = labels(alloc, source, rest)?;
    let ((name, (classes, close)), rest) = named(alloc, source, rest)?;
    let span = to(start, close);
    Ok((Typedef::Enum(span, labels, name, classes), rest))
}

/// `type Lower ";"`
#[tactic(auto, unfolding(crate::specs::Definitions::field, crate::specs::Places::inner, bsv_expr::specs::Reading::read))]
fn field<'a>(
    alloc: Global,
    source: &[u8],
    lexemes: &'a [Lexeme],
    depth: usize,
) -> Result<(Field, &'a [Lexeme]), ReadFault>
    ensures { Gives (λ x. (x.0, x.1.now)) result (part source.now depth grammar.field lexemes.now) }
{
    let (written, rest) = written(alloc, source, lexemes, depth)?;
    let (name, rest) = name(alloc, source, Terminal::Lower, rest)?;
    let (close, rest) = expect(Terminal::Semicolon, rest)?;
    let span = to(written.span(), close);
    let field = Field {
        span,
        written,
        name,
    };
    Ok((field, rest))
}

/// `{ type Lower ";" }`
#[tactic(auto, using(bsv_expr::proofs::Turns::turns_of), unfolding(crate::specs::Definitions::fields, bsv_blocks::specs::Types::type_first, bsv_expr::specs::Reading::read))]
fn fields<'a>(
    alloc: Global,
    source: &[u8],
    lexemes: &'a [Lexeme],
    depth: usize,
) -> Result<(Items<Field>, &'a [Lexeme]), ReadFault>
    ensures { Gives (λ x. (x.0, x.1.now)) result
        (part source.now depth grammar.fields lexemes.now) }
{
    let mut found = Items::new(alloc);
    let mut rest = lexemes;
    for _turn in 0..lexemes.len() {
        if !starts(&[Terminal::Upper, Terminal::Int], rest) {
            return Ok((found, rest));
        }
        let (next, after) = field(alloc, source, rest, depth)?;
        found.push(next)?;
        rest = after;
    }
    Ok((found, rest))
}

/// `"{" { type Lower ";" } "}"`
#[tactic(auto, unfolding(crate::specs::Definitions::field_block, bsv_expr::specs::Reading::read))]
fn field_block<'a>(
    alloc: Global,
    source: &[u8],
    lexemes: &'a [Lexeme],
    depth: usize,
) -> Result<(Items<Field>, &'a [Lexeme]), ReadFault>
    ensures { Gives (λ x. (x.0, x.1.now)) result
        (part source.now depth grammar.field_block lexemes.now) }
{
    let (_, rest) = expect(Terminal::OpenBrace, lexemes)?;
    let (found, rest) = fields(alloc, source, rest, depth)?;
    let (_, rest) = expect(Terminal::CloseBrace, rest)?;
    Ok((found, rest))
}

/// `"struct" "{" { type Lower ";" } "}" Upper [ deriving ] ";"`
#[tactic(auto, unfolding(crate::specs::Definitions::structure, bsv_expr::specs::Reading::read))]
fn structure<'a>(
    alloc: Global,
    source: &[u8],
    lexemes: &'a [Lexeme],
    depth: usize,
) -> Result<(Typedef, &'a [Lexeme]), ReadFault>
    ensures { Gives (λ x. (x.0, x.1.now)) result
        (part source.now depth grammar.structure lexemes.now) }
{
    let (start, rest) = expect(Terminal::Struct, lexemes)?;
    let (fields, rest) = field_block(alloc, source, rest, depth)?;
    let ((name, (classes, close)), rest) = named(alloc, source, rest)?;
    let span = to(start, close);
    Ok((Typedef::Struct(span, fields, name, classes), rest))
}

/// What comes after `typedef`.
#[tactic(auto, unfolding(crate::specs::Definitions::type_form, bsv_expr::specs::Reading::read))]
fn type_form<'a>(
    alloc: Global,
    source: &[u8],
    lexemes: &'a [Lexeme],
    depth: usize,
) -> Result<(Typedef, &'a [Lexeme]), ReadFault>
    ensures { Gives (λ x. (x.0, x.1.now)) result
        (part source.now depth grammar.type_form lexemes.now) }
{
    if starts(&[Terminal::Enum], lexemes) {
        return enumeration(alloc, source, lexemes);
    }
    if starts(&[Terminal::Struct], lexemes) {
        return structure(alloc, source, lexemes, depth);
    }
    alias(alloc, source, lexemes, depth)
}

/// The definition of a type.
#[tactic(auto, unfolding(crate::specs::Definitions::typedef, bsv_expr::specs::Reading::read))]
pub fn typedef<'a>(
    alloc: Global,
    source: &[u8],
    lexemes: &'a [Lexeme],
    depth: usize,
) -> Result<(Typedef, &'a [Lexeme]), ReadFault>
    ensures { Gives (λ x. (x.0, x.1.now)) result
        (part source.now depth grammar.typedef lexemes.now) }
{
    let (start, rest) = expect(Terminal::Typedef, lexemes)?;
    let (found, rest) = type_form(alloc, source, rest, depth)?;
    Ok((opened(start, found), rest))
}

/// `"method" mtype Lower [ "(" [ params ] ")" ] ";"`
#[tactic(auto, unfolding(crate::specs::Definitions::method_header, bsv_expr::specs::Reading::read))]
fn method_header<'a>(
    alloc: Global,
    source: &[u8],
    lexemes: &'a [Lexeme],
    depth: usize,
) -> Result<(MethodHeader, &'a [Lexeme]), ReadFault>
    ensures { Gives (λ x. (x.0, x.1.now)) result
        (part source.now depth grammar.method_header lexemes.now) }
{
    let first = Terminal::Method;
    let ((start, (result, name)), rest) = header(alloc, source, first, lexemes, depth)?;
    let (params, rest) = optional_params(alloc, source, rest, depth)?;
    let (close, rest) = expect(Terminal::Semicolon, rest)?;
    let span = to(start, close);
    let header = MethodHeader {
        span,
        result,
        name,
        params,
    };
    Ok((header, rest))
}

/// The methods of an interface.
#[tactic(auto, using(bsv_expr::proofs::Turns::turns_of), unfolding(crate::specs::Definitions::method_headers, bsv_expr::specs::Reading::read))]
fn method_headers<'a>(
    alloc: Global,
    source: &[u8],
    lexemes: &'a [Lexeme],
    depth: usize,
) -> Result<(Items<MethodHeader>, &'a [Lexeme]), ReadFault>
    ensures { Gives (λ x. (x.0, x.1.now)) result
        (part source.now depth grammar.method_headers lexemes.now) }
{
    let mut found = Items::new(alloc);
    let mut rest = lexemes;
    for _turn in 0..lexemes.len() {
        if !starts(&[Terminal::Method], rest) {
            return Ok((found, rest));
        }
        let (next, after) = method_header(alloc, source, rest, depth)?;
        found.push(next)?;
        rest = after;
    }
    Ok((found, rest))
}

/// `"interface" Upper ";"`, its methods, and `"endinterface" [ ":" Upper ]`
#[tactic(auto, unfolding(crate::specs::Definitions::interface, crate::specs::Definitions::interface_front, bsv_expr::specs::Reading::read))]
pub fn interface<'a>(
    alloc: Global,
    source: &[u8],
    lexemes: &'a [Lexeme],
    depth: usize,
) -> Result<(Interface, &'a [Lexeme]), ReadFault>
    ensures { Gives (λ x. (x.0, x.1.now)) result
        (part source.now depth grammar.interface lexemes.now) }
{
    let (start, rest) = expect(Terminal::Interface, lexemes)?;
    let (name, rest) = name(alloc, source, Terminal::Upper, rest)?;
    let (_, rest) = expect(Terminal::Semicolon, rest)?;
    let (methods, rest) = method_headers(alloc, source, rest, depth)?;
    let (close, rest) = expect(Terminal::EndInterface, rest)?;
    let (close, rest) = ending(source, Terminal::Upper, name.name.bytes(), close, rest)?;
    let span = to(start, close);
    let interface = Interface {
        span,
        name,
        methods,
    };
    Ok((interface, rest))
}
