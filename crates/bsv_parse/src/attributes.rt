ghost use Rattle.std.specs.Prelude.{◌≡◌, ℕ, [], ◌∷◌};
ghost use Rattle.bsv_lex.specs.declared.terminal.Terminal.TheVariants as word;
ghost use Rattle.bsv_expr.specs.Reading.{Gives};
ghost use Rattle.bsv_expr.specs.Reading as reading;
ghost use Rattle.bsv_parse.specs.Places.{part};
ghost use Rattle.bsv_parse.specs.Definitions as grammar;
ghost use Rattle.bsv_parse.specs.ModuleTrees as trees;

use bsv_ast::{Attribute, AttributeGroup, Ident, Items, Span};
use bsv_bits::Name;
use bsv_expr::{Lexeme, ReadFault, expect, name, refusal, same_terminal, starts, text, to};
use bsv_lex::Terminal;
use std::alloc::Global;

/// The bytes of a text between its quotes.
fn unquoted(bytes: &[u8]) -> &[u8]
    ensures { result.now ≡ trees.unquoted bytes.now }
{
    if bytes.len() < 2 {
        return &[];
    }
    &bytes[1..bytes.len() - 1]
}

/// A text, and the tokens after it.
#[tactic(auto, unfolding(bsv_expr::specs::Reading::take_leaf))]
fn quoted<'a>(
    alloc: Global,
    source: &[u8],
    lexemes: &'a [Lexeme],
) -> Result<((Span, Name), &'a [Lexeme]), ReadFault>
    ensures { Gives (λ x. (x.0, x.1.now)) result
        (reading.take_leaf source.now (word.Text ∷ []) grammar.text_told lexemes.now) }
{
    match lexemes {
        [next, rest @ ..] if same_terminal(next.terminal, Terminal::Text) => {
            let inside = Name::new(alloc, unquoted(text(source, next.span)))?;
            Ok(((next.span, inside), rest))
        }
        _ => Err(refusal(lexemes)),
    }
}

/// An attribute from its name, and its text if it has one.
fn attribute_of(name: Ident, found: Option<(Span, Name)>) -> Attribute
    ensures { result ≡ trees.attribute_of name found }
{
    match found {
        None => Attribute {
            span: name.span,
            name,
            text: None,
        },
        Some((close, inside)) => Attribute {
            span: to(name.span, close),
            name,
            text: Some(inside),
        },
    }
}

/// `Lower [ "=" Text ]`
#[tactic(auto, unfolding(crate::specs::Definitions::attribute, bsv_expr::specs::Reading::read))]
fn attribute<'a>(
    alloc: Global,
    source: &[u8],
    lexemes: &'a [Lexeme],
) -> Result<(Attribute, &'a [Lexeme]), ReadFault>
    ensures { (n : ℕ) → Gives (λ x. (x.0, x.1.now)) result
        (part source.now n grammar.attribute lexemes.now) }
{
    let (name, rest) = name(alloc, source, Terminal::Lower, lexemes)?;
    if !starts(&[Terminal::Equal], rest) {
        return Ok((attribute_of(name, None), rest));
    }
    let (_, rest) = expect(Terminal::Equal, rest)?;
    let (found, rest) = quoted(alloc, source, rest)?;
    Ok((attribute_of(name, Some(found)), rest))
}

/// `attr { "," attr }`
#[tactic(auto, using(bsv_expr::proofs::Turns::turns_of), unfolding(crate::specs::Definitions::attributes, bsv_expr::specs::Reading::read))]
fn attributes<'a>(
    alloc: Global,
    source: &[u8],
    lexemes: &'a [Lexeme],
) -> Result<(Items<Attribute>, &'a [Lexeme]), ReadFault>
    ensures { (n : ℕ) → Gives (λ x. (x.0, x.1.now)) result
        (part source.now n grammar.attributes lexemes.now) }
{
    let mut found = Items::new(alloc);
    let (first, mut rest) = attribute(alloc, source, lexemes)?;
    found.push(first)?;
    for _turn in 0..rest.len() {
        if !starts(&[Terminal::Comma], rest) {
            return Ok((found, rest));
        }
        let (_, after) = expect(Terminal::Comma, rest)?;
        let (next, after) = attribute(alloc, source, after)?;
        found.push(next)?;
        rest = after;
    }
    Ok((found, rest))
}

/// `"(*" attr { "," attr } "*)"`
#[tactic(auto, unfolding(crate::specs::Definitions::group, bsv_expr::specs::Reading::read))]
fn group<'a>(
    alloc: Global,
    source: &[u8],
    lexemes: &'a [Lexeme],
) -> Result<(AttributeGroup, &'a [Lexeme]), ReadFault>
    ensures { (n : ℕ) → Gives (λ x. (x.0, x.1.now)) result
        (part source.now n grammar.group lexemes.now) }
{
    let (open, rest) = expect(Terminal::OpenAttribute, lexemes)?;
    let (attributes, rest) = attributes(alloc, source, rest)?;
    let (close, rest) = expect(Terminal::CloseAttribute, rest)?;
    let span = to(open, close);
    Ok((AttributeGroup { span, attributes }, rest))
}

/// `{ attrs }`
#[tactic(auto, using(bsv_expr::proofs::Turns::turns_of), unfolding(crate::specs::Definitions::groups, bsv_expr::specs::Reading::read))]
pub fn groups<'a>(
    alloc: Global,
    source: &[u8],
    lexemes: &'a [Lexeme],
) -> Result<(Items<AttributeGroup>, &'a [Lexeme]), ReadFault>
    ensures { (n : ℕ) → Gives (λ x. (x.0, x.1.now)) result
        (part source.now n grammar.groups lexemes.now) }
{
    let mut found = Items::new(alloc);
    let mut rest = lexemes;
    for _turn in 0..lexemes.len() {
        if !starts(&[Terminal::OpenAttribute], rest) {
            return Ok((found, rest));
        }
        let (next, after) = group(alloc, source, rest)?;
        found.push(next)?;
        rest = after;
    }
    Ok((found, rest))
}

/// Where a definition begins that may have attributes in front of its word.
pub fn start_of(groups: &Items<AttributeGroup>, start: Span) -> Span
    ensures { result ≡ trees.start_of groups.now start }
{
    match groups.get(0) {
        Some(first) => first.span,
        None => start,
    }
}
