ghost use Rattle.std.specs.Prelude.{◌≡◌};
ghost use Rattle.bsv_expr.specs.Reading.{Gives};
ghost use Rattle.bsv_parse.specs.Packages as grammar;
ghost use Rattle.bsv_parse.specs.Packages.{within};
ghost use Rattle.bsv_parse.specs.ModuleTrees as trees;

use crate::bodies::ending;
use crate::definitions::{import, interface, typedef};
use crate::modules::module_whole;
use crate::rules::function;
use bsv_ast::{Item, Items, Package, Span};
use bsv_expr::{Lexeme, ReadFault, expect, name, starts, to};
use bsv_lex::Terminal;
use std::alloc::Global;

/// The words with which an item begins.
const ITEM_FIRST: [Terminal; 6] = [
    Terminal::Import,
    Terminal::Typedef,
    Terminal::Interface,
    Terminal::Function,
    Terminal::OpenAttribute,
    Terminal::Module,
];

/// `import | typedef | interface | function | module`
#[tactic(auto, unfolding(crate::specs::Packages::item, crate::specs::Packages::inner, bsv_expr::specs::Reading::read))]
fn item<'a>(
    alloc: Global,
    source: &[u8],
    lexemes: &'a [Lexeme],
    depth: usize,
) -> Result<(Item, &'a [Lexeme]), ReadFault>
    ensures { Gives (λ x. (x.0, x.1.now)) result
        (within source.now depth grammar.item lexemes.now) }
{
    if starts(&[Terminal::Import], lexemes) {
        let (found, rest) = import(alloc, source, lexemes)?;
        return Ok((Item::Import(found.span, found), rest));
    }
    if starts(&[Terminal::Typedef], lexemes) {
        let (found, rest) = typedef(alloc, source, lexemes, depth)?;
        return Ok((Item::Typedef(found.span(), found), rest));
    }
    if starts(&[Terminal::Interface], lexemes) {
        let (found, rest) = interface(alloc, source, lexemes, depth)?;
        return Ok((Item::Interface(found.span, found), rest));
    }
    if starts(&[Terminal::Function], lexemes) {
        let (found, rest) = function(alloc, source, lexemes, depth)?;
        return Ok((Item::Function(found.span, found), rest));
    }
    let (found, rest) = module_whole(alloc, source, lexemes, depth)?;
    Ok((Item::Module(found.span, found), rest))
}

/// `{ item }`
#[tactic(auto, using(bsv_expr::proofs::Turns::turns_of), unfolding(crate::specs::Packages::items, crate::specs::Packages::item_first, bsv_expr::specs::Reading::read))]
fn items<'a>(
    alloc: Global,
    source: &[u8],
    lexemes: &'a [Lexeme],
    depth: usize,
) -> Result<(Items<Item>, &'a [Lexeme]), ReadFault>
    ensures { Gives (λ x. (x.0, x.1.now)) result
        (within source.now depth grammar.items lexemes.now) }
{
    let mut found = Items::new(alloc);
    let mut rest = lexemes;
    for _turn in 0..lexemes.len() {
        if !starts(&ITEM_FIRST, rest) {
            return Ok((found, rest));
        }
        let (next, after) = item(alloc, source, rest, depth)?;
        found.push(next)?;
        rest = after;
    }
    Ok((found, rest))
}

/// `"package" Upper ";" { item } "endpackage" [ ":" Upper ]`
#[tactic(auto, unfolding(crate::specs::Packages::package_whole, crate::specs::Packages::package_front, bsv_expr::specs::Reading::read))]
fn package_whole<'a>(
    alloc: Global,
    source: &[u8],
    lexemes: &'a [Lexeme],
    depth: usize,
) -> Result<(Package, &'a [Lexeme]), ReadFault>
    ensures { Gives (λ x. (x.0, x.1.now)) result
        (within source.now depth grammar.package_whole lexemes.now) }
{
    let (start, rest) = expect(Terminal::Package, lexemes)?;
    let (name, rest) = name(alloc, source, Terminal::Upper, rest)?;
    let (_, rest) = expect(Terminal::Semicolon, rest)?;
    let (found, rest) = items(alloc, source, rest, depth)?;
    let (close, rest) = expect(Terminal::EndPackage, rest)?;
    let (close, rest) = ending(source, Terminal::Upper, name.name.bytes(), close, rest)?;
    Ok((Package::Named(to(start, close), name, found), rest))
}

/// Where items stand: from the first to the last, and at the start where there are none.
#[tactic(auto, unfolding(bsv_ast::specs::Spans::item_span))]
fn items_span(found: &Items<Item>) -> Span
    ensures { result ≡ trees.items_span found.now }
{
    match (found.get(0), found.as_slice().last()) {
        (Some(first), Some(last)) => to(first.span(), last.span()),
        _ => Span { start: 0, end: 0 },
    }
}

/// Items without a `package` around them, one or more.
#[tactic(auto, using(bsv_expr::proofs::Turns::turns_of), unfolding(crate::specs::Packages::bare, crate::specs::Packages::item_first, bsv_expr::specs::Reading::read))]
fn bare<'a>(
    alloc: Global,
    source: &[u8],
    lexemes: &'a [Lexeme],
    depth: usize,
) -> Result<(Package, &'a [Lexeme]), ReadFault>
    ensures { Gives (λ x. (x.0, x.1.now)) result
        (within source.now depth grammar.bare lexemes.now) }
{
    let mut found = Items::new(alloc);
    let (first, mut rest) = item(alloc, source, lexemes, depth)?;
    found.push(first)?;
    for _turn in 0..rest.len() {
        if !starts(&ITEM_FIRST, rest) {
            return Ok((Package::Bare(items_span(&found), found), rest));
        }
        let (next, after) = item(alloc, source, rest, depth)?;
        found.push(next)?;
        rest = after;
    }
    Ok((Package::Bare(items_span(&found), found), rest))
}

/// A whole file: a package between its words, items alone, or nothing.
#[tactic(auto, unfolding(crate::specs::Packages::file, crate::specs::Packages::file_first, bsv_expr::specs::Reading::read))]
pub fn file<'a>(
    alloc: Global,
    source: &[u8],
    lexemes: &'a [Lexeme],
    depth: usize,
) -> Result<(Package, &'a [Lexeme]), ReadFault>
    ensures { Gives (λ x. (x.0, x.1.now)) result
        (within source.now depth grammar.file lexemes.now) }
{
    if starts(&[Terminal::Package], lexemes) {
        return package_whole(alloc, source, lexemes, depth);
    }
    if starts(&ITEM_FIRST, lexemes) {
        return bare(alloc, source, lexemes, depth);
    }
    let none = Items::new(alloc);
    Ok((Package::Bare(items_span(&none), none), lexemes))
}
