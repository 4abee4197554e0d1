ghost use Rattle.std.specs.Prelude.{◌≡◌, ◌≤◌, length, IfOk};
ghost use Rattle.std.specs.List.{list_all, prefix_len};
ghost use Rattle.std.specs.Option.{option_map};
ghost use Rattle.bsv_ast.specs.Names as names_spec;
ghost use Rattle.bsv_types.specs.AttributeTexts as spec;

use bsv_ast::{begins_name, is_word};
use bsv_bits::Name;
use sqlite_items::Items;
use std::alloc::{AllocError, Global};

/// What the text of an attribute is made of, apart from blanks.
#[derive(Drop)]
pub enum AttributeToken {
    /// As many letters, digits and `_` as are together.
    Word(Name),
    Comma,
    Open,
    Close,
}

/// Names, and the pieces after them.
type Names<'a> = (Items<Name>, &'a [AttributeToken]);

/// How many bytes at the front go on with a word.
fn word_len(bytes: &[u8]) -> usize
    ensures value { result ≡ prefix_len names_spec.is_word bytes.now }
    ensures within { result ≤ length bytes.now }
{
    bytes.iter().take_while(|b| is_word(**b)).count()
}

fn mark(b: u8) -> Option<AttributeToken>
    ensures { result ≡ spec.mark b }
{
    match b {
        b',' => Some(AttributeToken::Comma),
        b'(' => Some(AttributeToken::Open),
        b')' => Some(AttributeToken::Close),
        _ => None,
    }
}

fn copied(alloc: Global, text: &[u8]) -> Result<Name, AllocError>
    ensures { IfOk result (λ name. name ≡ text.now) }
{
    Name::new(alloc, text).map_err(|_| AllocError)
}

/// The words and the marks of a text; None where a byte stands that is of neither, and no blank.
#[tactic(auto, using(crate::proofs::Pieces::reading))]
fn words_and_marks(alloc: Global, text: &[u8]) -> Result<Option<Items<AttributeToken>>, AllocError>
    ensures { IfOk result (λ found. found ≡ spec.words_and_marks text.now) }
{
    let mut found = Items::new(alloc);
    let mut rest = text;
    while let Some((first, after)) = rest.split_first() {
        if is_word(*first) {
            let (word, behind) = rest.split_at(word_len(rest));
            found.push(AttributeToken::Word(copied(alloc, word)?))?;
            rest = behind;
        } else if *first == b' ' {
            rest = after;
        } else {
            let Some(piece) = mark(*first) else {
                return Ok(None);
            };
            found.push(piece)?;
            rest = after;
        }
    }
    Ok(Some(found))
}

/// A word is a name, where no digit begins it.
fn is_good(piece: &AttributeToken) -> bool
    ensures { result ≡ spec.is_good piece.now }
{
    match piece {
        AttributeToken::Word(word) => match word.bytes() {
            [first, ..] => begins_name(*first),
            [] => false,
        },
        AttributeToken::Comma | AttributeToken::Open | AttributeToken::Close => true,
    }
}

fn are_good(pieces: &[AttributeToken]) -> bool
    ensures { result ≡ list_all spec.is_good pieces.now }
{
    pieces.iter().all(|piece| is_good(piece))
}

/// The names and the marks of a text.
#[tactic(auto, unfolding(crate::specs::AttributeTexts::pieces))]
fn pieces(alloc: Global, text: &[u8]) -> Result<Option<Items<AttributeToken>>, AllocError>
    ensures { IfOk result (λ found. found ≡ spec.pieces text.now) }
{
    match words_and_marks(alloc, text)? {
        Some(found) if are_good(found.as_slice()) => Ok(Some(found)),
        _ => Ok(None),
    }
}

/// The names at the front, one or more, with commas between them.
fn names_at(alloc: Global, pieces: &[AttributeToken]) -> Result<Option<Names<'_>>, AllocError>
    ensures { IfOk result (λ found. option_map spec.shown found ≡ spec.names_at pieces.now) }
{
    let mut names = Items::new(alloc);
    let mut rest = pieces;
    while let Some((AttributeToken::Word(name), behind)) = rest.split_first() {
        names.push(copied(alloc, name.bytes())?)?;
        match behind.split_first() {
            Some((AttributeToken::Comma, after)) => rest = after,
            _ => return Ok(Some((names, behind))),
        }
    }
    Ok(None)
}

/// A side at the front: one name, or names in brackets.
fn side_at(alloc: Global, pieces: &[AttributeToken]) -> Result<Option<Names<'_>>, AllocError>
    ensures { IfOk result (λ found. option_map spec.shown found ≡ spec.side_at pieces.now) }
{
    match pieces.split_first() {
        Some((AttributeToken::Word(name), rest)) => {
            let mut side = Items::new(alloc);
            side.push(copied(alloc, name.bytes())?)?;
            Ok(Some((side, rest)))
        }
        Some((AttributeToken::Open, rest)) => match names_at(alloc, rest)? {
            Some((names, [AttributeToken::Close, behind @ ..])) => Ok(Some((names, behind))),
            _ => Ok(None),
        },
        _ => Ok(None),
    }
}

/// The names of a text: two or more, with commas between them.
#[tactic(auto, unfolding(crate::specs::AttributeTexts::listed))]
pub fn listed(alloc: Global, text: &[u8]) -> Result<Option<Items<Name>>, AllocError>
    ensures { IfOk result (λ found. found ≡ spec.listed text.now) }
{
    let Some(pieces) = pieces(alloc, text)? else {
        return Ok(None);
    };
    match names_at(alloc, pieces.as_slice())? {
        Some((names, [])) if names.len() >= 2 => Ok(Some(names)),
        _ => Ok(None),
    }
}

/// The two sides of a text, with a comma between them.
#[tactic(auto, unfolding(crate::specs::AttributeTexts::sides))]
pub fn sides(alloc: Global, text: &[u8]) -> Result<Option<(Items<Name>, Items<Name>)>, AllocError>
    ensures { IfOk result (λ found. found ≡ spec.sides text.now) }
{
    let Some(pieces) = pieces(alloc, text)? else {
        return Ok(None);
    };
    let Some((left, [AttributeToken::Comma, rest @ ..])) = side_at(alloc, pieces.as_slice())? else {
        return Ok(None);
    };
    match side_at(alloc, rest)? {
        Some((right, [])) => Ok(Some((left, right))),
        _ => Ok(None),
    }
}
