ghost use Rattle.std.specs.Prelude.{◌≡◌};
ghost use Rattle.std.specs.List.{list_all};
ghost use Rattle.bsv_ast.specs.Names as spec;

use bsv_ast::{begins_name, is_word};
use bsv_lex::keyword;

/// Whether a name goes on with these bytes.
fn are_words(mut bytes: &[u8]) -> bool
    ensures { result ≡ list_all spec.is_word bytes.entry.now }
{
    while let [byte, rest @ ..] = bytes {
        if !is_word(*byte) {
            return false;
        }
        bytes = rest;
    }
    true
}

/// A letter or `_`, and then letters, digits and `_`.
fn is_name(text: &[u8]) -> bool
    ensures { result ≡ spec.is_name text.now }
{
    match text {
        [] => false,
        [first, rest @ ..] => begins_name(*first) && are_words(rest),
    }
}

/// Whether a text begins with a capital letter.
fn is_capital(text: &[u8]) -> bool
    ensures { result ≡ spec.is_capital text.now }
{
    match text {
        [] => false,
        [first, ..] => first.is_ascii_uppercase(),
    }
}

/// A name that begins with a small letter or `_`, and is no keyword.
#[tactic(auto, using(crate::proofs::Keywords::keywords), unfolding(bsv_ast::specs::Names::is_lower))]
pub fn is_lower(text: &[u8]) -> bool
    ensures { result ≡ spec.is_lower text.now }
{
    is_name(text) && !is_capital(text) && keyword(text).is_none()
}

/// A name that begins with a capital letter, and is no keyword.
#[tactic(auto, using(crate::proofs::Keywords::keywords), unfolding(bsv_ast::specs::Names::is_upper))]
pub fn is_upper(text: &[u8]) -> bool
    ensures { result ≡ spec.is_upper text.now }
{
    is_name(text) && is_capital(text) && keyword(text).is_none()
}
