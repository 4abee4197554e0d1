ghost use Rattle.std.specs.Prelude.{◌≡◌};
ghost use Rattle.bsv_ast.specs.Names as spec;

use bsv_bits::Name;

/// Where a text lies in the source: the bytes from `start` on, up to and without `end`.
#[derive(Clone, Copy, Debug, PartialEq, Eq)]
pub struct Span {
    pub start: u32,
    pub end: u32,
}

/// A name where it stands.
#[derive(Debug, Drop)]
pub struct Ident {
    pub span: Span,
    pub name: Name,
}

/// The base that a number names by a letter.
#[derive(Clone, Copy, Debug, PartialEq, Eq)]
pub enum Base {
    Binary,
    Octal,
    Decimal,
    Hexadecimal,
}

/// What a number says.
#[derive(Clone, Copy, Debug, PartialEq, Eq)]
pub struct Literal {
    pub value: u128,
    /// None in a number of decimal digits alone.
    pub base: Option<Base>,
    /// In bits; None in an unsized literal.
    pub size: Option<u32>,
}

/// Whether a name may begin with the byte: a letter or `_`.
pub fn begins_name(b: u8) -> bool
    ensures { result ≡ spec.begins_name b }
{
    b.is_ascii_alphabetic() || b == b'_'
}

/// Whether a word may have the byte: a letter, a digit or `_`.
pub fn is_word(b: u8) -> bool
    ensures { result ≡ spec.is_word b }
{
    b.is_ascii_alphanumeric() || b == b'_'
}
