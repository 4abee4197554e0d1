ghost use Rattle.std.specs.Prelude.{◌≡◌, ◌≤◌, length};
ghost use Rattle.std.specs.List.{prefix_len};
ghost use Rattle.bsv_trace.specs.Reading as spec;

use bsv_bits::{Word, value_of};

/// How the digits of an argument are read.
#[derive(Clone, Copy)]
pub(crate) enum Base {
    Decimal,
    Hexadecimal,
}

impl Base {
    fn radix(self) -> u128
        ensures value { result ≡ spec.radix self }
        ensures some { 1 ≤ result }
        ensures most { result ≤ 16 }
    {
        match self {
            Base::Decimal => 10,
            Base::Hexadecimal => 16,
        }
    }

    fn has_digit(self, b: u8) -> bool
        ensures { result ≡ spec.is_digit self b }
    {
        match self {
            Base::Decimal => b.is_ascii_digit(),
            Base::Hexadecimal => b.is_ascii_hexdigit(),
        }
    }
}

/// How many bytes at the front are digits of the base.
fn digits_len(base: Base, bytes: &[u8]) -> usize
    ensures value { result ≡ prefix_len (spec.is_digit base) bytes.now }
    ensures within { result ≤ length bytes.now }
{
    bytes.iter().take_while(|b| base.has_digit(**b)).count()
}

/// The word of so many bits with this value, where they can hold it.
#[tactic(auto, using(crate::proofs::Fitting::fits))]
fn fitting(width: u32, value: u128) -> Option<Word>
    ensures { result ≡ spec.fitting width value }
{
    Word::new(width, value)
}

/// The word of so many bits that digits are, where there are some and their number fits.
fn word_of(base: Base, width: u32, digits: &[u8]) -> Option<Word>
    ensures { result ≡ spec.word_of base width digits.now }
{
    match digits {
        [] => None,
        [_, ..] => match value_of(base.radix(), digits) {
            None => None,
            Some(value) => fitting(width, value),
        },
    }
}

/// The word that the digits in front are, and what is after them.
fn digits(base: Base, width: u32, bytes: &[u8]) -> Option<(Word, &[u8])>
    ensures { spec.seen result ≡ spec.digits base width bytes.now }
{
    let (front, rest) = bytes.split_at(digits_len(base, bytes));
    match word_of(base, width, front) {
        None => None,
        Some(word) => Some((word, rest)),
    }
}

/// The word of so many bits that the argument in front is, and what is after it.
#[tactic(auto, unfolding(crate::specs::Reading::argument))]
pub(crate) fn argument(width: u32, bytes: &[u8]) -> Option<(Word, &[u8])>
    ensures { spec.seen result ≡ spec.argument width bytes.now }
{
    match bytes {
        [b'0', b'x', rest @ ..] => digits(Base::Hexadecimal, width, rest),
        _ => digits(Base::Decimal, width, bytes),
    }
}
