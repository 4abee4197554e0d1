ghost use Rattle.std.specs.Prelude.{◌≡◌, ◌^◌, ◌≤◌, ◌&&◌, length, nat_lt, nat_le, if◌then◌else◌, IfSome};
ghost use Rattle.std.specs.List.{list_all, prefix_len};
ghost use Rattle.bsv_bits.specs.DigitValues as digits_spec;
ghost use Rattle.bsv_lex.specs.Bytes as bytes_spec;
ghost use Rattle.bsv_lex.specs.Numbers as spec;

use bsv_ast::{Base, Literal};
use bsv_bits::value_of;

/// The base that a letter names, in either case.
pub(crate) fn base_of(letter: u8) -> Option<Base>
    ensures { result ≡ spec.base_of letter }
{
    match letter {
        b'h' | b'H' => Some(Base::Hexadecimal),
        b'd' | b'D' => Some(Base::Decimal),
        b'o' | b'O' => Some(Base::Octal),
        b'b' | b'B' => Some(Base::Binary),
        _ => None,
    }
}

fn radix(base: Base) -> u128
    ensures { result ≡ spec.radix base }
{
    match base {
        Base::Binary => 2,
        Base::Octal => 8,
        Base::Decimal => 10,
        Base::Hexadecimal => 16,
    }
}

fn is_digit_of(base: Base, b: u8) -> bool
    ensures { result ≡ spec.is_digit_of base b }
{
    match base {
        Base::Binary => b'0' <= b && b <= b'1',
        Base::Octal => b'0' <= b && b <= b'7',
        Base::Decimal => b.is_ascii_digit(),
        Base::Hexadecimal => b.is_ascii_hexdigit(),
    }
}

/// Whether a byte is a digit of the base or `_`.
pub(crate) fn continues(base: Base, b: u8) -> bool
    ensures { result ≡ spec.continues base b }
{
    is_digit_of(base, b) || b == b'_'
}

fn is_decimal(b: u8) -> bool
    ensures { result ≡ bytes_spec.is_decimal b }
{
    b.is_ascii_digit() || b == b'_'
}

/// How many bytes at the front are decimal digits or `_`.
pub(crate) fn decimal_len(bytes: &[u8]) -> usize
    ensures value { result ≡ prefix_len bytes_spec.is_decimal bytes.now }
    ensures within { result ≤ length bytes.now }
{
    bytes.iter().take_while(|b| is_decimal(**b)).count()
}

/// Whether a value has at most so many bits.
fn is_below(value: u128, size: u32) -> bool
    requires { size ≤ 128 }
    ensures { result ≡ nat_lt value (2 ^ size) }
{
    size == 128 || value < 1u128 << size
}

fn begins_with_digit(base: Base, bytes: &[u8]) -> bool
    ensures { result ≡ bytes_spec.first_is (spec.is_digit_of base) bytes.now }
{
    match bytes {
        [] => false,
        [b, ..] => is_digit_of(base, *b),
    }
}

fn all_continue(base: Base, bytes: &[u8]) -> bool
    ensures { result ≡ list_all (spec.continues base) bytes.now }
{
    bytes.iter().all(|b| continues(base, *b))
}

fn is_digits(base: Base, digits: &[u8]) -> bool
    ensures { result ≡ spec.is_digits base digits.now }
{
    begins_with_digit(base, digits) && all_continue(base, digits)
}

fn unsized_literal(base: Option<Base>, digits: &[u8]) -> Option<Literal>
    ensures { result ≡ spec.unsized base (digits_spec.value_of (spec.radix_of base) digits.now) }
{
    let value = value_of(base.map_or(10, radix), digits)?;
    Some(Literal {
        value,
        base,
        size: None,
    })
}

/// A size in decimal, where it is 1 to 128.
fn size_of(digits: &[u8]) -> Option<u32>
    ensures { let size = digits_spec.value_of 10 digits.now in result
        ≡ (if nat_le 1 size && nat_le size 128 then Some size else None) }
{
    let size = value_of(10, digits)?;
    if 1 <= size && size <= 128 {
        Some(size as u32)
    } else {
        None
    }
}

/// A literal of this size, where the value fits it.
fn fitting(size: u32, base: Base, value: u128) -> Option<Literal>
    requires some { 1 ≤ size }
    requires most { size ≤ 128 }
    ensures { result ≡ spec.sized base size value }
{
    if is_below(value, size) {
        Some(Literal {
            value,
            base: Some(base),
            size: Some(size),
        })
    } else {
        None
    }
}

fn sized_literal(size: &[u8], base: Base, digits: &[u8]) -> Option<Literal>
    ensures { result ≡ spec.sized base (digits_spec.value_of 10 size.now)
        (digits_spec.value_of (spec.radix base) digits.now) }
{
    let Some(size) = size_of(size) else {
        return None;
    };
    let Some(value) = value_of(radix(base), digits) else {
        return None;
    };
    fitting(size, base, value)
}

fn with_size(size: &[u8], base: Base, digits: &[u8]) -> Option<Literal>
    ensures { result ≡ spec.with_size size.now base digits.now }
{
    match size {
        [] => unsized_literal(Some(base), digits),
        [b, ..] => {
            if b.is_ascii_digit() {
                sized_literal(size, base, digits)
            } else {
                None
            }
        }
    }
}

fn based(size: &[u8], base: Option<Base>, digits: &[u8]) -> Option<Literal>
    ensures { result ≡ spec.based size.now base digits.now }
{
    match base {
        Some(base) if is_digits(base, digits) => with_size(size, base, digits),
        _ => None,
    }
}

fn decimal(digits: &[u8]) -> Option<Literal>
    ensures { result ≡ spec.decimal digits.now }
{
    if begins_with_digit(Base::Decimal, digits) {
        unsized_literal(None, digits)
    } else {
        None
    }
}

/// The number that a text is: its value, its base and its size. None where the text is no number,
/// or breaks its limits: a value below 2^128, a size of 1 to 128, a value that fits its size.
#[tactic(auto, using(crate::proofs::Limits::literal_fits), unfolding(crate::specs::Numbers::literal))]
pub fn literal(text: &[u8]) -> Option<Literal>
    ensures value { result ≡ spec.literal text.now }
    ensures limits { IfSome result (λ number. spec.IsFitting number.size number.value) }
{
    let (front, behind) = text.split_at(decimal_len(text));
    match behind {
        [] => decimal(front),
        [b'\'', letter, digits @ ..] => based(front, base_of(*letter), digits),
        _ => None,
    }
}
