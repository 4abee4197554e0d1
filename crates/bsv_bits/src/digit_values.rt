ghost use Rattle.std.specs.Prelude.{◌≡◌, ◌^◌, ◌≤◌, nat_lt, if◌then◌else◌};
ghost use Rattle.bsv_bits.specs.DigitValues as spec;

/// The value of a digit, a letter in either case.
fn digit_value(b: u8) -> u128
    ensures { result ≡ spec.digit_value b }
{
    if b <= b'9' {
        u128::from(b.saturating_sub(b'0'))
    } else if b <= b'F' {
        u128::from(b.saturating_sub(b'A' - 10))
    } else {
        u128::from(b.saturating_sub(b'a' - 10))
    }
}

/// A number with one more digit after it, where that is below 2^128.
fn with_digit(radix: u128, number: u128, b: u8) -> Option<u128>
    requires { radix ≤ 16 }
    ensures { let more = spec.with_digit radix number b in result
        ≡ (if nat_lt more (2 ^ 128) then Some more else None) }
{
    if b == b'_' {
        Some(number)
    } else {
        number.checked_mul(radix)?.checked_add(digit_value(b))
    }
}

/// The number that digits are, where that is below 2^128. A `_` among them counts for nothing.
#[tactic(auto, unfolding(crate::specs::DigitValues::value_of))]
pub fn value_of(radix: u128, digits: &[u8]) -> Option<u128>
    requires some { 1 ≤ radix }
    requires most { radix ≤ 16 }
    ensures { let value = spec.value_of radix digits.now in result
        ≡ (if nat_lt value (2 ^ 128) then Some value else None) }
{
    let mut value = 0;
    let mut rest = digits;
    while let [b, more @ ..] = rest {
        match with_digit(radix, value, *b) {
            None => return None,
            Some(number) => value = number,
        }
        rest = more;
    }
    Some(value)
}
