ghost use Rattle.std.specs.Prelude.{◌≡◌, ◌+◌, ◌-◌, ◌*◌, ◌/◌, ◌%◌, ◌^◌, ◌<◌, ◌≤◌, nat_lt};

/// What is left of a number modulo 2^width.
pub(crate) fn reduce(width: u32, number: u128) -> u128
    requires { width ≤ 128 }
    ensures { result ≡ number % 2 ^ width }
{
    if width < 128 {
        number % (1u128 << width)
    } else {
        number
    }
}

/// Whether a number is below 2^width.
pub(crate) fn has_bits(width: u32, number: u128) -> bool
    requires { width ≤ 128 }
    ensures { result ≡ nat_lt number (2 ^ width) }
{
    match u64::try_from(number) {
        Ok(narrow) => width >= 64 || narrow < 1u64 << width,
        Err(_) => width == 128 || number < 1u128 << width,
    }
}

/// The largest number of so many bits.
pub(crate) fn ones(width: u32) -> u128
    requires some { 1 ≤ width }
    requires most { width ≤ 128 }
    ensures { result ≡ 2 ^ width - 1 }
{
    u128::MAX >> (128 - width)
}

/// The difference of two numbers below 2^width, modulo 2^width.
pub(crate) fn difference(width: u32, a: u128, b: u128) -> u128
    requires width { width ≤ 128 }
    requires first { a < 2 ^ width }
    requires second { b < 2 ^ width }
    ensures { result ≡ (a + (2 ^ width - b)) % 2 ^ width }
{
    if a < b {
        reduce(width, a.wrapping_sub(b))
    } else {
        a - b
    }
}

/// A number times 2^amount, modulo 2^width.
pub(crate) fn shifted_up(width: u32, number: u128, amount: u128) -> u128
    requires { width ≤ 128 }
    ensures { result ≡ number * 2 ^ amount % 2 ^ width }
{
    if amount < width as u128 {
        reduce(width, number << amount as u32)
    } else {
        0
    }
}

/// A number below 2^width, divided by 2^amount.
pub(crate) fn shifted_down(width: u32, number: u128, amount: u128) -> u128
    requires width { width ≤ 128 }
    requires below { number < 2 ^ width }
    ensures { result ≡ number / 2 ^ amount }
{
    if amount < width as u128 {
        number >> amount as u32
    } else {
        0
    }
}

/// The bits of one number above those of another, which has `low_width` bits.
pub(crate) fn joined(width: u32, high: u128, low_width: u32, low: u128) -> u128
    requires width { width + low_width ≤ 128 }
    requires some { 1 ≤ width }
    requires first { high < 2 ^ width }
    requires second { low < 2 ^ low_width }
    ensures value { result ≡ high * 2 ^ low_width + low }
    ensures below { result < 2 ^ (width + low_width) }
{
    (high << low_width) + low
}
