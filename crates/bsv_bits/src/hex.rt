ghost use Rattle.std.specs.Prelude.{◌≡◌, ◌+◌, ◌<◌, ◌≤◌, ◌++◌, length, take, drop, decimal};
ghost use Rattle.bsv_bits.specs.Constants.{constant_text, hex_digits, hex_glyph};

use crate::word::Word;

/// The character of a hexadecimal digit.
fn glyph(digit: u8) -> u8
    requires { digit < 16 }
    ensures { result ≡ hex_glyph digit }
{
    if digit < 10 {
        b'0' + digit
    } else {
        b'a' - 10 + digit
    }
}

/// Fills the slice with the last digits of a number of 64 bits.
fn write_narrow_digits(number: u64, out: &mut [u8])
    ensures { out.new ≡ hex_digits (length out.old) number }
{
    let mut left = number;
    for turn in 0..out.len() {
        let place = out.len() - 1 - turn;
        out[place] = glyph((left % 16) as u8);
        left /= 16;
    }
}

/// Fills the slice with the last digits of a number, of which sixteen are those of its last 64
/// bits.
fn write_digits(number: u128, out: &mut [u8])
    ensures { out.new ≡ hex_digits (length out.old) number }
{
    let low = (number % (1u128 << 64)) as u64;
    if out.len() <= 16 {
        write_narrow_digits(low, out);
    } else {
        let (front, last) = out.split_at_mut(out.len() - 16);
        write_narrow_digits((number >> 64) as u64, front);
        write_narrow_digits(low, last);
    }
}

/// The character of a decimal digit.
fn decimal_glyph(digit: u32) -> u8
    requires { digit < 10 }
    ensures { result ≡ 48 + digit }
{
    b'0' + digit as u8
}

/// Writes a number below 1,000 in decimal to the front of the buffer, and answers how many digits
/// it has.
fn put_decimal(out: &mut [u8], number: u32) -> usize
    requires small { number < 1000 }
    requires room { 3 ≤ length out.old }
    ensures length { result ≡ length (decimal number) }
    ensures front { take result out.new ≡ decimal number }
    ensures rest { drop result out.new ≡ drop result out.old }
{
    if number < 10 {
        put(out, 0, &[decimal_glyph(number)])
    } else if number < 100 {
        put(
            out,
            0,
            &[decimal_glyph(number / 10), decimal_glyph(number % 10)],
        )
    } else {
        let last = decimal_glyph(number % 10);
        let tens = decimal_glyph(number / 10 % 10);
        put(out, 0, &[decimal_glyph(number / 100), tens, last])
    }
}

/// Puts bytes into the buffer at a place, and answers the place after them.
fn put(out: &mut [u8], at: usize, bytes: &[u8]) -> usize
    requires { at + length bytes.now ≤ length out.old }
    ensures end { result ≡ at + length bytes.now }
    ensures front { take result out.new ≡ take at out.old ++ bytes.now }
    ensures rest { drop result out.new ≡ drop result out.old }
{
    let end = at + bytes.len();
    out[at..end].copy_from_slice(bytes);
    end
}

/// Puts the last so many digits of a number into the buffer at a place, and answers the place
/// after them.
fn put_digits(out: &mut [u8], at: usize, number: u128, count: usize) -> usize
    requires { at + count ≤ length out.old }
    ensures end { result ≡ at + count }
    ensures front { take result out.new ≡ take at out.old ++ hex_digits count number }
    ensures rest { drop result out.new ≡ drop result out.old }
{
    let end = at + count;
    write_digits(number, &mut out[at..end]);
    end
}

impl Word {
    /// Writes the word's text, as `8'h0c`, to the front of the buffer, and answers the length of
    /// the text, which is at most 37. The rest of the buffer stays as it was.
    pub fn write_hex(self, out: &mut [u8; 40]) -> usize
        ensures text { take result out.new ≡ constant_text self }
        ensures length { result ≡ length (constant_text self) }
        ensures short { result ≤ 37 }
        ensures rest { drop result out.new ≡ drop result out.old }
    {
        let base = put_decimal(out, self.width());
        let digits = put(out, base, b"'h");
        put_digits(out, digits, self.value(), (self.width() as usize + 3) / 4)
    }
}

#[cfg(test)]
mod tests {
    use super::*;

    #[test]
    fn prints_every_digit(rt: HostRuntime) {
        for (width, value, text) in [
            (1, 1, "1'h1"),
            (5, 0, "5'h00"),
            (8, 12, "8'h0c"),
            (64, 0x0123_4567_89ab_cdef, "64'h0123456789abcdef"),
            (128, u128::MAX, "128'hffffffffffffffffffffffffffffffff"),
        ] {
            let Some(word) = Word::new(width, value) else {
                assert!(rt; false, "no word: {text}");
                return;
            };
            let mut out = [b'-'; 40];
            let length = word.write_hex(&mut out);
            assert_eq!(rt; &out[..length], text.as_bytes());
            assert!(rt; out[length..].iter().all(|byte| *byte == b'-'));
        }
    }
}
