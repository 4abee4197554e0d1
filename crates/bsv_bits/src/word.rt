ghost use Rattle.std.specs.Prelude.{◌≡◌, ◌+◌, ◌^◌, ◌≤◌, ◌<◌, ◌↔◌, IsSome, IfSome};
ghost use Rattle.bsv_bits.specs.Words.{IsWord, bit, zero_word, word_add, word_sub, word_mul};
ghost use Rattle.bsv_bits.specs.Words.{word_neg, word_and, word_or, word_xor, word_not, word_same};
ghost use Rattle.bsv_bits.specs.Words.{word_less, word_shl, word_shr, word_slice, word_concat};
ghost use Rattle.bsv_bits.specs.Words.{word_extend};
ghost use Rattle.bsv_bits.specs.Signed.{is_negative, word_less_signed, word_sar, word_sign_extend};

use crate::numbers::{difference, has_bits, joined, ones, reduce, shifted_down, shifted_up};
use std::marker::Model;

/// A width from 1 to 128 and a value below 2^width. Contracts see the record of both.
#[derive(Clone, Copy, Debug, PartialEq, Eq)]
pub struct Word {
    width: u32,
    value: u128,
}

impl Model for Word {
    ghost use Rattle.std.specs.Prelude.{◌≤◌, ◌<◌, ◌^◌};
    ghost use Rattle.bsv_bits.specs.Words.{Bits, IsWord};

    ghost Value = { Bits };

    ghost view = { λ word. record { width = word.width; value = word.value } };

    ghost invariant = { λ word. IsWord (record { width = word.width; value = word.value }) };

    ghost inverse = { λ bits. record { width = bits.width; value = bits.value } };
}

impl Word {
    /// The word of this width and value, where the width is 1 to 128 and the value below 2^width.
    pub fn new(width: u32, value: u128) -> Option<Word>
        ensures in_range { IsSome result ↔ IsWord (record { width = width; value = value }) }
        ensures word { IfSome result (λ word. word ≡ record { width = width; value = value }) }
    {
        if width < 1 || width > 128 || !has_bits(width, value) {
            return None;
        }
        Some(Word { width, value })
    }

    /// The word 0 of so many bits.
    #[tactic(auto, using(crate::proofs::Modulo::IsWord_zero))]
    pub fn zero(width: u32) -> Word
        requires some { 1 ≤ width }
        requires most { width ≤ 128 }
        ensures { result ≡ zero_word width }
    {
        Word { width, value: 0 }
    }

    /// One bit: 1 for true, 0 for false.
    pub fn bit(truth: bool) -> Word
        ensures { result ≡ bit truth }
    {
        Word {
            width: 1,
            value: if truth { 1 } else { 0 },
        }
    }

    /// The number of bits.
    pub fn width(self) -> u32
        ensures width { result ≡ self.width }
        ensures in_range { IsWord self }
    {
        self.width
    }

    /// The value, unsigned.
    pub fn value(self) -> u128
        ensures value { result ≡ self.value }
        ensures in_range { IsWord self }
    {
        self.value
    }

    /// The sum, modulo 2^width.
    #[tactic(auto, using(crate::proofs::Modulo::fewer_bits))]
    pub fn add(self, other: Word) -> Word
        requires { self.width ≡ other.width }
        ensures { result ≡ word_add self other }
    {
        Word {
            width: self.width,
            value: reduce(self.width, self.value.wrapping_add(other.value)),
        }
    }

    /// The difference, modulo 2^width.
    pub fn sub(self, other: Word) -> Word
        requires { self.width ≡ other.width }
        ensures { result ≡ word_sub self other }
    {
        Word {
            width: self.width,
            value: difference(self.width, self.value, other.value),
        }
    }

    /// The product, modulo 2^width.
    #[tactic(auto, using(crate::proofs::Modulo::fewer_bits))]
    pub fn mul(self, other: Word) -> Word
        requires { self.width ≡ other.width }
        ensures { result ≡ word_mul self other }
    {
        Word {
            width: self.width,
            value: reduce(self.width, self.value.wrapping_mul(other.value)),
        }
    }

    /// 0 less this word, modulo 2^width.
    pub fn neg(self) -> Word
        ensures { result ≡ word_neg self }
    {
        Word {
            width: self.width,
            value: difference(self.width, 0, self.value),
        }
    }

    /// The bits that are 1 in both words.
    pub fn and(self, other: Word) -> Word
        requires { self.width ≡ other.width }
        ensures { result ≡ word_and self other }
    {
        Word {
            width: self.width,
            value: self.value & other.value,
        }
    }

    /// The bits that are 1 in one word or both.
    pub fn or(self, other: Word) -> Word
        requires { self.width ≡ other.width }
        ensures { result ≡ word_or self other }
    {
        Word {
            width: self.width,
            value: self.value | other.value,
        }
    }

    /// The bits that are 1 in exactly one of the words.
    pub fn xor(self, other: Word) -> Word
        requires { self.width ≡ other.width }
        ensures { result ≡ word_xor self other }
    {
        Word {
            width: self.width,
            value: self.value ^ other.value,
        }
    }

    /// The word with each bit turned.
    pub fn not(self) -> Word
        ensures { result ≡ word_not self }
    {
        Word {
            width: self.width,
            value: ones(self.width) - self.value,
        }
    }

    /// Whether the words are equal.
    pub fn same(self, other: Word) -> bool
        requires { self.width ≡ other.width }
        ensures { result ≡ word_same self other }
    {
        self.value == other.value
    }

    /// Whether this word is below the other, both unsigned.
    pub fn less(self, other: Word) -> bool
        requires { self.width ≡ other.width }
        ensures { result ≡ word_less self other }
    {
        self.value < other.value
    }

    /// Whether the most significant bit is 1.
    fn is_negative(self) -> bool
        ensures sign { result ≡ is_negative self }
        ensures in_range { IsWord self }
    {
        self.value >= 1u128 << (self.width - 1)
    }

    /// Whether this word is below the other, both in two's complement.
    pub fn less_signed(self, other: Word) -> bool
        requires { self.width ≡ other.width }
        ensures { result ≡ word_less_signed self other }
    {
        if self.is_negative() == other.is_negative() {
            self.value < other.value
        } else {
            self.is_negative()
        }
    }

    /// The word shifted left, filled with 0. An amount of the width or more gives 0.
    pub fn shl(self, amount: Word) -> Word
        ensures { result ≡ word_shl self amount }
    {
        Word {
            width: self.width,
            value: shifted_up(self.width, self.value, amount.value),
        }
    }

    /// The word shifted right, filled with 0. An amount of the width or more gives 0.
    pub fn shr(self, amount: Word) -> Word
        ensures { result ≡ word_shr self amount }
    {
        Word {
            width: self.width,
            value: shifted_down(self.width, self.value, amount.value),
        }
    }

    /// The word shifted right, filled with its most significant bit. An amount of the width or
    /// more gives that bit everywhere.
    #[tactic(auto, using(crate::proofs::Signs::sar_negative, crate::proofs::Signs::sar_other))]
    pub fn sar(self, amount: Word) -> Word
        ensures { result ≡ word_sar self amount }
    {
        if self.is_negative() {
            self.not().shr(amount).not()
        } else {
            self.shr(amount)
        }
    }

    /// The bits from `low` to `high`, both among them.
    pub fn slice(self, high: u32, low: u32) -> Word
        requires order { low ≤ high }
        requires within { high < self.width }
        ensures { result ≡ word_slice self high low }
    {
        let width = high - low + 1;
        Word {
            width,
            value: reduce(width, self.value >> low),
        }
    }

    /// The bits of this word above those of the other.
    pub fn concat(self, low: Word) -> Word
        requires { self.width + low.width ≤ 128 }
        ensures { result ≡ word_concat self low }
    {
        Word {
            width: self.width + low.width,
            value: joined(self.width, self.value, low.width, low.value),
        }
    }

    /// The word in so many bits, with 0 in front.
    pub fn extend(self, width: u32) -> Word
        requires wider { self.width ≤ width }
        requires most { width ≤ 128 }
        ensures { result ≡ word_extend self width }
    {
        Word {
            width,
            value: self.value,
        }
    }

    /// The word in so many bits, with its most significant bit in front.
    #[tactic(auto, using(crate::proofs::Signs::sign_extend_negative, crate::proofs::Signs::sign_extend_other))]
    pub fn sign_extend(self, width: u32) -> Word
        requires wider { self.width ≤ width }
        requires most { width ≤ 128 }
        ensures { result ≡ word_sign_extend self width }
    {
        if self.is_negative() {
            self.not().extend(width).not()
        } else {
            self.extend(width)
        }
    }
}

#[cfg(test)]
mod tests {
    use super::*;

    const ONES: u128 = u128::MAX;

    const TOP: u128 = 0x8000_0000_0000_0000_0000_0000_0000_0000;

    #[test]
    fn new_keeps_the_range(rt: HostRuntime) {
        for (width, value) in [
            (0, 0),
            (0, 1),
            (129, 0),
            (1, 2),
            (4, 16),
            (64, 1 << 64),
            (127, TOP),
        ] {
            assert!(rt; Word::new(width, value).is_none(), "{width} {value}");
        }
        for (width, value) in [
            (1, 0),
            (1, 1),
            (4, 15),
            (64, (1 << 64) - 1),
            (128, 0),
            (128, ONES),
        ] {
            let word = Word::new(width, value).map(|word| (word.width(), word.value()));
            assert_eq!(rt; word, Some((width, value)));
        }
        assert_eq!(rt; Some(Word::zero(128)), Word::new(128, 0));
        assert_eq!(rt; Some(Word::bit(true)), Word::new(1, 1));
        assert_eq!(rt; Some(Word::bit(false)), Word::new(1, 0));
    }

    #[test]
    fn not_and_neg(rt: HostRuntime) {
        for (width, value, not, neg) in [
            (1, 0, 1, 0),
            (1, 1, 0, 1),
            (4, 5, 10, 11),
            (4, 8, 7, 8),
            (128, 0, ONES, 0),
            (128, 1, ONES - 1, ONES),
            (128, TOP, TOP - 1, TOP),
        ] {
            let Some(word) = Word::new(width, value) else {
                assert!(rt; false, "no word: {width} {value}");
                return;
            };
            assert_eq!(rt; Some(word.not()), Word::new(width, not));
            assert_eq!(rt; Some(word.neg()), Word::new(width, neg));
        }
    }

    #[test]
    fn slices_at_both_ends(rt: HostRuntime) {
        for (width, value, high, low, part) in [
            (1, 1, 0, 0, 1),
            (8, 0xb4, 7, 4, 0xb),
            (8, 0xb4, 3, 0, 4),
            (8, 0xb4, 7, 0, 0xb4),
            (8, 0xb4, 7, 7, 1),
            (8, 0xb4, 0, 0, 0),
            (8, 0xb4, 5, 2, 13),
            (64, 0x0123_4567_89ab_cdef, 63, 32, 0x0123_4567),
            (128, ONES, 127, 0, ONES),
            (128, TOP, 127, 127, 1),
            (128, TOP + 5, 2, 0, 5),
        ] {
            let Some(word) = Word::new(width, value) else {
                assert!(rt; false, "no word: {width} {value}");
                return;
            };
            assert!(rt; low <= high && high < word.width());
            assert_eq!(rt;
                Some(word.slice(high, low)),
                Word::new(high - low + 1, part)
            );
        }
    }

    #[test]
    fn joins(rt: HostRuntime) {
        for (high, low, width, value) in [
            ((4, 0xb), (4, 4), 8, 0xb4),
            ((1, 1), (127, 0), 128, TOP),
            ((127, 0), (1, 1), 128, 1),
            ((64, 1), (64, 2), 128, (1 << 64) + 2),
        ] {
            let (Some(a), Some(b)) = (Word::new(high.0, high.1), Word::new(low.0, low.1)) else {
                assert!(rt; false, "no words: {high:?} {low:?}");
                return;
            };
            assert!(rt; a.width() <= 128 && b.width() <= 128 - a.width());
            assert_eq!(rt; Some(a.concat(b)), Word::new(width, value));
        }
    }

    #[test]
    fn extends(rt: HostRuntime) {
        for (from, value, to, plain, signed) in [
            (1, 1, 128, 1, ONES),
            (4, 8, 8, 8, 0xf8),
            (4, 7, 8, 7, 7),
            (4, 8, 4, 8, 8),
            (64, 1 << 63, 65, 1 << 63, 3 << 63),
        ] {
            let Some(word) = Word::new(from, value) else {
                assert!(rt; false, "no word: {from} {value}");
                return;
            };
            assert!(rt; word.width() <= to && to <= 128);
            assert_eq!(rt; Some(word.extend(to)), Word::new(to, plain));
            assert_eq!(rt; Some(word.sign_extend(to)), Word::new(to, signed));
        }
    }
}
