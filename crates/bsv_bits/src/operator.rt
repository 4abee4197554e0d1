ghost use Rattle.std.specs.Prelude.{◌≡◌, false};
ghost use Rattle.bsv_bits.specs.Operators.{operate, is_shift};

use crate::word::Word;

/// The operators of two words.
#[derive(Clone, Copy, Debug, PartialEq, Eq)]
pub enum Operator {
    Add,
    Sub,
    Mul,
    And,
    Or,
    Xor,
    Same,
    Less,
    LessSigned,
    Shl,
    Shr,
    Sar,
}

impl Operator {
    /// What the operator gives for two words: one bit where it compares, and else a word of the
    /// first operand's width. But for the amount of a shift, both words have one width.
    pub fn evaluate(self, a: Word, b: Word) -> Word
        requires { is_shift self ≡ false → a.width ≡ b.width }
        ensures { result ≡ operate self a b }
    {
        match self {
            Operator::Add => a.add(b),
            Operator::Sub => a.sub(b),
            Operator::Mul => a.mul(b),
            Operator::And => a.and(b),
            Operator::Or => a.or(b),
            Operator::Xor => a.xor(b),
            Operator::Same => Word::bit(a.same(b)),
            Operator::Less => Word::bit(a.less(b)),
            Operator::LessSigned => Word::bit(a.less_signed(b)),
            Operator::Shl => a.shl(b),
            Operator::Shr => a.shr(b),
            Operator::Sar => a.sar(b),
        }
    }
}

#[cfg(test)]
mod tests {
    use super::*;
    use std::process::Abort;

    const ONES_64: u128 = 0xffff_ffff_ffff_ffff;

    const TOP_64: u128 = 0x8000_0000_0000_0000;

    const ONES: u128 = u128::MAX;

    const TOP: u128 = 0x8000_0000_0000_0000_0000_0000_0000_0000;

    fn check(rt: &impl Abort, operator: Operator, width: u32, a: u128, b: u128, value: u128) {
        let (Some(left), Some(right)) = (Word::new(width, a), Word::new(width, b)) else {
            assert!(rt; false, "no words: {width} {a} {b}");
            return;
        };
        assert_eq!(rt; left.width(), right.width());
        let result = operator.evaluate(left, right);
        assert_eq!(rt;
            result.value(),
            value,
            "{operator:?} of {width} bits: {a} {b}"
        );
        let compares = matches!(
            operator,
            Operator::Same | Operator::Less | Operator::LessSigned
        );
        assert_eq!(rt; result.width(), if compares { 1 } else { width });
    }

    #[test]
    fn sums_and_products_wrap(rt: HostRuntime) {
        for (operator, width, a, b, value) in [
            (Operator::Add, 1, 1, 1, 0),
            (Operator::Add, 4, 9, 9, 2),
            (Operator::Add, 64, ONES_64, 1, 0),
            (Operator::Add, 128, ONES, 2, 1),
            (Operator::Sub, 1, 0, 1, 1),
            (Operator::Sub, 4, 3, 5, 14),
            (Operator::Sub, 4, 5, 3, 2),
            (Operator::Sub, 64, 0, 1, ONES_64),
            (Operator::Sub, 128, 0, 1, ONES),
            (Operator::Mul, 1, 1, 1, 1),
            (Operator::Mul, 4, 7, 7, 1),
            (
                Operator::Mul,
                64,
                0x1_0000_0001,
                0x1_0000_0000,
                0x1_0000_0000,
            ),
            (Operator::Mul, 128, ONES, ONES, 1),
        ] {
            check(&rt, operator, width, a, b, value);
        }
    }

    #[test]
    fn bits_and_orders(rt: HostRuntime) {
        for (operator, width, a, b, value) in [
            (Operator::And, 4, 12, 10, 8),
            (Operator::Or, 4, 12, 10, 14),
            (Operator::Xor, 4, 12, 10, 6),
            (Operator::And, 128, ONES, TOP, TOP),
            (Operator::Xor, 128, ONES, TOP, TOP - 1),
            (Operator::Same, 1, 1, 1, 1),
            (Operator::Same, 128, TOP, 0, 0),
            (Operator::Less, 4, 8, 7, 0),
            (Operator::Less, 4, 7, 8, 1),
            (Operator::Less, 4, 7, 7, 0),
            (Operator::Less, 128, 0, TOP, 1),
            (Operator::LessSigned, 1, 1, 0, 1),
            (Operator::LessSigned, 4, 8, 7, 1),
            (Operator::LessSigned, 4, 7, 8, 0),
            (Operator::LessSigned, 4, 8, 15, 1),
            (Operator::LessSigned, 4, 15, 15, 0),
            (Operator::LessSigned, 64, TOP_64, 0, 1),
            (Operator::LessSigned, 128, 0, TOP, 0),
        ] {
            check(&rt, operator, width, a, b, value);
        }
    }

    #[test]
    fn shifts_reach_the_width(rt: HostRuntime) {
        for (operator, width, a, b, value) in [
            (Operator::Shl, 1, 1, 1, 0),
            (Operator::Shl, 4, 5, 0, 5),
            (Operator::Shl, 4, 5, 2, 4),
            (Operator::Shl, 4, 5, 4, 0),
            (Operator::Shl, 64, 1, 63, TOP_64),
            (Operator::Shl, 64, 1, 64, 0),
            (Operator::Shl, 128, 1, 127, TOP),
            (Operator::Shl, 128, 1, 0x1_0000_0000, 0),
            (Operator::Shr, 1, 1, 1, 0),
            (Operator::Shr, 4, 9, 1, 4),
            (Operator::Shr, 4, 9, 4, 0),
            (Operator::Shr, 64, TOP_64, 63, 1),
            (Operator::Shr, 128, TOP, 127, 1),
            (Operator::Shr, 128, TOP, 128, 0),
            (Operator::Shr, 128, TOP, 0x1_0000_0000, 0),
            (Operator::Sar, 1, 1, 1, 1),
            (Operator::Sar, 4, 9, 1, 12),
            (Operator::Sar, 4, 9, 4, 15),
            (Operator::Sar, 4, 8, 15, 15),
            (Operator::Sar, 4, 7, 1, 3),
            (Operator::Sar, 4, 7, 4, 0),
            (Operator::Sar, 64, TOP_64, 63, ONES_64),
            (Operator::Sar, 128, TOP, 127, ONES),
            (Operator::Sar, 128, TOP, 0x1_0000_0000, ONES),
        ] {
            check(&rt, operator, width, a, b, value);
        }
    }
}
