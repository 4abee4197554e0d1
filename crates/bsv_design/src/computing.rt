ghost use Rattle.std.specs.Prelude.{◌≡◌};
ghost use Rattle.bsv_bits.specs.Operators as operators;
ghost use Rattle.bsv_design.specs.design.Bodies.{at};
ghost use Rattle.bsv_design.specs.design.Computing as spec;

use bsv_bits::{Operator, Word};

/// The word of so many bits that is the number.
#[tactic(auto, unfolding(crate::specs::design::Computing::word))]
pub fn word(width: u32, number: u128) -> Word
    ensures { result ≡ spec.word width number }
{
    match Word::new(width, number) {
        Some(word) => word,
        None => Word::bit(false),
    }
}

/// The word of a node, where these words stand.
pub fn word_at(words: &[Word], node: u32) -> Word
    ensures { result ≡ at words.now node }
{
    match words.get(node as usize) {
        Some(word) => *word,
        None => Word::bit(false),
    }
}

fn is_shift(operator: Operator) -> bool
    ensures { result ≡ operators.is_shift operator }
{
    matches!(operator, Operator::Shl | Operator::Shr | Operator::Sar)
}

/// What the operator gives for two words.
#[tactic(auto, unfolding(crate::specs::design::Computing::between))]
pub fn between(operator: Operator, one: Word, other: Word) -> Word
    ensures { result ≡ spec.between operator one other }
{
    if is_shift(operator) || one.width() == other.width() {
        operator.evaluate(one, other)
    } else {
        one
    }
}

/// The second word where the first one is 1, else the third one.
pub fn picked(test: Word, one: Word, other: Word) -> Word
    ensures { result ≡ spec.picked test one other }
{
    if test.value() == 1 { one } else { other }
}

/// The bits from low to high.
#[tactic(auto, unfolding(crate::specs::design::Computing::sliced))]
pub fn sliced(whole: Word, high: u32, low: u32) -> Word
    ensures { result ≡ spec.sliced whole high low }
{
    if low <= high && high < whole.width() {
        whole.slice(high, low)
    } else {
        whole
    }
}

/// The bits of the first word above those of the second one.
#[tactic(auto, unfolding(crate::specs::design::Computing::joined))]
pub fn joined(high: Word, low: Word) -> Word
    ensures { result ≡ spec.joined high low }
{
    if high.width() + low.width() <= 128 {
        high.concat(low)
    } else {
        high
    }
}

/// The same number in so many bits.
#[tactic(auto, unfolding(crate::specs::design::Computing::extended))]
pub fn extended(short: Word, width: u32) -> Word
    ensures { result ≡ spec.extended short width }
{
    if short.width() <= width && width <= 128 {
        short.extend(width)
    } else {
        short
    }
}

/// The same signed number in so many bits.
#[tactic(auto, unfolding(crate::specs::design::Computing::sign_extended))]
pub fn sign_extended(short: Word, width: u32) -> Word
    ensures { result ≡ spec.sign_extended short width }
{
    if short.width() <= width && width <= 128 {
        short.sign_extend(width)
    } else {
        short
    }
}
