ghost use Rattle.std.specs.Prelude.{◌≡◌, slice_get};
ghost use Rattle.bsv_bits.specs.Operators as operators;
ghost use Rattle.bsv_design.specs.design.Widths as spec;

use bsv_bits::{Operator, Word};

/// The most bits that a word has.
pub(crate) const MOST: u32 = 128;

/// The width of the node of this place, if there is one.
pub(crate) fn width_at(widths: &[u32], node: u32) -> Option<u32>
    ensures { result ≡ slice_get widths.now node }
{
    widths.get(node as usize).copied()
}

/// Whether there is a node, of this width.
pub(crate) fn has_width(found: Option<u32>, width: u32) -> bool
    ensures { result ≡ spec.has_width found width }
{
    match found {
        Some(own) => own == width,
        None => false,
    }
}

/// The width, where a test holds.
pub(crate) fn width_if(holds: bool, width: u32) -> Option<u32>
    ensures { result ≡ spec.if_width holds width }
{
    if holds { Some(width) } else { None }
}

/// A word has its own width.
#[tactic(auto, using(crate::proofs::WordWidths::width_of_word))]
pub(crate) fn word_width(word: Word) -> Option<u32>
    ensures { result ≡ spec.word_width word }
{
    Some(word.width())
}

/// Whether the second operand is the amount of a shift.
fn is_shift(operator: Operator) -> bool
    ensures { result ≡ operators.is_shift operator }
{
    matches!(operator, Operator::Shl | Operator::Shr | Operator::Sar)
}

/// Whether the operator compares, and so gives one bit.
fn gives_bit(operator: Operator) -> bool
    ensures { result ≡ spec.gives_bit operator }
{
    matches!(
        operator,
        Operator::Same | Operator::Less | Operator::LessSigned
    )
}

/// The width of what an operator gives for two words.
pub(crate) fn two_width(operator: Operator, a: Option<u32>, b: Option<u32>) -> Option<u32>
    ensures { result ≡ spec.two_width operator a b }
{
    let (Some(a), Some(b)) = (a, b) else {
        return None;
    };
    if is_shift(operator) {
        return Some(a);
    }
    width_if(a == b, if gives_bit(operator) { 1 } else { a })
}

/// The width of the one of two words that a bit picks.
pub(crate) fn pick_width(test: Option<u32>, a: Option<u32>, b: Option<u32>) -> Option<u32>
    ensures { result ≡ spec.pick_width test a b }
{
    let (Some(test), Some(a), Some(b)) = (test, a, b) else {
        return None;
    };
    width_if(test == 1 && a == b, a)
}

/// The width of the bits from the second number to the first one.
pub(crate) fn slice_width(a: Option<u32>, high: u32, low: u32) -> Option<u32>
    ensures { result ≡ spec.slice_width a high low }
{
    let Some(a) = a else {
        return None;
    };
    if low <= high && high < a {
        Some(high - low + 1)
    } else {
        None
    }
}

/// The width of the bits of the first word above those of the second one.
pub(crate) fn join_width(a: Option<u32>, b: Option<u32>) -> Option<u32>
    ensures { result ≡ spec.join_width a b }
{
    let (Some(a), Some(b)) = (a, b) else {
        return None;
    };
    if a <= MOST && b <= MOST - a {
        Some(a + b)
    } else {
        None
    }
}

/// The width of a word in more bits.
pub(crate) fn extend_width(a: Option<u32>, width: u32) -> Option<u32>
    ensures { result ≡ spec.extend_width a width }
{
    let Some(a) = a else {
        return None;
    };
    width_if(a <= width && width <= MOST, width)
}
