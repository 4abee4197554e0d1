ghost use Rattle.std.specs.Prelude.{◌≡◌, ◌^◌, nat_lt, option_map};
ghost use Rattle.bsv_tree.specs.declared.values.Constant.TheVariants as constant;
ghost use Rattle.bsv_types.specs.Kinds.{kind};
ghost use Rattle.bsv_tree.specs.meaning.Integers as spec;

use bsv_bits::Word;
use bsv_design::word;
use bsv_tree::Constant;
use bsv_types::{Op, Ty};

fn says(truth: bool) -> Option<Constant>
    ensures { result ≡ spec.says truth }
{
    Some(Constant::Bits(Word::bit(truth)))
}

fn numbered(number: Option<i64>) -> Option<Constant>
    ensures { result ≡ option_map constant.Number number }
{
    match number {
        Some(number) => Some(Constant::Number(number)),
        None => None,
    }
}

/// What an operator gives for two Integers; None where a number leaves its range.
#[tactic(auto, unfolding(bsv_tree::specs::meaning::Integers::ranged))]
pub(crate) fn number_between(op: Op, one: i64, other: i64) -> Option<Constant>
    ensures { result ≡ spec.number_between op one other }
{
    match op {
        Op::Mul => numbered(one.checked_mul(other)),
        Op::Add => numbered(one.checked_add(other)),
        Op::Sub => numbered(one.checked_sub(other)),
        Op::Less => says(one < other),
        Op::LessOrSame => says(one <= other),
        Op::Greater => says(other < one),
        Op::GreaterOrSame => says(other <= one),
        Op::Same => says(one <= other && other <= one),
        _ => says(!(one <= other && other <= one)),
    }
}

/// The greatest number of bits that a number of at least 0 may have in a type.
fn limit(ty: &Ty, width: u32) -> u32
    ensures { result ≡ spec.limit width (kind ty.now) }
{
    match ty {
        Ty::Int(_) => width.saturating_sub(1),
        _ => width,
    }
}

/// Whether the number has at most so many bits.
#[tactic(auto, using(crate::proofs::Powers::powers))]
fn holds(bits: u32, number: u64) -> bool
    ensures { result ≡ nat_lt number (2 ^ bits) }
{
    if bits < 64 {
        number < 1u64 << bits
    } else {
        true
    }
}

/// A number so much below -1 as a word, where it fits.
#[tactic(auto, unfolding(bsv_tree::specs::meaning::Integers::fitted_below))]
fn fitted_below(width: u32, below: u64) -> Option<Constant>
    ensures { result ≡ spec.fitted_below width below }
{
    if holds(width.saturating_sub(1), below) {
        let word = word(width, u128::from(below) + 1);
        Some(Constant::Bits(word.neg()))
    } else {
        None
    }
}

/// The number as a word of the type, where it fits.
#[tactic(auto, unfolding(bsv_tree::specs::meaning::Integers::fitted))]
pub(crate) fn fitted(ty: &Ty, width: u32, number: i64) -> Option<Constant>
    ensures { result ≡ spec.fitted (kind ty.now) width number }
{
    match u64::try_from(number) {
        Ok(natural) => {
            if holds(limit(ty, width), natural) {
                Some(Constant::Bits(word(width, u128::from(natural))))
            } else {
                None
            }
        }
        Err(_) => fitted_below(width, number.unsigned_abs().wrapping_sub(1)),
    }
}
