ghost use Rattle.std.specs.Prelude.{◌≡◌, ◌^◌, ◌*◌, ◌<◌, min, nat_le, nat_lt, option_map};
ghost use Rattle.bsv_types.specs.Kinds as spec;
ghost use Rattle.bsv_types.specs.Kinds.{kind};
ghost use Rattle.bsv_context.specs.Env as types;
ghost use Rattle.bsv_context.specs.Seen.{limits};

use crate::context::Context;
use bsv_types::Ty;

/// Bit, UInt or Int.
pub fn has_family(ty: &Ty) -> bool
    ensures { result ≡ spec.has_family (kind ty.now) }
{
    matches!(ty, Ty::Bit(_) | Ty::Down(_) | Ty::UInt(_) | Ty::Int(_))
}

/// One of these three, or Integer.
pub fn is_number(ty: &Ty) -> bool
    ensures { result ≡ spec.is_number (kind ty.now) }
{
    matches!(
        ty,
        Ty::Bit(_) | Ty::Down(_) | Ty::UInt(_) | Ty::Int(_) | Ty::Integer
    )
}

/// What a shift may shift by.
pub fn is_amount(ty: &Ty) -> bool
    ensures { result ≡ spec.is_amount (kind ty.now) }
{
    matches!(ty, Ty::Bit(_) | Ty::Down(_) | Ty::UInt(_) | Ty::Integer)
}

/// Whether instances are of the type.
pub fn is_interface(ty: &Ty) -> bool
    ensures { result ≡ spec.is_interface (kind ty.now) }
{
    match ty {
        Ty::Interface(_) | Ty::Part(_, None) | Ty::Part(_, Some(_)) => true,
        _ => false,
    }
}

/// Whether the type is a Bit.
pub fn is_bit(ty: &Ty) -> bool
    ensures { result ≡ spec.is_bit (kind ty.now) }
{
    matches!(ty, Ty::Bit(_) | Ty::Down(_))
}

/// Whether two types are of one family, and the first is no wider than the second.
pub fn no_wider(one: &Ty, other: &Ty) -> bool
    ensures { result ≡ spec.no_wider (kind one.now) (kind other.now) }
{
    match (one, other) {
        (Ty::Bit(one), Ty::Bit(other))
        | (Ty::UInt(one), Ty::UInt(other))
        | (Ty::Int(one), Ty::Int(other)) => *one <= *other,
        (Ty::Down(_), Ty::Bit(_)) => true,
        (Ty::Down(one), Ty::Down(other)) => *other <= *one,
        _ => false,
    }
}

/// A Bit of so many bits below 0.
pub fn below(bits: u32) -> Ty
    ensures { kind result ≡ types.below bits }
{
    if bits == 0 {
        Ty::Bit(0)
    } else {
        Ty::Down(bits)
    }
}

/// A Bit of so many bits more than others.
fn across(bits: u32, others: u32) -> Ty
    ensures { kind result ≡ types.across bits others }
{
    if others <= bits {
        Ty::Bit(bits - others)
    } else {
        below(others - bits)
    }
}

/// Two Bit types side by side.
pub fn beside(one: &Ty, other: &Ty) -> Option<Ty>
    ensures { option_map kind result ≡ types.beside (kind one.now) (kind other.now) }
{
    match (one, other) {
        (Ty::Bit(one), Ty::Bit(other)) => Some(Ty::Bit(one.saturating_add(*other))),
        (Ty::Bit(bits), Ty::Down(others)) | (Ty::Down(others), Ty::Bit(bits)) => {
            Some(across(*bits, *others))
        }
        (Ty::Down(one), Ty::Down(other)) => Some(below(one.saturating_add(*other))),
        _ => None,
    }
}

/// Whether a number is below 2 to a width.
#[tactic(auto, using(crate::proofs::Powers::powers))]
pub fn is_below_power(number: u128, width: u32) -> bool
    ensures { result ≡ nat_lt number (2 ^ width) }
{
    width >= 128 || number < 1 << width
}

/// Whether a number is below half of 2 to a width.
#[tactic(auto, using(crate::proofs::Powers::halves))]
fn is_below_half(number: u128, width: u32) -> bool
    ensures { result ≡ nat_lt (2 * number) (2 ^ width) }
{
    if width == 0 {
        number == 0
    } else {
        is_below_power(number, width - 1)
    }
}

/// Whether a number is at most half of 2 to a width.
#[tactic(auto, using(crate::proofs::Powers::halves))]
fn is_within_half(number: u128, width: u32) -> bool
    ensures { result ≡ nat_le (2 * number) (2 ^ width) }
{
    number == 0 || (width > 0 && is_below_power(number - 1, width - 1))
}

/// Whether an unsized literal fits the type.
#[tactic(auto, unfolding(crate::specs::Env::fits))]
pub fn fits(context: &Context, number: u128, ty: &Ty) -> bool
    ensures { result ≡ types.fits (limits context.now) number (kind ty.now) }
{
    match ty {
        Ty::Bit(width) | Ty::UInt(width) => !context.strict || is_below_power(number, *width),
        Ty::Int(width) => !context.strict || is_below_half(number, *width),
        Ty::Down(_) => !context.strict,
        Ty::Integer => !context.strict || is_below_power(number, 63),
        _ => false,
    }
}

/// Whether an unsized literal after `-` fits the type.
#[tactic(auto, unfolding(crate::specs::Env::fits_negated, crate::specs::Env::fits))]
pub fn fits_negated(context: &Context, number: u128, ty: &Ty) -> bool
    ensures { result ≡ types.fits_negated (limits context.now) number (kind ty.now) }
{
    match ty {
        Ty::Int(width) => !context.strict || is_within_half(number, *width),
        _ => fits(context, number, ty),
    }
}

/// A number, or the limit where that is less.
pub fn capped(number: u128, limit: u32) -> u32
    ensures { result ≡ min number limit }
{
    match u32::try_from(number) {
        Ok(number) => number.min(limit),
        Err(_) => limit,
    }
}
