//! Widths as definitions carry them, of types and of fields side by side.

ghost use Rattle.std.specs.Prelude.{◌≡◌, ◌≤◌, ◌-◌, length};
ghost use Rattle.bsv_types.specs.Kinds.{kind};
ghost use Rattle.bsv_types.specs.Shapes.{width_by, widths_by};
ghost use Rattle.bsv_types.specs.Widths.{IsLeast, field_kinds};

use crate::definitions::{Enum, Field, Struct};
use crate::types::Ty;
use sqlite_items::Items;

/// The width of a type with bits, where that of an enum and of a struct is the one that its definition
/// carries; None of a type without bits. A width that no `u32` holds counts as the greatest one.
pub fn counted_width(enums: &Items<Enum>, structs: &Items<Struct>, ty: &Ty) -> Option<u32>
    ensures { result ≡ width_by enums.now structs.now (kind ty.now) }
{
    match ty {
        Ty::Bit(width) | Ty::UInt(width) | Ty::Int(width) => Some(*width),
        Ty::Bool => Some(1),
        Ty::Enum(number) => Some(enums.get(*number as usize)?.width),
        Ty::Struct(number) => Some(structs.get(*number as usize)?.width),
        Ty::Maybe(payload) => {
            let payload = counted_width(enums, structs, payload.get())?;
            Some(payload.saturating_add(1))
        }
        Ty::Down(_) | Ty::Integer | Ty::Interface(_) | Ty::Part(_, _) => None,
    }
}

/// The widths of fields together, counted in the same way.
#[tactic(auto, using(crate::proofs::Counted::sums))]
pub fn counted_widths(enums: &Items<Enum>, structs: &Items<Struct>, fields: &[Field]) -> Option<u32>
    ensures { result ≡ widths_by enums.now structs.now (field_kinds fields.now) }
{
    let mut rest = fields;
    let mut width: u32 = 0;
    while let Some((field, after)) = rest.split_first() {
        let own = counted_width(enums, structs, &field.ty)?;
        width = width.saturating_add(own);
        rest = after;
    }
    Some(width)
}

/// The least number of bits that hold a number other than 0.
pub fn least_width(number: u64) -> u32
    requires { 1 ≤ number }
    ensures { IsLeast result number }
{
    if number == 1 {
        1
    } else {
        1 + least_width(number / 2)
    }
}
