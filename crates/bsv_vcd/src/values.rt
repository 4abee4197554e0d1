use crate::signal::{Form, Listing, Scope, Signal, Source, Title};
use bsv_bits::OutOfMemory;
use bsv_types::{Field, Ty, Typed, counted_width};

/// So deep values in values are taken apart; what is deeper is shown as its bits.
const MOST_DEPTH: u32 = 32;

/// Some bits of a word that are a value.
#[derive(Clone, Copy)]
struct Value {
    title: Title,
    low: u32,
    width: u32,
}

impl Value {
    /// The signal that shows it in this form.
    fn signal(self, form: Form) -> Signal {
        Signal {
            title: self.title,
            low: self.low,
            width: self.width,
            form,
        }
    }
}

/// The width of a type, or 0 where it has none.
pub(crate) fn width_of(typed: &Typed, ty: &Ty) -> u32 {
    counted_width(&typed.enums, &typed.structs, ty).unwrap_or(0)
}

/// The uppermost bits of so many, where so many bits are below all of them.
fn upper(title: Title, low: u32, bits: u32, width: u32) -> Value {
    Value {
        title,
        low: low.saturating_add(bits.saturating_sub(width)),
        width,
    }
}

/// Adds the signals of a value of a type.
#[cycle(values)]
fn add_value(
    typed: &Typed,
    value: Value,
    ty: &Ty,
    depth: u32,
    listing: &mut Listing,
) -> Result<(), OutOfMemory> {
    listing.signal(value.signal(Form::Bits))?;
    if depth == 0 {
        return Ok(());
    }
    match ty {
        Ty::Enum(number) => listing.signal(value.signal(Form::Label(*number))),
        Ty::Struct(number) => add_struct(typed, value, *number, depth - 1, listing),
        Ty::Maybe(payload) => add_maybe(typed, value, payload.get(), depth - 1, listing),
        _ => Ok(()),
    }
}

/// Adds the fields of a value of a struct, in a scope of their own.
#[cycle(values)]
fn add_struct(
    typed: &Typed,
    value: Value,
    number: u32,
    depth: u32,
    listing: &mut Listing,
) -> Result<(), OutOfMemory> {
    listing.open(Scope::Parts, value.title)?;
    if let Some(definition) = typed.structs.get(number as usize) {
        let fields = definition.fields.as_slice();
        add_fields(typed, value, number, fields, depth, listing)?;
    }
    listing.close()
}

/// Adds fields, the first of which has the uppermost bits.
#[cycle(values)]
fn add_fields(
    typed: &Typed,
    value: Value,
    number: u32,
    fields: &[Field],
    depth: u32,
    listing: &mut Listing,
) -> Result<(), OutOfMemory> {
    let mut bits = value.width;
    let mut place = 0u32;
    for field in fields {
        let width = width_of(typed, &field.ty);
        let own = upper(Title::Field(number, place), value.low, bits, width);
        add_value(typed, own, &field.ty, depth, listing)?;
        bits = bits.saturating_sub(width);
        place = place.saturating_add(1);
    }
    Ok(())
}

/// Adds the tag and the payload of a value of a Maybe, in a scope of their own.
#[cycle(values)]
fn add_maybe(
    typed: &Typed,
    value: Value,
    payload: &Ty,
    depth: u32,
    listing: &mut Listing,
) -> Result<(), OutOfMemory> {
    let tag = upper(Title::Valid, value.low, value.width, 1);
    let rest = Value {
        title: Title::Value,
        low: value.low,
        width: value.width.saturating_sub(1),
    };
    listing.open(Scope::Parts, value.title)?;
    listing.signal(tag.signal(Form::Bits))?;
    add_value(typed, rest, payload, depth, listing)?;
    listing.close()
}

/// Adds a word of a type.
pub(crate) fn add_typed(
    typed: &Typed,
    source: Source,
    title: Title,
    ty: &Ty,
    listing: &mut Listing,
) -> Result<(), OutOfMemory> {
    let start = listing.entries.len();
    let value = Value {
        title,
        low: 0,
        width: width_of(typed, ty),
    };
    add_value(typed, value, ty, MOST_DEPTH, listing)?;
    listing.slot(source, start)
}

/// Adds a word of so many bits.
pub(crate) fn add_bits(
    source: Source,
    title: Title,
    width: u32,
    listing: &mut Listing,
) -> Result<(), OutOfMemory> {
    let start = listing.entries.len();
    let value = Value {
        title,
        low: 0,
        width,
    };
    listing.signal(value.signal(Form::Bits))?;
    listing.slot(source, start)
}
