use bsv_design::{Attribute, Design, NamedPart};
use bsv_prim::Primitive;

/// The name of the element of a position.
pub(crate) fn element_name(design: &Design, position: u32) -> &[u8] {
    match design.elements.get(position as usize) {
        Some(element) => element.name.bytes(),
        None => b"",
    }
}

/// The position of the element of a name.
pub fn position_of(design: &Design, name: &[u8]) -> Option<u32> {
    for (position, element) in design.elements.as_slice().iter().enumerate() {
        if element.name.bytes() == name {
            return u32::try_from(position).ok();
        }
    }
    None
}

/// The place of the part of a path.
pub(crate) fn part_of(design: &Design, path: &[u8]) -> Option<u32> {
    for (place, part) in design.parts.as_slice().iter().enumerate() {
        if part.path.bytes() == path {
            return u32::try_from(place).ok();
        }
    }
    None
}

/// The part of a place.
pub(crate) fn part_at(design: &Design, part: u32) -> Option<&NamedPart> {
    design.parts.get(part as usize)
}

/// The path of a part.
pub(crate) fn part_path(design: &Design, part: u32) -> &[u8] {
    match part_at(design, part) {
        Some(part) => part.path.bytes(),
        None => b"",
    }
}

/// The name of a method of a part.
pub(crate) fn method_name(design: &Design, part: u32, method: u32) -> &[u8] {
    match part_at(design, part) {
        Some(part) => {
            if method < part.kind.methods() {
                part.kind.method_name(method).as_bytes()
            } else {
                b""
            }
        }
        None => b"",
    }
}

/// An attribute as it is written.
pub(crate) fn attribute_word(attribute: Attribute) -> &'static [u8] {
    match attribute {
        Attribute::DescendingUrgency => b"descending_urgency",
        Attribute::ExecutionOrder => b"execution_order",
        Attribute::Preempts => b"preempts",
    }
}
