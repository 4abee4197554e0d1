ghost use Rattle.std.specs.Prelude.{◌≡◌};
ghost use Rattle.bsv_design.specs.scheme.Schemes.{design_scheme};
ghost use Rattle.bsv_design.specs.scheme.Seen.{design_data};
ghost use Rattle.bsv_clock.specs.Subjects.{element_name};
ghost use Rattle.bsv_flow.specs.Attributes.{attribute_word};
ghost use Rattle.bsv_flow.specs.Breaches as breaches;

use bsv_design::{Attribute, Design, NamedPart};
use bsv_prim::Primitive;

/// An attribute as it is written.
pub(crate) fn attribute_word(attribute: Attribute) -> &'static str
    ensures { result.now ≡ attribute_word attribute }
{
    match attribute {
        Attribute::DescendingUrgency => "descending_urgency",
        Attribute::ExecutionOrder => "execution_order",
        Attribute::Preempts => "preempts",
    }
}

/// The name of an element, by its position.
#[tactic(auto, using(crate::proofs::Flattened::names_same), unfolding(bsv_design::specs::scheme::Schemes::design_scheme))]
pub(crate) fn element_name(design: &Design, position: u32) -> &[u8]
    ensures { result.now ≡ element_name (design_scheme (design_data design.now)) position }
{
    match design.elements.get(position as usize) {
        Some(element) => element.name.bytes(),
        None => b"",
    }
}

/// The path of a part.
pub(crate) fn part_path(parts: &[NamedPart], part: u32) -> &[u8]
    ensures { result.now ≡ breaches.part_path parts.now part }
{
    match parts.get(part as usize) {
        Some(part) => part.path.bytes(),
        None => b"",
    }
}

/// The name of a method of a part.
#[tactic(auto, using(crate::proofs::Flattened::no_more_names))]
pub(crate) fn method_name(parts: &[NamedPart], part: u32, method: u32) -> &[u8]
    ensures { result.now ≡ breaches.method_name parts.now part method }
{
    match parts.get(part as usize) {
        Some(part) => {
            if method < part.kind.methods() {
                part.kind.method_name(method).as_bytes()
            } else {
                b""
            }
        }
        None => b"",
    }
}
