ghost use Rattle.std.specs.Prelude.{◌≡◌, ◌↔◌, IfOk, IsTrue, true, map};
ghost use Rattle.std.specs.List.{list_all};
ghost use Rattle.bsv_types.specs.Names.{countable};
ghost use Rattle.bsv_design.specs.design.Designs.{HasWidths};
ghost use Rattle.bsv_design.specs.declared.element.Role.TheVariants as role;
ghost use Rattle.bsv_design.specs.design.Widths as spec;
ghost use Rattle.bsv_widths.specs.Fitting as fitting;

use crate::calls::{calls_fit, none_acts};
use crate::node_widths::widths;
use crate::operators::{MOST, has_width, width_at};
use bsv_bits::OutOfMemory;
use bsv_design::{Condition, Element, NamedPart, Port};
use sqlite_items::Items;
use std::alloc::Global;

/// Whether a condition, and where it is asked, have one bit each.
fn condition_fits(widths: &[u32], condition: &Condition) -> bool
    ensures { result ≡ spec.condition_fits widths.now condition.now }
{
    has_width(width_at(widths, condition.truth), 1)
        && has_width(width_at(widths, condition.taken), 1)
}

/// Whether each condition has its widths.
fn conditions_fit(widths: &[u32], conditions: &[Condition]) -> bool
    ensures { result ≡ list_all (spec.condition_fits widths.now) conditions.now }
{
    let mut rest = conditions;
    while let Some((condition, after)) = rest.split_first() {
        if !condition_fits(widths, condition) {
            return false;
        }
        rest = after;
    }
    true
}

/// Whether an argument has 1 to 128 bits.
fn port_fits(port: &Port) -> bool
    ensures { result ≡ spec.port_fits port.now }
{
    1 <= port.width && port.width <= MOST
}

/// Whether each argument has 1 to 128 bits.
fn ports_fit(ports: &[Port]) -> bool
    ensures { result ≡ list_all spec.port_fits ports.now }
{
    let mut rest = ports;
    while let Some((port, after)) = rest.split_first() {
        if !port_fits(port) {
            return false;
        }
        rest = after;
    }
    true
}

/// Whether exactly an element that gives a value has a node for it.
fn result_fits(widths: &[u32], gives: bool, node: Option<u32>) -> bool
    ensures { result ≡ spec.result_fits widths.now gives node }
{
    match node {
        Some(place) => gives && (place as usize) < widths.len(),
        None => !gives,
    }
}

/// Whether what is beside nodes of these widths has those that it needs.
fn fits(parts: &[NamedPart], element: &Element, widths: &[u32]) -> bool
    ensures { result ≡ fitting.fits (map (λ p. p.kind) parts.now) element.now widths.now }
{
    calls_fit(parts, widths, element.calls.as_slice())
        && conditions_fit(widths, element.conditions.as_slice())
        && result_fits(widths, element.role.gives_value(), element.result)
        && ports_fit(element.arguments.as_slice())
}

/// Whether the nodes have widths, and what is beside them has those that it needs.
#[tactic(auto, using(crate::proofs::Fitting::when_found, crate::proofs::Fitting::when_none))]
pub fn has_widths(
    alloc: Global,
    parts: &[NamedPart],
    element: &Element,
) -> Result<bool, OutOfMemory>
    ensures { IfOk result (λ b. (b ≡ true) ↔ HasWidths (map (λ p. p.kind) parts.now) element.now) }
{
    let found = widths(
        alloc,
        element.arguments.as_slice(),
        parts,
        element.calls.as_slice(),
        element.nodes.as_slice(),
    )?;
    match found {
        Some(found) => Ok(fits(parts, element, found.as_slice())),
        None => Ok(false),
    }
}

/// Whether no call acts, where the element gives a value alone.
#[tactic(auto, using(crate::proofs::Fitting::where_value))]
pub fn value_acts_not(parts: &[NamedPart], element: &Element) -> bool
    ensures { (result ≡ true) ↔ (element.now.role ≡ role.Value →
        IsTrue (list_all (spec.acts_not (map (λ p. p.kind) parts.now)) element.now.calls)) }
{
    !element.role.is_value() || none_acts(parts, element.calls.as_slice())
}

/// Whether a number of 32 bits names each place.
pub fn is_countable<T>(items: &Items<T>) -> bool
    ensures { result ≡ countable items.now }
{
    u32::try_from(items.len()).is_ok()
}
