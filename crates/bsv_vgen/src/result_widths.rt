ghost use Rattle.std.specs.Prelude.{◌≡◌, IfOk, map};
ghost use Rattle.bsv_design.specs.design.Widths as widths_of;
ghost use Rattle.bsv_net.specs.AtHand.{net_data};
ghost use Rattle.bsv_vgen.specs.Modules as spec;

use crate::known::{Known, told_at};
use bsv_bits::OutOfMemory;
use bsv_design::{Element, NamedPart};
use bsv_net::Net;
use bsv_widths::widths;
use sqlite_items::at;
use std::alloc::Global;

/// The width of what an element gives, in its flat body.
fn own_width(
    alloc: Global,
    parts: &[NamedPart],
    element: &Element,
) -> Result<Option<u32>, OutOfMemory>
    ensures { IfOk result (λ width. width
        ≡ spec.own_width (map (λ p. p.kind) parts.now) element.now) }
{
    let found = widths(
        alloc,
        element.arguments.as_slice(),
        parts,
        element.calls.as_slice(),
        element.nodes.as_slice(),
    )?;
    let Some(found) = found else {
        return Ok(None);
    };
    let Some(place) = element.result else {
        return Ok(None);
    };
    match at(found.as_slice(), place as usize) {
        Some(width) => Ok(Some(*width)),
        None => Ok(None),
    }
}

/// Whether there is a width, and it is this one.
fn has_width(found: Option<u32>, width: u32) -> bool
    ensures { result ≡ widths_of.has_width found width }
{
    match found {
        Some(own) => own == width,
        None => false,
    }
}

/// Whether the net gives what a method gives in the width that it has in the method's own body.
fn result_fits(
    alloc: Global,
    known: &[Known],
    net: &Net,
    parts: &[NamedPart],
    place: u32,
    method: &Element,
) -> Result<bool, OutOfMemory>
    ensures { IfOk result (λ fits. fits ≡ spec.result_fits known.now (net_data net.now)
        (map (λ p. p.kind) parts.now) place method.now) }
{
    if !method.role.gives_value() {
        return Ok(true);
    }
    let own = own_width(alloc, parts, method)?;
    Ok(has_width(own, told_at(known, net.results.as_slice(), place).width))
}

/// Whether it does so for each of these methods.
#[tactic(auto, unfolding(crate::specs::Modules::results_fit))]
pub(crate) fn results_fit(
    alloc: Global,
    known: &[Known],
    net: &Net,
    parts: &[NamedPart],
    methods: &[Element],
) -> Result<bool, OutOfMemory>
    ensures { IfOk result (λ fits. fits ≡ spec.results_fit known.now (net_data net.now)
        (map (λ p. p.kind) parts.now) 0 methods.now) }
{
    let mut number = 0u32;
    let mut rest = methods;
    while let Some((method, after)) = rest.split_first() {
        if !result_fits(alloc, known, net, parts, number, method)? {
            return Ok(false);
        }
        let Some(next) = number.checked_add(1) else {
            return Err(OutOfMemory);
        };
        number = next;
        rest = after;
    }
    Ok(true)
}
