ghost use Rattle.std.specs.Prelude.{◌≡◌, [], IfOk, OnOk, Some, map, replicate};
ghost use Rattle.bsv_ports.specs.CallSites as spec;

use bsv_bits::OutOfMemory;
use bsv_design::{Call, Element, Kind, NamedPart};
use bsv_prim::Primitive;
use sqlite_items::{Items, at};
use std::alloc::Global;

/// A call site of a method that acts, on a part: the element, the place of the call in it, and the method.
#[derive(Clone, Copy, Debug, PartialEq, Eq)]
pub struct CallSite {
    pub element: u32,
    pub call: u32,
    pub method: u32,
}

/// Whether the method is one of the kind, and acts.
fn acts_in(kind: &Kind, method: u32) -> bool
    ensures { result ≡ spec.acts_in (Some kind.now) method }
{
    method < kind.methods() && kind.is_action(method)
}

/// One more call site on its part, where the call is of a method that acts.
fn add_call(
    parts: &[NamedPart],
    call_sites: &mut Vec<Items<CallSite>>,
    call: &Call,
    call_site: CallSite,
) -> Result<(), OutOfMemory>
    ensures { OnOk result (call_sites.new.items ≡ spec.with_call (map (λ p. p.kind) parts.now)
        call_sites.old.items call.now call_site) }
{
    let place = call.part as usize;
    if place >= parts.len() || place >= call_sites.len() {
        return Ok(());
    }
    if acts_in(&parts[place].kind, call.method) {
        call_sites[place].push(call_site)?;
    }
    Ok(())
}

/// Those of the calls of an element, of which the first has this number.
#[tactic(auto, unfolding(crate::specs::CallSites::with_calls))]
fn add_calls(
    parts: &[NamedPart],
    call_sites: &mut Vec<Items<CallSite>>,
    element: u32,
    calls: &[Call],
) -> Result<(), OutOfMemory>
    ensures { OnOk result (call_sites.new.items ≡ spec.with_calls (map (λ p. p.kind) parts.now)
        call_sites.old.items element 0 calls.now) }
{
    let mut number = 0;
    let mut rest = calls;
    while let Some((call, after)) = rest.split_first() {
        let call_site = CallSite {
            element,
            call: number,
            method: call.method,
        };
        add_call(parts, call_sites, call, call_site)?;
        let Some(next) = number.checked_add(1) else {
            return Err(OutOfMemory);
        };
        number = next;
        rest = after;
    }
    Ok(())
}

/// No call sites on each of so many parts.
fn no_call_sites(alloc: Global, parts: usize) -> Result<Vec<Items<CallSite>>, OutOfMemory>
    ensures { IfOk result (λ call_sites. call_sites.items ≡ replicate parts []) }
{
    let mut call_sites = Vec::new(alloc);
    for _ in 0..parts {
        call_sites.push(Items::new(alloc))?;
    }
    Ok(call_sites)
}

/// Those of the elements, one after the other.
#[tactic(auto, unfolding(crate::specs::CallSites::with_elements))]
fn add_elements(
    parts: &[NamedPart],
    call_sites: &mut Vec<Items<CallSite>>,
    elements: &[Element],
    execution: &[u32],
) -> Result<(), OutOfMemory>
    ensures { OnOk result (call_sites.new.items ≡ spec.with_elements (map (λ p. p.kind) parts.now)
        elements.now call_sites.old.items execution.now) }
{
    let mut rest = execution;
    while let Some((number, after)) = rest.split_first() {
        if let Some(element) = at(elements, *number as usize) {
            add_calls(parts, call_sites, *number, element.calls.as_slice())?;
        }
        rest = after;
    }
    Ok(())
}

/// Of each part the call sites of methods that act, in the order in which their calls take effect.
pub fn all_call_sites(
    alloc: Global,
    parts: &[NamedPart],
    elements: &[Element],
    execution: &[u32],
) -> Result<Vec<Items<CallSite>>, OutOfMemory>
    ensures { IfOk result (λ call_sites. call_sites.items
        ≡ spec.all_call_sites (map (λ p. p.kind) parts.now) elements.now execution.now) }
{
    let mut call_sites = no_call_sites(alloc, parts.len())?;
    add_elements(parts, &mut call_sites, elements, execution)?;
    Ok(call_sites)
}
