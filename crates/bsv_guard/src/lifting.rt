ghost use Rattle.std.specs.Prelude.{◌≡◌, ◌<◌, ◌^◌};
ghost use Rattle.std.specs.Prelude.{ℕ, IsTrue, IfOk, IfErr, OnOk, OnErr, Ok, length, map};
ghost use Rattle.std.specs.List.{list_all};
ghost use Rattle.bsv_design.specs.design.Guards as guards;
ghost use Rattle.bsv_design.specs.scheme.Relations.{KeepsTheRule};
ghost use Rattle.bsv_design.specs.scheme.Schemes.{design_scheme, kinds_of};
ghost use Rattle.bsv_design.specs.scheme.Seen.{design_data};
ghost use Rattle.bsv_design.specs.design.Widths.{call_named};
ghost use Rattle.bsv_guard.specs.Lifted.{AreLifted, IsRefused, IsElementLifted};

use crate::fault::GuardFault;
use crate::needs::needs_of;
use crate::search::first_breach;
use bsv_design::{Call, Design, Guards, Kind, NamedPart, Need};
use sqlite_items::Items;
use std::alloc::{AllocError, Global};

/// The kinds of these parts.
fn kinds(alloc: Global, parts: &[NamedPart]) -> Result<Vec<Kind>, AllocError>
    ensures { IfOk result (λ found. found.items ≡ map (λ p. p.kind) parts.now) }
{
    let mut found = Vec::new(alloc);
    for part in parts {
        found.push(part.kind)?;
    }
    Ok(found)
}

/// The needs of the element of this number, whose calls keep the rule of one element.
fn lift_element(
    alloc: Global,
    kinds: &[Kind],
    number: u32,
    calls: &[Call],
) -> Result<Items<Need>, GuardFault>
    requires named { IsTrue (list_all (call_named kinds.now) calls.now) }
    requires few { length calls.now < 2 ^ 32 }
    ensures { IsElementLifted kinds.now number calls.now result }
{
    match first_breach(alloc, kinds, calls)? {
        Some(breach) => Err(GuardFault::InRule(number, breach.part, breach.first, breach.second)),
        None => Ok(needs_of(alloc, kinds, calls)?),
    }
}

/// Of each element the guards that have to hold, or the first two calls that break the rule of one element.
pub fn lift(alloc: Global, design: &Design) -> Result<Guards, GuardFault>
    ensures needs { IfOk result (λ g.
        g.needs ≡ guards.needs_of (kinds_of (design_data design.now)) design.now.elements) }
    ensures kept { OnOk result ((n : ℕ) → KeepsTheRule (design_scheme (design_data design.now)) n) }
    ensures lifted { IfOk result (λ g. AreLifted (design_data design.now) g.needs) }
    ensures refused { IfErr result (IsRefused (design_data design.now)) }
{
    let kinds = kinds(alloc, design.parts.as_slice())?;
    let mut needs = Items::new(alloc);
    for (number, element) in design.elements.as_slice().iter().enumerate() {
        let calls = element.calls.as_slice();
        needs.push(lift_element(alloc, kinds.as_slice(), number as u32, calls)?)?;
    }
    Ok(Guards { needs })
}
