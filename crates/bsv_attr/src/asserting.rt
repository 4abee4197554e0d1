ghost use Rattle.std.specs.Prelude.{◌≡◌, ◌↔◌, ℕ, IsTrue, IsOk, MatchResult, Err};
ghost use Rattle.std.specs.List.{list_all};
ghost use Rattle.bsv_attr.specs.declared.fault.AttrFault.TheVariants as told;
ghost use Rattle.bsv_attr.specs.Asserting.{AreExplicit, AreUnstopped, IsAccepted, NamesImplicit};
ghost use Rattle.bsv_attr.specs.Asserting.{NamesStopper, TellsImplicit, TellsStopper};
ghost use Rattle.bsv_attr.specs.Calling as calling;
ghost use Rattle.bsv_design.specs.scheme.Schemes.{design_scheme};
ghost use Rattle.bsv_design.specs.scheme.Seen.{design_data};

use crate::fault::AttrFault;
use crate::implicit::first_implicit;
use crate::marks::is_marked;
use crate::stopping::first_stopper;
use bsv_design::{Design, Element, Schedule};

/// Whether a number of 32 bits names each condition and each call of the element.
fn is_element_countable(element: &Element) -> bool
    ensures { result ≡ calling.is_countable element.now }
{
    (element.conditions.len() as u128) + (element.calls.len() as u128) < 0x1_0000_0000
}

/// The same of each element of the design.
pub fn is_countable(design: &Design) -> bool
    ensures { result ≡ list_all calling.is_countable design.now.elements }
{
    for element in design.elements.as_slice() {
        if !is_element_countable(element) {
            return false;
        }
    }
    true
}

/// Whether no rule that is marked with `no_implicit_conditions` has one, or the first that has.
fn explicit(design: &Design) -> Result<(), AttrFault>
    requires { IsTrue (list_all calling.is_countable design.now.elements) }
    ensures { MatchResult result (λ _. AreExplicit (design_scheme (design_data design.now)))
        (TellsImplicit (design_scheme (design_data design.now))) }
{
    let marks = design.asserts.as_slice();
    for (rule, element) in design.elements.as_slice().iter().enumerate() {
        if is_marked(marks, rule as u32, false) {
            if let Some(place) = first_implicit(design.parts.as_slice(), element) {
                return Err(AttrFault::NoImplicit(rule as u32, place as u32));
            }
        }
    }
    Ok(())
}

/// Whether no rule that is marked with `fire_when_enabled` is stopped, or the first that is.
fn unstopped(design: &Design, schedule: &Schedule) -> Result<(), AttrFault>
    ensures { MatchResult result
        (λ _. AreUnstopped (design_scheme (design_data design.now)) schedule.now)
        (TellsStopper (design_scheme (design_data design.now)) schedule.now) }
{
    let marks = design.asserts.as_slice();
    for rule in 0..design.elements.len() as u32 {
        if is_marked(marks, rule, true) {
            if let Some(stopper) = first_stopper(schedule, rule) {
                return Err(AttrFault::FireWhenEnabled(rule, stopper));
            }
        }
    }
    Ok(())
}

/// Whether the marked rules of a design keep what their attributes say. `no_implicit_conditions` is told first, and the
/// rules are taken by position.
pub fn asserts(design: &Design, schedule: &Schedule) -> Result<(), AttrFault>
    requires { IsTrue (list_all calling.is_countable design.now.elements) }
    ensures accepted { IsOk result
        ↔ IsAccepted (design_scheme (design_data design.now)) schedule.now }
    ensures no_implicit { (r place : ℕ) → (result ≡ Err (told.NoImplicit r place))
        ↔ NamesImplicit (design_scheme (design_data design.now)) r place }
    ensures fires { (r f : ℕ) → (result ≡ Err (told.FireWhenEnabled r f))
        ↔ NamesStopper (design_scheme (design_data design.now)) schedule.now r f }
{
    explicit(design)?;
    unstopped(design, schedule)
}
