ghost use Rattle.std.specs.Prelude.{◌≡◌, IfOk, OnOk, slice_get};
ghost use Rattle.std.specs.Option.{option_copied};
ghost use Rattle.bsv_fail.specs.Given.{Gives};
ghost use Rattle.bsv_elab.specs.Bodies as spec;

use crate::refused::{Building, Refused};
use crate::state::State;
use crate::variables::{binding, put_at, with_binding};
use bsv_bits::{Name, OutOfMemory};
use bsv_fail::Fail;
use bsv_tree::{Binding, Static};
use sqlite_items::Items;
use std::alloc::{AllocError, Global};

/// The most places of an array.
const MOST_PLACES: u64 = 4_096;

/// How many places an array has.
#[tactic(auto, unfolding(crate::specs::Bodies::most_places))]
pub(crate) fn length_of(fault: Refused, length: i64) -> Building<usize>
    ensures { Gives result (spec.length_of fault length) }
{
    match u64::try_from(length) {
        Ok(length) if length <= MOST_PLACES => Ok(length as usize),
        _ => Err(Fail::Fault(fault)),
    }
}

/// An array without instances.
#[tactic(auto, using(crate::proofs::Repeats::repeats))]
pub(crate) fn no_places(alloc: Global, length: usize) -> Result<Static, AllocError>
    ensures { IfOk result (λ places. places ≡ spec.no_places length) }
{
    let mut places = Items::new(alloc);
    for _place in 0..length {
        places.push(None)?;
    }
    Ok(Static::Places(places))
}

/// The places of a variable that is an array.
fn places(variable: Option<&Binding>) -> &[Option<u32>]
    ensures { result.now ≡ spec.places (option_copied variable.entry) }
{
    match variable {
        Some(found) => match &found.value {
            Static::Places(places) => places.as_slice(),
            _ => &[],
        },
        None => &[],
    }
}

/// An index, which is that of a place.
fn index_in(fault: Refused, places: &[Option<u32>], index: i64) -> Building<usize>
    ensures { Gives result (spec.index_in fault places.now index) }
{
    match u64::try_from(index) {
        Ok(at) if (at as usize) < places.len() => Ok(at as usize),
        _ => Err(Fail::Fault(fault)),
    }
}

/// An index, which is that of a place of the array at this level.
pub(crate) fn place_at(fault: Refused, level: usize, index: i64, state: &State) -> Building<usize>
    ensures { Gives result
        (spec.index_in fault (spec.places (slice_get state.now.scope.bindings level)) index) }
{
    index_in(fault, places(state.scope.bindings.get(level)), index)
}

/// The name of the variable at this level.
pub(crate) fn name_at(alloc: Global, level: usize, state: &State) -> Result<Name, OutOfMemory>
    ensures { IfOk result
        (λ name. name ≡ spec.name_of (slice_get state.now.scope.bindings level)) }
{
    match state.scope.bindings.get(level) {
        Some(found) => Name::new(alloc, found.name.bytes()),
        None => Name::new(alloc, b""),
    }
}

/// The width of what the instances of the array at this level hold.
pub(crate) fn width_at(level: usize, state: &State) -> u32
    ensures { result ≡ spec.or_one (slice_get state.now.scope.widths level) }
{
    match state.scope.widths.get(level) {
        Some(width) => *width,
        None => 1,
    }
}

/// The places with an instance at one of them.
fn placed(
    alloc: Global,
    places: &[Option<u32>],
    at: usize,
    number: u32,
) -> Result<Static, AllocError>
    ensures { IfOk result (λ x. x ≡ spec.placed places.now at number) }
{
    let mut places = Items::from_slice(alloc, places)?;
    put_at(at, Some(number), &mut places);
    Ok(Static::Places(places))
}

/// The place of an array is that instance.
#[tactic(auto, unfolding(crate::specs::Bodies::set_place))]
pub(crate) fn set_place(
    alloc: Global,
    level: usize,
    at: usize,
    number: u32,
    state: &mut State,
) -> Result<(), OutOfMemory>
    ensures { OnOk result (state.new ≡ spec.set_place level at number state.old) }
{
    let next = match state.scope.bindings.get(level) {
        Some(old) => {
            let value = placed(alloc, places(Some(old)), at, number)?;
            binding(alloc, old.name.bytes(), value)?
        }
        None => return Ok(()),
    };
    with_binding(level, next, state);
    Ok(())
}
