ghost use Rattle.std.specs.Prelude.{◌≡◌, ◌⊎◌, ℕ, List, Some, Err, Ok, IfOk, option_map};
ghost use Rattle.bsv_check.specs.Seen.{typed_seen};
ghost use Rattle.bsv_flow.specs.OneAnswer.{IsSameRefusal};
ghost use Rattle.bsv_flow.specs.Typings.{typing_of, file_of, line_of, column_of, source_of, placed, told, IsTyped, IsUntyped};
ghost use Rattle.bsv_flow.specs.declared.loading.Loaded.{Loaded as TheLoaded};
ghost use Rattle.bsv_flow.specs.declared.refusal.CompileFault.TheVariants.{Refused, ReadFault};
ghost use Rattle.bsv_flow.specs.declared.refusal.Refusal.{Refusal as TheRefusal};

use crate::loading::Loaded;
use crate::position::position;
use crate::refusal::{CompileFault, Refusal};
use bsv_bits::{Name, OutOfMemory};
use bsv_check::{CheckFault, check};
use bsv_names::Place;
use bsv_types::Typed;
use std::alloc::Global;

/// The name of the file of this number.
fn file_of(alloc: Global, loaded: &Loaded, number: u32) -> Result<Name, OutOfMemory>
    ensures { IfOk result (λ name. name ≡ file_of loaded.now number) }
{
    match loaded.files.get(number as usize) {
        Some(name) => Name::new(alloc, name.bytes()),
        None => Name::new(alloc, &[]),
    }
}

/// The bytes of the file of this number.
fn source_of(loaded: &Loaded, number: u32) -> &[u8]
    ensures { result.now ≡ source_of loaded.now number }
{
    match loaded.sources.get(number as usize) {
        Some(source) => source.bytes(),
        None => &[],
    }
}

/// The file, the line and the column of a place.
fn position_of(
    alloc: Global,
    loaded: &Loaded,
    place: Place,
) -> Result<(Name, u64, u64), OutOfMemory>
    ensures { IfOk result (λ r. r ≡ (
      file_of loaded.now place.«package»,
      line_of loaded.now place,
      column_of loaded.now place,
    )) }
{
    let file = file_of(alloc, loaded, place.package)?;
    let (line, column) = position(source_of(loaded, place.package), place.span.start);
    Ok((file, line, column))
}

/// The refusal that a fault tells.
fn refusal(alloc: Global, loaded: &Loaded, fault: CheckFault) -> Result<Refusal, OutOfMemory>
    ensures { IfOk result (λ r. option_map (placed loaded.now) (told fault) ≡ Some r) }
{
    match fault {
        CheckFault::TwiceDefined(place) => {
            let (file, line, column) = position_of(alloc, loaded, place)?;
            Ok(Refusal::TwiceDefined(file, line, column))
        }
        CheckFault::BadAttribute(place) => {
            let (file, line, column) = position_of(alloc, loaded, place)?;
            Ok(Refusal::BadAttribute(file, line, column))
        }
        CheckFault::UnknownName(place) => {
            let (file, line, column) = position_of(alloc, loaded, place)?;
            Ok(Refusal::UnknownName(file, line, column))
        }
        CheckFault::TypeFault(place) => {
            let (file, line, column) = position_of(alloc, loaded, place)?;
            Ok(Refusal::TypeFault(file, line, column))
        }
        CheckFault::WidthFault(place) => {
            let (file, line, column) = position_of(alloc, loaded, place)?;
            Ok(Refusal::WidthFault(file, line, column))
        }
        CheckFault::OutOfMemory => Err(OutOfMemory),
    }
}

/// The typed program of what was loaded, or the first refusal of 8, 11, 7, 9 and 10 that occurs anywhere.
pub fn typed(alloc: Global, loaded: &Loaded) -> Result<Typed, CompileFault>
    ensures typed { IfOk result (λ t. typing_of loaded.now ≡ Ok (typed_seen t)) }
    ensures refused { (r : TheRefusal) → result ≡ Err (Refused r) → typing_of loaded.now ≡ Err r }
    ensures own { (name : List ℕ) → result ≡ Err (ReadFault name) → ⊥ }
{
    match check(alloc, loaded.packages.as_slice()) {
        Ok(program) => Ok(program),
        Err(fault) => Err(CompileFault::Refused(refusal(alloc, loaded, fault)?)),
    }
}

/// What the files hold decides what is typed or refused: there is one typed program, or a first refusal, and not
/// both. Both are one, but that the place of a `Syntax` is free.
pub fn one_typing()
    ensures same { (first : List ℕ) (contents : List ℕ → List ℕ) (l m : TheLoaded)
        → IsTyped first contents l → IsTyped first contents m → l ≡ m }
    ensures apart { (first : List ℕ) (contents : List ℕ → List ℕ) (l : TheLoaded) (r : TheRefusal)
        → IsTyped first contents l → IsUntyped first contents r → ⊥ }
    ensures some { (first : List ℕ) (contents : List ℕ → List ℕ)
        → ((l : TheLoaded) × IsTyped first contents l)
        ⊎ ((r : TheRefusal) × IsUntyped first contents r) }
    ensures one_program { (first : List ℕ) (contents : List ℕ → List ℕ) (l m : TheLoaded)
        (one : IsTyped first contents l) (other : IsTyped first contents m)
        → one.made ≡ other.made }
    ensures one_refusal { (first : List ℕ) (contents : List ℕ → List ℕ) (r other : TheRefusal)
        → IsUntyped first contents r → IsUntyped first contents other → IsSameRefusal r other }
{}
