ghost use Rattle.std.specs.Prelude.{◌≡◌, ◌⊎◌, ℕ, List, Some, Ok, Err, IfOk, IsTrue};
ghost use Rattle.bsv_check.specs.Checked.{ProgramParts};
ghost use Rattle.bsv_check.specs.Rightness.{is_counted};
ghost use Rattle.bsv_tree.specs.tree.Seen.{tree_data};
ghost use Rattle.bsv_types.specs.declared.typed.Typed.{Typed as TheTyped};
ghost use Rattle.bsv_flow.specs.Buildings.{limit_word, refusal_of, tree_of, IsProgram, IsBuilt, Rejects};
ghost use Rattle.bsv_flow.specs.OneAnswer.{IsSameRefusal};
ghost use Rattle.bsv_flow.specs.Typings.{typing_of};
ghost use Rattle.bsv_flow.specs.declared.loading.Loaded.{Loaded as TheLoaded};
ghost use Rattle.bsv_flow.specs.declared.refusal.CompileFault.TheVariants.{Refused, ReadFault};
ghost use Rattle.bsv_flow.specs.declared.refusal.Refusal.{Refusal as TheRefusal};

use crate::naming::attribute_word;
use crate::refusal::{CompileFault, Refusal};
use bsv_bits::{Name, OutOfMemory};
use bsv_elab::{ElabFault, LimitKind, build};
use bsv_tree::Tree;
use bsv_types::Typed;
use std::alloc::Global;

/// The word of what is counted.
fn limit_word(kind: LimitKind) -> &'static str
    ensures { result.now ≡ limit_word kind }
{
    match kind {
        LimitKind::Elements => "elements",
        LimitKind::Instances => "instances",
        LimitKind::Depth => "depth",
        LimitKind::Weight => "weight",
        LimitKind::Calls => "calls",
        LimitKind::Modules => "modules",
    }
}

/// The refusal that a fault tells.
fn refusal(alloc: Global, fault: ElabFault) -> Result<Refusal, OutOfMemory>
    ensures { IfOk result (λ r. refusal_of fault ≡ Some r) }
{
    match fault {
        ElabFault::NoSuchModule(name) => Ok(Refusal::NoSuchModule(name)),
        ElabFault::StaticFault(name) => Ok(Refusal::StaticFault(name)),
        ElabFault::Loop(name) => Ok(Refusal::Loop(name)),
        ElabFault::Recursion(name) => Ok(Refusal::Recursion(name)),
        ElabFault::NameTaken(path) => Ok(Refusal::NameTaken(path)),
        ElabFault::Limit(kind, most) => {
            let kind = Name::new(alloc, limit_word(kind).as_bytes())?;
            Ok(Refusal::Limit(kind, most))
        }
        ElabFault::NoSuchRule(attribute, name) => {
            let attribute = Name::new(alloc, attribute_word(attribute).as_bytes())?;
            Ok(Refusal::NoSuchRule(attribute, name))
        }
        ElabFault::OutOfMemory => Err(OutOfMemory),
    }
}

/// The tree of a typed program whose top is the module of the name, or the first refusal of 12 to 17
/// and 26 that is met as it is built.
pub fn tree(alloc: Global, typed: Typed, top: &str) -> Result<Tree, CompileFault>
    ensures built { IfOk result (λ t. tree_of typed top.now ≡ Ok (tree_data t)) }
    ensures refused { (r : TheRefusal) → result ≡ Err (Refused r)
        → tree_of typed top.now ≡ Err (Some r) }
    ensures own { (name : List ℕ) → result ≡ Err (ReadFault name) → ⊥ }
{
    let top = Name::new(alloc, top.as_bytes())?;
    match build(alloc, typed, &top) {
        Ok(tree) => Ok(tree),
        Err(fault) => Err(CompileFault::Refused(refusal(alloc, fault)?)),
    }
}

/// What the files hold decides what is built and scheduled, or refused: either what is loaded has a typing,
/// and the program that it is typed as has a tree with a schedule, or there is a first refusal, and not
/// both. The refusal is one, but that the place of a `Syntax` is free. What was loaded is typed as one
/// program at most, and as one where its typing has a number for each place of its lists.
pub fn one_building()
    ensures same { (first : List ℕ) (contents : List ℕ → List ℕ) (top : List ℕ) (l m : TheLoaded)
        → IsBuilt first contents top l → IsBuilt first contents top m → l ≡ m }
    ensures apart { (first : List ℕ) (contents : List ℕ → List ℕ) (top : List ℕ)
        (l : TheLoaded) (r : TheRefusal)
        → IsBuilt first contents top l → Rejects first contents top r → ⊥ }
    ensures some { (first : List ℕ) (contents : List ℕ → List ℕ) (top : List ℕ)
        → ((l : TheLoaded) × IsBuilt first contents top l)
        ⊎ ((r : TheRefusal) × Rejects first contents top r) }
    ensures one_program { (l : TheLoaded) (program other : TheTyped)
        → IsProgram l program → IsProgram l other → program ≡ other }
    ensures a_program { (l : TheLoaded) (made : ProgramParts) → typing_of l ≡ Ok made
        → IsTrue (is_counted made) → (program : TheTyped) × IsProgram l program }
    ensures one_refusal { (first : List ℕ) (contents : List ℕ → List ℕ) (top : List ℕ)
        (r other : TheRefusal) → Rejects first contents top r → Rejects first contents top other
        → IsSameRefusal r other }
{}
