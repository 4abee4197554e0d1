ghost use Rattle.std.specs.Prelude.{◌≡◌, ℕ, ◌<◌, ◌≤◌, List, Some, Err, IfOk};
ghost use Rattle.bsv_tree.specs.tree.Trees.{TreeData};
ghost use Rattle.bsv_design.specs.declared.schedule.Schedule.{Schedule};
ghost use Rattle.bsv_io.specs.Faults.{MayFault};
ghost use Rattle.bsv_io.specs.Reading.{bytes_given};
ghost use Rattle.bsv_flow.specs.Buildings.{IsBuilt, Rejects};
ghost use Rattle.bsv_flow.specs.Compilings.{CompilesTo, Declines, IsCompiled, IsPlanned};
ghost use Rattle.bsv_flow.specs.Loads.{Reaches};
ghost use Rattle.bsv_flow.specs.Running.{BelongTogether};
ghost use Rattle.bsv_flow.specs.Sources.{read_limit};
ghost use Rattle.bsv_flow.specs.declared.refusal.CompileFault.TheVariants.{Refused, ReadFault};
ghost use Rattle.bsv_flow.specs.declared.refusal.Refusal.{Refusal as TheRefusal};

use crate::building::tree;
use crate::loading::{Loaded, load};
use crate::refusal::CompileFault;
use crate::scheduling::{Compiled, scheduled};
use crate::typing::typed;
use bsv_io::{Files, Gate};
use std::alloc::Global;
use std::thread::Threads;

/// What was loaded as a design with its guards, its schedule, its net and its Verilog, or the first refusal
/// of typing, building and scheduling.
pub fn compiled<R: Threads + Sync, G: Gate + Sync>(
    rt: &R,
    alloc: Global,
    loaded: &Loaded,
    top: &str,
    gate: &G,
) -> Result<Compiled, CompileFault>
    ensures compiled { IfOk result (λ c. CompilesTo loaded.now top.now c) }
    ensures runs { IfOk result BelongTogether }
    ensures refused { (r : TheRefusal) → result ≡ Err (Refused r) → Declines loaded.now top.now r }
    ensures own { (name : List ℕ) → result ≡ Err (ReadFault name) → ⊥ }
{
    let program = typed(alloc, loaded)?;
    let built = tree(alloc, program, top)?;
    scheduled(rt, alloc, &built, gate)
}

/// The first file and what it imports, compiled: the design of the module `top`, with its guards, its
/// schedule, its net and its Verilog; or the first refusal.
///
/// The file lies where its name says, and the files of the packages that it imports beside it. A design
/// is accepted exactly where none of the refusals 1 to 26 holds; else the answer is the first one: of
/// loading (1 to 6 and 17, file by file), of typing (8, 11, 7, 9, 10), of building (12 to 17 and 26), and
/// of scheduling (18, 21 to 25, 20, 19).
pub fn compile<R: Threads + Sync, F: Files, G: Gate + Sync>(
    rt: &R,
    alloc: Global,
    files: &mut F,
    name: &str,
    top: &str,
    gate: &G,
) -> Result<Compiled, CompileFault>
    ensures compiled { IfOk result (λ c. (contents : List ℕ → List ℕ)
        → (F.reading files.old).contents ≡ Some contents
        → IsCompiled name.now contents top.now c) }
    ensures runs { IfOk result BelongTogether }
    ensures refused { (r : TheRefusal) → result ≡ Err (Refused r)
        → (contents : List ℕ → List ℕ)
        → (F.reading files.old).contents ≡ Some contents → Rejects name.now contents top.now r }
    ensures read_fault { (blamed : List ℕ) → result ≡ Err (ReadFault blamed)
        → MayFault (F.reading files.old).faults (F.reading files.new).faults
        × ((F.reading files.new).blamed ≡ Some blamed) }
    ensures reached { (blamed : List ℕ) → result ≡ Err (ReadFault blamed)
        → (contents : List ℕ → List ℕ)
        → (F.reading files.old).contents ≡ Some contents → Reaches name.now contents blamed }
    // No source is read on after one byte more than it may have.
    ensures within { read_limit < bytes_given (F.reading files.new)
        → (F.reading files.new).current ≡ (F.reading files.old).current }
    ensures contents { (F.reading files.new).contents ≡ (F.reading files.old).contents }
    ensures count { (F.reading files.old).faults ≤ (F.reading files.new).faults }
    ensures kept { ((blamed : List ℕ) → result ≡ Err (ReadFault blamed) → ⊥)
        → (F.reading files.new).faults ≡ (F.reading files.old).faults }
{
    let loaded = load(alloc, files, name)?;
    compiled(rt, alloc, &loaded, top, gate)
}

/// What the files hold decides what is compiled: it is one tree with one schedule at most, and then nothing
/// is refused.
pub fn one_plan()
    ensures tree { (first : List ℕ) (contents : List ℕ → List ℕ) (top : List ℕ)
        (t u : TreeData) (made other : Schedule) → IsPlanned first contents top t made
        → IsPlanned first contents top u other → t ≡ u }
    ensures schedule { (first : List ℕ) (contents : List ℕ → List ℕ) (top : List ℕ)
        (t u : TreeData) (made other : Schedule) → IsPlanned first contents top t made
        → IsPlanned first contents top u other → made ≡ other }
    ensures built { (first : List ℕ) (contents : List ℕ → List ℕ) (top : List ℕ)
        (t : TreeData) (made : Schedule) → (plan : IsPlanned first contents top t made)
        → IsBuilt first contents top plan.loaded }
    ensures apart { (first : List ℕ) (contents : List ℕ → List ℕ) (top : List ℕ)
        (t : TreeData) (made : Schedule) (r : TheRefusal) → IsPlanned first contents top t made
        → Rejects first contents top r → ⊥ }
{}
