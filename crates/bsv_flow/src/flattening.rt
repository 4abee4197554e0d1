ghost use Rattle.std.specs.Prelude.{◌≡◌, ℕ, List, slice_get, Some, Err, IfOk};
ghost use Rattle.bsv_design.specs.design.Guards.{needs_of, body_ready};
ghost use Rattle.bsv_design.specs.scheme.Relations.{KeepsTheRule};
ghost use Rattle.bsv_design.specs.scheme.Schemes.{design_scheme, kinds_of, AreAlike};
ghost use Rattle.bsv_tree.specs.meaning.Schemes.{tree_scheme};
ghost use Rattle.bsv_design.specs.scheme.Seen.{design_data};
ghost use Rattle.bsv_tree.specs.tree.Seen.{tree_data};
ghost use Rattle.bsv_tree.specs.tree.Elements.{parts_among};
ghost use Rattle.bsv_guard.specs.ElementLaws.{ElementLaws};
ghost use Rattle.bsv_guard.specs.Lifted.{AreLifted};
ghost use Rattle.bsv_inline.specs.Flattening.{top_name};
ghost use Rattle.bsv_flow.specs.Breaches as breaches;
ghost use Rattle.bsv_flow.specs.Breaches.{TellsBreach};
ghost use Rattle.bsv_flow.specs.declared.refusal.CompileFault.TheVariants.{Refused, ReadFault};
ghost use Rattle.bsv_flow.specs.declared.refusal.Refusal.{Refusal as TheRefusal};

use crate::naming::{element_name, method_name, part_path};
use crate::refusal::{CompileFault, Refusal};
use bsv_bits::{Name, OutOfMemory};
use bsv_design::{Design, Guards};
use bsv_guard::{GuardFault, lift};
use bsv_inline::flatten;
use bsv_tree::Tree;
use std::alloc::Global;

/// The refusal of two calls of an element that may not be in it.
fn breach(
    alloc: Global,
    design: &Design,
    element: u32,
    part: u32,
    first: u32,
    second: u32,
) -> Result<Refusal, OutOfMemory>
    ensures { IfOk result (λ r.
        r ≡ breaches.told_in (design_data design.now) element part first second) }
{
    let parts = design.parts.as_slice();
    Ok(Refusal::InRule(
        Name::new(alloc, element_name(design, element))?,
        Name::new(alloc, part_path(parts, part))?,
        Name::new(alloc, method_name(parts, part, first))?,
        Name::new(alloc, method_name(parts, part, second))?,
    ))
}

/// The design of a tree, with the guards of its elements; or the refusal of the first two calls of one
/// element that may not be in it.
#[tactic(auto, using(crate::proofs::Flattened::tells, crate::proofs::Flattened::keeps, crate::proofs::Flattened::laws_of))]
pub fn flat(alloc: Global, tree: &Tree) -> Result<(Design, Guards), CompileFault>
    ensures alike { IfOk result (λ x.
        AreAlike (tree_scheme (tree_data tree.now)) (design_scheme (design_data x.0))) }
    ensures name { IfOk result (λ x. top_name (tree_data tree.now) ≡ Some x.0.name) }
    ensures parts { IfOk result (λ x. x.0.parts ≡ parts_among tree.now.instances) }
    ensures needs { IfOk result (λ x.
        x.1.needs ≡ needs_of (kinds_of (design_data x.0)) x.0.elements) }
    ensures lifted { IfOk result (λ x. AreLifted (design_data x.0) x.1.needs) }
    ensures kept { IfOk result (λ x. (n : ℕ) → KeepsTheRule (tree_scheme (tree_data tree.now)) n) }
    ensures laws { IfOk result (λ x. ∥ ElementLaws (tree_scheme (tree_data tree.now)) ∥₁) }
    ensures refused { (r : TheRefusal) → result ≡ Err (Refused r)
        → TellsBreach (tree_data tree.now) r }
    ensures own { (name : List ℕ) → result ≡ Err (ReadFault name) → ⊥ }
{
    let design = flatten(alloc, tree)?;
    match lift(alloc, &design) {
        Ok(guards) => Ok((design, guards)),
        Err(GuardFault::InRule(element, part, first, second)) => {
            let refusal = breach(alloc, &design, element, part, first, second)?;
            Err(CompileFault::Refused(refusal))
        }
        Err(GuardFault::OutOfMemory) => Err(CompileFault::OutOfMemory),
    }
}
