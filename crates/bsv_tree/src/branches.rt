ghost use Rattle.std.specs.Prelude.{◌≡◌, [], ◌∷◌, ◌++◌, IfOk};
ghost use Rattle.bsv_fail.specs.Given.{Gives};
ghost use Rattle.bsv_tree.specs.carrying.Carrying as carrying;
ghost use Rattle.bsv_tree.specs.carrying.Values as values;

use crate::frame::Locals;
use crate::steps::{Arm, Atom, Choice, Step};
use crate::value::{atom_of, truth};
use crate::values::{Count, Pending, Value, Work};
use crate::work::{Valued, at_count, between, give};
use bsv_bits::Operator;
use sqlite_items::Items;
use std::alloc::{AllocError, Global};

/// The count after an arm, whose values are gone.
pub fn after_arm(asked: Count, arm: Count) -> Count
    ensures { result ≡ carrying.after_arm asked arm }
{
    Count {
        weight: arm.weight,
        slots: asked.slots,
    }
}

/// Whether the subject has a label, where one label more is the same or is not.
pub fn either(found: Option<Value>, same: Value, work: Work) -> Valued
    ensures { Gives result (carrying.either found same work) }
{
    match found {
        None => Ok((same, work)),
        Some(before) => between(work, Operator::Or, before, same),
    }
}

pub fn or_false(found: Option<Value>) -> Value
    ensures { result ≡ carrying.or_false found }
{
    match found {
        None => truth(false),
        Some(value) => value,
    }
}

/// One arm more that was carried out.
pub fn with_pending(
    arms: Items<Pending>,
    test: Value,
    asked: Work,
    locals: Locals,
    body: Work,
) -> Result<Items<Pending>, AllocError>
    ensures { IfOk result (λ found. found
        ≡ arms ++ carrying.pending test asked (locals, body) ∷ []) }
{
    let mut arms = arms;
    arms.push(Pending {
        condition: asked.steps,
        test: atom_of(test),
        body: body.steps,
        locals,
    })?;
    Ok(arms)
}

/// The words that an arm gives.
fn one_word(alloc: Global, value: Value) -> Result<Items<Atom>, AllocError>
    ensures { IfOk result (λ atoms. atoms ≡ values.atom_of value ∷ []) }
{
    let mut atoms = Items::new(alloc);
    atoms.push(atom_of(value))?;
    Ok(atoms)
}

/// An arm of `?:`, one more after those before it.
pub fn with_value_arm(
    alloc: Global,
    arms: Items<Arm>,
    test: Value,
    asked: Work,
    value: Value,
    body: Work,
) -> Result<Items<Arm>, AllocError>
    ensures { IfOk result (λ found. found
        ≡ arms ++ carrying.value_arm (test, asked) (value, body) ∷ []) }
{
    let gives = one_word(alloc, value)?;
    let mut arms = arms;
    arms.push(Arm {
        condition: asked.steps,
        test: atom_of(test),
        body: body.steps,
        gives,
    })?;
    Ok(arms)
}

/// The choice of the arms of `?:` with the last one.
pub fn value_choice(
    alloc: Global,
    work: Work,
    arms: Items<Arm>,
    last: Value,
    behind: Work,
) -> Valued
    ensures { Gives result (carrying.value_choice work arms (last, behind)) }
{
    let gives = one_word(alloc, last)?;
    let count = after_arm(work.count, behind.count);
    let choice = Choice {
        nested: true,
        arms,
        last: behind.steps,
        gives,
    };
    give(at_count(work, count), Step::Choose(choice))
}
