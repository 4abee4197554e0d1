ghost use Rattle.std.specs.Prelude.{◌≡◌, [], IfOk, map};
ghost use Rattle.bsv_fail.specs.Given.{Gives};
ghost use Rattle.bsv_tree.specs.carrying.Arms as spec;

use crate::count::fresh;
use crate::fault::Got;
use crate::frame::Locals;
use crate::steps::{Arm, Atom, Choice, Step};
use crate::value::{atom_of, truth};
use crate::values::{Count, Local, Pending, Value, Work};
use crate::work::with_step;
use sqlite_items::Items;
use std::alloc::{AllocError, Global};

fn touched_at(locals: &[Local], at: usize) -> bool
    ensures { result ≡ spec.touched_at locals.now at }
{
    match locals.get(at) {
        Some(local) => local.touched,
        None => false,
    }
}

/// Whether an arm assigns the variable.
fn assigned(arms: &[Pending], last: &[Local], at: usize) -> bool
    ensures { result ≡ spec.assigned arms.now last.now at }
{
    for arm in arms {
        if touched_at(arm.locals.as_slice(), at) {
            return true;
        }
    }
    touched_at(last, at)
}

/// The variable after the arms, where one of them assigned it.
fn joined_as(old: Local, slot: u32) -> Local
    ensures { result ≡ spec.joined_as old slot }
{
    if old.integer {
        Local {
            value: old.value,
            integer: true,
            lost: true,
            touched: true,
        }
    } else {
        Local {
            value: Value::Open(Atom::Slot(slot)),
            integer: false,
            lost: false,
            touched: true,
        }
    }
}

/// The word of a variable.
fn given_by(locals: &[Local], at: usize) -> Atom
    ensures { result ≡ spec.given_by locals.now at }
{
    match locals.get(at) {
        Some(local) => atom_of(local.value),
        None => atom_of(truth(false)),
    }
}

/// The words of the given variables.
fn given(alloc: Global, numbers: &[usize], locals: &[Local]) -> Result<Items<Atom>, AllocError>
    ensures { IfOk result (λ found. found ≡ map (spec.given_by locals.now) numbers.now) }
{
    let mut found = Items::new(alloc);
    for at in numbers {
        found.push(given_by(locals, *at))?;
    }
    Ok(found)
}

/// The arms, each with the words that it gives.
fn closed(alloc: Global, arms: Items<Pending>, numbers: &[usize]) -> Result<Items<Arm>, AllocError>
    ensures { IfOk result (λ found. found ≡ map (spec.arm_of numbers.now) arms) }
{
    let mut reversed = Items::new(alloc);
    let mut arms = arms;
    while let Some(arm) = arms.pop() {
        let Pending {
            condition,
            test,
            body,
            locals,
        } = arm;
        let gives = given(alloc, numbers, locals.as_slice())?;
        reversed.push(Arm {
            condition,
            test,
            body,
            gives,
        })?;
    }
    let mut found = Items::new(alloc);
    while let Some(arm) = reversed.pop() {
        found.push(arm)?;
    }
    Ok(found)
}

/// The variables after the arms, the numbers of those that the arms give values, and the count after
/// these.
#[tactic(auto, unfolding(crate::specs::carrying::Arms::joined_from))]
fn joined(
    alloc: Global,
    arms: &[Pending],
    last: &[Local],
    locals: &[Local],
    count: Count,
) -> Got<(Locals, Items<usize>, Count)>
    ensures { Gives result
        (spec.joined_from arms.now last.now [] [] locals.now count) }
{
    let mut found = Items::new(alloc);
    let mut numbers = Items::new(alloc);
    let mut count = count;
    let mut rest = locals;
    while let Some((old, after)) = rest.split_first() {
        let at = found.len();
        let slot = count.slots;
        if !assigned(arms, last, at) {
            found.push(*old)?;
        } else if old.integer {
            found.push(joined_as(*old, slot))?;
        } else {
            count = fresh(count, 1)?;
            found.push(joined_as(*old, slot))?;
            numbers.push(at)?;
        }
        rest = after;
    }
    Ok((found, numbers, count))
}

/// The choice of the arms, one or more, with the last one; after it each variable that one of them
/// assigned has a value of its own.
#[tactic(auto, unfolding(crate::specs::carrying::Arms::close))]
pub fn close(
    alloc: Global,
    locals: &[Local],
    work: Work,
    arms: Items<Pending>,
    last_locals: &[Local],
    last: Work,
) -> Got<(Locals, Work)>
    ensures { Gives result (spec.close locals.now work arms last_locals.now last) }
{
    let from = Count {
        weight: last.count.weight,
        slots: work.count.slots,
    };
    let (found, numbers, count) = joined(alloc, arms.as_slice(), last_locals, locals, from)?;
    let gives = given(alloc, numbers.as_slice(), last_locals)?;
    let arms = closed(alloc, arms, numbers.as_slice())?;
    let choice = Choice {
        nested: false,
        arms,
        last: last.steps,
        gives,
    };
    let work = with_step(work, Step::Choose(choice), count)?;
    Ok((found, work))
}
