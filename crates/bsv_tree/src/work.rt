ghost use Rattle.std.specs.Prelude.{◌≡◌, IfOk};
ghost use Rattle.bsv_fail.specs.Given.{Gives};
ghost use Rattle.bsv_tree.specs.carrying.Working as spec;
ghost use Rattle.bsv_tree.specs.declared.values.Constant.TheVariants as constant;
ghost use Rattle.bsv_tree.specs.declared.values.Value.TheVariants as value;

use crate::count::fresh;
use crate::fault::Got;
use crate::steps::{Atom, Compute, Step};
use crate::value::{atom_of, constant_word};
use crate::values::{Constant, Count, Value, Work};
use bsv_bits::{Operator, Word};
use bsv_design::{between as word_between, extended, joined, picked, sign_extended, sliced};
use sqlite_items::Items;
use std::alloc::{AllocError, Global};

/// A value, and the steps up to it.
pub type Valued = Got<(Value, Work)>;

/// No steps.
pub fn no_steps(alloc: Global, count: Count) -> Work
    ensures { result ≡ spec.no_steps count }
{
    Work {
        steps: Items::new(alloc),
        count,
    }
}

/// The steps, with another count after them.
pub fn at_count(work: Work, count: Count) -> Work
    ensures { result ≡ spec.at_count work count }
{
    Work {
        steps: work.steps,
        count,
    }
}

/// One step more.
pub fn with_step(work: Work, step: Step, count: Count) -> Result<Work, AllocError>
    ensures { IfOk result (λ w. w ≡ spec.with_step work step count) }
{
    let mut steps = work.steps;
    steps.push(step)?;
    Ok(Work { steps, count })
}

/// A step that gives one value.
#[tactic(auto, unfolding(crate::specs::carrying::Working::give))]
pub fn give(work: Work, step: Step) -> Valued
    ensures { Gives result (spec.give work step) }
{
    let slot = work.count.slots;
    let count = fresh(work.count, 1)?;
    let work = with_step(work, step, count)?;
    Ok((Value::Open(Atom::Slot(slot)), work))
}

/// A value that is known, which leaves no step.
fn settled(word: Word, work: Work) -> (Value, Work)
    ensures { result ≡ (value.Static (constant.Bits word), work) }
{
    (Value::Static(Constant::Bits(word)), work)
}

#[tactic(auto, unfolding(crate::specs::carrying::Working::inverted))]
pub fn inverted(work: Work, value: Value) -> Valued
    ensures { Gives result (spec.inverted work value) }
{
    match value {
        Value::Static(constant) => Ok(settled(constant_word(constant).not(), work)),
        Value::Open(atom) => give(work, Step::Let(Compute::Not(atom))),
    }
}

#[tactic(auto, unfolding(crate::specs::carrying::Working::between))]
pub fn between(work: Work, operator: Operator, one: Value, other: Value) -> Valued
    ensures { Gives result (spec.between work operator one other) }
{
    match (one, other) {
        (Value::Static(one), Value::Static(other)) => {
            let word = word_between(operator, constant_word(one), constant_word(other));
            Ok(settled(word, work))
        }
        (one, other) => {
            let compute = Compute::Two(operator, atom_of(one), atom_of(other));
            give(work, Step::Let(compute))
        }
    }
}

/// The second value where the test is 1, else the third one.
#[tactic(auto, unfolding(crate::specs::carrying::Working::picked))]
pub fn pick(work: Work, test: Value, one: Value, other: Value) -> Valued
    ensures { Gives result (spec.picked work test one other) }
{
    match (test, one, other) {
        (Value::Static(test), Value::Static(one), Value::Static(other)) => {
            let word = picked(
                constant_word(test),
                constant_word(one),
                constant_word(other),
            );
            Ok(settled(word, work))
        }
        (test, one, other) => {
            let compute = Compute::Pick(atom_of(test), atom_of(one), atom_of(other));
            give(work, Step::Let(compute))
        }
    }
}

/// The bits of the first value above those of the second one.
#[tactic(auto, unfolding(crate::specs::carrying::Working::joined))]
pub fn join(work: Work, high: Value, low: Value) -> Valued
    ensures { Gives result (spec.joined work high low) }
{
    match (high, low) {
        (Value::Static(high), Value::Static(low)) => {
            let word = joined(constant_word(high), constant_word(low));
            Ok(settled(word, work))
        }
        (high, low) => give(work, Step::Let(Compute::Join(atom_of(high), atom_of(low)))),
    }
}

/// The bits from low to high.
#[tactic(auto, unfolding(crate::specs::carrying::Working::sliced))]
pub fn slice(work: Work, whole: &Value, high: u32, low: u32) -> Valued
    ensures { Gives result (spec.sliced work whole.now high low) }
{
    match whole {
        Value::Static(constant) => {
            let word = sliced(constant_word(*constant), high, low);
            Ok(settled(word, work))
        }
        Value::Open(atom) => give(work, Step::Let(Compute::Slice(*atom, high, low))),
    }
}

#[tactic(auto, unfolding(crate::specs::carrying::Working::extended))]
pub fn extend(work: Work, value: Value, width: u32) -> Valued
    ensures { Gives result (spec.extended work value width) }
{
    match value {
        Value::Static(constant) => Ok(settled(extended(constant_word(constant), width), work)),
        Value::Open(atom) => give(work, Step::Let(Compute::Extend(atom, width))),
    }
}

#[tactic(auto, unfolding(crate::specs::carrying::Working::sign_extended))]
pub fn sign_extend(work: Work, value: Value, width: u32) -> Valued
    ensures { Gives result (spec.sign_extended work value width) }
{
    match value {
        Value::Static(constant) => Ok(settled(sign_extended(constant_word(constant), width), work)),
        Value::Open(atom) => give(work, Step::Let(Compute::SignExtend(atom, width))),
    }
}
