ghost use Rattle.std.specs.Prelude.{◌≡◌, ◌+◌, ◌^◌, ◌≤◌, length, OnOk, OnErr, IfOk};
ghost use Rattle.bsv_body.specs.Leaving.{Leaves};
ghost use Rattle.bsv_body.specs.Flat as spec;

use crate::calls::{Call, Condition};
use bsv_bits::OutOfMemory;
use bsv_design::Node;
use bsv_tree::front;
use sqlite_items::Items;
use std::alloc::{AllocError, Global};
use std::mem::replace;

/// What laying steps out gives, or want of memory.
pub type Laid<A> = Result<A, OutOfMemory>;

/// The nodes so far.
#[derive(Drop)]
pub struct State {
    pub nodes: Items<Node>,
    /// The node of each value that stands.
    pub slots: Items<u32>,
    /// How many calls and how many choices there were.
    pub calls: u32,
    pub choices: u32,
}

/// What steps ask: their calls and their conditions, in the order of the text.
#[derive(Drop)]
pub struct Asked {
    pub calls: Items<Call>,
    pub conditions: Items<Condition>,
}

/// A number of things, where 32 bits hold it.
pub fn numbered(count: usize) -> Laid<u32>
    ensures value { IfOk result (λ n. n ≡ count) }
    ensures many { OnErr result (2 ^ 32 ≤ count) }
{
    match u32::try_from(count) {
        Ok(number) => Ok(number),
        Err(_) => Err(OutOfMemory),
    }
}

/// The number after this one, where 32 bits hold it.
pub fn next(number: u32) -> Laid<u32>
    ensures value { IfOk result (λ n. n ≡ number + 1) }
    ensures last { OnErr result (number + 1 ≡ 2 ^ 32) }
{
    match number.checked_add(1) {
        Some(next) => Ok(next),
        None => Err(OutOfMemory),
    }
}

/// One node more, and its place.
pub(crate) fn put(node: Node, state: &mut State) -> Laid<u32>
    ensures { Leaves result state.new (spec.placed node state.old) }
{
    let place = numbered(state.nodes.len())?;
    state.nodes.push(node)?;
    Ok(place)
}

/// One value more, which this node is.
pub(crate) fn stand(node: Node, state: &mut State) -> Laid<()>
    ensures { OnOk result (state.new ≡ spec.stand node state.old) }
{
    let place = numbered(state.nodes.len())?;
    state.nodes.push(node)?;
    state.slots.push(place)?;
    Ok(())
}

/// How many values stand.
pub(crate) fn standing(state: &State) -> usize
    ensures { result ≡ length state.now.slots }
{
    state.slots.len()
}

/// The values after so many stand no more.
pub(crate) fn cut(alloc: Global, count: usize, state: &mut State)
    ensures { state.new ≡ spec.cut count state.old }
{
    let slots = replace(&mut state.slots, Items::new(alloc));
    state.slots = front(count, slots);
}

/// One call more, and its place.
pub(crate) fn one_call(state: &mut State) -> Laid<u32>
    ensures { Leaves result state.new (spec.one_call state.old) }
{
    let number = state.calls;
    state.calls = next(number)?;
    Ok(number)
}

/// One choice more, and its number.
pub(crate) fn one_choice(state: &mut State) -> Laid<u32>
    ensures { Leaves result state.new (spec.one_choice state.old) }
{
    let number = state.choices;
    state.choices = next(number)?;
    Ok(number)
}

pub(crate) fn nothing(alloc: Global) -> Asked
    ensures { result ≡ spec.nothing }
{
    Asked {
        calls: Items::new(alloc),
        conditions: Items::new(alloc),
    }
}

/// These, and then the others.
pub(crate) fn add(asked: &mut Asked, others: Asked) -> Result<(), AllocError>
    ensures { OnOk result (asked.new ≡ spec.both asked.old others) }
{
    let Asked { calls, conditions } = others;
    asked.calls.append(calls)?;
    asked.conditions.append(conditions)?;
    Ok(())
}

/// The call comes before the others.
pub(crate) fn with_call(alloc: Global, call: Call, others: Asked) -> Result<Asked, AllocError>
    ensures { IfOk result (λ a. a ≡ spec.with_call call others) }
{
    let mut calls = Items::new(alloc);
    calls.push(call)?;
    calls.append(others.calls)?;
    Ok(Asked {
        calls,
        conditions: others.conditions,
    })
}

/// The condition comes before the others.
pub(crate) fn with_condition(
    alloc: Global,
    condition: Condition,
    others: Asked,
) -> Result<Asked, AllocError>
    ensures { IfOk result (λ a. a ≡ spec.with_condition condition others) }
{
    let mut conditions = Items::new(alloc);
    conditions.push(condition)?;
    conditions.append(others.conditions)?;
    Ok(Asked {
        calls: others.calls,
        conditions,
    })
}
