ghost use Rattle.std.specs.Prelude.{◌≡◌, OnOk, slice_get};
ghost use Rattle.bsv_body.specs.AtHand as at_hand;
ghost use Rattle.bsv_body.specs.Leaving.{Leaves};
ghost use Rattle.bsv_body.specs.Flat as spec;

use crate::state::{Laid, State, put, stand};
use bsv_bits::Word;
use bsv_design::Node;
use bsv_tree::{Atom, Compute};
use sqlite_items::Items;
use std::alloc::Global;

/// The node of a value that stands.
fn slot_at(slot: u32, state: &State) -> Option<u32>
    ensures { result ≡ slice_get state.now.slots slot }
{
    state.slots.get(slot as usize).copied()
}

/// The node of a word that a step names.
#[tactic(auto, unfolding(crate::specs::Flat::operand))]
pub(crate) fn operand(atom: Atom, state: &mut State) -> Laid<u32>
    ensures { Leaves result state.new (spec.operand atom state.old) }
{
    match atom {
        Atom::Word(word) => put(Node::Constant(word), state),
        Atom::Slot(slot) => match slot_at(slot, state) {
            Some(node) => Ok(node),
            None => put(Node::Constant(Word::bit(false)), state),
        },
    }
}

/// The nodes of words that a step names.
#[tactic(auto, unfolding(crate::specs::Flat::operands, crate::specs::Flat::operands_from))]
pub(crate) fn operands(alloc: Global, atoms: &[Atom], state: &mut State) -> Laid<Items<u32>>
    ensures { Leaves result state.new (spec.operands atoms.now state.old) }
{
    let mut found = Items::new(alloc);
    let mut rest = atoms;
    while let Some((atom, after)) = rest.split_first() {
        let node = operand(*atom, state)?;
        found.push(node)?;
        rest = after;
    }
    Ok(found)
}

/// The nodes of two words that a step names.
fn two_operands(a: Atom, b: Atom, state: &mut State) -> Laid<(u32, u32)>
    ensures { Leaves result state.new (at_hand.two_operands a b state.old) }
{
    let a = operand(a, state)?;
    let b = operand(b, state)?;
    Ok((a, b))
}

/// What a step computes stands.
#[tactic(auto, unfolding(crate::specs::Flat::compute))]
pub(crate) fn compute(what: Compute, state: &mut State) -> Laid<()>
    ensures { OnOk result (state.new ≡ spec.compute what state.old) }
{
    match what {
        Compute::Not(a) => {
            let a = operand(a, state)?;
            stand(Node::Not(a), state)
        }
        Compute::Two(operator, a, b) => {
            let (a, b) = two_operands(a, b, state)?;
            stand(Node::Two(operator, a, b), state)
        }
        Compute::Pick(test, a, b) => {
            let test = operand(test, state)?;
            let (a, b) = two_operands(a, b, state)?;
            stand(Node::Pick(test, a, b), state)
        }
        Compute::Slice(a, high, low) => {
            let a = operand(a, state)?;
            stand(Node::Slice(a, high, low), state)
        }
        Compute::Join(a, b) => {
            let (a, b) = two_operands(a, b, state)?;
            stand(Node::Join(a, b), state)
        }
        Compute::Extend(a, width) => {
            let a = operand(a, state)?;
            stand(Node::Extend(a, width), state)
        }
        Compute::SignExtend(a, width) => {
            let a = operand(a, state)?;
            stand(Node::SignExtend(a, width), state)
        }
    }
}
