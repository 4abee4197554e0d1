ghost use Rattle.std.specs.Prelude.{◌≡◌, IfOk};
ghost use Rattle.bsv_body.specs.Leaving.{Leaves};
ghost use Rattle.bsv_body.specs.Flat as spec;

use crate::state::{Asked, Laid, State, add, nothing, put};
use bsv_design::Node;
use sqlite_items::Items;
use std::alloc::{AllocError, Global};

/// The node that is 0, after the first one, which is 1.
pub(crate) const NO: u32 = 1;

/// An arm, with the nodes of the values that it gives.
#[derive(Drop)]
pub struct Given {
    pub given: Items<u32>,
    pub asked: Asked,
}

/// The nodes of a test: whether its arm is taken, and whether what comes after it is; and what its condition asks.
#[derive(Drop)]
pub struct Tested {
    pub test: u32,
    pub taken: u32,
    pub left: u32,
    pub asked: Asked,
}

/// An arm after its condition.
#[derive(Drop)]
pub struct Head {
    pub test: u32,
    pub asked: Asked,
    pub body: Given,
}

/// The values of the arm where the test is 1, else the others.
#[tactic(auto, unfolding(crate::specs::Flat::picks, crate::specs::Flat::picks_from))]
fn picks(
    alloc: Global,
    test: u32,
    first: &[u32],
    second: &[u32],
    state: &mut State,
) -> Laid<Items<u32>>
    ensures { Leaves result state.new (spec.picks test first.now second.now state.old) }
{
    let mut found = Items::new(alloc);
    let mut left = first;
    let mut right = second;
    while let Some((one, ones)) = left.split_first() {
        let Some((other, others)) = right.split_first() else {
            return Ok(found);
        };
        let node = put(Node::Pick(test, *one, *other), state)?;
        found.push(node)?;
        left = ones;
        right = others;
    }
    Ok(found)
}

/// Arms that are joined from the last one on: the nodes of their values, and what each of them asks, the last one first.
/// So an arm is joined to others in time that does not grow with what these ask.
#[derive(Drop)]
pub struct Joining {
    pub given: Items<u32>,
    pub parts: Items<Asked>,
}

/// The last arm, before any other is joined to it.
fn last_arm(alloc: Global, last: Given) -> Result<Joining, AllocError>
    ensures { IfOk result (λ arms. arms ≡ spec.last_arm last) }
{
    let Given { given, asked } = last;
    let mut parts = Items::new(alloc);
    parts.push(asked)?;
    Ok(Joining { given, parts })
}

/// The values of an arm where its test is 1, else those of the others.
fn picked(alloc: Global, head: &Head, others: &Joining, state: &mut State) -> Laid<Items<u32>>
    ensures { Leaves result state.new
        (spec.picks head.now.test head.now.body.given others.now.given state.old) }
{
    let first = head.body.given.as_slice();
    picks(alloc, head.test, first, others.given.as_slice(), state)
}

/// An arm before the others, where the values of all are these nodes: what its condition asks comes first.
fn before(given: Items<u32>, head: Head, others: Joining) -> Result<Joining, AllocError>
    ensures { IfOk result (λ arms. arms ≡ spec.before given head others) }
{
    let Head { asked, body, .. } = head;
    let mut parts = others.parts;
    parts.push(body.asked)?;
    parts.push(asked)?;
    Ok(Joining { given, parts })
}

/// An arm before the others.
fn join_one(alloc: Global, head: Head, others: Joining, state: &mut State) -> Laid<Joining>
    ensures { Leaves result state.new (spec.join_before head (others, state.old)) }
{
    let given = picked(alloc, &head, &others, state)?;
    Ok(before(given, head, others)?)
}

/// What arms ask, in the order of the text.
fn in_text_order(alloc: Global, parts: Items<Asked>) -> Result<Asked, AllocError>
    ensures { IfOk result (λ asked. asked ≡ spec.in_text_order parts) }
{
    let mut asked = nothing(alloc);
    let mut parts = parts;
    while let Some(part) = parts.pop() {
        add(&mut asked, part)?;
    }
    Ok(asked)
}

/// Arms that are joined as one.
fn joined(alloc: Global, arms: Joining) -> Result<Given, AllocError>
    ensures { IfOk result (λ one. one ≡ spec.joined arms) }
{
    let Joining { given, parts } = arms;
    let asked = in_text_order(alloc, parts)?;
    Ok(Given { given, asked })
}

/// All arms, of which the last one is given.
pub(crate) fn join_all(
    alloc: Global,
    heads: Items<Head>,
    last: Given,
    state: &mut State,
) -> Laid<Given>
    ensures { Leaves result state.new (spec.join_all heads (last, state.old)) }
{
    let mut heads = heads;
    let mut arms = last_arm(alloc, last)?;
    while let Some(head) = heads.pop() {
        arms = join_one(alloc, head, arms, state)?;
    }
    Ok(joined(alloc, arms)?)
}
