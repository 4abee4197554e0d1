ghost use Rattle.std.specs.Prelude.{◌≡◌, IfOk};
ghost use Rattle.bsv_body.specs.AtHand as spec;
ghost use Rattle.bsv_body.specs.Bodies.{IsBody};
ghost use Rattle.bsv_body.specs.Leaving.{Leaves};
ghost use Rattle.bsv_body.specs.Opening as opening;

use crate::calls::{Call, Condition};
use crate::flattener::Flattener;
use crate::operands::operand;
use crate::state::{Laid, State, put, stand};
use bsv_bits::{OutOfMemory, Word};
use bsv_design::Node;
use bsv_tree::{Atom, Step};
use sqlite_items::Items;
use std::alloc::Global;

/// The nodes of an element, its calls and its conditions in the order of the text, and the node of what it gives.
#[derive(Drop)]
pub struct Body {
    pub nodes: Items<Node>,
    pub calls: Items<Call>,
    pub conditions: Items<Condition>,
    pub result: Option<u32>,
}

/// The first nodes: 1, 0 and the arguments, which stand.
#[tactic(auto, using(crate::proofs::Openings::openings), unfolding(crate::specs::Opening::opened))]
fn opened(alloc: Global, arguments: u32) -> Laid<State>
    ensures { IfOk result (λ s. s ≡ opening.opened arguments) }
{
    let mut state = State {
        nodes: Items::new(alloc),
        slots: Items::new(alloc),
        calls: 0,
        choices: 0,
    };
    let _yes = put(Node::Constant(Word::bit(true)), &mut state)?;
    let _no = put(Node::Constant(Word::bit(false)), &mut state)?;
    for place in 0..arguments {
        stand(Node::Argument(place), &mut state)?;
    }
    Ok(state)
}

/// The node of what it gives, where it gives something.
fn given(gives: Option<Atom>, state: &mut State) -> Laid<Option<u32>>
    ensures { Leaves result state.new (opening.given gives state.old) }
{
    match gives {
        Some(atom) => Ok(Some(operand(atom, state)?)),
        None => Ok(None),
    }
}

/// The flat body of an element with so many arguments, which are its first words, these steps, and the word that
/// it gives, where it gives one.
#[tactic(auto)]
pub fn flat_body(
    alloc: Global,
    arguments: u32,
    steps: &[Step],
    gives: Option<Atom>,
) -> Result<Body, OutOfMemory>
    ensures { IfOk result (λ b. IsBody arguments steps.now gives b) }
{
    let mut state = opened(alloc, arguments)?;
    let whole = Flattener {
        alloc,
        taken: 0,
        branches: &[],
    };
    let asked = whole.steps(steps, &mut state)?;
    let result = given(gives, &mut state)?;
    Ok(Body {
        nodes: state.nodes,
        calls: asked.calls,
        conditions: asked.conditions,
        result,
    })
}
