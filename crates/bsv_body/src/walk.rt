ghost use Rattle.std.specs.Prelude.{◌≡◌};
ghost use Rattle.bsv_body.specs.AtHand as spec;
ghost use Rattle.bsv_body.specs.Flat as flat;
ghost use Rattle.bsv_body.specs.Leaving.{Leaves};

use crate::calls::Condition;
use crate::choices::{Given, Head, NO, Tested, join_all};
use crate::flattener::Flattener;
use crate::operands::{compute, operand, operands};
use crate::state::{
    Asked, Laid, State, add, cut, nothing, numbered, one_call, one_choice, put, stand, standing,
    with_call, with_condition,
};
use bsv_design::{Branch, Node};
use bsv_tree::{Arm, Atom, Choice, MethodPlace, Step};
use sqlite_items::Items;
use std::alloc::Global;

/// After a choice its values stand, and none of its conditions.
fn close(alloc: Global, count: usize, found: Given, state: &mut State) -> Laid<Asked>
    ensures { Leaves result state.new (flat.closed count (found, state.old)) }
{
    cut(alloc, count, state);
    state.slots.append(found.given)?;
    Ok(found.asked)
}

/// The nodes of a test: itself, whether its arm is taken, and whether what comes after it is.
fn test_nodes(test: Atom, left: u32, state: &mut State) -> Laid<(u32, u32, u32)>
    ensures { Leaves result state.new (spec.test_nodes test left state.old) }
{
    let test = operand(test, state)?;
    let taken = put(Node::Pick(test, left, NO), state)?;
    let left = put(Node::Pick(test, NO, left), state)?;
    Ok((test, taken, left))
}

/// An arm after its condition, and whether what comes after it is taken.
fn head_of(tested: Tested, body: Given) -> (Head, u32)
    ensures { result ≡ (flat.head_of tested body, tested.left) }
{
    let Tested {
        test,
        left,
        asked,
        ..
    } = tested;
    (Head { test, asked, body }, left)
}

impl<'a> Flattener<'a> {
    /// Steps, one after the other.
    #[cycle(flat)]
    #[tactic(auto, using(crate::proofs::Sizes::falls), unfolding(crate::specs::Flat::in_turn, crate::specs::Flat::in_turn_from))]
    pub(crate) fn steps(self, list: &[Step], state: &mut State) -> Laid<Asked>
        ensures { Leaves result state.new (spec.steps self.entry list.now state.old) }
    {
        let mut asked = nothing(self.alloc);
        let mut rest = list;
        while let Some((step, after)) = rest.split_first() {
            let more = self.step(step, state)?;
            add(&mut asked, more)?;
            rest = after;
        }
        Ok(asked)
    }

    /// A call after the steps of its arguments, before what these ask.
    fn call_after(
        self,
        method: MethodPlace,
        action: bool,
        atoms: &[Atom],
        asked: Asked,
        state: &mut State,
    ) -> Laid<Asked>
        ensures { Leaves result state.new
            (spec.call_after self.entry method action atoms.now asked state.old) }
    {
        let arguments = operands(self.alloc, atoms, state)?;
        let call = self.call(method, action, arguments)?;
        Ok(with_call(self.alloc, call, asked)?)
    }

    /// A call of a method of a primitive, after the steps of its arguments, and its place.
    #[cycle(flat)]
    #[tactic(auto, using(crate::proofs::Sizes::falls), unfolding(crate::specs::Flat::called))]
    fn called(
        self,
        action: bool,
        method: MethodPlace,
        atoms: &[Atom],
        inner: &[Step],
        state: &mut State,
    ) -> Laid<(u32, Asked)>
        ensures { Leaves result state.new
            (spec.called self.entry action method atoms.now inner.now state.old) }
    {
        let place = one_call(state)?;
        let asked = self.steps(inner, state)?;
        let all = self.call_after(method, action, atoms, asked, state)?;
        Ok((place, all))
    }

    /// A call of a value method, whose result stands.
    #[cycle(flat)]
    #[tactic(auto, using(crate::proofs::Sizes::falls))]
    fn read(
        self,
        method: MethodPlace,
        atoms: &[Atom],
        inner: &[Step],
        state: &mut State,
    ) -> Laid<Asked>
        ensures { Leaves result state.new
            (spec.read self.entry method atoms.now inner.now state.old) }
    {
        let (place, asked) = self.called(false, method, atoms, inner, state)?;
        stand(Node::Result(place), state)?;
        Ok(asked)
    }

    /// A call of an action method.
    #[cycle(flat)]
    #[tactic(auto, using(crate::proofs::Sizes::falls))]
    fn act(
        self,
        method: MethodPlace,
        atoms: &[Atom],
        inner: &[Step],
        state: &mut State,
    ) -> Laid<Asked>
        ensures { Leaves result state.new
            (spec.act self.entry method atoms.now inner.now state.old) }
    {
        let (_place, asked) = self.called(true, method, atoms, inner, state)?;
        Ok(asked)
    }

    /// A condition that has to hold.
    #[cycle(flat)]
    #[tactic(auto, using(crate::proofs::Sizes::falls), unfolding(crate::specs::Flat::needed))]
    fn need(
        self,
        name: Option<MethodPlace>,
        atom: Atom,
        inner: &[Step],
        state: &mut State,
    ) -> Laid<Asked>
        ensures { Leaves result state.new
            (spec.need self.entry name atom inner.now state.old) }
    {
        let asked = self.steps(inner, state)?;
        let truth = operand(atom, state)?;
        let condition = Condition {
            name,
            truth,
            taken: self.taken,
        };
        Ok(with_condition(self.alloc, condition, asked)?)
    }

    /// The steps of an arm, and the nodes of the values that it gives.
    #[cycle(flat)]
    #[tactic(auto, using(crate::proofs::Sizes::falls), unfolding(crate::specs::Flat::giving))]
    fn giving(self, steps: &[Step], gives: &[Atom], state: &mut State) -> Laid<Given>
        ensures { Leaves result state.new
            (spec.giving self.entry steps.now gives.now state.old) }
    {
        let count = standing(state);
        let asked = self.steps(steps, state)?;
        let given = operands(self.alloc, gives, state)?;
        cut(self.alloc, count, state);
        Ok(Given { given, asked })
    }

    /// The condition of an arm, and whether the arm is taken: only where none before it is.
    #[cycle(flat)]
    #[tactic(auto, using(crate::proofs::Sizes::falls, crate::proofs::Nodes::alternatives), unfolding(crate::specs::Flat::tested))]
    fn tested(self, arm: &Arm, left: u32, state: &mut State) -> Laid<Tested>
        ensures { Leaves result state.new (spec.tested self.entry arm.now left state.old) }
    {
        let asked = self.steps(arm.condition.as_slice(), state)?;
        let (test, taken, left) = test_nodes(arm.test, left, state)?;
        Ok(Tested {
            test,
            taken,
            left,
            asked,
        })
    }

    /// The steps of an arm of a choice, which are taken where this node is 1, and the nodes of the
    /// values that it gives.
    #[cycle(flat)]
    #[tactic(auto, using(crate::proofs::Sizes::falls, crate::proofs::Nodes::alternatives))]
    fn body_in(
        self,
        choice: u32,
        place: u32,
        taken: u32,
        arm: &Arm,
        state: &mut State,
    ) -> Laid<Given>
        ensures { Leaves result state.new
            (spec.body_in self.entry choice place taken arm.now state.old) }
    {
        let branches = self.branches_in(choice, place)?;
        let here = Flattener {
            alloc: self.alloc,
            taken,
            branches: branches.as_slice(),
        };
        here.giving(arm.body.as_slice(), arm.gives.as_slice(), state)
    }

    /// An arm of a choice, and whether what comes after it is taken.
    #[cycle(flat)]
    #[tactic(auto, using(crate::proofs::Sizes::falls))]
    fn head(
        self,
        choice: u32,
        place: u32,
        left: u32,
        arm: &Arm,
        state: &mut State,
    ) -> Laid<(Head, u32)>
        ensures { Leaves result state.new
            (spec.head self.entry choice place left arm.now state.old) }
    {
        let tested = self.tested(arm, left, state)?;
        let body = self.body_in(choice, place, tested.taken, arm, state)?;
        Ok(head_of(tested, body))
    }

    /// The arms of a choice but the last one, and whether that is taken.
    #[cycle(flat)]
    #[tactic(auto, using(crate::proofs::Sizes::falls), unfolding(crate::specs::Flat::heads_from))]
    fn heads(self, choice: u32, arms: &[Arm], state: &mut State) -> Laid<(Items<Head>, u32)>
        ensures { Leaves result state.new (spec.heads self.entry choice arms.now state.old) }
    {
        let mut heads = Items::new(self.alloc);
        let mut left = self.taken;
        let mut rest = arms;
        while let Some((arm, after)) = rest.split_first() {
            let place = numbered(heads.len())?;
            let (head, behind) = self.head(choice, place, left, arm, state)?;
            heads.push(head)?;
            left = behind;
            rest = after;
        }
        Ok((heads, left))
    }

    /// The last arm of a choice.
    #[cycle(flat)]
    #[tactic(auto, using(crate::proofs::Sizes::falls))]
    fn last(self, branches: &[Branch], left: u32, choice: &Choice, state: &mut State) -> Laid<Given>
        ensures { Leaves result state.new
            (spec.last self.entry branches.now left choice.now state.old) }
    {
        let here = Flattener {
            alloc: self.alloc,
            taken: left,
            branches,
        };
        here.giving(choice.last.as_slice(), choice.gives.as_slice(), state)
    }

    /// The last arm of a choice, which has so many arms before it.
    #[cycle(flat)]
    #[tactic(auto, using(crate::proofs::Sizes::falls))]
    fn last_after(
        self,
        number: u32,
        before: usize,
        left: u32,
        choice: &Choice,
        state: &mut State,
    ) -> Laid<Given>
        ensures { Leaves result state.new
            (spec.last_after self.entry number before left choice.now state.old) }
    {
        let place = numbered(before)?;
        let branches = self.branches_in(number, place)?;
        self.last(branches.as_slice(), left, choice, state)
    }

    /// One choice, whose conditions are in none of its arms.
    #[cycle(flat)]
    #[tactic(auto, using(crate::proofs::Sizes::falls), unfolding(crate::specs::Flat::arms))]
    fn arms(self, choice: &Choice, state: &mut State) -> Laid<Given>
        ensures { Leaves result state.new (spec.arms self.entry choice.now state.old) }
    {
        let number = one_choice(state)?;
        let (heads, left) = self.heads(number, choice.arms.as_slice(), state)?;
        let last = self.last_after(number, heads.len(), left, choice, state)?;
        join_all(self.alloc, heads, last, state)
    }

    /// The steps of the first arm of a choice of its own, and where what comes after stands.
    #[cycle(flat)]
    #[tactic(auto, using(crate::proofs::Sizes::falls))]
    fn nested_body(self, taken: u32, arm: &Arm, state: &mut State) -> Laid<(Given, Items<Branch>)>
        ensures { Leaves result state.new
            (spec.nested_body self.entry taken arm.now state.old) }
    {
        let number = one_choice(state)?;
        let behind = self.branches_in(number, 1)?;
        let body = self.body_in(number, 0, taken, arm, state)?;
        Ok((body, behind))
    }

    /// An arm of a choice of its own, which holds what comes after.
    #[cycle(flat)]
    #[tactic(auto, using(crate::proofs::Sizes::falls), unfolding(crate::specs::Flat::nest))]
    fn nest(self, arm: &Arm, state: &mut State) -> Laid<(Head, u32, Items<Branch>)>
        ensures { Leaves result state.new (spec.nest self.entry arm.now state.old) }
    {
        let tested = self.tested(arm, self.taken, state)?;
        let (body, behind) = self.nested_body(tested.taken, arm, state)?;
        let (head, left) = head_of(tested, body);
        Ok((head, left, behind))
    }

    /// The arms of choices in one another but the last one, whether that is taken, and where it stands.
    #[cycle(flat)]
    #[tactic(auto, using(crate::proofs::Sizes::falls), unfolding(crate::specs::Flat::nest_from))]
    fn nests(self, arms: &[Arm], state: &mut State) -> Laid<(Items<Head>, u32, Items<Branch>)>
        ensures { Leaves result state.new (spec.nests self.entry arms.now state.old) }
    {
        let mut heads = Items::new(self.alloc);
        let mut branches = Items::from_slice(self.alloc, self.branches)?;
        let mut taken = self.taken;
        let mut rest = arms;
        while let Some((arm, after)) = rest.split_first() {
            let here = Flattener {
                alloc: self.alloc,
                taken,
                branches: branches.as_slice(),
            };
            let (head, left, behind) = here.nest(arm, state)?;
            heads.push(head)?;
            branches = behind;
            taken = left;
            rest = after;
        }
        Ok((heads, taken, branches))
    }

    /// Choices in one another.
    #[cycle(flat)]
    #[tactic(auto, using(crate::proofs::Sizes::falls), unfolding(crate::specs::Flat::nested))]
    fn nested(self, choice: &Choice, state: &mut State) -> Laid<Given>
        ensures { Leaves result state.new (spec.nested self.entry choice.now state.old) }
    {
        let (heads, taken, branches) = self.nests(choice.arms.as_slice(), state)?;
        let last = self.last(branches.as_slice(), taken, choice, state)?;
        join_all(self.alloc, heads, last, state)
    }

    /// A choice, whose values come after it.
    #[cycle(flat)]
    #[tactic(auto, using(crate::proofs::Sizes::falls, crate::proofs::Nodes::choices), unfolding(crate::specs::Flat::choose))]
    fn choose(self, choice: &Choice, state: &mut State) -> Laid<Asked>
        ensures { Leaves result state.new (spec.choose self.entry choice.now state.old) }
    {
        let count = standing(state);
        let found = if choice.nested {
            self.nested(choice, state)?
        } else {
            self.arms(choice, state)?
        };
        close(self.alloc, count, found, state)
    }

    #[cycle(flat)]
    #[tactic(auto, using(crate::proofs::Sizes::falls, crate::proofs::Nodes::steps))]
    fn step(self, step: &Step, state: &mut State) -> Laid<Asked>
        ensures { Leaves result state.new (spec.step self.entry step.now state.old) }
    {
        match step {
            Step::Let(what) => {
                compute(*what, state)?;
                Ok(nothing(self.alloc))
            }
            Step::Read(method, atoms, inner) => {
                self.read(*method, atoms.as_slice(), inner.as_slice(), state)
            }
            Step::Act(method, atoms, inner) => {
                self.act(*method, atoms.as_slice(), inner.as_slice(), state)
            }
            Step::Need(name, atom, inner) => self.need(*name, *atom, inner.as_slice(), state),
            Step::Choose(choice) => self.choose(choice, state),
        }
    }
}
