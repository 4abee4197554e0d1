ghost use Rattle.bsv_fail.specs.Given.{Gives};
ghost use Rattle.bsv_carry.specs.AtHand as spec;

use crate::carrier::Carrier;
use crate::statements::Acted;
use bsv_fail::Fail;
use bsv_tree::{
    Count, Counted, Fault, Local, Locals, Work, after_arm, assign, at_count, decided, front,
    no_steps, with_variable,
};
use bsv_types::{Expr, Head, Stmt};

impl Carrier<'_> {
    /// Whether there is a next turn.
    #[cycle(carry)]
    #[tactic(auto, unfolding(bsv_tree::specs::carrying::Carrying::goes_on))]
    fn goes_on(self, test: &Expr, locals: &[Local], count: Count) -> Counted<bool>
        ensures { Gives result (spec.goes_on self.entry test.now locals.now count) }
    {
        let (value, asked) = self.expr(test, locals, no_steps(self.alloc, count))?;
        match decided(value) {
            None => Err(Fail::Fault(self.static_fault())),
            Some(more) => Ok((more, after_arm(count, asked.count))),
        }
    }

    /// One turn of a loop, and the step of its head.
    #[cycle(carry)]
    #[tactic(auto, unfolding(bsv_tree::specs::carrying::Carrying::turn))]
    fn turn(self, head: &Head, stmt: &Stmt, locals: Locals, work: Work) -> Acted
        ensures { Gives result (spec.turn self.entry head.now stmt.now locals work) }
    {
        let (locals, work) = self.inside(stmt, locals, work)?;
        let (value, work) = self.expr(&head.step, locals.as_slice(), work)?;
        Ok((
            assign(locals, self.place_in_body(head.stepped), value),
            work,
        ))
    }

    /// The turns of a loop, at most 4,096.
    #[cycle(carry)]
    #[tactic(auto, using(crate::proofs::Turns::loops), unfolding(bsv_tree::specs::carrying::Carrying::most_turns))]
    fn turns(self, head: &Head, stmt: &Stmt, locals: Locals, work: Work) -> Acted
        ensures { Gives result (spec.turns_of self.entry head.now stmt.now locals work) }
    {
        let mut locals = locals;
        let mut work = work;
        for _turn in 0..4096u32 {
            let (more, count) = self.goes_on(&head.condition, locals.as_slice(), work.count)?;
            if !more {
                return Ok((locals, at_count(work, count)));
            }
            let (next, behind) = self.turn(head, stmt, locals, at_count(work, count))?;
            locals = next;
            work = behind;
        }
        let (more, count) = self.goes_on(&head.condition, locals.as_slice(), work.count)?;
        if more {
            return Err(Fail::Fault(Fault::Loop(self.module)));
        }
        Ok((locals, at_count(work, count)))
    }

    /// A loop.
    #[cycle(carry)]
    #[tactic(auto, unfolding(bsv_tree::specs::carrying::Carrying::loop_of))]
    pub(crate) fn loop_of(self, head: &Head, stmt: &Stmt, locals: Locals, work: Work) -> Acted
        ensures { Gives result (spec.loop_of self.entry head.now stmt.now locals work) }
    {
        let before = locals.len();
        let (first, work) = self.expr(&head.first, locals.as_slice(), work)?;
        let locals = with_variable(locals, first, true)?;
        let (locals, work) = self.turns(head, stmt, locals, work)?;
        Ok((front(before, locals), work))
    }
}
