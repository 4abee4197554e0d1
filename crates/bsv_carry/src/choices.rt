ghost use Rattle.bsv_fail.specs.Given.{Gives};
ghost use Rattle.bsv_carry.specs.AtHand as spec;

use crate::carrier::Carrier;
use crate::statements::Acted;
use bsv_tree::{
    Count, Counted, Got, Local, Locals, Pending, Value, Work, after_arm, at_count, close, front,
    is_static, is_true, no_steps, slice, untouched, with_pending, with_variable,
};
use bsv_types::{Branch, Condition, Stmt};
use sqlite_items::{Boxed, Items};

/// A Maybe whose payload an arm binds, with the bits of that.
pub(crate) type Bound = Option<(Value, u32)>;

impl Carrier<'_> {
    /// What a condition asks, and the Maybe whose payload it binds.
    #[cycle(carry)]
    #[tactic(auto, unfolding(bsv_tree::specs::carrying::Carrying::asked))]
    fn condition_asked(
        self,
        condition: &Condition,
        locals: &[Local],
        count: Count,
    ) -> Got<(Value, Bound, Work)>
        ensures { Gives result
            (spec.condition_asked self.entry condition.now locals.now count) }
    {
        let work = no_steps(self.alloc, count);
        match condition {
            Condition::Test(e) => {
                let (test, work) = self.expr(e, locals, work)?;
                Ok((test, None, work))
            }
            Condition::Matches(e) => {
                let (maybe, work) = self.expr(e, locals, work)?;
                let payload = self.width(e.ty()).saturating_sub(1);
                let (tag, work) = slice(work, &maybe, payload, payload)?;
                Ok((tag, Some((maybe, payload)), work))
            }
        }
    }

    #[cycle(carry)]
    #[tactic(auto, unfolding(bsv_tree::specs::carrying::Carrying::branch))]
    fn asked(self, branch: &Branch, locals: &[Local], count: Count) -> Got<(Value, Bound, Work)>
        ensures { Gives result (spec.asked self.entry branch.now locals.now count) }
    {
        self.condition_asked(&branch.condition, locals, count)
    }

    /// An arm in which a payload has a name.
    #[cycle(carry)]
    #[tactic(auto, unfolding(bsv_tree::specs::carrying::Carrying::branch_arm))]
    fn arm(self, stmt: &Stmt, bound: Bound, locals: Locals, work: Work) -> Acted
        ensures { Gives result (spec.arm self.entry stmt.now bound locals work) }
    {
        match bound {
            None => self.inside(stmt, locals, work),
            Some((maybe, payload)) => {
                let before = locals.len();
                let (value, work) = slice(work, &maybe, payload.saturating_sub(1), 0)?;
                let locals = with_variable(locals, value, false)?;
                let (locals, work) = self.stmt(stmt, locals, work)?;
                Ok((front(before, locals), work))
            }
        }
    }

    /// The arm of a branch.
    #[cycle(carry)]
    #[tactic(auto, unfolding(bsv_tree::specs::carrying::Carrying::branch, bsv_tree::specs::carrying::Carrying::stmt))]
    fn branch_arm(self, branch: &Branch, bound: Bound, locals: Locals, work: Work) -> Acted
        ensures { Gives result (spec.branch_arm self.entry branch.now bound locals work) }
    {
        self.arm(&branch.arm, bound, locals, work)
    }

    /// The arm of a branch whose condition is static and True, which is the last one.
    #[cycle(carry)]
    #[tactic(auto, unfolding(bsv_tree::specs::carrying::Carrying::last_arm))]
    fn last_branch(
        self,
        work: Work,
        arms: Items<Pending>,
        branch: &Branch,
        bound: Bound,
        locals: Locals,
        count: Count,
    ) -> Acted
        ensures { Gives result
            (spec.last_branch self.entry work arms branch.now bound locals count) }
    {
        if arms.is_empty() {
            return self.branch_arm(branch, bound, locals, at_count(work, count));
        }
        let inner = untouched(self.alloc, locals.as_slice())?;
        let (behind, last) = self.branch_arm(branch, bound, inner, no_steps(self.alloc, count))?;
        close(
            self.alloc,
            locals.as_slice(),
            work,
            arms,
            behind.as_slice(),
            last,
        )
    }

    /// The arms after a condition that is not static and True.
    #[cycle(carry)]
    #[tactic(auto, unfolding(bsv_tree::specs::carrying::Carrying::kept))]
    fn kept(
        self,
        arms: Items<Pending>,
        before: Count,
        test: Value,
        bound: Bound,
        asked: Work,
        branch: &Branch,
        locals: &[Local],
    ) -> Counted<Items<Pending>>
        ensures { Gives result
            (spec.kept self.entry arms before (test, bound, asked) branch.now locals.now) }
    {
        let count = asked.count;
        if is_static(&test) {
            return Ok((arms, after_arm(before, count)));
        }
        let inner = untouched(self.alloc, locals)?;
        let (behind, body) = self.branch_arm(branch, bound, inner, no_steps(self.alloc, count))?;
        let after = after_arm(count, body.count);
        let arms = with_pending(arms, test, asked, behind, body)?;
        Ok((arms, after))
    }

    /// The arms of an `if`.
    #[cycle(carry)]
    #[tactic(auto, unfolding(bsv_tree::specs::carrying::Carrying::chain, bsv_tree::specs::carrying::Carrying::chain_from))]
    pub(crate) fn chain(
        self,
        branches: &[Branch],
        otherwise: &Option<Boxed<Stmt>>,
        locals: Locals,
        work: Work,
    ) -> Acted
        ensures { Gives result
            (spec.chain self.entry branches.now otherwise.now locals work) }
    {
        let mut arms = Items::new(self.alloc);
        let mut count = work.count;
        let mut rest = branches;
        while let Some((branch, after)) = rest.split_first() {
            let (test, bound, asked) = self.asked(branch, locals.as_slice(), count)?;
            if is_true(&test) {
                let count = after_arm(count, asked.count);
                return self.last_branch(work, arms, branch, bound, locals, count);
            }
            let (kept, behind) = self.kept(
                arms,
                count,
                test,
                bound,
                asked,
                branch,
                locals.as_slice(),
            )?;
            arms = kept;
            count = behind;
            rest = after;
        }
        self.otherwise(work, arms, otherwise, locals, count)
    }
}
