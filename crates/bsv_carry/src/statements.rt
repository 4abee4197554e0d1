ghost use Rattle.bsv_fail.specs.Given.{Gives};
ghost use Rattle.bsv_carry.specs.AtHand as spec;

use crate::carrier::Carrier;
use bsv_tree::{
    Count, Got, Locals, Pending, Work, assign, at_count, close, counted, front, is_integer,
    no_steps, untouched, with_variable,
};
use bsv_types::Stmt;
use sqlite_items::{Boxed, Items};

/// The variables after statements, and the steps up to there.
pub(crate) type Acted = Got<(Locals, Work)>;

impl Carrier<'_> {
    /// Statements, one after the other.
    #[cycle(carry)]
    #[tactic(auto, unfolding(bsv_tree::specs::carrying::Carrying::run))]
    pub(crate) fn run(self, stmts: &[Stmt], locals: Locals, work: Work) -> Acted
        ensures { Gives result (spec.run self.entry stmts.now locals work) }
    {
        let mut locals = locals;
        let mut work = work;
        let mut rest = stmts;
        while let Some((stmt, after)) = rest.split_first() {
            let (next, behind) = self.stmt(stmt, locals, work)?;
            locals = next;
            work = behind;
            rest = after;
        }
        Ok((locals, work))
    }

    /// Statements whose variables end with them.
    #[cycle(carry)]
    #[tactic(auto, unfolding(bsv_tree::specs::carrying::Carrying::inside))]
    fn block(self, stmts: &[Stmt], locals: Locals, work: Work) -> Acted
        ensures { Gives result (spec.block self.entry stmts.now locals work) }
    {
        let before = locals.len();
        let (locals, work) = self.run(stmts, locals, work)?;
        Ok((front(before, locals), work))
    }

    /// A statement whose variables end with it.
    #[cycle(carry)]
    #[tactic(auto, unfolding(bsv_tree::specs::carrying::Carrying::inside))]
    pub(crate) fn inside(self, stmt: &Stmt, locals: Locals, work: Work) -> Acted
        ensures { Gives result (spec.inside self.entry stmt.now locals work) }
    {
        let before = locals.len();
        let (locals, work) = self.stmt(stmt, locals, work)?;
        Ok((front(before, locals), work))
    }

    /// An arm without a condition, where there is one.
    #[cycle(carry)]
    pub(crate) fn last_of(
        self,
        otherwise: &Option<Boxed<Stmt>>,
        locals: Locals,
        work: Work,
    ) -> Acted
        ensures { Gives result (spec.last_of self.entry otherwise.now locals work) }
    {
        match otherwise {
            None => Ok((locals, work)),
            Some(stmt) => self.inside(stmt.get(), locals, work),
        }
    }

    /// The last arm, which is all there is where no other is left.
    #[cycle(carry)]
    #[tactic(auto, unfolding(bsv_tree::specs::carrying::Carrying::last_arm))]
    pub(crate) fn otherwise(
        self,
        work: Work,
        arms: Items<Pending>,
        otherwise: &Option<Boxed<Stmt>>,
        locals: Locals,
        count: Count,
    ) -> Acted
        ensures { Gives result
            (spec.otherwise self.entry work arms otherwise.now locals count) }
    {
        if arms.is_empty() {
            return self.last_of(otherwise, locals, at_count(work, count));
        }
        let inner = untouched(self.alloc, locals.as_slice())?;
        let (behind, last) = self.last_of(otherwise, inner, no_steps(self.alloc, count))?;
        close(
            self.alloc,
            locals.as_slice(),
            work,
            arms,
            behind.as_slice(),
            last,
        )
    }

    /// A statement.
    #[cycle(carry)]
    #[tactic(auto, using(crate::proofs::Nodes::stmts), unfolding(bsv_tree::specs::carrying::Carrying::stmt, bsv_tree::specs::carrying::Carrying::branch, bsv_tree::specs::carrying::Carrying::case_arm))]
    pub(crate) fn stmt(self, stmt: &Stmt, locals: Locals, work: Work) -> Acted
        ensures { Gives result (spec.stmt self.entry stmt.now locals work) }
    {
        let work = counted(work, 1)?;
        match stmt {
            Stmt::Declare(ty, e) => {
                let (value, work) = self.expr(e, locals.as_slice(), work)?;
                Ok((with_variable(locals, value, is_integer(ty))?, work))
            }
            Stmt::Assign(level, e) => {
                let (value, work) = self.expr(e, locals.as_slice(), work)?;
                Ok((assign(locals, self.place_in_body(*level), value), work))
            }
            Stmt::Act(place, number, arguments) => {
                let values = locals.as_slice();
                let (_value, work) = self.act(place, *number, arguments.as_slice(), values, work)?;
                Ok((locals, work))
            }
            Stmt::Bind(_, place, number, arguments) => {
                let values = locals.as_slice();
                let (value, work) = self.act(place, *number, arguments.as_slice(), values, work)?;
                Ok((with_variable(locals, value, false)?, work))
            }
            Stmt::Return(e) => {
                let (value, work) = self.expr(e, locals.as_slice(), work)?;
                Ok((assign(locals, 0, value), work))
            }
            Stmt::NoAction => Ok((locals, work)),
            Stmt::Block(stmts) => self.block(stmts.as_slice(), locals, work),
            Stmt::If(branches, otherwise) => {
                self.chain(branches.as_slice(), otherwise, locals, work)
            }
            Stmt::For(head, stmt) => self.loop_of(head, stmt.get(), locals, work),
            Stmt::Case(subject, arms, otherwise) => {
                self.cases(subject, arms.as_slice(), otherwise, locals, work)
            }
        }
    }
}
