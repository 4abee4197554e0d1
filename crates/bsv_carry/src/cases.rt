ghost use Rattle.bsv_fail.specs.Given.{Gives};
ghost use Rattle.bsv_carry.specs.AtHand as spec;

use crate::carrier::Carrier;
use crate::statements::Acted;
use bsv_fail::Fail;
use bsv_tree::{
    Count, Counted, Got, Local, Locals, Pending, Value, Valued, Work, after_arm, at_count, close,
    either, is_static, is_true, no_steps, or_false, untouched, with_pending,
};
use bsv_types::{CaseArm, Expr, Stmt};
use sqlite_items::{Boxed, Items};

impl Carrier<'_> {
    /// Whether the subject has the label, which is static, or one before.
    #[cycle(carry)]
    #[tactic(auto, unfolding(bsv_tree::specs::carrying::Carrying::label))]
    fn label(
        self,
        subject: &Value,
        found: Option<Value>,
        label: &Expr,
        locals: &[Local],
        work: Work,
    ) -> Valued
        ensures { Gives result
            (spec.label self.entry subject.now found label.now locals.now work) }
    {
        let (value, work) = self.expr(label, locals, work)?;
        if !is_static(&value) {
            return Err(Fail::Fault(self.static_fault()));
        }
        let (same, work) = self.same_as(subject, value, work)?;
        either(found, same, work)
    }

    /// Whether the subject has one of the labels.
    #[cycle(carry)]
    #[tactic(auto, unfolding(bsv_tree::specs::carrying::Carrying::labels, bsv_tree::specs::carrying::Carrying::labels_from))]
    fn labels(self, subject: &Value, labels: &[Expr], locals: &[Local], count: Count) -> Valued
        ensures { Gives result (spec.labels self.entry subject.now labels.now locals.now count) }
    {
        let mut found = None;
        let mut work = no_steps(self.alloc, count);
        let mut rest = labels;
        while let Some((label, after)) = rest.split_first() {
            let (any, behind) = self.label(subject, found, label, locals, work)?;
            found = Some(any);
            work = behind;
            rest = after;
        }
        Ok((or_false(found), work))
    }

    /// An arm, which is carried out where it is the first one that has the subject.
    #[cycle(carry)]
    #[tactic(auto, unfolding(bsv_tree::specs::carrying::Carrying::static_arm, bsv_tree::specs::carrying::Carrying::case_arm, bsv_tree::specs::carrying::Carrying::stmt))]
    fn static_arm(
        self,
        subject: &Value,
        taken: bool,
        arm: &CaseArm,
        locals: Locals,
        work: Work,
    ) -> Got<(bool, Locals, Work)>
        ensures { Gives result
            (spec.static_arm self.entry subject.now taken arm.now locals work) }
    {
        let labels = arm.labels.as_slice();
        let (test, asked) = self.labels(subject, labels, locals.as_slice(), work.count)?;
        let count = after_arm(work.count, asked.count);
        let work = at_count(work, count);
        if !taken && is_true(&test) {
            let (locals, work) = self.inside(&arm.arm, locals, work)?;
            return Ok((true, locals, work));
        }
        Ok((taken, locals, work))
    }

    /// A `case` whose subject is static: all labels are carried out.
    #[cycle(carry)]
    #[tactic(auto, unfolding(bsv_tree::specs::carrying::Carrying::static_case))]
    fn static_case(
        self,
        subject: &Value,
        arms: &[CaseArm],
        otherwise: &Option<Boxed<Stmt>>,
        locals: Locals,
        work: Work,
    ) -> Acted
        ensures { Gives result
            (spec.static_case self.entry subject.now arms.now otherwise.now locals work) }
    {
        let mut taken = false;
        let mut locals = locals;
        let mut work = work;
        let mut rest = arms;
        while let Some((arm, after)) = rest.split_first() {
            let (now, next, behind) = self.static_arm(subject, taken, arm, locals, work)?;
            taken = now;
            locals = next;
            work = behind;
            rest = after;
        }
        if taken {
            Ok((locals, work))
        } else {
            self.last_of(otherwise, locals, work)
        }
    }

    /// An arm of a `case` whose subject is not static.
    #[cycle(carry)]
    #[tactic(auto, unfolding(bsv_tree::specs::carrying::Carrying::open_arm, bsv_tree::specs::carrying::Carrying::case_arm, bsv_tree::specs::carrying::Carrying::stmt))]
    fn open_arm(
        self,
        subject: &Value,
        arms: Items<Pending>,
        arm: &CaseArm,
        locals: &[Local],
        count: Count,
    ) -> Counted<Items<Pending>>
        ensures { Gives result
            (spec.open_arm self.entry subject.now arms arm.now locals.now count) }
    {
        let (test, asked) = self.labels(subject, arm.labels.as_slice(), locals, count)?;
        let count = asked.count;
        let inner = untouched(self.alloc, locals)?;
        let (behind, body) = self.inside(&arm.arm, inner, no_steps(self.alloc, count))?;
        let after = after_arm(count, body.count);
        Ok((with_pending(arms, test, asked, behind, body)?, after))
    }

    /// A `case` whose subject is not static.
    #[cycle(carry)]
    #[tactic(auto, unfolding(bsv_tree::specs::carrying::Carrying::open_case))]
    fn open_case(
        self,
        subject: &Value,
        arms: &[CaseArm],
        otherwise: &Option<Boxed<Stmt>>,
        locals: Locals,
        work: Work,
    ) -> Acted
        ensures { Gives result
            (spec.open_case self.entry subject.now arms.now otherwise.now locals work) }
    {
        let mut pending = Items::new(self.alloc);
        let mut count = work.count;
        let mut rest = arms;
        while let Some((arm, after)) = rest.split_first() {
            let (kept, behind) = self.open_arm(subject, pending, arm, locals.as_slice(), count)?;
            pending = kept;
            count = behind;
            rest = after;
        }
        let inner = untouched(self.alloc, locals.as_slice())?;
        let (behind, last) = self.last_of(otherwise, inner, no_steps(self.alloc, count))?;
        close(
            self.alloc,
            locals.as_slice(),
            work,
            pending,
            behind.as_slice(),
            last,
        )
    }

    /// A `case`.
    #[cycle(carry)]
    #[tactic(auto, unfolding(bsv_tree::specs::carrying::Carrying::cases))]
    pub(crate) fn cases(
        self,
        subject: &Expr,
        arms: &[CaseArm],
        otherwise: &Option<Boxed<Stmt>>,
        locals: Locals,
        work: Work,
    ) -> Acted
        ensures { Gives result
            (spec.cases self.entry subject.now arms.now otherwise.now locals work) }
    {
        let (value, work) = self.expr(subject, locals.as_slice(), work)?;
        if is_static(&value) {
            self.static_case(&value, arms, otherwise, locals, work)
        } else {
            self.open_case(&value, arms, otherwise, locals, work)
        }
    }
}
