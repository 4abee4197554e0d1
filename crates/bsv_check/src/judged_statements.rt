//! Which places of statements have a fault of their own. What names something without a typing is passed over.

ghost use Rattle.std.specs.Prelude.{◌≡◌, map, option_map};
ghost use Rattle.bsv_types.specs.Kinds.{kind};
ghost use Rattle.bsv_statements.specs.Bodies as bodies;
ghost use Rattle.bsv_context.specs.Seen.{shown};
ghost use Rattle.bsv_statements.specs.SeenBodies.{GivesAt, opening_of};
ghost use Rattle.bsv_names.specs.StatementEvents.{stmt_events};
ghost use Rattle.bsv_names.specs.Untyped.{leans};
ghost use Rattle.bsv_names.specs.UntypedSeen.{variables};
ghost use Rattle.bsv_check.specs.Judged as spec;
ghost use Rattle.bsv_check.specs.JudgedSeen.{judging};

use bsv_ast::{Boxed, Branch, CaseArm, Condition, Expr, Head, Span, Stmt};
use bsv_bits::Name;
use bsv_context::{TypedExpr, Variable};
use bsv_names::{Reach, Variables};
use bsv_scopes::Scopes;
use bsv_statements::{BodyFail, Opening, Task, asked, checked, head, of_type, open_arm, statement};
use bsv_types::{Boxed as TypedBox, Ty};
use std::alloc::Global;

/// What each call has at hand.
#[derive(Clone, Copy)]
pub(crate) struct Judge<'a> {
    pub(crate) alloc: Global,
    /// What has no typing.
    pub(crate) reach: Reach<'a>,
    /// What the statements may name and do.
    pub(crate) task: Task<'a>,
}

/// The variable that a condition binds.
fn name_bound(condition: &Condition) -> Option<&Name>
    ensures { option_map (λ n. n.now) result ≡ spec.name_bound condition.now }
{
    match condition {
        Condition::Test(_, _) => None,
        Condition::Matches(_, _, name) => Some(&name.name),
    }
}

impl Judge<'_> {
    /// A statement that holds no others, and the variable that it declares.
    fn leaf(
        self,
        names: &mut Variables,
        scopes: &mut Scopes<Variable>,
        stmt: &Stmt,
        declared: Option<&Name>,
    ) -> Result<(), BodyFail>
        ensures { GivesAt (λ u. (variables names.new, shown scopes.new)) result
            (spec.leaf (λ vs. leans (judging self.entry).untyped vs (stmt_events stmt.now))
            (option_map (λ n. n.now) declared.entry)
            (bodies.stmt_run (judging self.entry).task stmt.now) (variables names.old)
            (shown scopes.old)) }
    {
        let leans = self.reach.stmt_leans(self.alloc, names, stmt)?;
        if !leans {
            drop(statement(self.alloc, &self.task, scopes, stmt)?);
        }
        names.declare(self.alloc, declared, !leans)?;
        Ok(())
    }

    /// A statement.
    #[cycle(judged_statements)]
    pub(crate) fn stmt(
        self,
        names: &mut Variables,
        scopes: &mut Scopes<Variable>,
        stmt: &Stmt,
    ) -> Result<(), BodyFail>
        ensures { GivesAt (λ u. (variables names.new, shown scopes.new)) result
            (spec.stmt_judged (judging self.entry) stmt.now
            (variables names.old) (shown scopes.old)) }
    {
        match stmt {
            Stmt::Write(_, _, _) | Stmt::Call(_, _) | Stmt::Assign(_, _, _) | Stmt::Return(_, _) =>
                self.leaf(names, scopes, stmt, None),
            Stmt::Bind(_, _, name, _) => self.leaf(names, scopes, stmt, Some(&name.name)),
            Stmt::Declare(_, given) => self.leaf(names, scopes, stmt, Some(&given.name.name)),
            Stmt::NoAction(_) => Ok(()),
            Stmt::Block(_, body) => self.block(names, scopes, body.as_slice()),
            Stmt::If(span, branches, otherwise) => {
                self.choice(names, scopes, *span, branches.as_slice(), otherwise)
            }
            Stmt::For(span, head, body) => self.repeat(names, scopes, *span, head, body.get()),
            Stmt::Case(span, subject, arms, otherwise) => {
                self.case(names, scopes, *span, subject, arms.as_slice(), otherwise)
            }
        }
    }

    /// Statements, one after the other.
    #[cycle(judged_statements)]
    pub(crate) fn stmts(
        self,
        names: &mut Variables,
        scopes: &mut Scopes<Variable>,
        stmts: &[Stmt],
    ) -> Result<(), BodyFail>
        ensures { GivesAt (λ u. (variables names.new, shown scopes.new)) result
            (spec.stmts_judged (judging self.entry) stmts.now
            (variables names.old) (shown scopes.old)) }
    {
        let mut rest = stmts;
        while let Some((stmt, after)) = rest.split_first() {
            self.stmt(names, scopes, stmt)?;
            rest = after;
        }
        Ok(())
    }

    /// `begin .. end`, which is a scope of its own.
    #[cycle(judged_statements)]
    #[tactic(auto, using(bsv_context::proofs::Layers::closes))]
    fn block(
        self,
        names: &mut Variables,
        scopes: &mut Scopes<Variable>,
        body: &[Stmt],
    ) -> Result<(), BodyFail>
        ensures { GivesAt (λ u. (variables names.new, shown scopes.new)) result
            (spec.inside (spec.stmts_judged (judging self.entry)
            body.now) (variables names.old) (shown scopes.old)) }
    {
        names.open(self.alloc)?;
        scopes.open(self.alloc)?;
        self.stmts(names, scopes, body)?;
        names.close();
        scopes.close();
        Ok(())
    }

    /// A statement in a scope of its own.
    #[cycle(judged_statements)]
    #[tactic(auto, using(bsv_context::proofs::Layers::closes))]
    fn inside(
        self,
        names: &mut Variables,
        scopes: &mut Scopes<Variable>,
        stmt: &Stmt,
    ) -> Result<(), BodyFail>
        ensures { GivesAt (λ u. (variables names.new, shown scopes.new)) result
            (spec.inside (spec.stmt_judged (judging self.entry)
            stmt.now) (variables names.old) (shown scopes.old)) }
    {
        names.open(self.alloc)?;
        scopes.open(self.alloc)?;
        self.stmt(names, scopes, stmt)?;
        names.close();
        scopes.close();
        Ok(())
    }

    /// The arm after a last `else` or `default`.
    #[cycle(judged_statements)]
    fn last(
        self,
        names: &mut Variables,
        scopes: &mut Scopes<Variable>,
        otherwise: &Option<Boxed<Stmt>>,
    ) -> Result<(), BodyFail>
        ensures { GivesAt (λ u. (variables names.new, shown scopes.new)) result (spec.last_judged
            (option_map (spec.stmt_judged (judging self.entry)) otherwise.now) (variables
            names.old) (shown scopes.old)) }
    {
        match otherwise {
            Some(arm) => self.inside(names, scopes, arm.get()),
            None => Ok(()),
        }
    }

    /// What the condition of an arm asks, and the variable that it binds.
    fn opening(
        self,
        scopes: &Scopes<Variable>,
        span: Span,
        condition: &Condition,
    ) -> Result<Opening, BodyFail>
        ensures { GivesAt opening_of result (bodies.opening (judging self.entry).task
            (shown scopes.now) span condition.now) }
    {
        asked(self.alloc, &self.task, scopes, span, condition)
    }

    /// The condition of an arm alone.
    fn condition(
        self,
        names: &Variables,
        scopes: &Scopes<Variable>,
        span: Span,
        branch: &Branch,
    ) -> Result<(), BodyFail>
        ensures { GivesAt (λ u. u) result (spec.opening_judged (judging self.entry) span
            (spec.arm_of (judging self.entry) branch.now).condition (variables names.now) (shown
            scopes.now)) }
    {
        if !self
            .reach
            .condition_leans(self.alloc, names, &branch.condition)?
        {
            drop(self.opening(scopes, span, &branch.condition)?);
        }
        Ok(())
    }

    /// The conditions of the arms of an `if`.
    fn conditions(
        self,
        names: &Variables,
        scopes: &Scopes<Variable>,
        span: Span,
        branches: &[Branch],
    ) -> Result<(), BodyFail>
        ensures { GivesAt (λ u. u) result (spec.openings_judged (judging self.entry) span (map
            (spec.arm_of (judging self.entry)) branches.now) (variables names.now) (shown
            scopes.now)) }
    {
        let mut rest = branches;
        while let Some((branch, after)) = rest.split_first() {
            self.condition(names, scopes, span, branch)?;
            rest = after;
        }
        Ok(())
    }

    /// Opens the scope of an arm, with the variable that its condition binds.
    #[tactic(auto, using(bsv_context::proofs::Layers::closes))]
    fn open_arm(
        self,
        names: &mut Variables,
        scopes: &mut Scopes<Variable>,
        span: Span,
        condition: &Condition,
    ) -> Result<(), BodyFail>
        ensures { GivesAt (λ u. (variables names.new, shown scopes.new)) result
            (spec.arm_opened (judging self.entry) span condition.now
            (variables names.old) (shown scopes.old)) }
    {
        let leans = self.reach.condition_leans(self.alloc, names, condition)?;
        if leans {
            scopes.open(self.alloc)?;
        } else {
            let opening = self.opening(scopes, span, condition)?;
            open_arm(self.alloc, span, scopes, opening.bound)?;
        }
        names.open(self.alloc)?;
        names.declare(self.alloc, name_bound(condition), !leans)?;
        Ok(())
    }

    /// An arm after its condition.
    #[cycle(judged_statements)]
    #[tactic(auto, using(bsv_context::proofs::Layers::closes))]
    fn arm(
        self,
        names: &mut Variables,
        scopes: &mut Scopes<Variable>,
        span: Span,
        branch: &Branch,
    ) -> Result<(), BodyFail>
        ensures { GivesAt (λ u. (variables names.new, shown scopes.new)) result
            (spec.arm_judged (judging self.entry) span
            (spec.arm_of (judging self.entry) branch.now).condition
            (spec.arm_of (judging self.entry) branch.now).judge
            (variables names.old) (shown scopes.old)) }
    {
        self.open_arm(names, scopes, span, &branch.condition)?;
        self.stmt(names, scopes, &branch.arm)?;
        names.close();
        scopes.close();
        Ok(())
    }

    /// The arms of an `if`.
    #[cycle(judged_statements)]
    fn arms(
        self,
        names: &mut Variables,
        scopes: &mut Scopes<Variable>,
        span: Span,
        branches: &[Branch],
    ) -> Result<(), BodyFail>
        ensures { GivesAt (λ u. (variables names.new, shown scopes.new)) result
            (spec.arms_judged (judging self.entry) span
            (map (spec.arm_of (judging self.entry)) branches.now)
            (variables names.old) (shown scopes.old)) }
    {
        let mut rest = branches;
        while let Some((branch, after)) = rest.split_first() {
            self.arm(names, scopes, span, branch)?;
            rest = after;
        }
        Ok(())
    }

    /// An `if`: its conditions, then its arms.
    #[cycle(judged_statements)]
    fn choice(
        self,
        names: &mut Variables,
        scopes: &mut Scopes<Variable>,
        span: Span,
        branches: &[Branch],
        otherwise: &Option<Boxed<Stmt>>,
    ) -> Result<(), BodyFail>
        ensures { GivesAt (λ u. (variables names.new, shown scopes.new)) result
            (spec.if_judged (judging self.entry) span
            (map (spec.arm_of (judging self.entry)) branches.now)
            (option_map (spec.stmt_judged (judging self.entry))
            otherwise.now) (variables names.old) (shown scopes.old)) }
    {
        self.conditions(names, scopes, span, branches)?;
        self.arms(names, scopes, span, branches)?;
        self.last(names, scopes, otherwise)
    }

    /// Opens the scope of a loop, with its variable.
    #[tactic(auto, using(bsv_context::proofs::Layers::closes))]
    pub(crate) fn open_loop(
        self,
        names: &mut Variables,
        scopes: &mut Scopes<Variable>,
        span: Span,
        written: &Head,
    ) -> Result<(), BodyFail>
        ensures { GivesAt (λ u. (variables names.new, shown scopes.new)) result
            (spec.head_opened (judging self.entry) span written.now
            (variables names.old) (shown scopes.old)) }
    {
        let leans = self.reach.head_leans(self.alloc, names, written)?;
        if leans {
            scopes.open(self.alloc)?;
        } else {
            drop(head(self.alloc, &self.task, scopes, span, written)?);
        }
        names.open(self.alloc)?;
        names.declare(self.alloc, Some(&written.variable.name), !leans)?;
        Ok(())
    }

    /// A `for`, whose arm shares the scope of its variable.
    #[cycle(judged_statements)]
    #[tactic(auto, using(bsv_context::proofs::Layers::closes))]
    fn repeat(
        self,
        names: &mut Variables,
        scopes: &mut Scopes<Variable>,
        span: Span,
        written: &Head,
        body: &Stmt,
    ) -> Result<(), BodyFail>
        ensures { GivesAt (λ u. (variables names.new, shown scopes.new)) result
            (spec.for_judged (judging self.entry) span written.now
            (spec.stmt_judged (judging self.entry) body.now)
            (variables names.old) (shown scopes.old)) }
    {
        self.open_loop(names, scopes, span, written)?;
        self.stmt(names, scopes, body)?;
        names.close();
        scopes.close();
        Ok(())
    }

    /// An expression of this type alone.
    pub(crate) fn expr(
        self,
        names: &Variables,
        scopes: &Scopes<Variable>,
        span: Span,
        ty: &Ty,
        expr: &Expr,
    ) -> Result<(), BodyFail>
        ensures { GivesAt (λ u. u) result (spec.expr_judged (judging self.entry) span (kind
            ty.now) expr.now (variables names.now) (shown scopes.now)) }
    {
        if !self.reach.expr_leans(self.alloc, names, expr)? {
            drop(of_type(self.alloc, &self.task, scopes, span, expr, ty)?);
        }
        Ok(())
    }

    /// The labels of an arm of a `case`.
    fn labels(
        self,
        names: &Variables,
        scopes: &Scopes<Variable>,
        span: Span,
        ty: &Ty,
        labels: &[Expr],
    ) -> Result<(), BodyFail>
        ensures { GivesAt (λ u. u) result (spec.labels_judged (judging self.entry) span (kind
            ty.now) labels.now (variables names.now) (shown scopes.now)) }
    {
        let mut rest = labels;
        while let Some((label, after)) = rest.split_first() {
            self.expr(names, scopes, span, ty, label)?;
            rest = after;
        }
        Ok(())
    }

    /// The labels of one arm of a `case`.
    fn labels_of(
        self,
        names: &Variables,
        scopes: &Scopes<Variable>,
        span: Span,
        ty: &Ty,
        case: &CaseArm,
    ) -> Result<(), BodyFail>
        ensures { GivesAt (λ u. u) result (spec.labels_judged (judging self.entry) span (kind
            ty.now) (spec.labelled_of (judging self.entry) case.now).labels (variables names.now)
            (shown scopes.now)) }
    {
        self.labels(names, scopes, span, ty, case.labels.as_slice())
    }

    /// The labels of the arms of a `case`.
    fn all_labels(
        self,
        names: &Variables,
        scopes: &Scopes<Variable>,
        span: Span,
        ty: &Ty,
        arms: &[CaseArm],
    ) -> Result<(), BodyFail>
        ensures { GivesAt (λ u. u) result (spec.all_labels_judged (judging self.entry) span (kind
            ty.now) (map (spec.labelled_of (judging self.entry)) arms.now) (variables names.now)
            (shown scopes.now)) }
    {
        let mut rest = arms;
        while let Some((case, after)) = rest.split_first() {
            self.labels_of(names, scopes, span, ty, case)?;
            rest = after;
        }
        Ok(())
    }

    /// The subject and the labels of a `case`.
    fn subject(
        self,
        names: &Variables,
        scopes: &Scopes<Variable>,
        span: Span,
        subject: &Expr,
        arms: &[CaseArm],
    ) -> Result<(), BodyFail>
        ensures { GivesAt (λ u. u) result (spec.subject_judged (judging self.entry) span
            subject.now (map (spec.labelled_of (judging self.entry)) arms.now) (variables
            names.now) (shown scopes.now)) }
    {
        if self.reach.expr_leans(self.alloc, names, subject)? {
            return Ok(());
        }
        let typed = checked(self.alloc, &self.task, scopes, span, subject, None)?;
        let TypedExpr { ty, expr } = typed;
        drop(expr);
        self.all_labels(names, scopes, span, &ty, arms)
    }

    /// An arm of a `case`.
    #[cycle(judged_statements)]
    fn after_labels(
        self,
        names: &mut Variables,
        scopes: &mut Scopes<Variable>,
        case: &CaseArm,
    ) -> Result<(), BodyFail>
        ensures { GivesAt (λ u. (variables names.new, shown scopes.new)) result
            (spec.inside (spec.labelled_of (judging self.entry)
            case.now).judge (variables names.old) (shown scopes.old)) }
    {
        self.inside(names, scopes, &case.arm)
    }

    /// The arms of a `case`.
    #[cycle(judged_statements)]
    fn cases(
        self,
        names: &mut Variables,
        scopes: &mut Scopes<Variable>,
        arms: &[CaseArm],
    ) -> Result<(), BodyFail>
        ensures { GivesAt (λ u. (variables names.new, shown scopes.new)) result
            (spec.labelled_judged (judging self.entry)
            (map (spec.labelled_of (judging self.entry)) arms.now) (variables names.old)
            (shown scopes.old)) }
    {
        let mut rest = arms;
        while let Some((case, after)) = rest.split_first() {
            self.after_labels(names, scopes, case)?;
            rest = after;
        }
        Ok(())
    }

    /// A `case`: its subject and its labels, then its arms.
    #[cycle(judged_statements)]
    fn case(
        self,
        names: &mut Variables,
        scopes: &mut Scopes<Variable>,
        span: Span,
        subject: &Expr,
        arms: &[CaseArm],
        otherwise: &Option<Boxed<Stmt>>,
    ) -> Result<(), BodyFail>
        ensures { GivesAt (λ u. (variables names.new, shown scopes.new)) result
            (spec.case_judged (judging self.entry) span subject.now
            (map (spec.labelled_of (judging self.entry)) arms.now)
            (option_map (spec.stmt_judged (judging self.entry))
            otherwise.now) (variables names.old) (shown scopes.old)) }
    {
        self.subject(names, scopes, span, subject, arms)?;
        self.cases(names, scopes, arms)?;
        self.last(names, scopes, otherwise)
    }
}
