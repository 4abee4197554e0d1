ghost use Rattle.std.specs.Prelude.{map, option_map};
ghost use Rattle.bsv_statements.specs.Bodies as spec;
ghost use Rattle.bsv_context.specs.Seen.{shown};
ghost use Rattle.bsv_statements.specs.SeenBodies.{GivesAt, opening_of, task_of};

use crate::bodies::{Task, checked};
use crate::fail::BodyFail;
use crate::simple::{
    Opening, act, assign, bind, declaration, give_back, head, labels_of, open_arm, openings, write,
};
use bsv_ast::{Branch, CaseArm, Expr, Head, Span, Stmt};
use bsv_context::Variable;
use bsv_scopes::Scopes;
use bsv_types::{
    Boxed, Branch as TypedBranch, CaseArm as TypedCaseArm, Expr as ExprTree, Items, Stmt as Typed,
};
use std::alloc::Global;

/// The typed statement; the scopes are those after it.
#[cycle(statement)]
pub fn statement(
    alloc: Global,
    task: &Task<'_>,
    scopes: &mut Scopes<Variable>,
    stmt: &Stmt,
) -> Result<Typed, BodyFail>
    ensures { GivesAt (λ x. (shown scopes.new, x)) result
        (spec.stmt_run (task_of task.now) stmt.now (shown scopes.old)) }
{
    match stmt {
        Stmt::Write(span, place, value) => write(alloc, task, scopes, *span, place, value),
        Stmt::Call(span, call) => act(alloc, task, scopes, *span, call),
        Stmt::Bind(span, declared, name, call) => {
            bind(alloc, task, scopes, *span, declared, &name.name, call)
        }
        Stmt::Declare(span, given) => declaration(alloc, task, scopes, *span, given),
        Stmt::Assign(span, name, value) => assign(alloc, task, scopes, *span, &name.name, value),
        Stmt::Return(span, value) => give_back(alloc, task, scopes, *span, value),
        Stmt::NoAction(_) => Ok(Typed::NoAction),
        Stmt::Block(_, body) => block(alloc, task, scopes, body.as_slice()),
        Stmt::If(span, branches, otherwise) => {
            choice(alloc, task, scopes, *span, branches.as_slice(), otherwise)
        }
        Stmt::For(span, head, body) => repeat(alloc, task, scopes, *span, head, body.get()),
        Stmt::Case(span, subject, arms, otherwise) => {
            case(
                alloc,
                task,
                scopes,
                *span,
                subject,
                arms.as_slice(),
                otherwise,
            )
        }
    }
}

/// Statements, one after the other.
#[cycle(statement)]
#[tactic(auto, using(crate::proofs::Fronts::runs))]
pub fn statements(
    alloc: Global,
    task: &Task<'_>,
    scopes: &mut Scopes<Variable>,
    stmts: &[Stmt],
) -> Result<Items<Typed>, BodyFail>
    ensures { GivesAt (λ xs. (shown scopes.new, xs)) result
        (spec.all_runs (map (spec.stmt_run (task_of task.now)) stmts.now) (shown scopes.old)) }
{
    let mut found = Items::new(alloc);
    let mut rest = stmts;
    while let Some((stmt, after)) = rest.split_first() {
        let typed = statement(alloc, task, scopes, stmt)?;
        found.push(typed)?;
        rest = after;
    }
    Ok(found)
}

/// `begin .. end`, which is a scope of its own.
#[cycle(statement)]
#[tactic(auto, using(bsv_context::proofs::Layers::closes))]
fn block(
    alloc: Global,
    task: &Task<'_>,
    scopes: &mut Scopes<Variable>,
    body: &[Stmt],
) -> Result<Typed, BodyFail>
    ensures { GivesAt (λ x. (shown scopes.new, x)) result
        (spec.block_case (map (spec.stmt_run (task_of task.now)) body.now) (shown scopes.old)) }
{
    scopes.open(alloc)?;
    let found = statements(alloc, task, scopes, body)?;
    scopes.close();
    Ok(Typed::Block(found))
}

/// A statement in a scope of its own.
#[cycle(statement)]
#[tactic(auto, using(bsv_context::proofs::Layers::closes))]
fn inside(
    alloc: Global,
    task: &Task<'_>,
    scopes: &mut Scopes<Variable>,
    arm: &Stmt,
) -> Result<Typed, BodyFail>
    ensures { GivesAt (λ x. (shown scopes.new, x)) result
        (spec.inside (spec.stmt_run (task_of task.now) arm.now) (shown scopes.old)) }
{
    scopes.open(alloc)?;
    let typed = statement(alloc, task, scopes, arm)?;
    scopes.close();
    Ok(typed)
}

/// The arm after a last `else` or `default`.
#[cycle(statement)]
fn last_arm(
    alloc: Global,
    task: &Task<'_>,
    scopes: &mut Scopes<Variable>,
    otherwise: &Option<Boxed<Stmt>>,
) -> Result<Option<Boxed<Typed>>, BodyFail>
    ensures { GivesAt (λ x. (shown scopes.new, x)) result
        (spec.last_arm (option_map (spec.stmt_run (task_of task.now)) otherwise.now)
        (shown scopes.old)) }
{
    match otherwise {
        Some(arm) => {
            let typed = inside(alloc, task, scopes, arm.get())?;
            Ok(Some(Boxed::new(alloc, typed)?))
        }
        None => Ok(None),
    }
}

/// An arm after its condition.
#[cycle(statement)]
#[tactic(auto, using(bsv_context::proofs::Layers::closes))]
fn arm(
    alloc: Global,
    task: &Task<'_>,
    scopes: &mut Scopes<Variable>,
    span: Span,
    opening: Opening,
    branch: &Branch,
) -> Result<TypedBranch, BodyFail>
    ensures { GivesAt (λ b. (shown scopes.new, b)) result
        (spec.arm_case span (opening_of opening) (spec.arm_of (task_of task.now) branch.now).run
        (shown scopes.old)) }
{
    let Opening { condition, bound } = opening;
    let condition = Boxed::new(alloc, condition)?;
    open_arm(alloc, span, scopes, bound)?;
    let arm = statement(alloc, task, scopes, &branch.arm)?;
    scopes.close();
    let condition = condition.into_inner();
    Ok(TypedBranch { condition, arm })
}

/// The arms of an `if` after their conditions.
#[cycle(statement)]
#[tactic(auto, using(crate::proofs::Fronts::runs))]
fn arms(
    alloc: Global,
    task: &Task<'_>,
    scopes: &mut Scopes<Variable>,
    span: Span,
    conditions: Vec<Opening>,
    branches: &[Branch],
) -> Result<Items<TypedBranch>, BodyFail>
    ensures { GivesAt (λ bs. (shown scopes.new, bs)) result
        (spec.arms span (map opening_of conditions.items)
        (map (spec.arm_of (task_of task.now)) branches.now) (shown scopes.old)) }
{
    let mut found = Items::new(alloc);
    let mut openings = conditions.into_iter();
    let mut rest = branches;
    while let Some(opening) = openings.next() {
        let Some((branch, after)) = rest.split_first() else {
            return Ok(found);
        };
        let typed = arm(alloc, task, scopes, span, opening, branch)?;
        found.push(typed)?;
        rest = after;
    }
    Ok(found)
}

/// An `if`: its conditions, then its arms.
#[cycle(statement)]
fn choice(
    alloc: Global,
    task: &Task<'_>,
    scopes: &mut Scopes<Variable>,
    span: Span,
    branches: &[Branch],
    otherwise: &Option<Boxed<Stmt>>,
) -> Result<Typed, BodyFail>
    ensures { GivesAt (λ x. (shown scopes.new, x)) result
        (spec.if_case (task_of task.now) span (map (spec.arm_of (task_of task.now)) branches.now)
        (option_map (spec.stmt_run (task_of task.now)) otherwise.now) (shown scopes.old)) }
{
    let conditions = openings(alloc, task, scopes, span, branches)?;
    let found = arms(alloc, task, scopes, span, conditions, branches)?;
    let last = last_arm(alloc, task, scopes, otherwise)?;
    Ok(Typed::If(found, last))
}

/// A `for`, whose arm shares the scope of its variable.
#[cycle(statement)]
#[tactic(auto, using(bsv_context::proofs::Layers::closes))]
fn repeat(
    alloc: Global,
    task: &Task<'_>,
    scopes: &mut Scopes<Variable>,
    span: Span,
    written: &Head,
    body: &Stmt,
) -> Result<Typed, BodyFail>
    ensures { GivesAt (λ x. (shown scopes.new, x)) result
        (spec.for_case (task_of task.now) span written.now
        (spec.stmt_run (task_of task.now) body.now) (shown scopes.old)) }
{
    let head = Boxed::new(alloc, head(alloc, task, scopes, span, written)?)?;
    let body = Boxed::new(alloc, statement(alloc, task, scopes, body)?)?;
    scopes.close();
    Ok(Typed::For(head.into_inner(), body))
}

/// The arm of a `case` after its labels.
#[cycle(statement)]
fn after_labels(
    alloc: Global,
    task: &Task<'_>,
    scopes: &mut Scopes<Variable>,
    case: &CaseArm,
) -> Result<Typed, BodyFail>
    ensures { GivesAt (λ x. (shown scopes.new, x)) result
        (spec.inside (spec.labelled_of (task_of task.now) case.now).run (shown scopes.old)) }
{
    inside(alloc, task, scopes, &case.arm)
}

/// The arms of a `case` after their labels.
#[cycle(statement)]
#[tactic(auto, using(crate::proofs::Fronts::runs))]
fn cases(
    alloc: Global,
    task: &Task<'_>,
    scopes: &mut Scopes<Variable>,
    labels: Vec<Items<ExprTree>>,
    arms: &[CaseArm],
) -> Result<Items<TypedCaseArm>, BodyFail>
    ensures { GivesAt (λ cs. (shown scopes.new, cs)) result
        (spec.all_labelled labels.items (map (spec.labelled_of (task_of task.now)) arms.now)
        (shown scopes.old)) }
{
    let mut found = Items::new(alloc);
    let mut left = labels.into_iter();
    let mut rest = arms;
    while let Some(labels) = left.next() {
        let Some((case, after)) = rest.split_first() else {
            return Ok(found);
        };
        let arm = after_labels(alloc, task, scopes, case)?;
        found.push(TypedCaseArm { labels, arm })?;
        rest = after;
    }
    Ok(found)
}

/// A `case`: its subject and its labels, then its arms.
#[cycle(statement)]
fn case(
    alloc: Global,
    task: &Task<'_>,
    scopes: &mut Scopes<Variable>,
    span: Span,
    subject: &Expr,
    arms: &[CaseArm],
    otherwise: &Option<Boxed<Stmt>>,
) -> Result<Typed, BodyFail>
    ensures { GivesAt (λ x. (shown scopes.new, x)) result
        (spec.case_case (task_of task.now) span subject.now
        (map (spec.labelled_of (task_of task.now)) arms.now)
        (option_map (spec.stmt_run (task_of task.now)) otherwise.now) (shown scopes.old)) }
{
    let typed = Boxed::new(alloc, checked(alloc, task, scopes, span, subject, None)?)?;
    let labels = labels_of(alloc, task, scopes, span, &typed.get().ty, arms)?;
    let found = cases(alloc, task, scopes, labels, arms)?;
    let last = last_arm(alloc, task, scopes, otherwise)?;
    Ok(Typed::Case(typed.into_inner().expr, found, last))
}
