ghost use Rattle.std.specs.Prelude.{◌≡◌, ◌++◌, OnOk, option_map};
ghost use Rattle.bsv_names.specs.Events.{scope};
ghost use Rattle.bsv_names.specs.StatementEvents as spec;

use crate::event::{Event, define_variable, use_variable};
use crate::expression_events::{expr_events, exprs_events, type_events};
use bsv_ast::{
    Boxed, Branch, Call, CaseArm, Condition, Declaration, DeclaredType, Head, Items, Place, Stmt,
};
use bsv_bits::OutOfMemory;
use std::alloc::Global;

/// Adds the names of a place.
fn place_events(alloc: Global, place: &Place, found: &mut Items<Event>) -> Result<(), OutOfMemory>
    ensures { OnOk result (found.new ≡ found.old ++ spec.place_events place.now) }
{
    match place {
        Place::Name(_, name) => use_variable(alloc, name, found),
        Place::Index(_, name, at) => {
            use_variable(alloc, name, found)?;
            expr_events(alloc, at, found)
        }
    }
}

/// Adds the names of a call.
fn call_events(alloc: Global, call: &Call, found: &mut Items<Event>) -> Result<(), OutOfMemory>
    ensures { OnOk result (found.new ≡ found.old ++ spec.call_events call.now) }
{
    place_events(alloc, &call.place, found)?;
    exprs_events(alloc, call.arguments.as_slice(), found)
}

/// Adds the names of the type in front of a name that is defined.
fn declared_events(
    alloc: Global,
    declared: &DeclaredType,
    found: &mut Items<Event>,
) -> Result<(), OutOfMemory>
    ensures { OnOk result (found.new ≡ found.old ++ spec.declared_events declared.now) }
{
    match declared {
        DeclaredType::Written(_, written) => type_events(alloc, written, found),
        DeclaredType::Let(_) => Ok(()),
    }
}

/// Adds the names of a declaration, and the variable after them.
pub(crate) fn declaration_events(
    alloc: Global,
    declaration: &Declaration,
    found: &mut Items<Event>,
) -> Result<(), OutOfMemory>
    ensures { OnOk result (found.new ≡ found.old ++ spec.declaration_events declaration.now) }
{
    declared_events(alloc, &declaration.declared, found)?;
    expr_events(alloc, &declaration.value, found)?;
    define_variable(alloc, &declaration.name, declaration.span, found)
}

/// Adds the names of a condition.
pub(crate) fn condition_events(
    alloc: Global,
    condition: &Condition,
    found: &mut Items<Event>,
) -> Result<(), OutOfMemory>
    ensures { OnOk result (found.new ≡ found.old ++ spec.condition_events condition.now) }
{
    match condition {
        Condition::Test(_, test) | Condition::Matches(_, test, _) => {
            expr_events(alloc, test, found)
        }
    }
}

/// Adds the variable that a condition binds.
fn bound_events(
    alloc: Global,
    condition: &Condition,
    found: &mut Items<Event>,
) -> Result<(), OutOfMemory>
    ensures { OnOk result (found.new ≡ found.old ++ spec.bound_events condition.now) }
{
    match condition {
        Condition::Test(_, _) => Ok(()),
        Condition::Matches(span, _, name) => define_variable(alloc, name, *span, found),
    }
}

/// Adds the names of the head of a loop, and its variable after the first value.
pub(crate) fn head_events(
    alloc: Global,
    head: &Head,
    found: &mut Items<Event>,
) -> Result<(), OutOfMemory>
    ensures { OnOk result (found.new ≡ found.old ++ spec.head_events head.now) }
{
    expr_events(alloc, &head.first, found)?;
    define_variable(alloc, &head.variable, head.span, found)?;
    expr_events(alloc, &head.condition, found)?;
    use_variable(alloc, &head.stepped, found)?;
    expr_events(alloc, &head.step, found)
}

/// Adds the names of a statement.
#[cycle(statement_events)]
pub(crate) fn stmt_events(
    alloc: Global,
    stmt: &Stmt,
    found: &mut Items<Event>,
) -> Result<(), OutOfMemory>
    ensures { OnOk result (found.new ≡ found.old ++ spec.stmt_events stmt.now) }
{
    match stmt {
        Stmt::Write(_, place, value) => {
            place_events(alloc, place, found)?;
            expr_events(alloc, value, found)
        }
        Stmt::Call(_, call) => call_events(alloc, call, found),
        Stmt::Bind(span, declared, name, call) => {
            declared_events(alloc, declared, found)?;
            call_events(alloc, call, found)?;
            define_variable(alloc, name, *span, found)
        }
        Stmt::Declare(_, declaration) => declaration_events(alloc, declaration, found),
        Stmt::Assign(_, name, value) => {
            use_variable(alloc, name, found)?;
            expr_events(alloc, value, found)
        }
        Stmt::Return(_, value) => expr_events(alloc, value, found),
        Stmt::NoAction(_) => Ok(()),
        Stmt::Block(_, body) => {
            found.push(Event::Open)?;
            stmts_events(alloc, body.as_slice(), found)?;
            Ok(found.push(Event::Close)?)
        }
        Stmt::If(_, branches, otherwise) => {
            branches_events(alloc, branches.as_slice(), found)?;
            last_arm_events(alloc, otherwise, found)
        }
        Stmt::For(_, head, body) => {
            found.push(Event::Open)?;
            head_events(alloc, head, found)?;
            stmt_events(alloc, body.get(), found)?;
            Ok(found.push(Event::Close)?)
        }
        Stmt::Case(_, subject, arms, otherwise) => {
            expr_events(alloc, subject, found)?;
            cases_events(alloc, arms.as_slice(), found)?;
            last_arm_events(alloc, otherwise, found)
        }
    }
}

/// Adds the names of statements, one after the other.
#[cycle(statement_events)]
pub(crate) fn stmts_events(
    alloc: Global,
    stmts: &[Stmt],
    found: &mut Items<Event>,
) -> Result<(), OutOfMemory>
    ensures { OnOk result (found.new ≡ found.old ++ spec.stmts_events stmts.now) }
{
    let mut rest = stmts;
    while let Some((stmt, after)) = rest.split_first() {
        stmt_events(alloc, stmt, found)?;
        rest = after;
    }
    Ok(())
}

/// Adds the names of an arm, in its scope.
#[cycle(statement_events)]
fn arm_events(alloc: Global, arm: &Stmt, found: &mut Items<Event>) -> Result<(), OutOfMemory>
    ensures { OnOk result (found.new ≡ found.old ++ scope (spec.stmt_events arm.now)) }
{
    found.push(Event::Open)?;
    stmt_events(alloc, arm, found)?;
    Ok(found.push(Event::Close)?)
}

/// Adds the names of an arm without a condition.
#[cycle(statement_events)]
fn last_arm_events(
    alloc: Global,
    otherwise: &Option<Boxed<Stmt>>,
    found: &mut Items<Event>,
) -> Result<(), OutOfMemory>
    ensures { OnOk result (found.new ≡ found.old ++ spec.last_arm
        (option_map spec.stmt_events otherwise.now)) }
{
    match otherwise {
        Some(arm) => arm_events(alloc, arm.get(), found),
        None => Ok(()),
    }
}

#[cycle(statement_events)]
fn branch_events(
    alloc: Global,
    branch: &Branch,
    found: &mut Items<Event>,
) -> Result<(), OutOfMemory>
    ensures { OnOk result (found.new ≡ found.old ++ spec.branch_events branch.now) }
{
    condition_events(alloc, &branch.condition, found)?;
    found.push(Event::Open)?;
    bound_events(alloc, &branch.condition, found)?;
    stmt_events(alloc, &branch.arm, found)?;
    Ok(found.push(Event::Close)?)
}

#[cycle(statement_events)]
fn branches_events(
    alloc: Global,
    branches: &[Branch],
    found: &mut Items<Event>,
) -> Result<(), OutOfMemory>
    ensures { OnOk result (found.new ≡ found.old ++ spec.branches_events branches.now) }
{
    let mut rest = branches;
    while let Some((branch, after)) = rest.split_first() {
        branch_events(alloc, branch, found)?;
        rest = after;
    }
    Ok(())
}

#[cycle(statement_events)]
fn case_events(alloc: Global, case: &CaseArm, found: &mut Items<Event>) -> Result<(), OutOfMemory>
    ensures { OnOk result (found.new ≡ found.old ++ spec.case_events case.now) }
{
    exprs_events(alloc, case.labels.as_slice(), found)?;
    arm_events(alloc, &case.arm, found)
}

#[cycle(statement_events)]
fn cases_events(
    alloc: Global,
    cases: &[CaseArm],
    found: &mut Items<Event>,
) -> Result<(), OutOfMemory>
    ensures { OnOk result (found.new ≡ found.old ++ spec.cases_events cases.now) }
{
    let mut rest = cases;
    while let Some((case, after)) = rest.split_first() {
        case_events(alloc, case, found)?;
        rest = after;
    }
    Ok(())
}
