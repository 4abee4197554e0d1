ghost use Rattle.std.specs.Prelude.{◌≡◌, ◌++◌, OnOk, option_map};
ghost use Rattle.bsv_names.specs.Events.{scope};
ghost use Rattle.bsv_names.specs.StatementEvents.{last_arm};
ghost use Rattle.bsv_names.specs.ModuleEvents as spec;

use crate::event::{Event, define_variable, use_name, use_variable};
use crate::expression_events::{expr_events, exprs_events, type_events};
use crate::statement_events::{declaration_events, head_events, stmts_events};
use bsv_ast::{Body, Boxed, Expr, Items, Make, Method, ModuleBranch, ModuleStmt, Param, Rule};
use bsv_bits::OutOfMemory;
use bsv_scopes::Space;
use std::alloc::Global;

/// Adds the names of the types of parameters.
pub(crate) fn param_types(
    alloc: Global,
    params: &[Param],
    found: &mut Items<Event>,
) -> Result<(), OutOfMemory>
    ensures { OnOk result (found.new ≡ found.old ++ spec.param_types params.now) }
{
    let mut rest = params;
    while let Some((param, after)) = rest.split_first() {
        type_events(alloc, &param.written, found)?;
        rest = after;
    }
    Ok(())
}

/// Adds parameters as variables.
pub(crate) fn param_variables(
    alloc: Global,
    params: &[Param],
    found: &mut Items<Event>,
) -> Result<(), OutOfMemory>
    ensures { OnOk result (found.new ≡ found.old ++ spec.param_variables params.now) }
{
    let mut rest = params;
    while let Some((param, after)) = rest.split_first() {
        define_variable(alloc, &param.name, param.span, found)?;
        rest = after;
    }
    Ok(())
}

/// Adds the names of what makes an instance.
fn make_events(alloc: Global, make: &Make, found: &mut Items<Event>) -> Result<(), OutOfMemory>
    ensures { OnOk result (found.new ≡ found.old ++ spec.make_events make.now) }
{
    use_name(alloc, Space::Modules, &make.maker, found)?;
    exprs_events(alloc, make.arguments.as_slice(), found)
}

/// Adds the names of the body of a method or a function.
pub(crate) fn body_events(
    alloc: Global,
    body: &Body,
    found: &mut Items<Event>,
) -> Result<(), OutOfMemory>
    ensures { OnOk result (found.new ≡ found.old ++ spec.body_events body.now) }
{
    match body {
        Body::Statements(_, stmts) => stmts_events(alloc, stmts.as_slice(), found),
        Body::Value(_, value) => expr_events(alloc, value, found),
    }
}

/// Adds the names of the condition of a rule or a method.
fn guard_events(
    alloc: Global,
    condition: &Option<Expr>,
    found: &mut Items<Event>,
) -> Result<(), OutOfMemory>
    ensures { OnOk result (found.new ≡ found.old ++ spec.guard_events condition.now) }
{
    match condition {
        Some(test) => expr_events(alloc, test, found),
        None => Ok(()),
    }
}

/// Adds the names of a rule.
fn rule_events(alloc: Global, rule: &Rule, found: &mut Items<Event>) -> Result<(), OutOfMemory>
    ensures { OnOk result (found.new ≡ found.old ++ spec.rule_events rule.now) }
{
    guard_events(alloc, &rule.condition, found)?;
    found.push(Event::Open)?;
    stmts_events(alloc, rule.body.as_slice(), found)?;
    Ok(found.push(Event::Close)?)
}

/// Adds the names of a method.
fn method_events(
    alloc: Global,
    method: &Method,
    found: &mut Items<Event>,
) -> Result<(), OutOfMemory>
    ensures { OnOk result (found.new ≡ found.old ++ spec.method_events method.now) }
{
    type_events(alloc, &method.result, found)?;
    param_types(alloc, method.params.as_slice(), found)?;
    guard_events(alloc, &method.condition, found)?;
    found.push(Event::Open)?;
    param_variables(alloc, method.params.as_slice(), found)?;
    body_events(alloc, &method.body, found)?;
    Ok(found.push(Event::Close)?)
}

/// Adds the names of a statement of a module.
#[cycle(module_events)]
pub(crate) fn module_stmt_events(
    alloc: Global,
    stmt: &ModuleStmt,
    found: &mut Items<Event>,
) -> Result<(), OutOfMemory>
    ensures { OnOk result (found.new ≡ found.old ++ spec.module_stmt_events stmt.now) }
{
    match stmt {
        ModuleStmt::Instance(span, written, name, make) => {
            type_events(alloc, written, found)?;
            make_events(alloc, make, found)?;
            define_variable(alloc, name, *span, found)
        }
        ModuleStmt::Array(span, written, name, size) => {
            type_events(alloc, written, found)?;
            expr_events(alloc, size, found)?;
            define_variable(alloc, name, *span, found)
        }
        ModuleStmt::Place(_, name, at, make) => {
            use_variable(alloc, name, found)?;
            expr_events(alloc, at, found)?;
            make_events(alloc, make, found)
        }
        ModuleStmt::Declare(_, declaration) => declaration_events(alloc, declaration, found),
        ModuleStmt::Assign(_, name, value) => {
            use_variable(alloc, name, found)?;
            expr_events(alloc, value, found)
        }
        ModuleStmt::Block(_, stmts) => {
            found.push(Event::Open)?;
            module_stmts_events(alloc, stmts.as_slice(), found)?;
            Ok(found.push(Event::Close)?)
        }
        ModuleStmt::If(_, branches, otherwise) => {
            module_branches_events(alloc, branches.as_slice(), found)?;
            last_module_arm_events(alloc, otherwise, found)
        }
        ModuleStmt::For(_, head, arm) => {
            found.push(Event::Open)?;
            head_events(alloc, head, found)?;
            module_stmt_events(alloc, arm.get(), found)?;
            Ok(found.push(Event::Close)?)
        }
        ModuleStmt::Rule(_, rule) => rule_events(alloc, rule, found),
        ModuleStmt::Method(_, method) => method_events(alloc, method, found),
    }
}

/// Adds the names of statements of a module, one after the other.
#[cycle(module_events)]
pub(crate) fn module_stmts_events(
    alloc: Global,
    stmts: &[ModuleStmt],
    found: &mut Items<Event>,
) -> Result<(), OutOfMemory>
    ensures { OnOk result (found.new ≡ found.old ++ spec.module_stmts_events stmts.now) }
{
    let mut rest = stmts;
    while let Some((stmt, after)) = rest.split_first() {
        module_stmt_events(alloc, stmt, found)?;
        rest = after;
    }
    Ok(())
}

/// Adds the names of an arm, in its scope.
#[cycle(module_events)]
fn module_arm_events(
    alloc: Global,
    arm: &ModuleStmt,
    found: &mut Items<Event>,
) -> Result<(), OutOfMemory>
    ensures { OnOk result (found.new ≡ found.old ++ scope (spec.module_stmt_events arm.now)) }
{
    found.push(Event::Open)?;
    module_stmt_events(alloc, arm, found)?;
    Ok(found.push(Event::Close)?)
}

/// Adds the names of an arm without a condition.
#[cycle(module_events)]
fn last_module_arm_events(
    alloc: Global,
    otherwise: &Option<Boxed<ModuleStmt>>,
    found: &mut Items<Event>,
) -> Result<(), OutOfMemory>
    ensures { OnOk result (found.new ≡ found.old ++ last_arm
        (option_map spec.module_stmt_events otherwise.now)) }
{
    match otherwise {
        Some(arm) => module_arm_events(alloc, arm.get(), found),
        None => Ok(()),
    }
}

#[cycle(module_events)]
fn module_branch_events(
    alloc: Global,
    branch: &ModuleBranch,
    found: &mut Items<Event>,
) -> Result<(), OutOfMemory>
    ensures { OnOk result (found.new ≡ found.old ++ spec.module_branch_events branch.now) }
{
    expr_events(alloc, &branch.condition, found)?;
    module_arm_events(alloc, &branch.arm, found)
}

#[cycle(module_events)]
fn module_branches_events(
    alloc: Global,
    branches: &[ModuleBranch],
    found: &mut Items<Event>,
) -> Result<(), OutOfMemory>
    ensures { OnOk result (found.new ≡ found.old ++ spec.module_branches_events branches.now) }
{
    let mut rest = branches;
    while let Some((branch, after)) = rest.split_first() {
        module_branch_events(alloc, branch, found)?;
        rest = after;
    }
    Ok(())
}
