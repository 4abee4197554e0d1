ghost use Rattle.std.specs.Prelude.{map, option_map};
ghost use Rattle.bsv_types.specs.Kinds.{bool, kind};
ghost use Rattle.bsv_statements.specs.Bodies.{at, of_kind};
ghost use Rattle.bsv_context.specs.Env.{variable_in};
ghost use Rattle.bsv_context.specs.Seen.{shown};
ghost use Rattle.bsv_statements.specs.SeenBodies.{GivesAt};
ghost use Rattle.bsv_modules.specs.Modules as spec;
ghost use Rattle.bsv_modules.specs.Seen.{arm_of, array_of, site_of, state_of};

use crate::elements::{method, rule};
use crate::makers::make;
use crate::site::{ModuleContext, State};
use bsv_ast::{
    Boxed, Declaration, Expr, Head, Ident, Make as WrittenMake, ModuleBranch as WrittenBranch,
    ModuleStmt as WrittenStmt, Span, WrittenType,
};
use bsv_bits::Name;
use bsv_context::{Slot, TypedExpr, Variable, is_interface, is_lower, written_type};
use bsv_scopes::Scopes;
use bsv_statements::{BodyFail, Task, assignable, at, checked, declare, declared_type, head};
use bsv_types::{Boxed as TypedBox, Expr as Typed, Items, ModuleBranch, ModuleStmt, Ty};
use std::alloc::Global;

/// The interface of an instance that is declared.
fn interface(
    alloc: Global,
    site: &ModuleContext<'_>,
    span: Span,
    written: &WrittenType,
) -> Result<Ty, BodyFail>
    ensures { GivesAt kind result (spec.interface_at (site_of site.now) span written.now) }
{
    let ty = at(span, written_type(alloc, site.context, written))?;
    if is_interface(&ty) {
        Ok(ty)
    } else {
        Err(BodyFail::At(span))
    }
}

/// The name of an instance or a variable of a module.
fn lower_name(alloc: Global, span: Span, name: &Ident) -> Result<Name, BodyFail>
    ensures { GivesAt (λ x. x) result (spec.lower_name span name.now.name) }
{
    if is_lower(name.name.bytes()) {
        Ok(Name::new(alloc, name.name.bytes())?)
    } else {
        Err(BodyFail::At(span))
    }
}

/// An instance.
#[tactic(auto, using(bsv_context::proofs::TypesBack::types_back))]
fn instance(
    alloc: Global,
    site: &ModuleContext<'_>,
    state: &mut State,
    span: Span,
    written: &WrittenType,
    name: &Ident,
    maker: &WrittenMake,
) -> Result<ModuleStmt, BodyFail>
    ensures { GivesAt (λ x. (state_of state.new, x)) result
        (spec.instance_case (site_of site.now) span written.now name.now.name maker.now
        (state_of state.old)) }
{
    let ty = interface(alloc, site, span, written)?;
    let made = make(alloc, site, &state.scopes, span, maker, &ty)?;
    let own = lower_name(alloc, span, name)?;
    declare(
        alloc,
        span,
        &mut state.scopes,
        &name.name,
        Slot::One(ty.copy(alloc)?),
    )?;
    Ok(ModuleStmt::Instance(ty, own, made))
}

/// How many instances an array has.
#[tactic(auto, unfolding(crate::specs::Modules::count_at))]
fn count(
    alloc: Global,
    site: &ModuleContext<'_>,
    scopes: &Scopes<Variable>,
    span: Span,
    written: &Expr,
) -> Result<Typed, BodyFail>
    ensures { GivesAt (λ x. x) result (spec.count_at (site_of site.now) span
        (shown scopes.now) written.now) }
{
    site.of_type(alloc, scopes, span, written, &Ty::Integer)
}

/// An array of instances, which has no instance yet.
#[tactic(auto, using(bsv_context::proofs::TypesBack::types_back))]
fn array(
    alloc: Global,
    site: &ModuleContext<'_>,
    state: &mut State,
    span: Span,
    written: &WrittenType,
    name: &Ident,
    length: &Expr,
) -> Result<ModuleStmt, BodyFail>
    ensures { GivesAt (λ x. (state_of state.new, x)) result
        (spec.array_case (site_of site.now) span written.now name.now.name length.now
        (state_of state.old)) }
{
    let ty = interface(alloc, site, span, written)?;
    let count = TypedBox::new(alloc, count(alloc, site, &state.scopes, span, length)?)?;
    let own = lower_name(alloc, span, name)?;
    declare(
        alloc,
        span,
        &mut state.scopes,
        &name.name,
        Slot::Many(ty.copy(alloc)?),
    )?;
    Ok(ModuleStmt::Array(ty, own, count.into_inner()))
}

/// An array of instances: its level, and the interface of its instances.
#[tactic(auto, using(bsv_context::proofs::Layers::layers), unfolding(bsv_context::specs::Env::variable_in))]
fn array_named(
    alloc: Global,
    scopes: &Scopes<Variable>,
    span: Span,
    name: &Name,
) -> Result<(u32, Ty), BodyFail>
    ensures { GivesAt array_of result (at span
        (spec.array_named (variable_in (shown scopes.now) name.now))) }
{
    let Some(variable) = scopes.find(name) else {
        return Err(BodyFail::At(span));
    };
    match &variable.slot {
        Slot::Many(ty) => Ok((variable.level, ty.copy(alloc)?)),
        Slot::One(_) => Err(BodyFail::At(span)),
    }
}

/// An instance at a place of an array.
fn place(
    alloc: Global,
    site: &ModuleContext<'_>,
    state: &mut State,
    span: Span,
    name: &Ident,
    index: &Expr,
    maker: &WrittenMake,
) -> Result<ModuleStmt, BodyFail>
    ensures { GivesAt (λ x. (state_of state.new, x)) result
        (spec.place_case (site_of site.now) span name.now.name index.now maker.now
        (state_of state.old)) }
{
    let scopes = &state.scopes;
    let typed = site.of_type(alloc, scopes, span, index, &Ty::Integer)?;
    let typed = TypedBox::new(alloc, typed)?;
    let (level, ty) = array_named(alloc, scopes, span, &name.name)?;
    let made = make(alloc, site, scopes, span, maker, &ty)?;
    Ok(ModuleStmt::Place(level, typed.into_inner(), made))
}

/// A variable of the module.
#[tactic(auto, using(bsv_context::proofs::TypesBack::types_back))]
fn variable(
    alloc: Global,
    site: &ModuleContext<'_>,
    state: &mut State,
    span: Span,
    declaration: &Declaration,
) -> Result<ModuleStmt, BodyFail>
    ensures { GivesAt (λ x. (state_of state.new, x)) result
        (spec.declare_case (site_of site.now) span declaration.now (state_of state.old)) }
{
    let task = Task {
        context: site.context,
        acts: false,
        result: None,
        base: 0,
    };
    let want = declared_type(alloc, &task, span, &declaration.declared)?;
    let value = &declaration.value;
    let typed = checked(alloc, &task, &state.scopes, span, value, want.as_ref())?;
    let typed = TypedBox::new(alloc, typed)?;
    let own = lower_name(alloc, span, &declaration.name)?;
    let slot = Slot::One(typed.get().ty.copy(alloc)?);
    declare(alloc, span, &mut state.scopes, &declaration.name.name, slot)?;
    let TypedExpr { ty, expr } = typed.into_inner();
    Ok(ModuleStmt::Declare(ty, own, expr))
}

/// A value for a variable of the module.
fn assign(
    alloc: Global,
    site: &ModuleContext<'_>,
    state: &mut State,
    span: Span,
    name: &Ident,
    value: &Expr,
) -> Result<ModuleStmt, BodyFail>
    ensures { GivesAt (λ x. (state_of state.new, x)) result
        (spec.assign_case (site_of site.now) span name.now.name value.now (state_of state.old)) }
{
    let task = Task {
        context: site.context,
        acts: false,
        result: None,
        base: 0,
    };
    let scopes = &state.scopes;
    let Some((level, ty)) = assignable(&task, scopes, &name.name) else {
        return Err(BodyFail::At(span));
    };
    let typed = site.of_type(alloc, scopes, span, value, ty)?;
    Ok(ModuleStmt::Assign(level, typed))
}

/// A statement in a block, an arm or a loop, where no method stands.
#[cycle(module_statements)]
pub fn nested(
    alloc: Global,
    site: &ModuleContext<'_>,
    state: &mut State,
    stmt: &WrittenStmt,
) -> Result<ModuleStmt, BodyFail>
    ensures { GivesAt (λ x. (state_of state.new, x)) result
        (spec.nested (site_of site.now) stmt.now (state_of state.old)) }
{
    match stmt {
        WrittenStmt::Instance(span, ty, name, maker) => {
            instance(alloc, site, state, *span, ty, name, maker)
        }
        WrittenStmt::Array(span, ty, name, length) => {
            array(alloc, site, state, *span, ty, name, length)
        }
        WrittenStmt::Place(span, name, index, maker) => {
            place(alloc, site, state, *span, name, index, maker)
        }
        WrittenStmt::Declare(span, declaration) => variable(alloc, site, state, *span, declaration),
        WrittenStmt::Assign(span, name, value) => assign(alloc, site, state, *span, name, value),
        WrittenStmt::Block(_, stmts) => block(alloc, site, state, stmts.as_slice()),
        WrittenStmt::If(span, arms, otherwise) => {
            choice(alloc, site, state, *span, arms.as_slice(), otherwise)
        }
        WrittenStmt::For(span, heading, body) => {
            repeat(alloc, site, state, *span, heading, body.get())
        }
        WrittenStmt::Rule(span, written) => rule(alloc, site, state, *span, written),
        WrittenStmt::Method(span, _) => Err(BodyFail::At(*span)),
    }
}

/// Statements, one after the other.
#[cycle(module_statements)]
#[tactic(auto, using(crate::proofs::Threaded::threads))]
fn all_nested(
    alloc: Global,
    site: &ModuleContext<'_>,
    state: &mut State,
    stmts: &[WrittenStmt],
) -> Result<Items<ModuleStmt>, BodyFail>
    ensures { GivesAt (λ xs. (state_of state.new, xs)) result
        (spec.all_in (map (spec.nested (site_of site.now)) stmts.now) (state_of state.old)) }
{
    let mut found = Items::new(alloc);
    let mut rest = stmts;
    while let Some((stmt, after)) = rest.split_first() {
        let typed = nested(alloc, site, state, stmt)?;
        found.push(typed)?;
        rest = after;
    }
    Ok(found)
}

/// A statement in a scope of its own.
#[cycle(module_statements)]
#[tactic(auto, using(bsv_context::proofs::Layers::closes))]
fn inside(
    alloc: Global,
    site: &ModuleContext<'_>,
    state: &mut State,
    stmt: &WrittenStmt,
) -> Result<ModuleStmt, BodyFail>
    ensures { GivesAt (λ x. (state_of state.new, x)) result
        (spec.inside (spec.nested (site_of site.now) stmt.now) (state_of state.old)) }
{
    state.scopes.open(alloc)?;
    let typed = nested(alloc, site, state, stmt)?;
    state.scopes.close();
    Ok(typed)
}

/// `begin .. end`.
#[cycle(module_statements)]
#[tactic(auto, using(bsv_context::proofs::Layers::closes))]
fn block(
    alloc: Global,
    site: &ModuleContext<'_>,
    state: &mut State,
    stmts: &[WrittenStmt],
) -> Result<ModuleStmt, BodyFail>
    ensures { GivesAt (λ x. (state_of state.new, x)) result
        (spec.block_case (map (spec.nested (site_of site.now)) stmts.now) (state_of state.old)) }
{
    state.scopes.open(alloc)?;
    let typed = all_nested(alloc, site, state, stmts)?;
    state.scopes.close();
    Ok(ModuleStmt::Block(typed))
}

/// The condition in front of an arm of an `if`.
fn condition(
    alloc: Global,
    site: &ModuleContext<'_>,
    scopes: &Scopes<Variable>,
    span: Span,
    arm: &WrittenBranch,
) -> Result<Typed, BodyFail>
    ensures { GivesAt (λ x. x) result (of_kind (spec.task (site_of site.now))
        (shown scopes.now) span (arm_of (site_of site.now) arm.now).condition bool) }
{
    site.of_type(alloc, scopes, span, &arm.condition, &Ty::Bool)
}

/// The conditions of an `if`.
#[tactic(auto, using(bsv_statements::proofs::Fronts::lists))]
fn conditions(
    alloc: Global,
    site: &ModuleContext<'_>,
    scopes: &Scopes<Variable>,
    span: Span,
    arms: &[WrittenBranch],
) -> Result<Vec<Typed>, BodyFail>
    ensures { GivesAt (λ xs. xs.items) result
        (spec.conditions (site_of site.now) (shown scopes.now) span
        (map (arm_of (site_of site.now)) arms.now)) }
{
    let mut found = Vec::new(alloc);
    let mut rest = arms;
    while let Some((arm, after)) = rest.split_first() {
        let typed = condition(alloc, site, scopes, span, arm)?;
        found.push(typed)?;
        rest = after;
    }
    Ok(found)
}

/// What an arm of an `if` carries out.
#[cycle(module_statements)]
fn after_condition(
    alloc: Global,
    site: &ModuleContext<'_>,
    state: &mut State,
    arm: &WrittenBranch,
) -> Result<ModuleStmt, BodyFail>
    ensures { GivesAt (λ x. (state_of state.new, x)) result
        (spec.inside (arm_of (site_of site.now) arm.now).run (state_of state.old)) }
{
    inside(alloc, site, state, &arm.arm)
}

/// The arms of an `if` after their conditions.
#[cycle(module_statements)]
#[tactic(auto, using(crate::proofs::Threaded::threads))]
fn arms(
    alloc: Global,
    site: &ModuleContext<'_>,
    state: &mut State,
    tests: Vec<Typed>,
    written: &[WrittenBranch],
) -> Result<Items<ModuleBranch>, BodyFail>
    ensures { GivesAt (λ xs. (state_of state.new, xs)) result
        (spec.arms tests.items (map (arm_of (site_of site.now)) written.now) (state_of state.old)) }
{
    let mut found = Items::new(alloc);
    let mut left = tests.into_iter();
    let mut rest = written;
    while let Some(condition) = left.next() {
        let condition = TypedBox::new(alloc, condition)?;
        let Some((branch, after)) = rest.split_first() else {
            return Ok(found);
        };
        let arm = after_condition(alloc, site, state, branch)?;
        found.push(ModuleBranch {
            condition: condition.into_inner(),
            arm,
        })?;
        rest = after;
    }
    Ok(found)
}

/// What is carried out where no condition holds.
#[cycle(module_statements)]
fn last_arm(
    alloc: Global,
    site: &ModuleContext<'_>,
    state: &mut State,
    otherwise: &Option<Boxed<WrittenStmt>>,
) -> Result<Option<TypedBox<ModuleStmt>>, BodyFail>
    ensures { GivesAt (λ x. (state_of state.new, x)) result
        (spec.last_arm (option_map (spec.nested (site_of site.now)) otherwise.now)
        (state_of state.old)) }
{
    match otherwise {
        None => Ok(None),
        Some(stmt) => {
            let typed = inside(alloc, site, state, stmt.get())?;
            Ok(Some(TypedBox::new(alloc, typed)?))
        }
    }
}

/// `if`.
#[cycle(module_statements)]
fn choice(
    alloc: Global,
    site: &ModuleContext<'_>,
    state: &mut State,
    span: Span,
    written: &[WrittenBranch],
    otherwise: &Option<Boxed<WrittenStmt>>,
) -> Result<ModuleStmt, BodyFail>
    ensures { GivesAt (λ x. (state_of state.new, x)) result
        (spec.if_case (site_of site.now) span (map (arm_of (site_of site.now)) written.now)
        (option_map (spec.nested (site_of site.now)) otherwise.now) (state_of state.old)) }
{
    let tests = conditions(alloc, site, &state.scopes, span, written)?;
    let branches = arms(alloc, site, state, tests, written)?;
    let last = last_arm(alloc, site, state, otherwise)?;
    Ok(ModuleStmt::If(branches, last))
}

/// `for`.
#[cycle(module_statements)]
#[tactic(auto, using(bsv_context::proofs::Layers::closes))]
fn repeat(
    alloc: Global,
    site: &ModuleContext<'_>,
    state: &mut State,
    span: Span,
    heading: &Head,
    body: &WrittenStmt,
) -> Result<ModuleStmt, BodyFail>
    ensures { GivesAt (λ x. (state_of state.new, x)) result
        (spec.for_case (site_of site.now) span heading.now (spec.nested (site_of site.now) body.now)
        (state_of state.old)) }
{
    let task = Task {
        context: site.context,
        acts: false,
        result: None,
        base: 0,
    };
    let typed_head = head(alloc, &task, &mut state.scopes, span, heading)?;
    let typed_head = TypedBox::new(alloc, typed_head)?;
    let typed = TypedBox::new(alloc, nested(alloc, site, state, body)?)?;
    state.scopes.close();
    Ok(ModuleStmt::For(typed_head.into_inner(), typed))
}

/// A statement that stands directly in the body of the module.
pub(crate) fn direct(
    alloc: Global,
    site: &ModuleContext<'_>,
    state: &mut State,
    stmt: &WrittenStmt,
) -> Result<ModuleStmt, BodyFail>
    ensures { GivesAt (λ x. (state_of state.new, x)) result
        (spec.direct (site_of site.now) stmt.now (state_of state.old)) }
{
    match stmt {
        WrittenStmt::Method(span, written) => method(alloc, site, state, *span, written),
        _ => nested(alloc, site, state, stmt),
    }
}

/// The statements of the body of a module.
#[tactic(auto, using(crate::proofs::Threaded::threads))]
pub(crate) fn all_direct(
    alloc: Global,
    site: &ModuleContext<'_>,
    state: &mut State,
    stmts: &[WrittenStmt],
) -> Result<Items<ModuleStmt>, BodyFail>
    ensures { GivesAt (λ xs. (state_of state.new, xs)) result
        (spec.all_in (map (spec.direct (site_of site.now)) stmts.now) (state_of state.old)) }
{
    let mut found = Items::new(alloc);
    let mut rest = stmts;
    while let Some((stmt, after)) = rest.split_first() {
        let typed = direct(alloc, site, state, stmt)?;
        found.push(typed)?;
        rest = after;
    }
    Ok(found)
}
