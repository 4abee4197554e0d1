ghost use Rattle.std.specs.Prelude.{◌≡◌, option_map};
ghost use Rattle.bsv_types.specs.Kinds.{kind};
ghost use Rattle.bsv_statements.specs.Bodies as spec;
ghost use Rattle.bsv_context.specs.Env.{variable_in};
ghost use Rattle.bsv_context.specs.Seen.{made, slot_of, shown, expected};
ghost use Rattle.bsv_typing.specs.Seen.{instance_of};
ghost use Rattle.bsv_statements.specs.SeenBodies.{GivesAt, placed, task_of, called_of, assigned};

use crate::fail::BodyFail;
use bsv_ast::{Call, DeclaredType, Expr, Place, Span};
use bsv_bits::Name;
use bsv_context::{Context, Fail, Slot, TypedExpr, Variable, method_named, written_type};
use bsv_scopes::Scopes;
use bsv_types::{Boxed, Expr as Typed, Items, MethodResult, Ty};
use bsv_typing::{Instance, arguments, place_number, typing};
use std::alloc::Global;

/// What the statements of a body may name and do.
#[derive(Clone, Copy)]
pub struct Task<'a> {
    /// What they may name beside variables.
    pub context: &'a Context,
    /// Whether action calls and binds may be in it.
    pub acts: bool,
    /// What its `return` gives, where it has one.
    pub result: Option<&'a Ty>,
    /// The level of its first variable.
    pub base: u32,
}

/// A method of an instance with its arguments.
#[derive(Drop)]
pub struct MethodCall {
    pub instance: Instance,
    /// The place of the method in the interface.
    pub method: u32,
    /// What the method does and gives.
    pub effect: MethodResult,
    pub arguments: Items<Typed>,
}

/// What was found, or a fault at this place.
pub fn at<T: Drop>(span: Span, found: Result<T, Fail>) -> Result<T, BodyFail>
    ensures { result ≡ placed span found }
{
    match found {
        Ok(value) => Ok(value),
        Err(Fail::Memory) => Err(BodyFail::Memory),
        Err(Fail::Fault) => Err(BodyFail::At(span)),
    }
}

/// One variable more in the innermost scope, on the next level.
#[tactic(auto, using(crate::proofs::Declaring::declares))]
pub fn declare(
    alloc: Global,
    span: Span,
    scopes: &mut Scopes<Variable>,
    name: &Name,
    slot: Slot,
) -> Result<(), BodyFail>
    ensures { GivesAt (λ done. shown scopes.new) result
        (spec.at span (spec.with_variable name.now (slot_of slot) (shown scopes.old))) }
{
    let Some(level) = scopes.count() else {
        return Err(BodyFail::Memory);
    };
    let own = Name::new(alloc, name.bytes())?;
    if scopes.define(own, Variable { level, slot })? {
        Ok(())
    } else {
        Err(BodyFail::At(span))
    }
}

/// The typed expression, of the expected type or of its own.
pub fn checked(
    alloc: Global,
    task: &Task<'_>,
    scopes: &Scopes<Variable>,
    span: Span,
    expr: &Expr,
    want: Option<&Ty>,
) -> Result<TypedExpr, BodyFail>
    ensures { GivesAt made result (spec.at span
        (spec.check (task_of task.now) (shown scopes.now) expr.now (expected want.entry))) }
{
    at(span, typing(alloc, task.context, scopes, expr, want))
}

/// An expression of this type.
pub fn of_type(
    alloc: Global,
    task: &Task<'_>,
    scopes: &Scopes<Variable>,
    span: Span,
    expr: &Expr,
    ty: &Ty,
) -> Result<Typed, BodyFail>
    ensures { GivesAt (λ x. x) result (spec.of_kind (task_of task.now)
        (shown scopes.now) span expr.now (kind ty.now)) }
{
    let typed = checked(alloc, task, scopes, span, expr, Some(ty))?;
    Ok(typed.expr)
}

/// The type of a variable that is declared, or none where it takes that of its value.
pub fn declared_type(
    alloc: Global,
    task: &Task<'_>,
    span: Span,
    declared: &DeclaredType,
) -> Result<Option<Ty>, BodyFail>
    ensures { GivesAt (λ ty. option_map kind ty) result
        (spec.declared_kind (task_of task.now) span declared.now) }
{
    match declared {
        DeclaredType::Let(_) => Ok(None),
        DeclaredType::Written(_, written) => {
            let ty = at(span, written_type(alloc, task.context, written))?;
            if task.context.is_typed_value(&ty) {
                Ok(Some(ty))
            } else {
                Err(BodyFail::At(span))
            }
        }
    }
}

/// A variable of this body that takes values: its level, and its type.
#[tactic(auto, using(bsv_context::proofs::Layers::layers), unfolding(bsv_context::specs::Env::variable_in))]
pub fn assignable<'a>(
    task: &Task<'_>,
    scopes: &'a Scopes<Variable>,
    name: &Name,
) -> Option<(u32, &'a Ty)>
    ensures { option_map assigned result ≡ spec.assignable (task_of task.now)
        (shown scopes.now) name.now }
{
    let variable = scopes.find(name)?;
    match &variable.slot {
        Slot::One(ty) if task.base <= variable.level && task.context.is_typed_value(ty) => {
            Some((variable.level, ty))
        }
        _ => None,
    }
}

/// The instance of this name.
#[tactic(auto, using(bsv_context::proofs::Layers::layers), unfolding(bsv_context::specs::Env::variable_in))]
fn one_instance(
    alloc: Global,
    scopes: &Scopes<Variable>,
    span: Span,
    name: &Name,
) -> Result<Instance, BodyFail>
    ensures { GivesAt instance_of result (spec.at span
        (spec.one_instance (variable_in (shown scopes.now) name.now))) }
{
    let Some(variable) = scopes.find(name) else {
        return Err(BodyFail::At(span));
    };
    match &variable.slot {
        Slot::One(ty) => Ok(Instance {
            level: variable.level,
            index: None,
            ty: ty.copy(alloc)?,
        }),
        Slot::Many(_) => Err(BodyFail::At(span)),
    }
}

/// The instance at the place of the array of this name.
#[tactic(auto, using(bsv_context::proofs::Layers::layers), unfolding(bsv_context::specs::Env::variable_in))]
pub fn one_of_many(
    alloc: Global,
    scopes: &Scopes<Variable>,
    span: Span,
    name: &Name,
    index: Typed,
) -> Result<Instance, BodyFail>
    ensures { GivesAt instance_of result (spec.at span
        (spec.one_of_many (variable_in (shown scopes.now) name.now) index)) }
{
    let Some(variable) = scopes.find(name) else {
        return Err(BodyFail::At(span));
    };
    match &variable.slot {
        Slot::Many(ty) => Ok(Instance {
            level: variable.level,
            index: Some(Boxed::new(alloc, index)?),
            ty: ty.copy(alloc)?,
        }),
        Slot::One(_) => Err(BodyFail::At(span)),
    }
}

/// The instance at a place.
pub fn instance_at(
    alloc: Global,
    task: &Task<'_>,
    scopes: &Scopes<Variable>,
    span: Span,
    place: &Place,
) -> Result<Instance, BodyFail>
    ensures { GivesAt instance_of result (spec.instance_at (task_of task.now)
        (shown scopes.now) span place.now) }
{
    match place {
        Place::Name(_, name) => one_instance(alloc, scopes, span, &name.name),
        Place::Index(_, name, index) => {
            let index = of_type(alloc, task, scopes, span, index, &Ty::Integer)?;
            one_of_many(alloc, scopes, span, &name.name, index)
        }
    }
}

/// The method of the name of an instance, with arguments of the types of its parameters.
pub fn called(
    alloc: Global,
    task: &Task<'_>,
    scopes: &Scopes<Variable>,
    span: Span,
    instance: Instance,
    name: &[u8],
    given: &[Expr],
) -> Result<MethodCall, BodyFail>
    ensures { GivesAt called_of result (spec.called (task_of task.now) (shown scopes.now) span
        (instance_of instance) name.now given.now) }
{
    let instance = Boxed::new(alloc, instance)?;
    let interface = instance.get().ty.copy(alloc)?;
    let Some(found) = method_named(task.context, &interface, name) else {
        return Err(BodyFail::At(span));
    };
    let method = at(span, place_number(found.number))?;
    let effect = found.effect.result(alloc)?;
    let operands = arguments(alloc, task.context, scopes, given, found.params);
    let arguments = at(span, operands)?;
    Ok(MethodCall {
        instance: instance.into_inner(),
        method,
        effect,
        arguments,
    })
}

/// A call of a method of the instance at a place.
pub fn call_at(
    alloc: Global,
    task: &Task<'_>,
    scopes: &Scopes<Variable>,
    span: Span,
    call: &Call,
) -> Result<MethodCall, BodyFail>
    ensures { GivesAt called_of result (spec.call_at (task_of task.now)
        (shown scopes.now) span call.now) }
{
    let instance = instance_at(alloc, task, scopes, span, &call.place)?;
    let name = call.method.name.bytes();
    called(
        alloc,
        task,
        scopes,
        span,
        instance,
        name,
        call.arguments.as_slice(),
    )
}
