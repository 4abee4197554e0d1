ghost use Rattle.std.specs.Prelude.{◌≡◌, IfOk, map, option_map};
ghost use Rattle.bsv_types.specs.Kinds.{kind, type_of};
ghost use Rattle.bsv_types.specs.declared.statements.Stmt.{Bind};
ghost use Rattle.bsv_types.specs.Methods.{effect};
ghost use Rattle.bsv_statements.specs.Bodies as spec;
ghost use Rattle.bsv_context.specs.Seen.{expected, shown};
ghost use Rattle.bsv_typing.specs.Seen.{instance_of};
ghost use Rattle.bsv_statements.specs.SeenBodies.{GivesAt, bound_of, called_of, opening_of, task_of};
ghost use Rattle.bsv_typing.specs.Places.{place_of};

use crate::bodies::{
    MethodCall, Task, assignable, call_at, called, checked, declare, declared_type, instance_at,
    of_type,
};
use crate::fail::BodyFail;
use bsv_ast::{
    Branch, Call, CaseArm, Condition, Declaration, DeclaredType, Expr, Head, Place, Span,
};
use bsv_bits::Name;
use bsv_context::{Slot, TypedExpr, Variable, is_lower};
use bsv_scopes::Scopes;
use bsv_types::{
    Boxed, Condition as TypedCondition, Expr as ExprTree, Head as TypedHead, Items, MethodResult,
    PartTy, Place as TypedPlace, Stmt as Typed, Ty,
};
use bsv_typing::{Instance, payload};
use std::alloc::{AllocError, Global};
use std::slice;

/// The condition in front of an arm, and the variable that it binds there.
#[derive(Drop)]
pub struct Opening {
    pub condition: TypedCondition,
    pub bound: Option<(Name, Ty)>,
}

/// Whether `<=` writes to an instance of the type.
fn is_written(ty: &Ty) -> bool
    ensures { result ≡ spec.is_written (kind ty.now) }
{
    matches!(
        ty,
        Ty::Part(PartTy::Reg, Some(_)) | Ty::Part(PartTy::Wire, Some(_))
    )
}

/// Whether a method may be called as a statement.
fn is_action(found: &MethodResult) -> bool
    ensures { result ≡ spec.is_action (effect found.now) }
{
    matches!(found, MethodResult::Action | MethodResult::ActionValue(_))
}

/// What `<-` binds of a method.
fn given_by(found: &MethodResult) -> Option<&Ty>
    ensures { expected result ≡ spec.given_by (effect found.now) }
{
    match found {
        MethodResult::ActionValue(ty) => Some(ty),
        _ => None,
    }
}

/// Whether a type is the declared one, where there is one.
fn is_wanted(want: &Option<Ty>, ty: &Ty) -> bool
    ensures { result ≡ spec.is_wanted (option_map kind want.now) (kind ty.now) }
{
    match want {
        Some(wanted) => wanted.same(ty),
        None => true,
    }
}

/// The place of an instance.
fn place_of(instance: Instance) -> TypedPlace
    ensures { result ≡ place_of (instance_of instance) }
{
    TypedPlace {
        level: instance.level,
        index: instance.index,
    }
}

/// The statement that is a call of a method.
fn acted(call: MethodCall) -> Typed
    ensures { result ≡ spec.acted (called_of call) }
{
    Typed::Act(place_of(call.instance), call.method, call.arguments)
}

/// `place <= value;`
pub(crate) fn write(
    alloc: Global,
    task: &Task<'_>,
    scopes: &Scopes<Variable>,
    span: Span,
    place: &Place,
    value: &Expr,
) -> Result<Typed, BodyFail>
    ensures { GivesAt (λ x. (shown scopes.now, x)) result
        (spec.write_case (task_of task.now) span place.now value.now (shown scopes.now)) }
{
    let instance = instance_at(alloc, task, scopes, span, place)?;
    if !(task.acts && is_written(&instance.ty)) {
        return Err(BodyFail::At(span));
    }
    let given = slice::from_ref(value);
    let call = called(alloc, task, scopes, span, instance, b"_write", given)?;
    Ok(acted(call))
}

/// `call;`
pub(crate) fn act(
    alloc: Global,
    task: &Task<'_>,
    scopes: &Scopes<Variable>,
    span: Span,
    call: &Call,
) -> Result<Typed, BodyFail>
    ensures { GivesAt (λ x. (shown scopes.now, x)) result
        (spec.act_case (task_of task.now) span call.now (shown scopes.now)) }
{
    let found = call_at(alloc, task, scopes, span, call)?;
    if task.acts && is_action(&found.effect) {
        Ok(acted(found))
    } else {
        Err(BodyFail::At(span))
    }
}

/// The statement that binds what a call gives.
#[tactic(auto, using(bsv_context::proofs::TypesBack::types_back))]
fn bound(alloc: Global, ty: &Ty, call: MethodCall) -> Result<Typed, AllocError>
    ensures { IfOk result (λ x. x ≡ Bind (type_of (kind ty.now))
        (place_of (instance_of call.instance)) call.method call.arguments) }
{
    let own = ty.copy(alloc)?;
    let place = place_of(call.instance);
    Ok(Typed::Bind(own, place, call.method, call.arguments))
}

/// `type name <- call;`
pub(crate) fn bind(
    alloc: Global,
    task: &Task<'_>,
    scopes: &mut Scopes<Variable>,
    span: Span,
    declared: &DeclaredType,
    name: &Name,
    call: &Call,
) -> Result<Typed, BodyFail>
    ensures { GivesAt (λ x. (shown scopes.new, x)) result
        (spec.bind_case (task_of task.now) span declared.now name.now call.now (shown scopes.old)) }
{
    let want = declared_type(alloc, task, span, declared)?;
    let found = Boxed::new(alloc, call_at(alloc, task, scopes, span, call)?)?;
    let Some(given) = given_by(&found.get().effect) else {
        return Err(BodyFail::At(span));
    };
    let ty = given.copy(alloc)?;
    if !(task.acts && is_wanted(&want, &ty)) {
        return Err(BodyFail::At(span));
    }
    let stmt = Boxed::new(alloc, bound(alloc, &ty, found.into_inner())?)?;
    declare(alloc, span, scopes, name, Slot::One(ty))?;
    Ok(stmt.into_inner())
}

/// `type name = value;`
#[tactic(auto, using(bsv_context::proofs::TypesBack::types_back))]
pub(crate) fn declaration(
    alloc: Global,
    task: &Task<'_>,
    scopes: &mut Scopes<Variable>,
    span: Span,
    given: &Declaration,
) -> Result<Typed, BodyFail>
    ensures { GivesAt (λ x. (shown scopes.new, x)) result
        (spec.declare_case (task_of task.now) span given.now (shown scopes.old)) }
{
    let want = declared_type(alloc, task, span, &given.declared)?;
    let TypedExpr { ty, expr } = checked(alloc, task, scopes, span, &given.value, want.as_ref())?;
    let value = Boxed::new(alloc, expr)?;
    let own = ty.copy(alloc)?;
    declare(alloc, span, scopes, &given.name.name, Slot::One(ty))?;
    Ok(Typed::Declare(own, value.into_inner()))
}

/// `name = value;`
pub(crate) fn assign(
    alloc: Global,
    task: &Task<'_>,
    scopes: &Scopes<Variable>,
    span: Span,
    name: &Name,
    value: &Expr,
) -> Result<Typed, BodyFail>
    ensures { GivesAt (λ x. (shown scopes.now, x)) result
        (spec.assign_case (task_of task.now) span name.now value.now (shown scopes.now)) }
{
    let Some((level, ty)) = assignable(task, scopes, name) else {
        return Err(BodyFail::At(span));
    };
    Ok(Typed::Assign(level, of_type(alloc, task, scopes, span, value, ty)?))
}

/// `return value;`
pub(crate) fn give_back(
    alloc: Global,
    task: &Task<'_>,
    scopes: &Scopes<Variable>,
    span: Span,
    value: &Expr,
) -> Result<Typed, BodyFail>
    ensures { GivesAt (λ x. (shown scopes.now, x)) result
        (spec.return_case (task_of task.now) span value.now (shown scopes.now)) }
{
    match task.result {
        Some(ty) => Ok(Typed::Return(of_type(alloc, task, scopes, span, value, ty)?)),
        None => Err(BodyFail::At(span)),
    }
}

/// What a condition asks, and what it binds.
pub fn asked(
    alloc: Global,
    task: &Task<'_>,
    scopes: &Scopes<Variable>,
    span: Span,
    condition: &Condition,
) -> Result<Opening, BodyFail>
    ensures { GivesAt opening_of result (spec.opening (task_of task.now)
        (shown scopes.now) span condition.now) }
{
    match condition {
        Condition::Test(_, test) => {
            let typed = of_type(alloc, task, scopes, span, test, &Ty::Bool)?;
            Ok(Opening {
                condition: TypedCondition::Test(typed),
                bound: None,
            })
        }
        Condition::Matches(_, value, name) => {
            let typed = Boxed::new(alloc, checked(alloc, task, scopes, span, value, None)?)?;
            let Some(held) = payload(&typed.get().ty) else {
                return Err(BodyFail::At(span));
            };
            let own = Name::new(alloc, name.name.bytes())?;
            let bound = Some((own, held.copy(alloc)?));
            Ok(Opening {
                condition: TypedCondition::Matches(typed.into_inner().expr),
                bound,
            })
        }
    }
}

/// The condition in front of an arm of an `if`.
fn asked_of(
    alloc: Global,
    task: &Task<'_>,
    scopes: &Scopes<Variable>,
    span: Span,
    branch: &Branch,
) -> Result<Opening, BodyFail>
    ensures { GivesAt opening_of result (spec.opening (task_of task.now) (shown scopes.now) span
        (spec.arm_of (task_of task.now) branch.now).condition) }
{
    asked(alloc, task, scopes, span, &branch.condition)
}

/// The conditions of the arms of an `if`.
#[tactic(auto, using(crate::proofs::Fronts::lists))]
pub(crate) fn openings(
    alloc: Global,
    task: &Task<'_>,
    scopes: &Scopes<Variable>,
    span: Span,
    branches: &[Branch],
) -> Result<Vec<Opening>, BodyFail>
    ensures { GivesAt (λ os. map opening_of os.items) result
        (spec.openings (task_of task.now) (shown scopes.now) span
        (map (spec.arm_of (task_of task.now)) branches.now)) }
{
    let mut found = Vec::new(alloc);
    let mut rest = branches;
    while let Some((branch, after)) = rest.split_first() {
        let typed = asked_of(alloc, task, scopes, span, branch)?;
        found.push(typed)?;
        rest = after;
    }
    Ok(found)
}

/// Opens the scope of an arm, with the variable that its condition binds.
pub fn open_arm(
    alloc: Global,
    span: Span,
    scopes: &mut Scopes<Variable>,
    bound: Option<(Name, Ty)>,
) -> Result<(), BodyFail>
    ensures { GivesAt (λ done. shown scopes.new) result
        (spec.at span (spec.in_arm (option_map bound_of bound) (shown scopes.old))) }
{
    scopes.open(alloc)?;
    match bound {
        Some((name, ty)) => declare(alloc, span, scopes, &name, Slot::One(ty)),
        None => Ok(()),
    }
}

/// The step of a loop: the level of the variable that it assigns, and the value.
fn step(
    alloc: Global,
    task: &Task<'_>,
    scopes: &Scopes<Variable>,
    span: Span,
    given: &Head,
) -> Result<(u32, ExprTree), BodyFail>
    ensures { GivesAt (λ r. r) result (spec.step_of (task_of task.now)
        (shown scopes.now) span given.now) }
{
    let Some((level, ty)) = assignable(task, scopes, &given.stepped.name) else {
        return Err(BodyFail::At(span));
    };
    let value = of_type(alloc, task, scopes, span, &given.step, ty)?;
    Ok((level, value))
}

/// The condition and the step of a loop, in the scope of its variable.
fn turn(
    alloc: Global,
    task: &Task<'_>,
    scopes: &Scopes<Variable>,
    span: Span,
    given: &Head,
) -> Result<(ExprTree, u32, ExprTree), BodyFail>
    ensures { GivesAt (λ r. r) result (spec.turn_of (task_of task.now)
        (shown scopes.now) span given.now) }
{
    let condition = of_type(alloc, task, scopes, span, &given.condition, &Ty::Bool)?;
    let (stepped, value) = step(alloc, task, scopes, span, given)?;
    Ok((condition, stepped, value))
}

/// The first value of a loop's variable. The scope of the variable stays open.
fn start(
    alloc: Global,
    task: &Task<'_>,
    scopes: &mut Scopes<Variable>,
    span: Span,
    given: &Head,
) -> Result<ExprTree, BodyFail>
    ensures { GivesAt (λ x. (shown scopes.new, x)) result
        (spec.start_of (task_of task.now) span given.now (shown scopes.old)) }
{
    let name = &given.variable.name;
    if !is_lower(name.bytes()) {
        return Err(BodyFail::At(span));
    }
    let first = of_type(alloc, task, scopes, span, &given.first, &Ty::Integer)?;
    let first = Boxed::new(alloc, first)?;
    scopes.open(alloc)?;
    declare(alloc, span, scopes, name, Slot::One(Ty::Integer))?;
    Ok(first.into_inner())
}

/// The head of a loop. The scope of its variable stays open.
pub fn head(
    alloc: Global,
    task: &Task<'_>,
    scopes: &mut Scopes<Variable>,
    span: Span,
    given: &Head,
) -> Result<TypedHead, BodyFail>
    ensures { GivesAt (λ h. (shown scopes.new, h)) result
        (spec.in_head (task_of task.now) span given.now (shown scopes.old)) }
{
    let variable = Name::new(alloc, given.variable.name.bytes())?;
    let first = start(alloc, task, scopes, span, given)?;
    let (condition, stepped, step) = turn(alloc, task, scopes, span, given)?;
    Ok(TypedHead {
        variable,
        first,
        condition,
        stepped,
        step,
    })
}

/// Labels of an arm of a `case`, of the type of its subject.
#[tactic(auto, using(crate::proofs::Fronts::lists))]
fn all_labels(
    alloc: Global,
    task: &Task<'_>,
    scopes: &Scopes<Variable>,
    span: Span,
    ty: &Ty,
    labels: &[Expr],
) -> Result<Items<ExprTree>, BodyFail>
    ensures { GivesAt (λ xs. xs) result (spec.all_labels (task_of task.now) (shown scopes.now) span
        (kind ty.now) labels.now) }
{
    let mut found = Items::new(alloc);
    let mut rest = labels;
    while let Some((label, after)) = rest.split_first() {
        let typed = of_type(alloc, task, scopes, span, label, ty)?;
        found.push(typed)?;
        rest = after;
    }
    Ok(found)
}

/// The labels of one arm of a `case`.
fn labels_of_arm(
    alloc: Global,
    task: &Task<'_>,
    scopes: &Scopes<Variable>,
    span: Span,
    ty: &Ty,
    case: &CaseArm,
) -> Result<Items<ExprTree>, BodyFail>
    ensures { GivesAt (λ xs. xs) result (spec.all_labels (task_of task.now) (shown scopes.now) span
        (kind ty.now) (spec.labelled_of (task_of task.now) case.now).labels) }
{
    all_labels(alloc, task, scopes, span, ty, case.labels.as_slice())
}

/// The labels of the arms of a `case`.
#[tactic(auto, using(crate::proofs::Fronts::lists))]
pub(crate) fn labels_of(
    alloc: Global,
    task: &Task<'_>,
    scopes: &Scopes<Variable>,
    span: Span,
    ty: &Ty,
    arms: &[CaseArm],
) -> Result<Vec<Items<ExprTree>>, BodyFail>
    ensures { GivesAt (λ xs. xs.items) result
        (spec.labels_of (task_of task.now) (shown scopes.now) span (kind ty.now)
        (map (spec.labelled_of (task_of task.now)) arms.now)) }
{
    let mut found = Vec::new(alloc);
    let mut rest = arms;
    while let Some((case, after)) = rest.split_first() {
        let typed = labels_of_arm(alloc, task, scopes, span, ty, case)?;
        found.push(typed)?;
        rest = after;
    }
    Ok(found)
}
