ghost use Rattle.std.specs.Prelude.{◌≡◌, [], Some, IfOk, option_map};
ghost use Rattle.bsv_types.specs.Kinds.{kind};
ghost use Rattle.bsv_types.specs.Shapes.{counted};
ghost use Rattle.bsv_typing.specs.Forms as forms;
ghost use Rattle.bsv_typing.specs.Forms.{field_from, field_named};
ghost use Rattle.bsv_typing.specs.Places as spec;
ghost use Rattle.bsv_typing.specs.Typing.{ordered_front};
ghost use Rattle.bsv_context.specs.Seen.{Gives, limits, made};
ghost use Rattle.bsv_typing.specs.Seen.{instance_of, front_of, field_of};
ghost use Rattle.bsv_context.specs.Seen.{variable, header, method_of, variable_named};
ghost use Rattle.bsv_context.specs.Seen.{function_named};

use bsv_bits::Name;
use bsv_context::{
    Context, Fail, FoundMethod, FunctionHeader, Params, Slot, TypedExpr, Variable, below, called,
    capped, is_interface, method_named, with_suffix,
};
use bsv_scopes::Scopes;
use bsv_types::{Boxed, Expr, Field, Items, Op, PartTy, Place, Ty};
use std::alloc::{AllocError, Global};

/// An instance: its place, and its interface.
#[derive(Drop)]
pub struct Instance {
    pub level: u32,
    /// Its place in its array, where it is in one.
    pub index: Option<Boxed<Expr>>,
    pub ty: Ty,
}

/// What comes before a suffix.
#[derive(Drop)]
pub(crate) enum Front {
    Whole(TypedExpr),
    Instance(Instance),
    Array(u32, Ty),
}

/// A place in a list that is kept in a `u32`. A list with a place that no `u32` holds has no room in memory.
pub fn place_number(place: usize) -> Result<u32, Fail>
    ensures { Gives (λ n. n) result (Some place) }
{
    match u32::try_from(place) {
        Ok(number) => Ok(number),
        Err(_) => Err(Fail::Memory),
    }
}

/// A call of the value method of this number, which gives a value of the type.
#[tactic(auto, using(bsv_context::proofs::TypesBack::types_back))]
pub(crate) fn method_call(
    alloc: Global,
    instance: Instance,
    number: usize,
    ty: Ty,
    operands: Items<Expr>,
) -> Result<TypedExpr, Fail>
    ensures { Gives made result (Some (spec.method_call (instance_of instance) number
        (kind ty) operands)) }
{
    let number = place_number(number)?;
    let own = ty.copy(alloc)?;
    let place = Place {
        level: instance.level,
        index: instance.index,
    };
    Ok(TypedExpr {
        ty,
        expr: Expr::Method(own, place, number, operands),
    })
}

/// Whether an instance of the type is read where its name stands.
fn is_read(ty: &Ty) -> bool
    ensures { result ≡ spec.is_read (kind ty.now) }
{
    matches!(
        ty,
        Ty::Part(PartTy::Reg, Some(_))
            | Ty::Part(PartTy::Wire, Some(_))
            | Ty::Part(PartTy::PulseWire, None)
    )
}

/// A call of a value method without arguments.
#[tactic(auto, unfolding(crate::specs::Places::call_of, crate::specs::Forms::arguments))]
fn plain_call(alloc: Global, instance: Instance, method: FoundMethod<'_>) -> Result<TypedExpr, Fail>
    ensures { Gives made result (spec.call_of (instance_of instance) (method_of method.entry) []) }
{
    let ty = method.effect.value_type(alloc)?;
    match method.params.split_first() {
        Some(_) => Err(Fail::Fault),
        None => method_call(alloc, instance, method.number, ty, Items::new(alloc)),
    }
}

/// The read of a register, a wire or a pulse wire.
#[tactic(auto, unfolding(crate::specs::Places::read))]
pub(crate) fn read(alloc: Global, context: &Context, instance: Instance) -> Result<TypedExpr, Fail>
    ensures { Gives made result (spec.read (limits context.now) (instance_of instance)) }
{
    if !is_read(&instance.ty) {
        return Err(Fail::Fault);
    }
    let ty = instance.ty.copy(alloc)?;
    match method_named(context, &ty, b"_read") {
        Some(method) => plain_call(alloc, instance, method),
        None => Err(Fail::Fault),
    }
}

/// The value of what comes before a suffix, or alone.
#[tactic(auto, unfolding(crate::specs::Places::value_at))]
pub(crate) fn value_at(alloc: Global, context: &Context, front: Front) -> Result<TypedExpr, Fail>
    ensures { Gives made result (spec.value_at (limits context.now) (front_of front)) }
{
    match front {
        Front::Whole(typed) => Ok(typed),
        Front::Instance(instance) => read(alloc, context, instance),
        Front::Array(_, _) => Err(Fail::Fault),
    }
}

/// What is in front, if the type that it has is in order.
pub(crate) fn in_order_front(context: &Context, front: Front) -> Result<Front, Fail>
    ensures { Gives front_of result (ordered_front (limits context.now) (Some (front_of front))) }
{
    match front {
        Front::Whole(typed) => Ok(Front::Whole(context.in_order(typed)?)),
        Front::Instance(instance) => Ok(Front::Instance(instance)),
        Front::Array(level, ty) => Ok(Front::Array(level, ty)),
    }
}

/// A variable where its name stands.
#[tactic(auto, using(bsv_context::proofs::TypesBack::types_back))]
fn variable_front(alloc: Global, found: &Variable) -> Result<Front, AllocError>
    ensures { IfOk result (λ f. front_of f ≡ spec.variable_front (variable found.now).0
        (variable found.now).1) }
{
    let level = found.level;
    match &found.slot {
        Slot::Many(ty) => Ok(Front::Array(level, ty.copy(alloc)?)),
        Slot::One(ty) => {
            let own = ty.copy(alloc)?;
            if is_interface(ty) {
                Ok(Front::Instance(Instance {
                    level,
                    index: None,
                    ty: own,
                }))
            } else {
                let expr = Expr::Variable(ty.copy(alloc)?, level);
                Ok(Front::Whole(TypedExpr { ty: own, expr }))
            }
        }
    }
}

/// A call of a function without arguments.
#[tactic(auto, unfolding(crate::specs::Forms::function_case, crate::specs::Forms::arguments))]
fn plain_function(alloc: Global, function: &FunctionHeader) -> Result<TypedExpr, Fail>
    ensures { Gives made result (forms.function_case (Some (header function.now)) [] None) }
{
    let params = Params::Types(function.params.as_slice());
    if params.split_first().is_some() {
        return Err(Fail::Fault);
    }
    let arguments = Items::new(alloc);
    Ok(called(alloc, &function.result, function.number, arguments)?)
}

/// What a name stands for: the variable, else a function without arguments.
#[tactic(auto, using(bsv_context::proofs::Layers::layers), unfolding(bsv_context::specs::Env::variable_in, crate::specs::Places::name_front, crate::specs::Forms::function_case))]
pub(crate) fn name_front(
    alloc: Global,
    context: &Context,
    variables: &Scopes<Variable>,
    name: &Name,
) -> Result<Front, Fail>
    ensures { Gives front_of result (spec.name_front (variable_named variables.now name.now)
        (function_named context.now name.now)) }
{
    if let Some(variable) = variables.find(name) {
        return Ok(variable_front(alloc, variable)?);
    }
    match context.function(name) {
        Some(function) => Ok(Front::Whole(plain_function(alloc, function)?)),
        None => Err(Fail::Fault),
    }
}

/// The field of the name, by its place.
fn field_from<'a>(fields: &'a [Field], name: &[u8]) -> Option<(usize, &'a Ty)>
    ensures { option_map field_of result ≡ field_from 0 name.now fields.now }
{
    for (number, field) in fields.iter().enumerate() {
        if name == field.name.bytes() {
            return Some((number, &field.ty));
        }
    }
    None
}

/// The field of the name of a struct, by its place.
#[tactic(auto, unfolding(crate::specs::Forms::field_named))]
pub(crate) fn field_named<'a>(context: &'a Context, ty: &Ty, name: &[u8]) -> Option<(usize, &'a Ty)>
    ensures { option_map field_of result ≡ field_named (limits context.now) (kind ty.now) name.now }
{
    match ty {
        Ty::Struct(number) => match context.structs.get(*number as usize) {
            Some(structure) => field_from(structure.fields.as_slice(), name),
            None => None,
        },
        _ => None,
    }
}

/// The field of the name of a typed expression.
#[tactic(auto, unfolding(crate::specs::Places::field_of))]
fn field_after(
    alloc: Global,
    context: &Context,
    name: &[u8],
    typed: TypedExpr,
) -> Result<Front, Fail>
    ensures { Gives front_of result (spec.field_of (limits context.now) name.now (made typed)) }
{
    let typed = Boxed::new(alloc, typed)?;
    let Some((place, ty)) = field_named(context, &typed.get().ty, name) else {
        return Err(Fail::Fault);
    };
    let op = Op::Field(place_number(place)?);
    let ty = ty.copy(alloc)?;
    let operand = typed.into_inner().expr;
    let typed = with_suffix(alloc, ty, op, Items::new(alloc), operand)?;
    Ok(Front::Whole(typed))
}

/// `.m` after an instance.
#[tactic(auto, unfolding(crate::specs::Places::member_after))]
fn member_of_instance(
    alloc: Global,
    context: &Context,
    name: &[u8],
    instance: Instance,
) -> Result<Front, Fail>
    ensures { Gives front_of result (spec.member_after (limits context.now) name.now
        (spec.instance (instance_of instance))) }
{
    let ty = instance.ty.copy(alloc)?;
    match method_named(context, &ty, name) {
        Some(method) => Ok(Front::Whole(plain_call(alloc, instance, method)?)),
        None => {
            let typed = read(alloc, context, instance)?;
            field_after(alloc, context, name, typed)
        }
    }
}

/// `.m`: a value method without arguments, else a field.
#[tactic(auto, unfolding(crate::specs::Places::member_after))]
pub(crate) fn member_after(
    alloc: Global,
    context: &Context,
    name: &[u8],
    front: Front,
) -> Result<Front, Fail>
    ensures { Gives front_of result (spec.member_after (limits context.now) name.now
        (front_of front)) }
{
    match front {
        Front::Instance(instance) => member_of_instance(alloc, context, name, instance),
        Front::Whole(typed) => field_after(alloc, context, name, typed),
        Front::Array(_, _) => Err(Fail::Fault),
    }
}

/// The type of the bits from low to high.
fn slice_type(high: u128, low: u128) -> Ty
    ensures { kind result ≡ spec.slice_type high low }
{
    if low <= high {
        Ty::Bit(capped((high - low).saturating_add(1), u32::MAX))
    } else {
        below(capped(low - high - 1, u32::MAX))
    }
}

/// Whether bits of the type may be named so.
fn slice_fits(context: &Context, high: u128, low: u128, ty: &Ty) -> bool
    ensures { result ≡ spec.slice_fits (limits context.now) high low (kind ty.now) }
{
    match ty {
        Ty::Bit(width) => !context.strict || (low <= high && high < u128::from(*width)),
        Ty::Down(_) => !context.strict,
        _ => false,
    }
}

/// The bits from low to high.
#[tactic(auto, unfolding(crate::specs::Places::bits_of))]
fn bits_of(
    alloc: Global,
    context: &Context,
    high: u128,
    low: u128,
    typed: TypedExpr,
) -> Result<Front, Fail>
    ensures { Gives front_of result (spec.bits_of (limits context.now) high low (made typed)) }
{
    if !slice_fits(context, high, low, &typed.ty) {
        return Err(Fail::Fault);
    }
    let op = Op::Slice(capped(high, u32::MAX), capped(low, u32::MAX));
    let ty = slice_type(high, low);
    let typed = with_suffix(alloc, ty, op, Items::new(alloc), typed.expr)?;
    Ok(Front::Whole(typed))
}

/// `[h:l]`, of unsized literals.
#[tactic(auto, unfolding(crate::specs::Places::slice_after))]
pub(crate) fn slice_after(
    alloc: Global,
    context: &Context,
    high: Option<u128>,
    low: Option<u128>,
    front: Front,
) -> Result<Front, Fail>
    ensures { Gives front_of result (spec.slice_after (limits context.now) high low
        (front_of front)) }
{
    let (Some(high), Some(low)) = (high, low) else {
        return Err(Fail::Fault);
    };
    let typed = value_at(alloc, context, front)?;
    bits_of(alloc, context, high, low, typed)
}
