ghost use Rattle.std.specs.Prelude.{◌≡◌, IfOk};
ghost use Rattle.bsv_types.specs.Kinds.{kind};
ghost use Rattle.bsv_types.specs.Methods.{effect};
ghost use Rattle.bsv_context.specs.Env.{has_bits};
ghost use Rattle.bsv_context.specs.Seen.{Gives, limits, type_names};
ghost use Rattle.bsv_context.specs.Written as spec;
ghost use Rattle.bsv_context.specs.Written.{argument, written};

use crate::classes::capped;
use crate::context::Context;
use crate::fail::Fail;
use bsv_ast::{TypeArgument, WrittenType};
use bsv_bits::Name;
use bsv_types::{Boxed, MethodResult, PartTy, Ty};
use std::alloc::{AllocError, Global};

/// The type, if it has bits.
fn with_bits(context: &Context, ty: Ty) -> Result<Ty, Fail>
    ensures { Gives kind result (spec.with_bits (limits context.now) (kind ty)) }
{
    if context.has_bits(&ty) {
        Ok(ty)
    } else {
        Err(Fail::Fault)
    }
}

/// The type of the name, which stands without an argument.
fn plain_type(alloc: Global, context: &Context, name: &Name) -> Result<Ty, Fail>
    ensures { Gives kind result (spec.plain_type (type_names context.now) name.now) }
{
    let text = name.bytes();
    if text == b"Bool".as_slice() {
        Ok(Ty::Bool)
    } else if text == b"Integer".as_slice() {
        Ok(Ty::Integer)
    } else if text == b"Empty".as_slice() {
        Ok(Ty::Interface(0))
    } else if text == b"PulseWire".as_slice() {
        Ok(Ty::Part(PartTy::PulseWire, None))
    } else {
        match context.types.find(name) {
            Some(ty) => Ok(ty.copy(alloc)?),
            None => Err(Fail::Fault),
        }
    }
}

/// The type of the name and the width.
fn sized_type(context: &Context, name: &Name, width: u32) -> Result<Ty, Fail>
    ensures { Gives kind result (spec.sized_type (limits context.now) name.now width) }
{
    let text = name.bytes();
    if text == b"Bit".as_slice() {
        with_bits(context, Ty::Bit(width))
    } else if text == b"UInt".as_slice() {
        with_bits(context, Ty::UInt(width))
    } else if text == b"Int".as_slice() {
        with_bits(context, Ty::Int(width))
    } else {
        Err(Fail::Fault)
    }
}

/// The widest type that a method of the interface takes or gives.
fn widest(alloc: Global, part: PartTy, ty: &Ty) -> Result<Ty, AllocError>
    ensures { IfOk result (λ t. kind t ≡ spec.widest part (kind ty.now)) }
{
    let own = ty.copy(alloc)?;
    match part {
        PartTy::RWire => Ok(Ty::Maybe(Boxed::new(alloc, own)?)),
        _ => Ok(own),
    }
}

/// Whether all that the methods of the interface take and give has bits.
fn has_bits_over(
    alloc: Global,
    context: &Context,
    part: PartTy,
    ty: &Ty,
) -> Result<bool, AllocError>
    ensures { IfOk result (λ b. b ≡ has_bits (limits context.now)
        (spec.widest part (kind ty.now))) }
{
    let widest = widest(alloc, part, ty)?;
    Ok(context.has_bits(&widest))
}

/// The interface over the type.
#[tactic(auto, using(crate::proofs::TypesBack::parts_seen))]
fn part_over(alloc: Global, context: &Context, part: PartTy, ty: Ty) -> Result<Ty, Fail>
    ensures { Gives kind result (spec.part_over (limits context.now) part (kind ty)) }
{
    if has_bits_over(alloc, context, part, &ty)? {
        Ok(Ty::Part(part, Some(Boxed::new(alloc, ty)?)))
    } else {
        Err(Fail::Fault)
    }
}

/// The type of the name over the type.
fn type_over(alloc: Global, context: &Context, name: &Name, ty: Ty) -> Result<Ty, Fail>
    ensures { Gives kind result (spec.type_over (limits context.now) name.now (kind ty)) }
{
    let text = name.bytes();
    if text == b"Maybe".as_slice() {
        with_bits(context, Ty::Maybe(Boxed::new(alloc, ty)?))
    } else if text == b"Reg".as_slice() {
        part_over(alloc, context, PartTy::Reg, ty)
    } else if text == b"Wire".as_slice() {
        part_over(alloc, context, PartTy::Wire, ty)
    } else if text == b"RWire".as_slice() {
        part_over(alloc, context, PartTy::RWire, ty)
    } else if text == b"FIFO".as_slice() {
        part_over(alloc, context, PartTy::Fifo, ty)
    } else if text == b"FIFOF".as_slice() {
        part_over(alloc, context, PartTy::Fifof, ty)
    } else {
        Err(Fail::Fault)
    }
}

/// The type that is written.
pub fn written_type(alloc: Global, context: &Context, ty: &WrittenType) -> Result<Ty, Fail>
    ensures { Gives kind result (written (type_names context.now) ty.now) }
{
    match ty {
        WrittenType::Named(_, name) => plain_type(alloc, context, &name.name),
        WrittenType::Applied(_, name, argument) => match argument.get() {
            TypeArgument::Written(_, inner) => {
                let held = written_type(alloc, context, inner)?;
                type_over(alloc, context, &name.name, held)
            }
            TypeArgument::Number(_, number) => {
                sized_type(context, &name.name, capped(number.value, u32::MAX))
            }
        },
        WrittenType::Int(_) => Ok(Ty::Int(32)),
    }
}

/// A method that gives a value of the type.
fn value_effect(alloc: Global, context: &Context, ty: &WrittenType) -> Result<MethodResult, Fail>
    ensures { Gives effect result (spec.value_effect (limits context.now)
        (written (type_names context.now) ty.now)) }
{
    let given = written_type(alloc, context, ty)?;
    Ok(MethodResult::Value(with_bits(context, given)?))
}

/// A method that acts and gives a value of the type in the brackets.
fn action_effect(
    alloc: Global,
    context: &Context,
    held: &TypeArgument,
) -> Result<MethodResult, Fail>
    ensures { Gives effect result (spec.action_effect (limits context.now)
        (argument (type_names context.now) held.now)) }
{
    match held {
        TypeArgument::Written(_, ty) => {
            let given = written_type(alloc, context, ty)?;
            Ok(MethodResult::ActionValue(with_bits(context, given)?))
        }
        TypeArgument::Number(_, _) => Err(Fail::Fault),
    }
}

/// What a method does and gives, as it is written in front of its name.
pub fn written_effect(
    alloc: Global,
    context: &Context,
    ty: &WrittenType,
) -> Result<MethodResult, Fail>
    ensures { Gives effect result (spec.written_effect (type_names context.now) ty.now) }
{
    match ty {
        WrittenType::Named(_, name) => {
            if name.name.bytes() == b"Action".as_slice() {
                return Ok(MethodResult::Action);
            }
        }
        WrittenType::Applied(_, name, held) => {
            if name.name.bytes() == b"ActionValue".as_slice() {
                return action_effect(alloc, context, held.get());
            }
        }
        WrittenType::Int(_) => {}
    }
    value_effect(alloc, context, ty)
}
