ghost use Rattle.std.specs.Prelude.{◌≡◌, [], ◌∷◌, IfOk, MatchOption, length, map, option_map, slice_get};
ghost use Rattle.bsv_types.specs.Kinds.{kind};
ghost use Rattle.bsv_types.specs.declared.types.PartTy.TheVariants as part_type;
ghost use Rattle.bsv_types.specs.Methods as spec;
ghost use Rattle.bsv_types.specs.Methods.{param_kinds};
ghost use Rattle.bsv_types.specs.Operators.{same_kinds};
ghost use Rattle.bsv_context.specs.Methods.{method_from, method_named, value_of};
ghost use Rattle.bsv_context.specs.Seen.{Gives, limits, shapes, header_at, params_of, effect_of, method_of};

use crate::context::Context;
use crate::fail::Fail;
use bsv_types::{Boxed, MethodHeader, MethodResult, Methods, Param, PartTy, Ty};
use sqlite_items::at;
use std::alloc::{AllocError, Global};
use std::slice;

/// The types of the parameters of a method or a function.
#[derive(Clone, Copy)]
pub enum Params<'a> {
    Types(&'a [Ty]),
    Declared(&'a [Param]),
}

/// What a method does and gives.
#[derive(Clone, Copy)]
pub enum MethodEffect<'a> {
    /// It acts.
    Action,
    /// It only gives a value of this type.
    Value(&'a Ty),
    /// It acts and gives a value of this type.
    ActionValue(&'a Ty),
    /// It only gives a Bool.
    Bool,
    /// It only gives a Maybe of this type.
    Maybe(&'a Ty),
}

/// A method of an interface.
#[derive(Clone, Copy)]
pub struct FoundMethod<'a> {
    /// Its place in the interface.
    pub number: usize,
    pub name: &'a [u8],
    pub params: Params<'a>,
    pub effect: MethodEffect<'a>,
}

impl<'a> Params<'a> {
    /// The first type, and the others.
    pub fn split_first(self) -> Option<(&'a Ty, Params<'a>)>
        ensures { MatchOption result (params_of self.entry ≡ [])
            (λ r. params_of self.entry ≡ kind r.0.now ∷ params_of r.1) }
    {
        match self {
            Params::Types(types) => {
                let (ty, more) = types.split_first()?;
                Some((ty, Params::Types(more)))
            }
            Params::Declared(params) => {
                let (param, more) = params.split_first()?;
                Some((&param.ty, Params::Declared(more)))
            }
        }
    }
}

impl<'a> MethodEffect<'a> {
    /// The type of a value method.
    pub fn value_type(self, alloc: Global) -> Result<Ty, Fail>
        ensures { Gives kind result (value_of (effect_of self.entry)) }
    {
        match self {
            MethodEffect::Value(ty) => Ok(ty.copy(alloc)?),
            MethodEffect::Bool => Ok(Ty::Bool),
            MethodEffect::Maybe(ty) => {
                let payload = ty.copy(alloc)?;
                Ok(Ty::Maybe(Boxed::new(alloc, payload)?))
            }
            MethodEffect::Action | MethodEffect::ActionValue(_) => Err(Fail::Fault),
        }
    }

    /// The same with types of its own.
    pub fn result(self, alloc: Global) -> Result<MethodResult, AllocError>
        ensures { IfOk result (λ r. spec.effect r ≡ effect_of self.entry) }
    {
        Ok(match self {
            MethodEffect::Action => MethodResult::Action,
            MethodEffect::Value(ty) => MethodResult::Value(ty.copy(alloc)?),
            MethodEffect::ActionValue(ty) => MethodResult::ActionValue(ty.copy(alloc)?),
            MethodEffect::Bool => MethodResult::Value(Ty::Bool),
            MethodEffect::Maybe(ty) => {
                let payload = ty.copy(alloc)?;
                MethodResult::Value(Ty::Maybe(Boxed::new(alloc, payload)?))
            }
        })
    }
}

impl<'a> FoundMethod<'a> {
    /// What it does and gives, with types of its own.
    pub fn result(self, alloc: Global) -> Result<MethodResult, AllocError>
        ensures { IfOk result (λ r. spec.effect r ≡ (method_of self.entry).1.effect) }
    {
        self.effect.result(alloc)
    }

    /// Whether its parameters have the types of these.
    pub fn takes(&self, params: &[Param]) -> bool
        ensures { result ≡ same_kinds (param_kinds params.now) (method_of self.now).1.params }
    {
        let mut given = params;
        let mut wanted = self.params;
        while let Some((param, after)) = given.split_first() {
            let Some((ty, more)) = wanted.split_first() else {
                return false;
            };
            if !param.ty.same(ty) {
                return false;
            }
            given = after;
            wanted = more;
        }
        wanted.split_first().is_none()
    }

    /// Whether it does and gives this.
    pub fn does(&self, result_of: &MethodResult) -> bool
        ensures { result ≡ spec.same_effect (spec.effect result_of.now)
            (method_of self.now).1.effect }
    {
        match (result_of, self.effect) {
            (MethodResult::Action, MethodEffect::Action) => true,
            (MethodResult::Value(ty), MethodEffect::Value(wanted))
            | (MethodResult::ActionValue(ty), MethodEffect::ActionValue(wanted)) => ty.same(wanted),
            (MethodResult::Value(ty), MethodEffect::Bool) => matches!(ty, Ty::Bool),
            (MethodResult::Value(ty), MethodEffect::Maybe(wanted)) => match ty {
                Ty::Maybe(payload) => payload.get().same(wanted),
                _ => false,
            },
            _ => false,
        }
    }
}

/// What a declared method does and gives.
fn declared_effect(result_of: &MethodResult) -> MethodEffect<'_>
    ensures { effect_of result ≡ spec.effect result_of.now }
{
    match result_of {
        MethodResult::Value(ty) => MethodEffect::Value(ty),
        MethodResult::Action => MethodEffect::Action,
        MethodResult::ActionValue(ty) => MethodEffect::ActionValue(ty),
    }
}

/// The declared method at a place, if there is one.
fn declared_at(headers: &[MethodHeader], number: usize) -> Option<FoundMethod<'_>>
    ensures { option_map method_of result ≡ header_at number (slice_get headers.now number) }
{
    match at(headers, number) {
        None => None,
        Some(header) => Some(FoundMethod {
            number,
            name: header.name.bytes(),
            params: Params::Declared(header.params.as_slice()),
            effect: declared_effect(&header.result),
        }),
    }
}

/// The declared method of the name.
#[tactic(auto, using(crate::proofs::Placed::placed))]
fn declared_method<'a>(methods: &'a Methods, name: &[u8]) -> Option<FoundMethod<'a>>
    ensures { option_map method_of result ≡ method_from 0 name.now
        (map spec.header_signature methods.now) }
{
    match methods.place(name) {
        None => None,
        Some(number) => declared_at(methods.as_slice(), number),
    }
}

/// A method without parameters.
fn plain<'a>(number: usize, name: &'a [u8], effect: MethodEffect<'a>) -> FoundMethod<'a>
    ensures { method_of result ≡ (number, spec.method name.now [] (effect_of effect.entry)) }
{
    FoundMethod {
        number,
        name,
        params: Params::Types(&[]),
        effect,
    }
}

/// An action that takes one value.
fn taking<'a>(number: usize, name: &'a [u8], ty: &'a Ty) -> FoundMethod<'a>
    ensures { method_of result ≡ (number, spec.method name.now (kind ty.now ∷ []) spec.action) }
{
    FoundMethod {
        number,
        name,
        params: Params::Types(slice::from_ref(ty)),
        effect: MethodEffect::Action,
    }
}

fn reg_method<'a>(ty: &'a Ty, name: &[u8]) -> Option<FoundMethod<'a>>
    ensures { option_map method_of result ≡ method_from 0 name.now
        (spec.part_methods part_type.Reg (kind ty.now)) }
{
    if name == b"_read".as_slice() {
        Some(plain(0, b"_read", MethodEffect::Value(ty)))
    } else if name == b"_write".as_slice() {
        Some(taking(1, b"_write", ty))
    } else {
        None
    }
}

fn wire_method<'a>(ty: &'a Ty, name: &[u8]) -> Option<FoundMethod<'a>>
    ensures { option_map method_of result ≡ method_from 0 name.now
        (spec.part_methods part_type.Wire (kind ty.now)) }
{
    if name == b"_write".as_slice() {
        Some(taking(0, b"_write", ty))
    } else if name == b"_read".as_slice() {
        Some(plain(1, b"_read", MethodEffect::Value(ty)))
    } else {
        None
    }
}

fn rwire_method<'a>(ty: &'a Ty, name: &[u8]) -> Option<FoundMethod<'a>>
    ensures { option_map method_of result ≡ method_from 0 name.now
        (spec.part_methods part_type.RWire (kind ty.now)) }
{
    if name == b"wset".as_slice() {
        Some(taking(0, b"wset", ty))
    } else if name == b"wget".as_slice() {
        Some(plain(1, b"wget", MethodEffect::Maybe(ty)))
    } else {
        None
    }
}

fn fifo_method<'a>(ty: &'a Ty, name: &[u8]) -> Option<FoundMethod<'a>>
    ensures { option_map method_of result ≡ method_from 0 name.now
        (spec.part_methods part_type.Fifo (kind ty.now)) }
{
    if name == b"enq".as_slice() {
        Some(taking(0, b"enq", ty))
    } else if name == b"deq".as_slice() {
        Some(plain(1, b"deq", MethodEffect::Action))
    } else if name == b"first".as_slice() {
        Some(plain(2, b"first", MethodEffect::Value(ty)))
    } else if name == b"clear".as_slice() {
        Some(plain(3, b"clear", MethodEffect::Action))
    } else {
        None
    }
}

fn fifof_method<'a>(ty: &'a Ty, name: &[u8]) -> Option<FoundMethod<'a>>
    ensures { option_map method_of result ≡ method_from 0 name.now
        (spec.part_methods part_type.Fifof (kind ty.now)) }
{
    if name == b"enq".as_slice() {
        Some(taking(0, b"enq", ty))
    } else if name == b"deq".as_slice() {
        Some(plain(1, b"deq", MethodEffect::Action))
    } else if name == b"first".as_slice() {
        Some(plain(2, b"first", MethodEffect::Value(ty)))
    } else if name == b"notFull".as_slice() {
        Some(plain(3, b"notFull", MethodEffect::Bool))
    } else if name == b"notEmpty".as_slice() {
        Some(plain(4, b"notEmpty", MethodEffect::Bool))
    } else if name == b"clear".as_slice() {
        Some(plain(5, b"clear", MethodEffect::Action))
    } else {
        None
    }
}

fn pulse_wire_method(name: &[u8]) -> Option<FoundMethod<'static>>
    ensures { option_map method_of result ≡ method_from 0 name.now
        (spec.bare_methods part_type.PulseWire) }
{
    if name == b"send".as_slice() {
        Some(plain(0, b"send", MethodEffect::Action))
    } else if name == b"_read".as_slice() {
        Some(plain(1, b"_read", MethodEffect::Bool))
    } else {
        None
    }
}

/// The method of the name of an interface with a T that the language gives.
fn part_method<'a>(part: PartTy, ty: &'a Ty, name: &[u8]) -> Option<FoundMethod<'a>>
    ensures { option_map method_of result ≡ method_from 0 name.now
        (spec.part_methods part (kind ty.now)) }
{
    match part {
        PartTy::Reg => reg_method(ty, name),
        PartTy::Wire => wire_method(ty, name),
        PartTy::RWire => rwire_method(ty, name),
        PartTy::PulseWire => None,
        PartTy::Fifo => fifo_method(ty, name),
        PartTy::Fifof => fifof_method(ty, name),
    }
}

/// The method of the name of an interface.
#[tactic(auto, unfolding(crate::specs::Methods::method_named))]
pub fn method_named<'a>(context: &'a Context, ty: &'a Ty, name: &[u8]) -> Option<FoundMethod<'a>>
    ensures { option_map method_of result ≡ method_named (limits context.now)
        (kind ty.now) name.now }
{
    match ty {
        Ty::Interface(number) => match context.interfaces.get(*number as usize) {
            Some(interface) => declared_method(&interface.methods, name),
            None => None,
        },
        Ty::Part(part, Some(held)) => part_method(*part, held.get(), name),
        Ty::Part(PartTy::PulseWire, None) => pulse_wire_method(name),
        _ => None,
    }
}

/// How many methods an interface has.
pub fn method_count(context: &Context, ty: &Ty) -> usize
    ensures { result ≡ length (spec.methods (shapes context.now) (kind ty.now)) }
{
    match ty {
        Ty::Interface(number) => match context.interfaces.get(*number as usize) {
            Some(interface) => interface.methods.len(),
            None => 0,
        },
        Ty::Part(PartTy::PulseWire, None) => 2,
        Ty::Part(PartTy::Reg | PartTy::Wire | PartTy::RWire, Some(_)) => 2,
        Ty::Part(PartTy::Fifo, Some(_)) => 4,
        Ty::Part(PartTy::Fifof, Some(_)) => 6,
        _ => 0,
    }
}
