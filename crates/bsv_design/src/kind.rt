ghost use Rattle.std.specs.Prelude.{◌≡◌, ◌<◌, ◌↔◌, ℕ, Some, IfSome, slice_get};
ghost use Rattle.bsv_design.specs.parts.Kinds.{kind_table};
ghost use Rattle.bsv_design.specs.parts.MethodNames.{method_names};

use crate::names::{pulse_name, queue_name, register_name, rwire_name, wire_name};
use bsv_bits::{Name, OutOfMemory, Word};
use bsv_fifo::{BypassKind, PipelineKind, PlainKind};
use bsv_prim::{
    DWireKind, Part, Piece, Primitive, PulseKind, RWireKind, RegKind, RegUKind, RegisterInfo, Rel,
    WireKind,
};
use std::alloc::Global;

/// A kind of primitive.
#[derive(Clone, Copy, Debug, PartialEq, Eq)]
pub enum Kind {
    Reg(RegKind),
    RegU(RegUKind),
    Wire(WireKind),
    DWire(DWireKind),
    RWire(RWireKind),
    Pulse(PulseKind),
    Plain(PlainKind),
    Pipeline(PipelineKind),
    Bypass(BypassKind),
}

impl Kind {
    /// The name of a method.
    pub fn method_name(&self, method: u32) -> &str
        requires { method < (kind_table self.now).methods }
        ensures { slice_get (method_names self.now) method ≡ Some result.now }
    {
        match self {
            Kind::Reg(_) | Kind::RegU(_) => register_name(method),
            Kind::Wire(_) | Kind::DWire(_) => wire_name(method),
            Kind::RWire(_) => rwire_name(method),
            Kind::Pulse(_) => pulse_name(method),
            Kind::Plain(_) | Kind::Pipeline(_) | Kind::Bypass(_) => queue_name(method),
        }
    }

    /// The number of the method of a name, if there is one.
    pub fn method_number(&self, name: &Name) -> Option<u32>
        ensures named { (number : ℕ) →
            (result ≡ Some number) ↔ (slice_get (method_names self.now) number ≡ Some name.now) }
        ensures within { IfSome result (λ number. number < (kind_table self.now).methods) }
    {
        for number in 0..self.methods() {
            if self.method_name(number).as_bytes() == name.bytes() {
                return Some(number);
            }
        }
        None
    }
}

impl Primitive for Kind {
    ghost use Rattle.bsv_design.specs.parts.Kinds.{kind_laws};

    ghost table = { kind_table };

    fn methods(&self) -> u32 {
        match self {
            Kind::Reg(kind) => kind.methods(),
            Kind::RegU(kind) => kind.methods(),
            Kind::Wire(kind) => kind.methods(),
            Kind::DWire(kind) => kind.methods(),
            Kind::RWire(kind) => kind.methods(),
            Kind::Pulse(kind) => kind.methods(),
            Kind::Plain(kind) => kind.methods(),
            Kind::Pipeline(kind) => kind.methods(),
            Kind::Bypass(kind) => kind.methods(),
        }
    }

    fn arity(&self, method: u32) -> u32 {
        match self {
            Kind::Reg(kind) => kind.arity(method),
            Kind::RegU(kind) => kind.arity(method),
            Kind::Wire(kind) => kind.arity(method),
            Kind::DWire(kind) => kind.arity(method),
            Kind::RWire(kind) => kind.arity(method),
            Kind::Pulse(kind) => kind.arity(method),
            Kind::Plain(kind) => kind.arity(method),
            Kind::Pipeline(kind) => kind.arity(method),
            Kind::Bypass(kind) => kind.arity(method),
        }
    }

    fn argument_width(&self, method: u32, argument: u32) -> u32 {
        match self {
            Kind::Reg(kind) => kind.argument_width(method, argument),
            Kind::RegU(kind) => kind.argument_width(method, argument),
            Kind::Wire(kind) => kind.argument_width(method, argument),
            Kind::DWire(kind) => kind.argument_width(method, argument),
            Kind::RWire(kind) => kind.argument_width(method, argument),
            Kind::Pulse(kind) => kind.argument_width(method, argument),
            Kind::Plain(kind) => kind.argument_width(method, argument),
            Kind::Pipeline(kind) => kind.argument_width(method, argument),
            Kind::Bypass(kind) => kind.argument_width(method, argument),
        }
    }

    fn is_action(&self, method: u32) -> bool {
        match self {
            Kind::Reg(kind) => kind.is_action(method),
            Kind::RegU(kind) => kind.is_action(method),
            Kind::Wire(kind) => kind.is_action(method),
            Kind::DWire(kind) => kind.is_action(method),
            Kind::RWire(kind) => kind.is_action(method),
            Kind::Pulse(kind) => kind.is_action(method),
            Kind::Plain(kind) => kind.is_action(method),
            Kind::Pipeline(kind) => kind.is_action(method),
            Kind::Bypass(kind) => kind.is_action(method),
        }
    }

    fn opening(&self, alloc: Global) -> Result<Part, OutOfMemory> {
        match self {
            Kind::Reg(kind) => kind.opening(alloc),
            Kind::RegU(kind) => kind.opening(alloc),
            Kind::Wire(kind) => kind.opening(alloc),
            Kind::DWire(kind) => kind.opening(alloc),
            Kind::RWire(kind) => kind.opening(alloc),
            Kind::Pulse(kind) => kind.opening(alloc),
            Kind::Plain(kind) => kind.opening(alloc),
            Kind::Pipeline(kind) => kind.opening(alloc),
            Kind::Bypass(kind) => kind.opening(alloc),
        }
    }

    fn fits(&self, part: &Part) -> bool {
        match self {
            Kind::Reg(kind) => kind.fits(part),
            Kind::RegU(kind) => kind.fits(part),
            Kind::Wire(kind) => kind.fits(part),
            Kind::DWire(kind) => kind.fits(part),
            Kind::RWire(kind) => kind.fits(part),
            Kind::Pulse(kind) => kind.fits(part),
            Kind::Plain(kind) => kind.fits(part),
            Kind::Pipeline(kind) => kind.fits(part),
            Kind::Bypass(kind) => kind.fits(part),
        }
    }

    fn emptied(&self, part: &mut Part) {
        match self {
            Kind::Reg(kind) => kind.emptied(part),
            Kind::RegU(kind) => kind.emptied(part),
            Kind::Wire(kind) => kind.emptied(part),
            Kind::DWire(kind) => kind.emptied(part),
            Kind::RWire(kind) => kind.emptied(part),
            Kind::Pulse(kind) => kind.emptied(part),
            Kind::Plain(kind) => kind.emptied(part),
            Kind::Pipeline(kind) => kind.emptied(part),
            Kind::Bypass(kind) => kind.emptied(part),
        }
    }

    fn guarded(&self, method: u32) -> bool {
        match self {
            Kind::Reg(kind) => kind.guarded(method),
            Kind::RegU(kind) => kind.guarded(method),
            Kind::Wire(kind) => kind.guarded(method),
            Kind::DWire(kind) => kind.guarded(method),
            Kind::RWire(kind) => kind.guarded(method),
            Kind::Pulse(kind) => kind.guarded(method),
            Kind::Plain(kind) => kind.guarded(method),
            Kind::Pipeline(kind) => kind.guarded(method),
            Kind::Bypass(kind) => kind.guarded(method),
        }
    }

    fn guard(&self, method: u32, part: &Part) -> bool {
        match self {
            Kind::Reg(kind) => kind.guard(method, part),
            Kind::RegU(kind) => kind.guard(method, part),
            Kind::Wire(kind) => kind.guard(method, part),
            Kind::DWire(kind) => kind.guard(method, part),
            Kind::RWire(kind) => kind.guard(method, part),
            Kind::Pulse(kind) => kind.guard(method, part),
            Kind::Plain(kind) => kind.guard(method, part),
            Kind::Pipeline(kind) => kind.guard(method, part),
            Kind::Bypass(kind) => kind.guard(method, part),
        }
    }

    fn result(&self, method: u32, part: &Part, args: &[Word]) -> Word {
        match self {
            Kind::Reg(kind) => kind.result(method, part, args),
            Kind::RegU(kind) => kind.result(method, part, args),
            Kind::Wire(kind) => kind.result(method, part, args),
            Kind::DWire(kind) => kind.result(method, part, args),
            Kind::RWire(kind) => kind.result(method, part, args),
            Kind::Pulse(kind) => kind.result(method, part, args),
            Kind::Plain(kind) => kind.result(method, part, args),
            Kind::Pipeline(kind) => kind.result(method, part, args),
            Kind::Bypass(kind) => kind.result(method, part, args),
        }
    }

    fn apply(&self, method: u32, part: &mut Part, args: &[Word]) {
        match self {
            Kind::Reg(kind) => kind.apply(method, part, args),
            Kind::RegU(kind) => kind.apply(method, part, args),
            Kind::Wire(kind) => kind.apply(method, part, args),
            Kind::DWire(kind) => kind.apply(method, part, args),
            Kind::RWire(kind) => kind.apply(method, part, args),
            Kind::Pulse(kind) => kind.apply(method, part, args),
            Kind::Plain(kind) => kind.apply(method, part, args),
            Kind::Pipeline(kind) => kind.apply(method, part, args),
            Kind::Bypass(kind) => kind.apply(method, part, args),
        }
    }

    fn rank(&self, method: u32) -> u32 {
        match self {
            Kind::Reg(kind) => kind.rank(method),
            Kind::RegU(kind) => kind.rank(method),
            Kind::Wire(kind) => kind.rank(method),
            Kind::DWire(kind) => kind.rank(method),
            Kind::RWire(kind) => kind.rank(method),
            Kind::Pulse(kind) => kind.rank(method),
            Kind::Plain(kind) => kind.rank(method),
            Kind::Pipeline(kind) => kind.rank(method),
            Kind::Bypass(kind) => kind.rank(method),
        }
    }

    fn relation(&self, first: u32, second: u32) -> Rel {
        match self {
            Kind::Reg(kind) => kind.relation(first, second),
            Kind::RegU(kind) => kind.relation(first, second),
            Kind::Wire(kind) => kind.relation(first, second),
            Kind::DWire(kind) => kind.relation(first, second),
            Kind::RWire(kind) => kind.relation(first, second),
            Kind::Pulse(kind) => kind.relation(first, second),
            Kind::Plain(kind) => kind.relation(first, second),
            Kind::Pipeline(kind) => kind.relation(first, second),
            Kind::Bypass(kind) => kind.relation(first, second),
        }
    }

    fn sees(&self, seen: u32, by: u32) -> bool {
        match self {
            Kind::Reg(kind) => kind.sees(seen, by),
            Kind::RegU(kind) => kind.sees(seen, by),
            Kind::Wire(kind) => kind.sees(seen, by),
            Kind::DWire(kind) => kind.sees(seen, by),
            Kind::RWire(kind) => kind.sees(seen, by),
            Kind::Pulse(kind) => kind.sees(seen, by),
            Kind::Plain(kind) => kind.sees(seen, by),
            Kind::Pipeline(kind) => kind.sees(seen, by),
            Kind::Bypass(kind) => kind.sees(seen, by),
        }
    }

    fn registers(&self) -> u32 {
        match self {
            Kind::Reg(kind) => kind.registers(),
            Kind::RegU(kind) => kind.registers(),
            Kind::Wire(kind) => kind.registers(),
            Kind::DWire(kind) => kind.registers(),
            Kind::RWire(kind) => kind.registers(),
            Kind::Pulse(kind) => kind.registers(),
            Kind::Plain(kind) => kind.registers(),
            Kind::Pipeline(kind) => kind.registers(),
            Kind::Bypass(kind) => kind.registers(),
        }
    }

    fn register(&self, number: u32) -> RegisterInfo {
        match self {
            Kind::Reg(kind) => kind.register(number),
            Kind::RegU(kind) => kind.register(number),
            Kind::Wire(kind) => kind.register(number),
            Kind::DWire(kind) => kind.register(number),
            Kind::RWire(kind) => kind.register(number),
            Kind::Pulse(kind) => kind.register(number),
            Kind::Plain(kind) => kind.register(number),
            Kind::Pipeline(kind) => kind.register(number),
            Kind::Bypass(kind) => kind.register(number),
        }
    }

    fn guard_piece(&self, alloc: Global, method: u32) -> Result<Piece, OutOfMemory> {
        match self {
            Kind::Reg(kind) => kind.guard_piece(alloc, method),
            Kind::RegU(kind) => kind.guard_piece(alloc, method),
            Kind::Wire(kind) => kind.guard_piece(alloc, method),
            Kind::DWire(kind) => kind.guard_piece(alloc, method),
            Kind::RWire(kind) => kind.guard_piece(alloc, method),
            Kind::Pulse(kind) => kind.guard_piece(alloc, method),
            Kind::Plain(kind) => kind.guard_piece(alloc, method),
            Kind::Pipeline(kind) => kind.guard_piece(alloc, method),
            Kind::Bypass(kind) => kind.guard_piece(alloc, method),
        }
    }

    fn result_piece(&self, alloc: Global, method: u32) -> Result<Piece, OutOfMemory> {
        match self {
            Kind::Reg(kind) => kind.result_piece(alloc, method),
            Kind::RegU(kind) => kind.result_piece(alloc, method),
            Kind::Wire(kind) => kind.result_piece(alloc, method),
            Kind::DWire(kind) => kind.result_piece(alloc, method),
            Kind::RWire(kind) => kind.result_piece(alloc, method),
            Kind::Pulse(kind) => kind.result_piece(alloc, method),
            Kind::Plain(kind) => kind.result_piece(alloc, method),
            Kind::Pipeline(kind) => kind.result_piece(alloc, method),
            Kind::Bypass(kind) => kind.result_piece(alloc, method),
        }
    }

    fn next_piece(&self, alloc: Global, register: u32) -> Result<Piece, OutOfMemory> {
        match self {
            Kind::Reg(kind) => kind.next_piece(alloc, register),
            Kind::RegU(kind) => kind.next_piece(alloc, register),
            Kind::Wire(kind) => kind.next_piece(alloc, register),
            Kind::DWire(kind) => kind.next_piece(alloc, register),
            Kind::RWire(kind) => kind.next_piece(alloc, register),
            Kind::Pulse(kind) => kind.next_piece(alloc, register),
            Kind::Plain(kind) => kind.next_piece(alloc, register),
            Kind::Pipeline(kind) => kind.next_piece(alloc, register),
            Kind::Bypass(kind) => kind.next_piece(alloc, register),
        }
    }

    ghost laws = { kind_laws };
}
