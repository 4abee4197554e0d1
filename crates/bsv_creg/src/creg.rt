ghost use Rattle.std.specs.Prelude.{◌≤◌};
ghost use Rattle.bsv_prim.specs.Table.{IsWordOf};

use crate::method::Method;
use crate::pieces::number_piece;
use bsv_bits::{OutOfMemory, Word};
use bsv_prim::{Part, Piece, Primitive, RegisterInfo, Rel, always_piece, fits_number, number_of};
use std::alloc::Global;

/// A register with several ports: a read gives what was written through the ports below its own.
#[derive(Clone, Copy, Debug, PartialEq, Eq)]
pub struct CRegKind {
    pub width: u32,
    pub ports: u32,
    pub start: Word,
    ghost in_range: { IsWordOf width start },
    ghost some_ports: { 2 ≤ ports },
    ghost most_ports: { ports ≤ 5 },
}

impl Primitive for CRegKind {
    ghost use Rattle.bsv_creg.specs.Ports.{creg_table};
    ghost use Rattle.bsv_creg.specs.PortLaws.{creg_laws};

    ghost table = { λ kind. creg_table kind.width kind.ports kind.start };

    fn methods(&self) -> u32 {
        2 * self.ports
    }

    fn arity(&self, method: u32) -> u32 {
        Method::of(method).arity()
    }

    fn argument_width(&self, _method: u32, _argument: u32) -> u32 {
        self.width
    }

    fn is_action(&self, method: u32) -> bool {
        Method::of(method).writes()
    }

    fn opening(&self, _alloc: Global) -> Result<Part, OutOfMemory> {
        Ok(Part::Number(self.start))
    }

    fn fits(&self, part: &Part) -> bool {
        fits_number(self.width, part)
    }

    fn emptied(&self, _part: &mut Part) {}

    fn guarded(&self, _method: u32) -> bool {
        false
    }

    fn guard(&self, _method: u32, _part: &Part) -> bool {
        true
    }

    fn result(&self, _method: u32, part: &Part, _args: &[Word]) -> Word {
        number_of(self.width, part)
    }

    fn apply(&self, method: u32, part: &mut Part, args: &[Word]) {
        if let Method::Write(_) = Method::of(method) {
            *part = Part::Number(args[0]);
        }
    }

    fn rank(&self, method: u32) -> u32 {
        Method::of(method).rank()
    }

    fn relation(&self, first: u32, second: u32) -> Rel {
        Method::of(first).relation(Method::of(second))
    }

    fn sees(&self, seen: u32, by: u32) -> bool {
        Method::of(seen).is_seen_by(Method::of(by))
    }

    fn registers(&self) -> u32 {
        1
    }

    fn register(&self, _number: u32) -> RegisterInfo {
        RegisterInfo {
            width: self.width,
            start: self.start,
            resets: true,
        }
    }

    fn guard_piece(&self, _alloc: Global, _method: u32) -> Result<Piece, OutOfMemory> {
        Ok(always_piece())
    }

    fn result_piece(&self, alloc: Global, method: u32) -> Result<Piece, OutOfMemory> {
        number_piece(alloc, Method::of(method).port())
    }

    fn next_piece(&self, alloc: Global, _register: u32) -> Result<Piece, OutOfMemory> {
        number_piece(alloc, self.ports)
    }

    ghost laws = { λ kind. creg_laws kind.width kind.ports kind.start kind.in_range };
}
