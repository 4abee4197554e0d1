ghost use Rattle.bsv_prim.specs.Table.{IsWordOf};

use crate::cells::{always_piece, fits_number, next_of_register, number_of, relation_of_register};
use crate::part::Part;
use crate::piece::Piece;
use crate::primitive::{Primitive, RegisterInfo, Rel};
use bsv_bits::{OutOfMemory, Word};
use std::alloc::Global;

/// A register that a reset sets to its start.
#[derive(Clone, Copy, Debug, PartialEq, Eq)]
pub struct RegKind {
    pub width: u32,
    pub start: Word,
    ghost in_range: { IsWordOf width start },
}

impl Primitive for RegKind {
    ghost use Rattle.bsv_prim.specs.Registers.{reg_table};
    ghost use Rattle.bsv_prim.specs.RegisterLaws.{reg_laws};

    ghost table = { λ kind. reg_table kind.width kind.start };

    fn methods(&self) -> u32 {
        2
    }

    fn arity(&self, method: u32) -> u32 {
        if method == 0 { 0 } else { 1 }
    }

    fn argument_width(&self, _method: u32, _argument: u32) -> u32 {
        self.width
    }

    fn is_action(&self, method: u32) -> bool {
        method != 0
    }

    fn opening(&self, _alloc: Global) -> Result<Part, OutOfMemory> {
        Ok(Part::Number(self.start))
    }

    fn fits(&self, part: &Part) -> bool {
        fits_number(self.width, part)
    }

    fn emptied(&self, _part: &mut Part) {}

    fn guarded(&self, _method: u32) -> bool {
        false
    }

    fn guard(&self, _method: u32, _part: &Part) -> bool {
        true
    }

    fn result(&self, _method: u32, part: &Part, _args: &[Word]) -> Word {
        number_of(self.width, part)
    }

    fn apply(&self, _method: u32, part: &mut Part, args: &[Word]) {
        *part = Part::Number(args[0]);
    }

    fn rank(&self, method: u32) -> u32 {
        if method == 0 { 0 } else { 1 }
    }

    fn relation(&self, first: u32, second: u32) -> Rel {
        relation_of_register(first, second)
    }

    fn sees(&self, _seen: u32, _by: u32) -> bool {
        false
    }

    fn registers(&self) -> u32 {
        1
    }

    fn register(&self, _number: u32) -> RegisterInfo {
        RegisterInfo {
            width: self.width,
            start: self.start,
            resets: true,
        }
    }

    fn guard_piece(&self, _alloc: Global, _method: u32) -> Result<Piece, OutOfMemory> {
        Ok(always_piece())
    }

    fn result_piece(&self, _alloc: Global, _method: u32) -> Result<Piece, OutOfMemory> {
        Ok(Piece::register(0))
    }

    fn next_piece(&self, alloc: Global, _register: u32) -> Result<Piece, OutOfMemory> {
        next_of_register(alloc)
    }

    ghost laws = { λ kind. reg_laws kind.width kind.start kind.in_range };
}
