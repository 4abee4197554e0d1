ghost use Rattle.std.specs.Prelude.{◌≤◌};

use crate::pieces::{named_piece, next_word_piece};
use crate::words::{count_of, fits_file, put_word, word_in, zeros};
use bsv_bits::{OutOfMemory, Word};
use bsv_prim::{Part, Piece, Primitive, RegisterInfo, Rel, always_piece};
use std::alloc::Global;

/// A register file: as many words of a width as an address of a width names.
#[derive(Clone, Copy, Debug, PartialEq, Eq)]
pub struct RegFileKind {
    pub width: u32,
    pub address: u32,
    ghost some_width: { 1 ≤ width },
    ghost most_width: { width ≤ 128 },
    ghost some_address: { 1 ≤ address },
    ghost most_address: { address ≤ 6 },
}

impl Primitive for RegFileKind {
    ghost use Rattle.bsv_creg.specs.Files.{file_table};
    ghost use Rattle.bsv_creg.specs.FileLaws.{file_laws};

    ghost table = { λ kind. file_table kind.width kind.address };

    fn methods(&self) -> u32 {
        2
    }

    fn arity(&self, method: u32) -> u32 {
        if method == 0 { 1 } else { 2 }
    }

    fn argument_width(&self, _method: u32, argument: u32) -> u32 {
        if argument == 0 {
            self.address
        } else {
            self.width
        }
    }

    fn is_action(&self, method: u32) -> bool {
        method != 0
    }

    fn opening(&self, alloc: Global) -> Result<Part, OutOfMemory> {
        Ok(Part::Queue(zeros(alloc, self.width, count_of(self.address))?))
    }

    fn fits(&self, part: &Part) -> bool {
        fits_file(self.width, count_of(self.address), part)
    }

    fn emptied(&self, _part: &mut Part) {}

    fn guarded(&self, _method: u32) -> bool {
        false
    }

    fn guard(&self, _method: u32, _part: &Part) -> bool {
        true
    }

    fn result(&self, _method: u32, part: &Part, args: &[Word]) -> Word {
        word_in(self.width, self.address, part, args)
    }

    fn apply(&self, _method: u32, part: &mut Part, args: &[Word]) {
        put_word(self.width, self.address, part, args);
    }

    fn rank(&self, method: u32) -> u32 {
        if method == 0 { 0 } else { 1 }
    }

    fn relation(&self, first: u32, second: u32) -> Rel {
        match (first, second) {
            (0, 0) => Rel::Cf,
            (0, _) => Rel::Sb,
            (_, 0) => Rel::Sa,
            _ => Rel::C,
        }
    }

    fn sees(&self, _seen: u32, _by: u32) -> bool {
        false
    }

    fn registers(&self) -> u32 {
        count_of(self.address)
    }

    fn register(&self, _number: u32) -> RegisterInfo {
        RegisterInfo {
            width: self.width,
            start: Word::zero(self.width),
            resets: true,
        }
    }

    fn guard_piece(&self, _alloc: Global, _method: u32) -> Result<Piece, OutOfMemory> {
        Ok(always_piece())
    }

    fn result_piece(&self, alloc: Global, _method: u32) -> Result<Piece, OutOfMemory> {
        named_piece(alloc, self.address, count_of(self.address) - 1)
    }

    fn next_piece(&self, alloc: Global, register: u32) -> Result<Piece, OutOfMemory> {
        next_word_piece(alloc, self.address, register)
    }

    ghost laws = { λ kind. file_laws kind.width kind.address kind.some_width kind.most_width
        kind.some_address kind.most_address };
}
