ghost use Rattle.std.specs.Prelude.{◌≡◌, ◌≤◌, IfOk, false};
ghost use Rattle.bsv_bits.specs.Words.{zero_word};
ghost use Rattle.bsv_prim.specs.Shape.{shape_of};
ghost use Rattle.bsv_prim.specs.Registers.{always};

use crate::cells::{always_piece, fits_held, held_by, no_register, relation_of_wire};
use crate::part::Part;
use crate::piece::Piece;
use crate::primitive::{Primitive, RegisterInfo, Rel};
use bsv_bits::{OutOfMemory, Word};
use std::alloc::Global;

/// A wire that reads as Valid of the written word, a 1 above the word, or as Invalid, all 0.
#[derive(Clone, Copy, Debug, PartialEq, Eq)]
pub struct RWireKind {
    pub width: u32,
    ghost some_width: { 1 ≤ width },
    ghost most_width: { width ≤ 127 },
}

impl Primitive for RWireKind {
    ghost use Rattle.bsv_prim.specs.WireTables.{wire_table, rwire_row};
    ghost use Rattle.bsv_prim.specs.WireKinds.{rwire_kind_laws};

    ghost table = { λ kind. wire_table (rwire_row kind.width) };

    fn methods(&self) -> u32 {
        2
    }

    fn arity(&self, method: u32) -> u32 {
        if method == 0 { 1 } else { 0 }
    }

    fn argument_width(&self, _method: u32, _argument: u32) -> u32 {
        self.width
    }

    fn is_action(&self, method: u32) -> bool {
        method == 0
    }

    fn opening(&self, _alloc: Global) -> Result<Part, OutOfMemory> {
        Ok(Part::Held(None))
    }

    fn fits(&self, part: &Part) -> bool {
        fits_held(self.width, part)
    }

    fn emptied(&self, part: &mut Part) {
        *part = Part::Held(None);
    }

    fn guarded(&self, _method: u32) -> bool {
        false
    }

    fn guard(&self, _method: u32, _part: &Part) -> bool {
        true
    }

    fn result(&self, _method: u32, part: &Part, _args: &[Word]) -> Word {
        match held_by(part) {
            Some(word) => Word::bit(true).concat(word),
            None => Word::zero(self.width + 1),
        }
    }

    fn apply(&self, _method: u32, part: &mut Part, args: &[Word]) {
        *part = Part::Held(Some(args[0]));
    }

    fn rank(&self, method: u32) -> u32 {
        if method == 0 { 1 } else { 0 }
    }

    fn relation(&self, first: u32, second: u32) -> Rel {
        relation_of_wire(first, second)
    }

    fn sees(&self, seen: u32, by: u32) -> bool {
        seen == 0 && by != 0
    }

    fn registers(&self) -> u32 {
        0
    }

    // A wire has no register, so this asks nothing of its caller.
    fn register(&self, _number: u32) -> RegisterInfo
        ensures width { result.width ≡ 1 }
        ensures start { result.start ≡ zero_word 1 }
        ensures resets { result.resets ≡ false }
    {
        no_register()
    }

    fn guard_piece(&self, _alloc: Global, _method: u32) -> Result<Piece, OutOfMemory> {
        Ok(always_piece())
    }

    fn result_piece(&self, alloc: Global, _method: u32) -> Result<Piece, OutOfMemory> {
        let valid = Piece::join(
            alloc,
            Piece::constant(Word::bit(true)),
            Piece::argument(0, 0),
        )?;
        Piece::pick(
            alloc,
            Piece::called(0),
            valid,
            Piece::constant(Word::zero(self.width + 1)),
        )
    }

    // A wire has no register, so this asks nothing of its caller.
    fn next_piece(&self, _alloc: Global, _register: u32) -> Result<Piece, OutOfMemory>
        ensures { IfOk result (λ piece. shape_of piece ≡ always) }
    {
        Ok(always_piece())
    }

    ghost laws = { λ kind. rwire_kind_laws kind.width kind.some_width kind.most_width };
}
