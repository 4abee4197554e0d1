ghost use Rattle.std.specs.Prelude.{◌≡◌, ◌≤◌, ◌↔◌, IsTrue, IfOk, false};
ghost use Rattle.bsv_bits.specs.Words.{zero_word};
ghost use Rattle.bsv_prim.specs.Shape.{shape_of};
ghost use Rattle.bsv_prim.specs.Registers.{FitsNumber, number_in, register_relation, always, next_number};
ghost use Rattle.bsv_prim.specs.WireTables.{FitsHeld, held_in, wire_relation, or_else_piece};

use crate::part::Part;
use crate::piece::Piece;
use crate::primitive::{RegisterInfo, Rel};
use bsv_bits::{OutOfMemory, Word};
use std::alloc::Global;

/// Whether the part is a number of so many bits.
pub fn fits_number(width: u32, part: &Part) -> bool
    ensures { IsTrue result ↔ FitsNumber width part.now }
{
    match part {
        Part::Number(word) => word.width() == width,
        _ => false,
    }
}

/// The number of a register's part; 0 where the part is another.
pub fn number_of(width: u32, part: &Part) -> Word
    requires some { 1 ≤ width }
    requires most { width ≤ 128 }
    ensures { result ≡ number_in width part.now }
{
    match part {
        Part::Number(word) => *word,
        _ => Word::zero(width),
    }
}

/// How a register's methods stand: 0 reads, 1 writes.
pub(crate) fn relation_of_register(first: u32, second: u32) -> Rel
    ensures { result ≡ register_relation first second }
{
    match (first, second) {
        (0, 0) => Rel::Cf,
        (0, _) => Rel::Sb,
        (_, 0) => Rel::Sa,
        _ => Rel::Sbr,
    }
}

/// The written word, or else the register's own.
pub(crate) fn next_of_register(alloc: Global) -> Result<Piece, OutOfMemory>
    ensures { IfOk result (λ piece. shape_of piece ≡ next_number) }
{
    Piece::pick(
        alloc,
        Piece::called(1),
        Piece::argument(1, 0),
        Piece::register(0),
    )
}

/// Whether the part is a wire's, empty or with a word of so many bits.
pub(crate) fn fits_held(width: u32, part: &Part) -> bool
    ensures { IsTrue result ↔ FitsHeld width part.now }
{
    match part {
        Part::Held(None) => true,
        Part::Held(Some(word)) => word.width() == width,
        _ => false,
    }
}

/// What a wire's part holds; nothing where the part is another.
pub(crate) fn held_by(part: &Part) -> Option<Word>
    ensures { result ≡ held_in part.now }
{
    match part {
        Part::Held(held) => *held,
        _ => None,
    }
}

/// How a wire's methods stand: 0 writes, 1 reads.
pub(crate) fn relation_of_wire(first: u32, second: u32) -> Rel
    ensures { result ≡ wire_relation first second }
{
    match (first, second) {
        (0, 0) => Rel::C,
        (0, _) => Rel::Sb,
        (_, 0) => Rel::Sa,
        _ => Rel::Cf,
    }
}

/// What is in the place of the registers that a wire has not.
pub(crate) fn no_register() -> RegisterInfo
    ensures width { result.width ≡ 1 }
    ensures start { result.start ≡ zero_word 1 }
    ensures resets { result.resets ≡ false }
{
    RegisterInfo {
        width: 1,
        start: Word::zero(1),
        resets: false,
    }
}

/// The bit that is always 1.
pub fn always_piece() -> Piece
    ensures { shape_of result ≡ always }
{
    Piece::constant(Word::bit(true))
}

/// The written word, or else another.
pub(crate) fn written_or(alloc: Global, word: Word) -> Result<Piece, OutOfMemory>
    ensures { IfOk result (λ piece. shape_of piece ≡ or_else_piece word) }
{
    Piece::pick(
        alloc,
        Piece::called(0),
        Piece::argument(0, 0),
        Piece::constant(word),
    )
}
