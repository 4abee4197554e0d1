ghost use Rattle.std.specs.Prelude.{◌≡◌, ◌<◌, ◌↔◌, IsTrue, IfOk, true, false};
ghost use Rattle.bsv_prim.specs.Table.{Table, ArgsFit, IsWordOf};
ghost use Rattle.bsv_prim.specs.Laws.{Laws};
ghost use Rattle.bsv_prim.specs.Shape.{shape_of};

use crate::part::Part;
use crate::piece::Piece;
use bsv_bits::{OutOfMemory, Word};
use std::alloc::Global;

/// How calls of one method stand to calls of another in one clock.
#[derive(Clone, Copy, Debug, PartialEq, Eq)]
pub enum Rel {
    /// Conflict free: in either order, with one outcome.
    Cf,
    /// The first sequences before the second.
    Sb,
    /// The first sequences after the second.
    Sa,
    /// Either may come first, but the two may not be in one element.
    Sbr,
    /// They conflict.
    C,
}

/// A register of a primitive: its width in bits, its start, and whether a reset sets the start.
#[derive(Clone, Copy, Debug, PartialEq, Eq)]
pub struct RegisterInfo {
    pub width: u32,
    pub start: Word,
    pub resets: bool,
    ghost in_range: { IsWordOf width start },
}

/// A kind of primitive. Methods, arguments and registers are numbered from 0. A part that is asked
/// about fits, and arguments have the arity and the widths of the method.
pub trait Primitive {
    /// The kind's table: what each call below answers.
    ghost table: { Self → Table };

    /// How many methods there are.
    fn methods(&self) -> u32
        ensures { result ≡ (table self.now).methods };

    /// How many arguments a method takes.
    fn arity(&self, method: u32) -> u32
        requires { method < (table self.now).methods }
        ensures { result ≡ (table self.now).arity method };

    /// The width of an argument, in bits.
    fn argument_width(&self, method: u32, argument: u32) -> u32
        requires method { method < (table self.now).methods }
        requires argument { argument < (table self.now).arity method }
        ensures { result ≡ (table self.now).argument_width method argument };

    /// Whether a method changes the part; else it answers a word.
    fn is_action(&self, method: u32) -> bool
        requires { method < (table self.now).methods }
        ensures { result ≡ (table self.now).is_action method };

    /// The part before the first clock.
    fn opening(&self, alloc: Global) -> Result<Part, OutOfMemory>
        ensures { IfOk result (λ part. part ≡ (table self.now).opening) };

    /// Whether a part is one of this kind.
    fn fits(&self, part: &Part) -> bool
        ensures { IsTrue result ↔ (table self.now).Fits part.now };

    /// Makes the part what it is at a clock's start.
    fn emptied(&self, part: &mut Part)
        requires { (table self.now).Fits part.old }
        ensures { part.new ≡ (table self.now).emptied part.old };

    /// Whether the method's guard is false on some fitting part.
    fn guarded(&self, method: u32) -> bool
        requires { method < (table self.now).methods }
        ensures { result ≡ (table self.now).guarded method };

    /// Whether the method may be called on the part.
    fn guard(&self, method: u32, part: &Part) -> bool
        requires method { method < (table self.now).methods }
        requires part { (table self.now).Fits part.now }
        ensures { result ≡ (table self.now).guard method part.now };

    /// What a value method answers: 0 where its guard is false.
    fn result(&self, method: u32, part: &Part, args: &[Word]) -> Word
        requires method { method < (table self.now).methods }
        requires value { (table self.now).is_action method ≡ false }
        requires part { (table self.now).Fits part.now }
        requires args { ArgsFit (table self.now) method args.now }
        ensures { result ≡ (table self.now).result method part.now args.now };

    /// Calls an action whose guard is true.
    fn apply(&self, method: u32, part: &mut Part, args: &[Word])
        requires method { method < (table self.now).methods }
        requires action { (table self.now).is_action method ≡ true }
        requires part { (table self.now).Fits part.old }
        requires ready { (table self.now).guard method part.old ≡ true }
        requires args { ArgsFit (table self.now) method args.now }
        ensures { part.new ≡ (table self.now).apply method part.old args.now };

    /// Where a method's calls stand among those of one element.
    fn rank(&self, method: u32) -> u32
        requires { method < (table self.now).methods }
        ensures { result ≡ (table self.now).rank method };

    /// How the first method stands to the second.
    fn relation(&self, first: u32, second: u32) -> Rel
        requires first { first < (table self.now).methods }
        requires second { second < (table self.now).methods }
        ensures { result ≡ (table self.now).relation first second };

    /// Whether calls of the one method in this clock are seen by the other.
    fn sees(&self, seen: u32, by: u32) -> bool
        requires seen { seen < (table self.now).methods }
        requires by { by < (table self.now).methods }
        ensures { result ≡ (table self.now).sees seen by };

    /// How many registers stand for a part in hardware.
    fn registers(&self) -> u32
        ensures { result ≡ (table self.now).registers };

    /// A register's width, start and reset.
    fn register(&self, number: u32) -> RegisterInfo
        requires { number < (table self.now).registers }
        ensures width { result.width ≡ (table self.now).register_width number }
        ensures start { result.start ≡ (table self.now).register_start number }
        ensures resets { result.resets ≡ (table self.now).register_resets number };

    /// The piece of width 1 that is 1 where the method's guard is true.
    fn guard_piece(&self, alloc: Global, method: u32) -> Result<Piece, OutOfMemory>
        requires { method < (table self.now).methods }
        ensures { IfOk result (λ piece. shape_of piece ≡ (table self.now).guard_piece method) };

    /// The piece of what a value method answers.
    fn result_piece(&self, alloc: Global, method: u32) -> Result<Piece, OutOfMemory>
        requires method { method < (table self.now).methods }
        requires value { (table self.now).is_action method ≡ false }
        ensures { IfOk result (λ piece. shape_of piece ≡ (table self.now).result_piece method) };

    /// The piece of a register's next word.
    fn next_piece(&self, alloc: Global, register: u32) -> Result<Piece, OutOfMemory>
        requires { register < (table self.now).registers }
        ensures { IfOk result (λ piece. shape_of piece ≡ (table self.now).next_piece register) };

    /// What code that takes any kind may rest on.
    ghost laws: { (kind : Self) → Laws (table kind) };
}
