ghost use Rattle.std.specs.Prelude.{◌≡◌, ◌≤◌, IfOk};
ghost use Rattle.bsv_prim.specs.Shape.{shape_of};
ghost use Rattle.bsv_fifo.specs.Bypass.{has_or_gets_item, first_or_newest, bypass_next_piece};

use crate::meaning::{change, fits_queue, guard_of, register_of, result_of};
use crate::method::Method;
use crate::pieces::{item_piece, newest_piece, number_piece, room_piece};
use bsv_bits::{Operator, OutOfMemory, Word};
use bsv_prim::{Part, Piece, Primitive, Queue, RegisterInfo, Rel, always_piece};
use std::alloc::Global;

/// A queue of depth 1 through which an item passes in one clock.
#[derive(Clone, Copy, Debug, PartialEq, Eq)]
pub struct BypassKind {
    pub width: u32,
    ghost some_width: { 1 ≤ width },
    ghost most_width: { width ≤ 128 },
}

/// Whether there is an item, or one comes.
fn item_or_enq_piece(alloc: Global) -> Result<Piece, OutOfMemory>
    ensures { IfOk result (λ piece. shape_of piece ≡ has_or_gets_item) }
{
    let item = item_piece(alloc, 1)?;
    Piece::two(alloc, Operator::Or, item, Piece::called(0))
}

/// The item that was there, or else the one that comes.
fn front_piece(alloc: Global) -> Result<Piece, OutOfMemory>
    ensures { IfOk result (λ piece. shape_of piece ≡ first_or_newest) }
{
    let item = item_piece(alloc, 1)?;
    Piece::pick(alloc, item, Piece::register(1), Piece::argument(0, 0))
}

/// The number of items after the calls: where the front goes, none is left, also where it came in
/// this clock.
fn count_piece(alloc: Global) -> Result<Piece, OutOfMemory>
    ensures { IfOk result (λ piece. shape_of piece ≡ bypass_next_piece 0) }
{
    let with = Piece::pick(
        alloc,
        Piece::called(0),
        number_piece(1, 1),
        Piece::register(0),
    )?;
    let without = Piece::pick(alloc, Piece::called(1), number_piece(1, 0), with)?;
    Piece::pick(alloc, Piece::called(5), number_piece(1, 0), without)
}

impl Primitive for BypassKind {
    ghost use Rattle.bsv_fifo.specs.Bypass.{bypass_table};
    ghost use Rattle.bsv_fifo.specs.BypassLaws.{bypass_laws};

    ghost table = { λ kind. bypass_table kind.width };

    fn methods(&self) -> u32 {
        6
    }

    fn arity(&self, method: u32) -> u32 {
        Method::of(method).arity()
    }

    fn argument_width(&self, _method: u32, _argument: u32) -> u32 {
        self.width
    }

    fn is_action(&self, method: u32) -> bool {
        Method::of(method).changes()
    }

    fn opening(&self, alloc: Global) -> Result<Part, OutOfMemory> {
        Ok(Part::Queue(Queue::new(alloc, 1)?))
    }

    fn fits(&self, part: &Part) -> bool {
        fits_queue(self.width, 1, part)
    }

    fn emptied(&self, _part: &mut Part) {}

    fn guarded(&self, method: u32) -> bool {
        Method::of(method).waits()
    }

    fn guard(&self, method: u32, part: &Part) -> bool {
        guard_of(1, Method::of(method), part)
    }

    fn result(&self, method: u32, part: &Part, _args: &[Word]) -> Word {
        result_of(self.width, 1, Method::of(method), part)
    }

    fn apply(&self, method: u32, part: &mut Part, args: &[Word]) {
        if let Part::Queue(queue) = part {
            change(Method::of(method), queue, args);
        }
    }

    fn rank(&self, method: u32) -> u32 {
        match Method::of(method) {
            Method::Enq => 1,
            Method::Deq => 2,
            Method::Clear => 3,
            _ => 0,
        }
    }

    fn relation(&self, first: u32, second: u32) -> Rel {
        match (Method::of(first), Method::of(second)) {
            (Method::Enq, Method::Enq) | (Method::Deq, Method::Deq) => Rel::C,
            (Method::Clear, Method::Clear) => Rel::Sbr,
            (_, Method::Clear) => Rel::Sb,
            (Method::Clear, _) => Rel::Sa,
            (Method::NotFull, Method::Enq | Method::Deq) => Rel::Sb,
            (Method::Enq | Method::Deq, Method::NotFull) => Rel::Sa,
            (Method::Enq, Method::First | Method::NotEmpty | Method::Deq) => Rel::Sb,
            (Method::First | Method::NotEmpty | Method::Deq, Method::Enq) => Rel::Sa,
            (Method::First | Method::NotEmpty, Method::Deq) => Rel::Sb,
            (Method::Deq, Method::First | Method::NotEmpty) => Rel::Sa,
            _ => Rel::Cf,
        }
    }

    fn sees(&self, seen: u32, by: u32) -> bool {
        matches!(
            (Method::of(seen), Method::of(by)),
            (Method::Enq, Method::First | Method::NotEmpty | Method::Deq)
        )
    }

    fn registers(&self) -> u32 {
        2
    }

    fn register(&self, number: u32) -> RegisterInfo {
        register_of(self.width, 1, number)
    }

    fn guard_piece(&self, alloc: Global, method: u32) -> Result<Piece, OutOfMemory> {
        match Method::of(method) {
            Method::Enq => room_piece(alloc, 1),
            Method::Deq | Method::First => item_or_enq_piece(alloc),
            _ => Ok(always_piece()),
        }
    }

    fn result_piece(&self, alloc: Global, method: u32) -> Result<Piece, OutOfMemory> {
        match Method::of(method) {
            Method::First => front_piece(alloc),
            Method::NotFull => room_piece(alloc, 1),
            Method::NotEmpty => item_or_enq_piece(alloc),
            _ => Ok(always_piece()),
        }
    }

    fn next_piece(&self, alloc: Global, register: u32) -> Result<Piece, OutOfMemory> {
        if register == 0 {
            count_piece(alloc)
        } else {
            newest_piece(alloc)
        }
    }

    ghost laws = { λ kind. bypass_laws kind.width kind.some_width kind.most_width };
}
