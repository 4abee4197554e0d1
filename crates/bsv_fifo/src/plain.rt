ghost use Rattle.std.specs.Prelude.{◌≡◌, ◌<◌, ◌≤◌, IfOk};
ghost use Rattle.bsv_prim.specs.Shape.{shape_of};
ghost use Rattle.bsv_fifo.specs.Plain.{count_with, count_without, next_count, filled, behind, next_item};

use crate::meaning::{change, fits_queue, guard_of, register_of, result_of};
use crate::method::Method;
use crate::pieces::{item_piece, number_piece, room_piece};
use bsv_bits::{Operator, OutOfMemory, Word};
use bsv_prim::{Part, Piece, Primitive, Queue, RegisterInfo, Rel, always_piece};
use std::alloc::Global;

/// A queue whose methods see no call of the same clock.
#[derive(Clone, Copy, Debug, PartialEq, Eq)]
pub struct PlainKind {
    pub width: u32,
    pub depth: u32,
    ghost some_width: { 1 ≤ width },
    ghost most_width: { width ≤ 128 },
    ghost some_depth: { 1 ≤ depth },
    ghost most_depth: { depth ≤ 64 },
}

/// The number of items after the calls.
fn count_piece(alloc: Global, depth: u32) -> Result<Piece, OutOfMemory>
    requires some { 1 ≤ depth }
    requires most { depth ≤ 64 }
    ensures { IfOk result (λ piece. shape_of piece ≡ next_count depth) }
{
    let more = Piece::two(
        alloc,
        Operator::Add,
        Piece::register(0),
        number_piece(depth, 1),
    )?;
    let fewer = Piece::two(
        alloc,
        Operator::Sub,
        Piece::register(0),
        number_piece(depth, 1),
    )?;
    let with = Piece::pick(alloc, Piece::called(1), Piece::register(0), more)?;
    let without = Piece::pick(alloc, Piece::called(1), fewer, Piece::register(0))?;
    let kept = Piece::pick(alloc, Piece::called(0), with, without)?;
    Piece::pick(alloc, Piece::called(5), number_piece(depth, 0), kept)
}

/// The new item, where it comes and there are so many items; or else the word of a register.
fn filled_piece(alloc: Global, depth: u32, place: u32, register: u32) -> Result<Piece, OutOfMemory>
    requires some { 1 ≤ depth }
    requires most { depth ≤ 64 }
    requires within { place ≤ depth }
    ensures { IfOk result (λ piece. shape_of piece ≡ filled depth place register) }
{
    let here = Piece::two(
        alloc,
        Operator::Same,
        Piece::register(0),
        number_piece(depth, place),
    )?;
    let comes = Piece::two(alloc, Operator::And, Piece::called(0), here)?;
    Piece::pick(
        alloc,
        comes,
        Piece::argument(0, 0),
        Piece::register(register),
    )
}

/// The register of the place after this one, or that of the last place itself.
fn register_after(depth: u32, place: u32) -> u32
    requires most { depth ≤ 64 }
    requires within { place < depth }
    ensures { result ≡ behind depth place }
{
    if place + 1 < depth {
        place + 2
    } else {
        place + 1
    }
}

/// What is at a place after the calls.
fn place_piece(alloc: Global, depth: u32, place: u32) -> Result<Piece, OutOfMemory>
    requires most { depth ≤ 64 }
    requires within { place < depth }
    ensures { IfOk result (λ piece. shape_of piece ≡ next_item depth place) }
{
    let moved = filled_piece(alloc, depth, place + 1, register_after(depth, place))?;
    let stayed = filled_piece(alloc, depth, place, place + 1)?;
    Piece::pick(alloc, Piece::called(1), moved, stayed)
}

impl Primitive for PlainKind {
    ghost use Rattle.bsv_fifo.specs.Plain.{plain_table};
    ghost use Rattle.bsv_fifo.specs.PlainLaws.{plain_laws};

    ghost table = { λ kind. plain_table kind.width kind.depth };

    fn methods(&self) -> u32 {
        6
    }

    fn arity(&self, method: u32) -> u32 {
        Method::of(method).arity()
    }

    fn argument_width(&self, _method: u32, _argument: u32) -> u32 {
        self.width
    }

    fn is_action(&self, method: u32) -> bool {
        Method::of(method).changes()
    }

    fn opening(&self, alloc: Global) -> Result<Part, OutOfMemory> {
        Ok(Part::Queue(Queue::new(alloc, self.depth)?))
    }

    fn fits(&self, part: &Part) -> bool {
        fits_queue(self.width, self.depth, part)
    }

    fn emptied(&self, _part: &mut Part) {}

    fn guarded(&self, method: u32) -> bool {
        Method::of(method).waits()
    }

    fn guard(&self, method: u32, part: &Part) -> bool {
        guard_of(self.depth, Method::of(method), part)
    }

    fn result(&self, method: u32, part: &Part, _args: &[Word]) -> Word {
        result_of(self.width, self.depth, Method::of(method), part)
    }

    fn apply(&self, method: u32, part: &mut Part, args: &[Word]) {
        if let Part::Queue(queue) = part {
            change(Method::of(method), queue, args);
        }
    }

    fn rank(&self, method: u32) -> u32 {
        match Method::of(method) {
            Method::Deq => 1,
            Method::Enq => 2,
            Method::Clear => 3,
            _ => 0,
        }
    }

    fn relation(&self, first: u32, second: u32) -> Rel {
        match (Method::of(first), Method::of(second)) {
            (Method::Enq, Method::Enq) | (Method::Deq, Method::Deq) => Rel::C,
            (Method::Clear, Method::Clear) => Rel::Sbr,
            (_, Method::Clear) => Rel::Sb,
            (Method::Clear, _) => Rel::Sa,
            (Method::NotFull | Method::NotEmpty, Method::Enq) => Rel::Sb,
            (Method::Enq, Method::NotFull | Method::NotEmpty) => Rel::Sa,
            (Method::First | Method::NotFull | Method::NotEmpty, Method::Deq) => Rel::Sb,
            (Method::Deq, Method::First | Method::NotFull | Method::NotEmpty) => Rel::Sa,
            _ => Rel::Cf,
        }
    }

    fn sees(&self, _seen: u32, _by: u32) -> bool {
        false
    }

    fn registers(&self) -> u32 {
        self.depth + 1
    }

    fn register(&self, number: u32) -> RegisterInfo {
        register_of(self.width, self.depth, number)
    }

    fn guard_piece(&self, alloc: Global, method: u32) -> Result<Piece, OutOfMemory> {
        match Method::of(method) {
            Method::Enq => room_piece(alloc, self.depth),
            Method::Deq | Method::First => item_piece(alloc, self.depth),
            _ => Ok(always_piece()),
        }
    }

    fn result_piece(&self, alloc: Global, method: u32) -> Result<Piece, OutOfMemory> {
        match Method::of(method) {
            Method::First => Ok(Piece::register(1)),
            Method::NotFull => room_piece(alloc, self.depth),
            Method::NotEmpty => item_piece(alloc, self.depth),
            _ => Ok(always_piece()),
        }
    }

    fn next_piece(&self, alloc: Global, register: u32) -> Result<Piece, OutOfMemory> {
        if register == 0 {
            count_piece(alloc, self.depth)
        } else {
            place_piece(alloc, self.depth, register - 1)
        }
    }

    ghost laws = { λ kind.
        plain_laws kind.width kind.depth kind.some_width kind.most_width kind.some_depth
        kind.most_depth };
}
