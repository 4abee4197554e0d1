ghost use Rattle.std.specs.Prelude.{◌≡◌, ◌≤◌, IfOk};
ghost use Rattle.bsv_prim.specs.Shape.{shape_of};
ghost use Rattle.bsv_fifo.specs.QueueTable.{number, has_room, has_item, newest_item};

use crate::method::count_width_of;
use bsv_bits::{Operator, OutOfMemory, Word};
use bsv_prim::Piece;
use std::alloc::Global;

/// A number as wide as the count of the items.
pub(crate) fn number_piece(depth: u32, value: u32) -> Piece
    requires some { 1 ≤ depth }
    requires most { depth ≤ 64 }
    requires within { value ≤ depth }
    ensures { shape_of result ≡ number depth value }
{
    match Word::new(count_width_of(depth), u128::from(value)) {
        Some(word) => Piece::constant(word),
        None => unreachable!(),
    }
}

/// Whether there are fewer items than the depth.
pub(crate) fn room_piece(alloc: Global, depth: u32) -> Result<Piece, OutOfMemory>
    requires some { 1 ≤ depth }
    requires most { depth ≤ 64 }
    ensures { IfOk result (λ piece. shape_of piece ≡ has_room depth) }
{
    Piece::two(
        alloc,
        Operator::Less,
        Piece::register(0),
        number_piece(depth, depth),
    )
}

/// Whether there is an item.
pub(crate) fn item_piece(alloc: Global, depth: u32) -> Result<Piece, OutOfMemory>
    requires some { 1 ≤ depth }
    requires most { depth ≤ 64 }
    ensures { IfOk result (λ piece. shape_of piece ≡ has_item depth) }
{
    Piece::two(
        alloc,
        Operator::Less,
        number_piece(depth, 0),
        Piece::register(0),
    )
}

/// The item that comes, or else that of the first item's register.
pub(crate) fn newest_piece(alloc: Global) -> Result<Piece, OutOfMemory>
    ensures { IfOk result (λ piece. shape_of piece ≡ newest_item) }
{
    Piece::pick(
        alloc,
        Piece::called(0),
        Piece::argument(0, 0),
        Piece::register(1),
    )
}
