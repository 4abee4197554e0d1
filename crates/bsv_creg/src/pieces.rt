ghost use Rattle.std.specs.Prelude.{◌≡◌, ◌≤◌, ◌<◌, ◌^◌, IfOk};
ghost use Rattle.bsv_prim.specs.Shape.{shape_of};
ghost use Rattle.bsv_creg.specs.Ports.{number_below};
ghost use Rattle.bsv_creg.specs.Files.{names, named_register, next_word};

use bsv_bits::{Operator, OutOfMemory, Word};
use bsv_prim::Piece;
use std::alloc::Global;

/// What is written through the highest port below this one, or else the register's number.
pub(crate) fn number_piece(alloc: Global, ports: u32) -> Result<Piece, OutOfMemory>
    requires { ports ≤ 5 }
    ensures { IfOk result (λ piece. shape_of piece ≡ number_below ports) }
{
    let mut piece = Piece::register(0);
    for port in 0..ports {
        let write = 2 * port + 1;
        piece = Piece::pick(
            alloc,
            Piece::called(write),
            Piece::argument(write, 0),
            piece,
        )?;
    }
    Ok(piece)
}

/// The register that the address of a read names, among those up to a last one.
pub(crate) fn named_piece(alloc: Global, address: u32, last: u32) -> Result<Piece, OutOfMemory>
    requires some { 1 ≤ address }
    requires most { address ≤ 6 }
    requires within { last < 2 ^ address }
    ensures { IfOk result (λ piece. shape_of piece ≡ named_register address last) }
{
    let mut piece = Piece::register(0);
    for before in 0..last {
        let number = before + 1;
        let here = names_piece(alloc, address, 0, number)?;
        piece = Piece::pick(alloc, here, Piece::register(number), piece)?;
    }
    Ok(piece)
}

/// Whether the first argument of a method is the number of a register.
fn names_piece(
    alloc: Global,
    address: u32,
    method: u32,
    register: u32,
) -> Result<Piece, OutOfMemory>
    requires some { 1 ≤ address }
    requires most { address ≤ 6 }
    requires within { register < 2 ^ address }
    ensures { IfOk result (λ piece. shape_of piece ≡ names address method register) }
{
    match Word::new(address, u128::from(register)) {
        Some(number) => Piece::two(
            alloc,
            Operator::Same,
            Piece::argument(method, 0),
            Piece::constant(number),
        ),
        None => unreachable!(),
    }
}

/// The word that a register is updated with, or else its own.
pub(crate) fn next_word_piece(
    alloc: Global,
    address: u32,
    register: u32,
) -> Result<Piece, OutOfMemory>
    requires some { 1 ≤ address }
    requires most { address ≤ 6 }
    requires within { register < 2 ^ address }
    ensures { IfOk result (λ piece. shape_of piece ≡ next_word address register) }
{
    let here = names_piece(alloc, address, 1, register)?;
    let updated = Piece::two(alloc, Operator::And, Piece::called(1), here)?;
    Piece::pick(
        alloc,
        updated,
        Piece::argument(1, 1),
        Piece::register(register),
    )
}
