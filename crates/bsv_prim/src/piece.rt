ghost use Rattle.std.specs.Prelude.{◌≡◌, IfOk};
ghost use Rattle.bsv_prim.specs.Shape.{shape_of, Given, IsCalled, ArgumentOf, Fixed, Inverted, Both, Chosen, Joined};

use bsv_bits::{Operator, OutOfMemory, Word};
use std::alloc::Global;

/// An expression over the registers of a primitive and the calls of its methods in one clock.
/// Contracts see it by its shape, which has no boxes.
#[derive(Drop)]
pub enum Piece {
    /// The word of a register.
    Register(u32),
    /// Whether a method is called: one bit.
    Called(u32),
    /// An argument, by its number, of the last call of a method; any word where none is called.
    Argument(u32, u32),
    Constant(Word),
    Not(Box<Piece>),
    Two(Operator, Box<Piece>, Box<Piece>),
    /// Where the first is 1 the second, and else the third.
    Pick(Box<Piece>, Box<Piece>, Box<Piece>),
    /// The bits from the second number to the first, both among them.
    Slice(Box<Piece>, u32, u32),
    /// The bits of the first above those of the second.
    Join(Box<Piece>, Box<Piece>),
    /// The same number in so many bits.
    Extend(Box<Piece>, u32),
}

impl Piece {
    /// The word of a register.
    pub fn register(number: u32) -> Piece
        ensures { shape_of result ≡ Given number }
    {
        Piece::Register(number)
    }

    /// Whether a method is called.
    pub fn called(method: u32) -> Piece
        ensures { shape_of result ≡ IsCalled method }
    {
        Piece::Called(method)
    }

    /// An argument of the last call of a method.
    pub fn argument(method: u32, number: u32) -> Piece
        ensures { shape_of result ≡ ArgumentOf method number }
    {
        Piece::Argument(method, number)
    }

    /// A word.
    pub fn constant(word: Word) -> Piece
        ensures { shape_of result ≡ Fixed word }
    {
        Piece::Constant(word)
    }

    /// Each bit turned.
    pub fn not(alloc: Global, a: Piece) -> Result<Piece, OutOfMemory>
        ensures { IfOk result (λ piece. shape_of piece ≡ Inverted (shape_of a)) }
    {
        Ok(Piece::Not(Box::new(alloc, a)?))
    }

    /// An operator of two words.
    pub fn two(alloc: Global, operator: Operator, a: Piece, b: Piece) -> Result<Piece, OutOfMemory>
        ensures { IfOk result (λ piece. shape_of piece ≡ Both operator (shape_of a) (shape_of b)) }
    {
        let a = Box::new(alloc, a)?;
        let b = Box::new(alloc, b)?;
        Ok(Piece::Two(operator, a, b))
    }

    /// Where the choice is 1 the first, and else the second.
    pub fn pick(alloc: Global, choice: Piece, a: Piece, b: Piece) -> Result<Piece, OutOfMemory>
        ensures { IfOk result
            (λ piece. shape_of piece ≡ Chosen (shape_of choice) (shape_of a) (shape_of b)) }
    {
        let choice = Box::new(alloc, choice)?;
        let a = Box::new(alloc, a)?;
        let b = Box::new(alloc, b)?;
        Ok(Piece::Pick(choice, a, b))
    }

    /// The bits of one piece above those of another.
    pub fn join(alloc: Global, high: Piece, low: Piece) -> Result<Piece, OutOfMemory>
        ensures { IfOk result (λ piece. shape_of piece ≡ Joined (shape_of high) (shape_of low)) }
    {
        let high = Box::new(alloc, high)?;
        let low = Box::new(alloc, low)?;
        Ok(Piece::Join(high, low))
    }
}
