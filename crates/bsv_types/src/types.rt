ghost use Rattle.std.specs.Prelude.{◌≡◌, ◌↔◌, IfOk, IsTrue};
ghost use Rattle.bsv_types.specs.Kinds.{kind, same_kind, same_part};

use sqlite_items::Boxed;
use std::alloc::{AllocError, Global};

/// The interfaces that the language gives, beside `Empty`.
#[derive(Clone, Copy, Debug, PartialEq, Eq)]
pub enum PartTy {
    /// `Reg#(T)`
    Reg,
    /// `Wire#(T)`
    Wire,
    /// `RWire#(T)`
    RWire,
    /// `PulseWire`
    PulseWire,
    /// `FIFO#(T)`
    Fifo,
    /// `FIFOF#(T)`
    Fifof,
}

/// A type.
#[derive(Drop)]
pub enum Ty {
    /// `Bit#(n)`
    Bit(u32),
    /// A Bit whose width is so many bits below 0, 1 or more: that of a range that counts down. It has
    /// no values; only a typing that leaves widths aside has it.
    Down(u32),
    /// `UInt#(n)`
    UInt(u32),
    /// `Int#(n)`
    Int(u32),
    Bool,
    /// An enum, by its place among the enums.
    Enum(u32),
    /// A struct, by its place among the structs.
    Struct(u32),
    /// `Maybe#(T)`
    Maybe(Boxed<Ty>),
    /// `Integer`, which has no bits.
    Integer,
    /// An interface that is declared, or `Empty`, by its place among the interfaces.
    Interface(u32),
    /// An interface that the language gives, and its T where it has one.
    Part(PartTy, Option<Boxed<Ty>>),
}

impl PartTy {
    /// Whether two of them are one.
    fn same(self, other: PartTy) -> bool
        ensures { result ≡ same_part self other }
    {
        matches!(
            (self, other),
            (PartTy::Reg, PartTy::Reg)
                | (PartTy::Wire, PartTy::Wire)
                | (PartTy::RWire, PartTy::RWire)
                | (PartTy::PulseWire, PartTy::PulseWire)
                | (PartTy::Fifo, PartTy::Fifo)
                | (PartTy::Fifof, PartTy::Fifof)
        )
    }
}

impl Ty {
    /// An equal type.
    pub fn copy(&self, alloc: Global) -> Result<Ty, AllocError>
        ensures { IfOk result (λ t. t ≡ self.now) }
    {
        Ok(match self {
            Ty::Bit(width) => Ty::Bit(*width),
            Ty::Down(below) => Ty::Down(*below),
            Ty::UInt(width) => Ty::UInt(*width),
            Ty::Int(width) => Ty::Int(*width),
            Ty::Bool => Ty::Bool,
            Ty::Enum(number) => Ty::Enum(*number),
            Ty::Struct(number) => Ty::Struct(*number),
            Ty::Maybe(payload) => {
                let payload = payload.get().copy(alloc)?;
                Ty::Maybe(Boxed::new(alloc, payload)?)
            }
            Ty::Integer => Ty::Integer,
            Ty::Interface(number) => Ty::Interface(*number),
            Ty::Part(part, None) => Ty::Part(*part, None),
            Ty::Part(part, Some(held)) => {
                let held = held.get().copy(alloc)?;
                Ty::Part(*part, Some(Boxed::new(alloc, held)?))
            }
        })
    }

    /// Whether two types are one.
    #[tactic(auto, using(crate::proofs::Exact::same_exactly))]
    pub fn same(&self, other: &Ty) -> bool
        ensures kinds { result ≡ same_kind (kind self.now) (kind other.now) }
        ensures exact { IsTrue result ↔ (self.now ≡ other.now) }
    {
        match (self, other) {
            (Ty::Bit(one), Ty::Bit(two)) => *one == *two,
            (Ty::Down(one), Ty::Down(two)) => *one == *two,
            (Ty::UInt(one), Ty::UInt(two)) => *one == *two,
            (Ty::Int(one), Ty::Int(two)) => *one == *two,
            (Ty::Bool, Ty::Bool) => true,
            (Ty::Enum(one), Ty::Enum(two)) => *one == *two,
            (Ty::Struct(one), Ty::Struct(two)) => *one == *two,
            (Ty::Maybe(one), Ty::Maybe(two)) => one.get().same(two.get()),
            (Ty::Integer, Ty::Integer) => true,
            (Ty::Interface(one), Ty::Interface(two)) => *one == *two,
            (Ty::Part(one, None), Ty::Part(two, None)) => one.same(*two),
            (Ty::Part(one, Some(held)), Ty::Part(two, Some(other))) => {
                one.same(*two) && held.get().same(other.get())
            }
            _ => false,
        }
    }
}
