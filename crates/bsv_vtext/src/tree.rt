use bsv_bits::{Name, Word};
use sqlite_items::Items;

/// A name with its width in bits: a wire, or an argument of a method.
#[derive(Drop)]
pub struct VWire {
    pub name: Name,
    pub width: u32,
}

/// The ports of a method of the top.
#[derive(Drop)]
pub struct VMethod {
    pub name: Name,
    /// By their names in the method.
    pub args: Items<VWire>,
    /// Whether it has an enable.
    pub action: bool,
    /// The width of what it gives.
    pub result: Option<u32>,
}

/// A register with the word that it begins with.
#[derive(Drop)]
pub struct VRegister {
    pub name: Name,
    pub start: Word,
    /// Whether the reset sets it to that word again.
    pub resets: bool,
}

/// What an assignment gives a word. A number names a wire or a method by its place.
#[derive(Clone, Copy, Debug, PartialEq, Eq)]
pub enum Target {
    Wire(u32),
    /// Whether the method is ready.
    Ready(u32),
    /// What the method gives.
    Result(u32),
}

/// What an expression is made of. Numbers name methods, arguments of a method, registers and wires by
/// their places.
#[derive(Clone, Copy, Debug, PartialEq, Eq)]
pub enum Atom {
    Enable(u32),
    /// The method, and which of its arguments.
    Argument(u32, u32),
    Register(u32),
    Wire(u32),
    Constant(Word),
}

/// An operator of two operands, unsigned.
#[derive(Clone, Copy, Debug, PartialEq, Eq)]
pub enum VOperator {
    Add,
    Sub,
    Mul,
    And,
    Or,
    Xor,
    Same,
    Differs,
    Less,
    UpTo,
    Shl,
    Shr,
}

/// The right side of an assignment.
#[derive(Drop)]
pub enum Side {
    Is(Atom),
    Not(Atom),
    Two(VOperator, Atom, Atom),
    LessSigned(Atom, Atom),
    UpToSigned(Atom, Atom),
    /// Shifted right, filled with the most significant bit.
    ShiftSigned(Atom, Atom),
    /// The second one where the first one is 1, else the third one.
    Pick(Atom, Atom, Atom),
    /// The most significant one first.
    Join(Items<Atom>),
    /// The bits from the second number to the first one.
    Slice(Atom, u32, u32),
}

/// A continuous assignment.
#[derive(Drop)]
pub struct Assign {
    pub target: Target,
    pub side: Side,
}
