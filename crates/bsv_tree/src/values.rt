use crate::steps::{Atom, Step};
use bsv_bits::Word;
use sqlite_items::Items;

/// A value that is known while a design is built. A Bool is a word of one bit.
#[derive(Clone, Copy, Debug, PartialEq, Eq)]
pub enum Constant {
    /// An Integer, which has no bits.
    Number(i64),
    Bits(Word),
}

/// A value while an element is carried out.
#[derive(Clone, Copy, Debug, PartialEq, Eq)]
pub enum Value {
    /// All that it comes from is static.
    Static(Constant),
    Open(Atom),
}

/// A variable of a body that is carried out.
#[derive(Clone, Copy, Debug, PartialEq, Eq)]
pub struct Local {
    pub value: Value,
    pub integer: bool,
    /// It is an Integer that an arm assigned whose condition is not static.
    pub lost: bool,
    /// It was assigned since the arm around began.
    pub touched: bool,
}

/// The weight so far, and how many values stand.
#[derive(Clone, Copy, Debug, PartialEq, Eq)]
pub struct Count {
    pub weight: u64,
    pub slots: u32,
}

/// Steps, and the count after them.
#[derive(Drop)]
pub struct Work {
    pub steps: Items<Step>,
    pub count: Count,
}

/// An arm that was carried out, with its variables after it.
#[derive(Drop)]
pub struct Pending {
    pub condition: Items<Step>,
    pub test: Atom,
    pub body: Items<Step>,
    pub locals: Items<Local>,
}

/// The first refusal that carrying out meets. A module is named by its place.
#[derive(Clone, Copy, Debug, PartialEq, Eq)]
pub enum Fault {
    /// What has to be static is not, or a number leaves its range.
    Static(u32),
    /// A loop begins a turn after its 4,096th.
    Loop(u32),
    /// Calls nest too deep.
    Calls,
    /// The design weighs too much.
    Weight,
}
