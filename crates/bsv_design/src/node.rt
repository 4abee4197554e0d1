use bsv_bits::{Operator, Word};

/// A word, computed of words before it. A number names a node by its place.
#[derive(Clone, Copy, Debug, PartialEq, Eq)]
pub enum Node {
    Constant(Word),
    /// The argument of this place.
    Argument(u32),
    /// What the call of this place gives.
    Result(u32),
    Not(u32),
    Two(Operator, u32, u32),
    /// The second one where the first one is 1, else the third one.
    Pick(u32, u32, u32),
    /// The bits from the second number to the first one.
    Slice(u32, u32, u32),
    /// The bits of the first one above those of the second one.
    Join(u32, u32),
    Extend(u32, u32),
    SignExtend(u32, u32),
}

/// An arm, by its choice and its place there. Choices are numbered in the order in which they are met.
#[derive(Clone, Copy, Debug, PartialEq, Eq)]
pub struct Branch {
    pub choice: u32,
    pub arm: u32,
}
