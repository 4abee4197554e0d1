use bsv_bits::{Operator, Word};
use sqlite_items::Items;

/// A word that a step names.
#[derive(Clone, Copy, Debug, PartialEq, Eq)]
pub enum Atom {
    Word(Word),
    /// The value before which so many values stand.
    Slot(u32),
}

/// What a step computes of words.
#[derive(Clone, Copy, Debug, PartialEq, Eq)]
pub enum Compute {
    Not(Atom),
    Two(Operator, Atom, Atom),
    /// The second one where the first one is 1, else the third one.
    Pick(Atom, Atom, Atom),
    /// The bits from the second number to the first one.
    Slice(Atom, u32, u32),
    /// The bits of the first one above those of the second one.
    Join(Atom, Atom),
    Extend(Atom, u32),
    SignExtend(Atom, u32),
}

/// A method of an instance, by their places.
#[derive(Clone, Copy, Debug, PartialEq, Eq)]
pub struct MethodPlace {
    pub instance: u32,
    pub method: u32,
}

/// What is left to do of an element once all that is static is decided. Values are in one list, to which a
/// step adds what it gives.
#[cycle(steps)]
#[derive(Drop)]
pub enum Step {
    /// It gives one value.
    Let(Compute),
    /// A call of a value method of a primitive, with the steps of its arguments, which come after it in
    /// the order of the text. It gives one value.
    Read(MethodPlace, Items<Atom>, Items<Step>),
    /// A call of an action method of a primitive, in the same way. It gives none.
    Act(MethodPlace, Items<Atom>, Items<Step>),
    /// The word has to be 1: the condition of the user method, or of the element itself, with the steps of
    /// the condition, which come after it in the order of the text.
    Need(Option<MethodPlace>, Atom, Items<Step>),
    Choose(Choice),
}

/// The first arm whose test is 1, or the last one.
#[cycle(steps)]
#[derive(Drop)]
pub struct Choice {
    /// Each condition after the first one is in the last arm of a choice of the one before it, as in a
    /// chain of `?:`. Else all conditions come before the choice.
    pub nested: bool,
    pub arms: Items<Arm>,
    pub last: Items<Step>,
    /// What the last arm gives.
    pub gives: Items<Atom>,
}

/// An arm of a choice. After the choice stand, in the place of all values of its arms, those that the
/// taken arm gives.
#[cycle(steps)]
#[derive(Drop)]
pub struct Arm {
    /// The steps of its condition.
    pub condition: Items<Step>,
    pub test: Atom,
    pub body: Items<Step>,
    pub gives: Items<Atom>,
}
