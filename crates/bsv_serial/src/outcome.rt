use bsv_bits::Word;

/// What comes of an element that is run on its own.
#[derive(Clone, Copy, Debug, PartialEq, Eq)]
pub enum Turn {
    /// It is not ready.
    Closed,
    /// It is run whole, and gives this word where it gives one.
    Ran(Option<Word>),
}
