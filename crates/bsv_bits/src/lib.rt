//! Names, and words of 1 to 128 bits: the values that every layer of the compiler handles.
//!
//! Modules in reading order: `memory` (the error of a call that found no memory), `name`
//! (a text that contracts see as its bytes), `word` (a width with a value below 2^width, and the
//! arithmetic on such words), `numbers` (that arithmetic on whole numbers), `operator` (the
//! operators of two words), `hex` (how a word prints), `digit_values` (the number that digits are).
#![tactic(auto)]

mod digit_values;
mod hex;
mod memory;
mod name;
mod numbers;
mod operator;
mod word;

pub use digit_values::value_of;
pub use memory::OutOfMemory;
pub use name::Name;
pub use operator::Operator;
pub use word::Word;
