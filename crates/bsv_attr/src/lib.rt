//! The asserting attributes: where a rule that is marked with `no_implicit_conditions` or `fire_when_enabled` is
//! refused.
//!
//! Modules in reading order: `fault` (what is refused), `marks` (which rules are marked), `implicit` (the implicit
//! conditions of a rule), `stopping` (what stops a rule), `asserting` (the whole), `laws` (there is one answer,
//! and an accepted schedule obeys all attributes). What is refused is defined in `specs/Asserting.antt`, and
//! what a schedule obeys in `specs/Obeying.antt`. `specs/Calling.antt` says what the code needs; no promise
//! rests on it but where it is required.
#![tactic(auto)]

mod asserting;
mod fault;
mod implicit;
mod laws;
mod marks;
mod stopping;

pub use asserting::{asserts, is_countable};
pub use fault::AttrFault;
pub use laws::{answered, listed, obeyed, same_asserted, same_obeyed};
