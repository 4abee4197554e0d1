//! Guards that are lifted out of the elements of a design, where no two calls of one element break the rule of one
//! element; and the laws of one element.
//!
//! Modules in reading order: `fault` (why there are no guards), `pairs` (two calls of one element), `groups` (calls by
//! what they call), `spread` (calls that are never both taken), `search` (the first pair that breaks the rule), `needs`
//! (the guards of an element), `lifting` (the whole), `laws` (what holds of one element, however it is written). What
//! is promised is in `specs/Lifted.antt` and `specs/ElementLaws.antt`, what holds of the calls of one element in
//! `specs/Pairs.antt`.
#![tactic(auto)]

mod fault;
mod groups;
mod laws;
mod lifting;
mod needs;
mod pairs;
mod search;
mod spread;

pub use fault::GuardFault;
pub use laws::{sound_designs, sound_schemes};
pub use lifting::lift;
