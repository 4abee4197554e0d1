//! One clock of a design, element by element, and one element that is run whole.
//!
//! Modules in reading order: `calls_made` (the calls that are made on one part), `looks` (what the methods of parts look
//! at), `words` and `body` (what an element is computed from: its guards, its words and its value), `making` (its
//! calls), `setting` (an element of a design), `fates`, `stopping` and `decider` (what comes of each element, by
//! urgency), `placing` (the places in the execution order), `parts` (the parts at the clock's start, and after the
//! calls), `told_events` (what is told of a clock), and the public calls: `clocks` and `turning`.
#![tactic(auto)]

mod body;
mod calls_made;
mod clocks;
mod decider;
mod fates;
mod looks;
mod making;
mod outcome;
mod parts;
mod placing;
mod setting;
mod stopping;
mod told_events;
mod turning;
mod words;

pub use clocks::clock;
pub use outcome::Turn;
pub use turning::turn;
