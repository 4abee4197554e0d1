//! The net of a design, whole: the next word of each register, from the calls of the elements that fire.
//!
//! Modules in reading order: `parts` (the next words of one part) and `muxing` (the public call).
#![tactic(auto)]

mod muxing;
mod parts;

pub use muxing::add_next;
