//! The net of a design up to its firing: which elements fire in a clock, which are ready, and what they give.
//!
//! Modules in reading order: `body` (the nodes of an element), `net_so_far` (the net so far), `builder` (an element more, by
//! urgency) and `firing` (the public call).
#![tactic(auto)]

mod body;
mod builder;
mod firing;
mod net_so_far;

pub use firing::add_fire;
