//! The waves of a run: a design is compiled and run over a trace, and each clock is put as what changes.
//!
//! Modules in reading order: `fault` (why there are no waves), `progress` (how many clocks are done, for who waits),
//! `run` (a design with its simulator, and a clock of it), `recorder` (clocks as waves), `follow` (a file to the pieces of
//! a trace), `whole` (the call itself).
#![tactic(auto)]

mod fault;
mod follow;
mod progress;
mod recorder;
mod run;
mod whole;

pub use fault::WavesFault;
pub use whole::{Asked, waves};
