//! A design that is simulated on its net: the net is run once a clock, and what its words tell is what happens.
//!
//! Modules in reading order: `inputs` (the words of the inputs, of what is asked), `signals` (what the words of the nodes
//! tell of the elements), `stoppers` (the first element that stops each one), `events` (what is told of a clock),
//! `registers` (their next words) and `sim` (the public calls). What is promised is in `specs/Simulation.antt`.
#![tactic(auto)]

mod events;
mod inputs;
mod registers;
mod signals;
mod sim;
mod stoppers;

pub use sim::Sim;
