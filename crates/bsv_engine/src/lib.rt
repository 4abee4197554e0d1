//! The engine: the nodes of a net as straight-line code, which is made once and run clock after clock.
//!
//! A word of at most 64 bits is computed as a machine number, and neighbouring nodes of one form in one loop. All other
//! nodes are computed one by one, with the operators of `bsv_bits`. The engine knows no design and no schedule.
//!
//! Modules in reading order: `widths` (what the forms ask of widths), `step` (how one word comes from earlier ones),
//! `bitwise`, `sums`, `orders`, `shifts` and `parts` (the forms of steps), `run` (steps of one form), `cells` (where the
//! words are kept, and a node whose word or operands are wide), `running` (runs, one after another), `making` (the runs
//! of nodes) and `engine`. What an engine is to those who use it is in `specs/Codes.antt` and `specs/Engines.antt`.
#![tactic(auto)]

mod bitwise;
mod cells;
mod engine;
mod making;
mod orders;
mod parts;
mod run;
mod running;
mod shifts;
mod step;
mod sums;
#[cfg(test)]
mod tests;
mod widths;

pub use engine::Engine;
