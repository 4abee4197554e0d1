//! Why a design has the schedule that it has, and why it has none: from files to sentences, and to a graph.
//!
//! Modules in reading order: `explained` (an accepted design), `designs` (what is told of a design without a schedule),
//! `narrowed` (the statement of a module in which the cause of a refusal is), `modules` (what is told of a module),
//! `sources` (what is told of a place in a source), `causes` (all refusals).
#![tactic(auto)]

mod causes;
mod designs;
mod explained;
mod modules;
mod narrowed;
mod sources;

pub use causes::cause;
pub use explained::{graph, why};
