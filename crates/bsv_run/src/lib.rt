//! A trace that is run: each line of it is a clock of a design on its net, whose report is put.
//!
//! Modules in reading order: `lines` (the lines of a trace, gathered across its pieces), `halt` (why a trace is not run to
//! its end), `run` (a piece of a trace to clocks and their lines). What the lines of a trace ask for stands in
//! `specs/Traces.antt`, the text of a report in `specs/Reports.antt`, and what is promised in `specs/Running.antt`.
#![tactic(auto)]

mod halt;
mod lines;
mod run;

pub use halt::Halt;
pub use lines::{Lines, first_line, text_of};
pub use run::Run;
