//! A suite: many traces of one design, which are run side by side.
//!
//! Modules in reading order: `halt` (why a list or a suite is not done), `list` (a file to the names of traces), `report` (the
//! report of a trace, gathered in memory), `sections` (a trace to its section, and the traces of a group to theirs, by a worker
//! each), `text` (a section put), `suite` (names to what is told of their traces, group by group). What a list names stands in
//! `specs/Lists.antt`, what a section is in `specs/Sections.antt`, its text in `specs/Texts.antt`, and what is told of a suite in
//! `specs/Suites.antt`.
#![tactic(auto)]

mod halt;
mod list;
mod report;
mod sections;
mod suite;
mod text;

pub use halt::{ListHalt, SuiteHalt};
pub use list::read_list;
pub use sections::{Section, Trace, reports};
pub use suite::run_suite;
pub use text::put_section;
