//! Reads case files: what the program is run on, and what it must answer.
//!
//! Modules in reading order: `kind` (the kinds of refusals), `want` (what a case wants of an answer), `outside`
//! (what fails in a case), `case` (a case), `fault` (why a case file is not read), `row` (a row of a table to a
//! case), `section` (what the lines between two heads are), `reader` (the lines of a case file to cases).
#![tactic(auto)]

mod case;
mod fault;
mod kind;
mod outside;
mod reader;
mod row;
mod section;
mod want;

pub use case::Case;
pub use fault::Unread;
pub use kind::Kind;
pub use outside::Outside;
pub use reader::cases_of;
pub use want::{Text, Want, Whole};
