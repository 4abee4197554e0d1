//! Tests of the crates below the top, of what no output of the program shows: files and sinks of each kind
//! (`outside`), the tables of the kinds against tables written a second time (`kinds`), elements and nets that are
//! in no order (`widths`, `nets`), states beside their copies (`states`), and the laws (`laws`).
//!
//! They are apart from what they test: a crate's own tests are proved with the whole crate once more.
#![tactic(auto)]

#[cfg(test)]
mod kinds;
#[cfg(test)]
mod laws;
#[cfg(test)]
mod nets;
#[cfg(test)]
mod outside;
#[cfg(test)]
mod states;
#[cfg(test)]
mod widths;
