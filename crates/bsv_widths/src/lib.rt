//! Whether a flat body has the widths that its operators need.
//!
//! Modules in reading order: `methods` (what a method of a kind answers), `operators` (the widths that operators give),
//! `calls` (whether calls fit), `node_widths` (the widths of all nodes), `elements` (whether an element has its widths).
//! The definition is `specs/Widths.antt` of `bsv_design`.
#![tactic(auto)]

mod calls;
mod elements;
mod methods;
mod node_widths;
mod operators;

pub use elements::{has_widths, is_countable, value_acts_not};
pub use node_widths::widths;
