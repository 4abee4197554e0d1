//! Names and attributes: what a program defines twice, what nothing defines, and which attributes are
//! malformed.
//!
//! Modules in reading order: `place` (where a fault stands), `event` (what a program says of its
//! names), `expression_events`, `statement_events`, `module_events` and `package_events` (the events
//! of each node of a tree, in text order), `names` (the names that are defined twice, and those that
//! nothing defines), `untyped` (the names of what has no typing, and what names them), `attributes`
//! (the first attribute that is malformed).
#![tactic(auto)]

mod attributes;
mod event;
mod expression_events;
mod module_events;
mod names;
mod package_events;
mod place;
mod statement_events;
mod untyped;

pub use attributes::bad_attribute;
pub use names::{twice, unknown};
pub use place::Place;
pub use untyped::{Reach, Untyped, Variables};
