//! The waves of a design as a value change dump (IEEE 1364-2005, clause 18): which signals there are, and how they change
//! from one time to the next. It knows no trace and runs no clock.
//!
//! Modules in reading order: `signal` (signals, the scopes that they stand in, and the words that they show), `titles`
//! (their names), `types` (the types that instances are declared with), `values` (the signals of a value, by its type),
//! `walk` (the signals of a design, instance by instance), `header` (their declarations), `happened` (what happens in a
//! clock, by element), `parts` (a part of a word as text), `waves` (the changes).
#![tactic(auto)]

mod happened;
mod header;
mod parts;
mod signal;
mod titles;
mod types;
mod values;
mod walk;
mod waves;

pub use waves::Waves;
