//! Flat bodies: the steps of an element as nodes, each computed of nodes before it, with the same meaning.
//!
//! Modules in reading order: `calls` (calls and conditions), `state` (the nodes so far), `operands` (the nodes
//! of what steps name), `choices` (where arms join), `flattener` (what each call has at hand), `walk` (the steps) and
//! `body` (the whole). What is promised of a body is `specs/Bodies.antt`. The other files of `specs/` say how the
//! code goes about it; no promise rests on them.
#![tactic(auto)]

mod body;
mod calls;
mod choices;
mod flattener;
mod operands;
mod state;
mod walk;

pub use body::{Body, flat_body};
pub use calls::{Call, Condition};
pub use state::{Laid, next, numbered};
