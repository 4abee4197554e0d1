//! Which nodes of a net stand for the methods of a part: whether a method is called in a clock, and with what.
//!
//! Modules in reading order: `call_sites` (the calls of methods that act, on each part, in the order in which they take
//! effect), `ground` (where inputs and registers stand) and `ports` (the nodes of a method, from its call sites).
#![tactic(auto)]

mod call_sites;
mod ground;
mod ports;

pub use call_sites::{CallSite, all_call_sites};
pub use ground::{first_nodes, input_starts, inputs_of, register_starts, registers_of};
pub use ports::{Firing, port};
