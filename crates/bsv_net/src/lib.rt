//! Nets: words that are computed of registers, of inputs and of each other, once a clock.
//!
//! Modules in reading order: `node` (what a node is), `nodes` (how nodes are added), `net_data`, `bodies`,
//! `checks` and `net` (what a net is made of, what holds of it, and its evaluation) and `wires` (how a
//! piece of a part is placed among nodes). What a net means is in `specs/Nets.antt`, and what its
//! words are to each other in `specs/Equations.antt`.
#![tactic(auto)]

mod bodies;
mod checks;
mod net;
mod net_data;
mod node;
mod nodes;
mod wires;

pub use net::Net;
pub use net_data::NetData;
pub use node::{NetNode, Site};
pub use nodes::{add, both, either, negated};
pub use wires::{MethodPort, Wires, node_at};
