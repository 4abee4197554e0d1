//! The Verilog of a design: a module that carries it.
//!
//! Modules in reading order: `names` (the names of registers and wires), `known` (what is known of the nodes
//! of a net), `written` (wires with their assignments), `lines` (the nodes as lines), `ports` (the inputs and
//! the methods), `result_widths` (how wide what methods give is), `told_wires` (what fires, what is ready and what that gives) and `generating` (the whole).
//! Which names a module has is in `specs/Names.antt` and `specs/Interfaces.antt`; what it means that it
//! carries a design in `specs/ShowsByModule.antt`, `specs/Runs.antt` and `specs/Resetting.antt`; how nodes become
//! lines in `specs/Lines.antt`.
#![tactic(auto)]

mod generating;
mod known;
mod lines;
mod names;
mod ports;
mod result_widths;
mod told_wires;
mod written;

pub use generating::generate;
