//! Registers with several ports and register files of a hardware design, as primitives that keep
//! the laws.
//!
//! Modules in reading order: `method` (the methods of a register with ports), `pieces` (the pieces
//! of both kinds), `creg` (a register with ports), `words` (the words of a register file), `regfile`
//! (a register file). The tables stand in `specs/Ports.antt` and `specs/Files.antt`.
#![tactic(auto)]

mod creg;
mod method;
mod pieces;
mod regfile;
mod words;

pub use creg::CRegKind;
pub use regfile::RegFileKind;
