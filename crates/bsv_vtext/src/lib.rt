//! Verilog modules: the tree of a module, and its text.
//!
//! Modules in reading order: `tree` (ports, registers, wires and assignments), `modules` (a whole module, of
//! which it is known that its names are apart and its widths belong together), `pieces` (texts that are
//! added piece by piece), `names` (the names of signals), `ports` (the header and the declarations), `sides`
//! (the assignments), `blocks` (the registers at the start and at the edge), `whole` (all of it), `laws` (a
//! text tells its module). What holds of a module is in `specs/Modules.antt`, its text in
//! `specs/VText.antt`, and what it means in `specs/VClock.antt`.
#![tactic(auto)]

mod blocks;
mod laws;
mod modules;
mod names;
mod pieces;
mod ports;
mod sides;
mod tree;
mod whole;

pub use laws::one_text;
pub use modules::VModule;
pub use tree::{Assign, Atom, Side, Target, VMethod, VOperator, VRegister, VWire};
pub use whole::write;
