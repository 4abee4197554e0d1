//! The primitives of a hardware design, registers and wires, and the laws that each kind keeps.
//! What holds of many rules in one clock rests on these tables and laws alone.
//!
//! Modules in reading order: `queue` (words in a row, with their room), `part` (the state of a
//! primitive), `piece` (an expression over registers and calls), `primitive` (what every kind
//! answers, and its laws), `cells` (what the kinds share), `reg` and `regu` (registers), `wire`,
//! `dwire`, `rwire` and `pulse` (wires), `serial` (what the laws give of every kind). The tables stand
//! in `specs/Registers.antt` and `specs/WireTables.antt`, the laws in `specs/Laws.antt`, and what
//! follows from them alone in `specs/Parallel.antt` and `specs/Elements.antt`.
#![tactic(auto)]

mod cells;
mod dwire;
mod part;
mod piece;
mod primitive;
mod pulse;
mod queue;
mod reg;
mod regu;
mod rwire;
mod serial;
mod wire;

pub use cells::{always_piece, fits_number, number_of};
pub use dwire::DWireKind;
pub use part::Part;
pub use piece::Piece;
pub use primitive::{Primitive, RegisterInfo, Rel};
pub use pulse::PulseKind;
pub use queue::Queue;
pub use reg::RegKind;
pub use regu::RegUKind;
pub use rwire::RWireKind;
pub use serial::{elements_are_serial, parallel_is_serial};
pub use wire::WireKind;
