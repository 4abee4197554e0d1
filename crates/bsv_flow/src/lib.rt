//! Compiling: from files to designs of flat bodies with their schedules, and the refusals.
//!
//! Modules in reading order: `refusal` (why a design is not compiled, and how it is told), `source` (the
//! bytes of a file), `position` (the line and the column of a byte), `parse` (the package that a source is),
//! `queue` (the files that imports name), `loading`, `typing` (the typed program of what was loaded),
//! `building` (the tree of a typed program), `naming` (elements and parts by their names), `flattening` (its
//! design, with the guards), `scheduling` (its schedule), `compiling` (all of it).
#![tactic(auto)]

mod building;
mod compiling;
mod flattening;
mod loading;
mod naming;
mod parse;
mod position;
mod queue;
mod refusal;
mod scheduling;
mod source;
mod typing;

pub use building::{one_building, tree};
pub use compiling::{compile, compiled, one_plan};
pub use flattening::flat;
pub use loading::{Loaded, load, one_loading};
pub use refusal::{CompileFault, Refusal};
pub use scheduling::{Compiled, one_schedule, scheduled};
pub use source::Source;
pub use typing::{one_typing, typed};
