//! What a refusal is about in the source: its line with a mark, the usual causes by what stands there, and which modules
//! make which.
//!
//! Modules in reading order: `text` (a source with its tokens), `reading` (the source of a file), `lines` (a line of a
//! source with a mark under a place), `tables` (usual causes by the tokens that stand somewhere), `usual` (these causes),
//! `places` (what is told of a refusal with a place), `makes` (which modules make which, and the chain to one of them),
//! `statements` (the statements of a module, one by one), `reads` (what the body of a module reads), `named` (where names
//! are given and asked for).
#![tactic(auto)]

mod lines;
mod makes;
mod named;
mod places;
mod reading;
mod reads;
mod statements;
mod tables;
mod text;
mod usual;

pub use lines::put_marked;
pub use makes::{Make, makes_of, put_chain};
pub use named::{put_limit, put_name_taken, put_no_module, put_no_rule};
pub use places::put_place;
pub use reading::read_source;
pub use reads::put_reads;
pub use statements::{ModulePlace, blanked, bodies_of, module_in, statements_of};
pub use tables::put_suspects;
pub use text::{Extent, Source, Text};
pub use usual::{LOOPS, STATICS};
