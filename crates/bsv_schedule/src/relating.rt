//! How the elements of a design relate.
//!
//! Modules in reading order: `related` (how two calls on one part may stand to each other), `usage` and `uses` (the
//! methods that an element uses, each once), `meeting` (elements of which two uses stand in a relation), `rows` (of each element,
//! which elements it stands to in a relation), `relations` (all of a design).

mod meeting;
mod related;
mod relations;
mod rows;
mod usage;
mod uses;

pub use meeting::{feeds, goes};
pub use relations::Relations;
