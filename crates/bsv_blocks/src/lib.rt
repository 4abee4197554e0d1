//! Statements: their trees, exactly where the grammar has one.
//!
//! Modules in reading order: `types` (types as they are written), `simple` (statements that hold no
//! other, conditions and the heads of loops), `statements`.
//!
//! A piece of the tree that is held while something may still fail is in a `Boxed`: an early
//! end then drops it in one step, which keeps the proof of the function short.
#![tactic(auto)]

mod simple;
mod statements;
mod types;

pub use simple::{head, word};
pub use statements::{STMT_FIRST, stmt};
pub use types::written;
