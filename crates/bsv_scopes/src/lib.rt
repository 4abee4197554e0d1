//! Scopes: which names are defined, and what each stands for. A name has the number of its first
//! appearance, and each scope is the list of its names in that order, each with what it stands for.
//!
//! Modules in reading order: `scope` (one scope), `scopes` (scopes in scopes: the innermost one that
//! has a name hides the others), `definitions` (the names that the language gives, and the definitions over
//! all packages).
#![tactic(auto)]

mod definitions;
mod scope;
mod scopes;

pub use definitions::{Definitions, Space};
pub use scope::Scope;
pub use scopes::Scopes;
