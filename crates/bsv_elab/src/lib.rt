//! Building: a typed design becomes its tree of instances, or is refused.
//!
//! Modules in reading order: `refused` (what refuses), `state` (the tree and a module's body so far), `names` (of
//! instances, rules and methods), `builder` (what each call has at hand), `values` (of expressions in a module's
//! body), `variables` (of it), `attributes`, `kinds` (what makers make), `elements` (rules and methods where they
//! stand), `making` (of instances), `places` (of arrays), `bodies` (the statements of a module), `fault` (what is
//! told), `law` (what holds of all trees), `whole` (the whole). The definition is in `specs/`, where
//! `Building.antt` is its whole, and `Rightness.antt` says what is promised of trees.
#![tactic(auto)]

mod attributes;
mod bodies;
mod builder;
mod elements;
mod fault;
mod kinds;
mod law;
mod making;
mod names;
mod places;
mod refused;
mod state;
mod values;
mod variables;
mod whole;

pub use fault::ElabFault;
pub use law::trees_are_right;
pub use refused::LimitKind;
pub use whole::build;
