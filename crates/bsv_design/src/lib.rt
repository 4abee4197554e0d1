//! The kinds of primitives of a hardware design, as one type, and the design of flat bodies over them.
//!
//! Modules in reading order: `computing` (the words that operators give), `names` (the names of the methods), `kind` (the
//! nine kinds), `printed` (what is printed of a part), `paths` (the text of a path), `node` and `element` (an element as a
//! flat body), `attributes` (what attributes ask of rules), `design` (the design of such bodies, and what holds of it),
//! `state`, `requests`, `fired` and `schedule` (what a clock takes and gives). The tables are in `specs/parts/Kinds.antt`,
//! the names in `specs/parts/MethodNames.antt`, and what all later definitions speak of in `specs/scheme/Schemes.antt`.
#![tactic(auto)]

mod attributes;
mod computing;
mod design;
mod element;
mod fired;
mod kind;
mod names;
mod node;
mod paths;
mod printed;
mod requests;
mod schedule;
mod state;

pub use attributes::{Assert, Attribute, Pair};
pub use computing::{between, extended, joined, picked, sign_extended, sliced, word, word_at};
pub use design::{Design, NamedPart};
pub use element::{Call, Condition, Element, Port, Role};
pub use fired::Fired;
pub use kind::Kind;
pub use node::{Branch, Node};
pub use paths::path_of;
pub use requests::Requests;
pub use schedule::{Guards, Need, Schedule};
pub use state::State;
