//! The design of a tree: each rule and each method of the top as a flat body, over the primitives of the tree.
//!
//! Modules in reading order: `parts` (the places of instances among the primitives), `naming` (the names of methods) and
//! `placer` (a body as an element of a design); `rules` and `sources` (the elements of a tree, each carried out
//! alone), `primitives`, and `designs` (the design of a tree). What is promised of an element is
//! `specs/Flattening.antt`. The other files of `specs/` say how the code goes about it; no promise rests on them.
#![tactic(auto)]

mod designs;
mod naming;
mod parts;
mod placer;
mod primitives;
mod rules;
mod sources;

pub use designs::flatten;
