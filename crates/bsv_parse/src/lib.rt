//! Packages: the tree of a whole file, exactly where its grammar has one.
//!
//! Modules in reading order: `attributes`, `params`, `bodies` (of rules, methods and functions),
//! `simple_module` (statements of a module that hold no other), `rules` (rules, methods and
//! functions), `definitions` (types, interfaces and imports), `modules`, `items` (files), `depth`
//! (how many brackets are open at once), `answer` (the public call). Types and statements are those
//! of `bsv_blocks`.
//!
//! A piece of the tree that is held while something may still fail is in a `Boxed`: an early
//! end then drops it in one step, which keeps the proof of the function short.
#![tactic(auto)]

mod answer;
mod attributes;
mod bodies;
mod definitions;
mod depth;
mod items;
mod modules;
mod params;
mod rules;
mod simple_module;

pub use answer::{ParseFault, one_package, package};
