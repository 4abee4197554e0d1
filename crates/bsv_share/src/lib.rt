//! A net that gives the same with fewer nodes: operators of constants are computed, equal nodes are there once, and what no
//! output needs is left out.
//!
//! Modules in reading order: `key` (nodes as numbers), `operands` (the nodes that a node reads), `simplify` (nodes that are
//! constants, or have the word of an earlier one), `outputs` (a net with other nodes), `fold` (a net without equal nodes),
//! `order` (the nodes that are needed, and their order), `moves` (a net whose nodes are in another order) and `sharing` (the
//! public call). What it promises is in `specs/Sharing.antt`.
#![tactic(auto)]

mod fold;
mod key;
mod moves;
mod operands;
mod order;
mod outputs;
mod sharing;
mod simplify;
#[cfg(test)]
mod tests;

pub use sharing::share;
