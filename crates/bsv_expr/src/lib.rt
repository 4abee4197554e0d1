//! Expressions: the tree of some tokens, exactly where the grammar has one.
//!
//! A grammar is a value, and what it says is a relation between a tree, the tokens in front of
//! which it stands and those after it. Each reader of this crate is proved to read what a named
//! grammar says; that one token ahead is enough is a test that the checker computes.
//!
//! Modules in reading order: `lexeme` (a token as the grammar sees it), `fault` (why nothing was
//! read), `input` (a word, a name, a number), `operators` (the operators and their levels),
//! `reader` (a reader for each nonterminal), `extent` (the longest expression).
//!
//! An expression that is held while something may still fail is in a `Boxed`: an early end then
//! drops it in one step, which keeps the proof of the function short.
#![tactic(auto)]

mod extent;
mod fault;
mod input;
mod lexeme;
mod operators;
mod reader;

pub use extent::{ExprFault, MAX_OPEN, expression, lexemes, place};
pub use fault::{ReadFault, forgives};
pub use input::{expect, name, number, refusal};
pub use lexeme::{Lexeme, is_in, same_terminal, starts, text, to};
pub use reader::{EXPRESSION_FIRST, arguments, expr, exprs};
