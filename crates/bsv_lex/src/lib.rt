//! The tokens of a source: names, keywords, numbers, texts and symbols, each a slice of the source;
//! and what a token is to the grammar, and a number to its readers.
//!
//! Modules in reading order: `token` (tokens and faults), `terminal` (keywords and symbols, and the
//! words of the grammar), `number` (the value, the base and the size of a number), `piece` (what
//! is at a place: a blank, a comment, a token or a flaw), `split` (a whole source).
#![tactic(auto)]

mod number;
mod piece;
mod split;
mod terminal;
mod token;

pub use number::literal;
pub use split::{one_answer, tokens};
pub use terminal::{Terminal, keyword, symbol, terminal_of};
pub use token::{LexFault, Token, TokenKind};
