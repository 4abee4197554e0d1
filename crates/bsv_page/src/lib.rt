//! A text that is put to a sink piece by piece, for programs that write for people: the first put that fails is told at
//! the end, and nothing is put after it. So what writes such a text need not ask after each piece.
#![tactic(auto)]

mod page;

pub use page::Page;
