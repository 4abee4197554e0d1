//! Typing: the type of each expression, with an expected type or without one.
//!
//! Modules in reading order: `front` (what comes before a suffix), `openness` (which
//! expressions have no type of their own), `forms` (forms without operands, and what finishes the
//! others), `expressions` (the forms), `law` (what the typing promises).
//!
//! The definition is the table of forms in `specs/Typing.antt`, over those of `specs/Forms.antt`
//! (forms with operands), `specs/Places.antt` (names and suffixes) and `specs/Operands.antt`
//! (operands that agree); what an expression may name is defined in `bsv_context`.
//! `specs/Laws.antt` says what the typing promises, and `specs/Seen.antt` what the definitions see
//! of the code.
//!
//! A typed expression that is held while something may still fail is in a `Boxed`: an early end
//! then drops it in one step, which keeps the proof of the function short.
#![tactic(auto)]

mod expressions;
mod forms;
mod front;
mod law;
mod openness;

pub use expressions::{arguments, handed_instance, typing};
pub use forms::payload;
pub use front::{Instance, place_number};
pub use law::typing_is_right;
