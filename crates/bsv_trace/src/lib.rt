//! The lines of a trace, which ask for calls of methods, and the texts of a report and of a schedule.
//!
//! Modules in reading order: `number` (the numbers of a line), `call` (a call of a method, with its
//! arguments), `lines` (a whole line), `law` (a line asks for one thing), `text` (names, constants and
//! lists of them), `state` (the lines of a state), `registers` (the same of the registers that show it),
//! `report` (the opening and the clocks of a report), `order` (the text of a schedule). What a line is
//! stands in `specs/Lines.antt`, and what is written in `specs/Texts.antt`.
#![tactic(auto)]

mod call;
mod law;
mod lines;
mod number;
mod order;
mod registers;
mod report;
mod state;
mod text;

pub use law::one_request;
pub use lines::{BadLine, line};
pub use order::write_schedule;
pub use registers::registers_after;
pub use report::{
    ClockWriter, write_clock, write_clock_registers, write_opening, write_opening_registers,
};
