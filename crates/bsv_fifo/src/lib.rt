//! Queues of a hardware design, as primitives that keep the laws.
//!
//! Modules in reading order: `method` (the methods of a queue), `meaning` (what they ask, answer and
//! do), `pieces` (the pieces that several queues have), `plain` (a queue of any depth whose methods
//! see no call of the same clock), `pipeline` (one that takes an item in the clock in which its item
//! goes), `bypass` (one through which an item passes in one clock). The tables are in
//! `specs/Queues.antt` and `specs/QueueTable.antt`, and for each queue in a file of its name. What a
//! queue needs to keep the laws is in `specs/QueueLaws.antt`.
#![tactic(auto)]

mod bypass;
mod meaning;
mod method;
mod pieces;
mod pipeline;
mod plain;

pub use bypass::BypassKind;
pub use pipeline::PipelineKind;
pub use plain::PlainKind;
