//! The top call: all that the program does, over any source of files and any sinks.
//!
//! Modules in reading order: `status` (how a run ends), `form` (a command line), `stop` (why it is not
//! done), `planning` (a command line to the schedule or to Verilog), `scheduled` (what is run), `follow` (a
//! file to the pieces of a trace), `simulation` (a command line to the report), `suite` (a command line to what is told
//! of the traces of a list), `made` (a made design of any size, and the summary of its run), `answer` (any command line),
//! `faults` (the fault texts), `program` (the call itself).
#![tactic(auto)]

mod answer;
mod faults;
mod follow;
mod form;
mod made;
mod planning;
mod program;
mod scheduled;
mod simulation;
mod status;
mod stop;
mod suite;

pub use made::made_source;
pub use program::{one_answer, run, run_surely};
pub use status::Status;
