//! What `bsvview` does, over any source of files and any sinks: it shows what a design does and why.
//!
//! Modules in reading order: `status` (how a run ends), `form` (a command line), `stop` (why it is not done), `answer`
//! (a command line to its text), `faults` (the fault texts), `program` (the call itself).
#![tactic(auto)]

mod answer;
mod faults;
mod form;
mod program;
mod status;
mod stop;

pub use program::view;
pub use status::Status;
