//! Sources and sinks: all that the compiler reads from the outside and writes to it.
//!
//! Modules in reading order: `failed` (the one error), `files` (sources, chosen by name and read
//! piece by piece), `sink` (where bytes are put), `put_buffer` (bytes that wait to be put in one
//! call), `text` (texts, constants and numbers after those that wait), `gate` (where the workers of
//! a parallel call pass), `made` (what those workers made), `unread` (why a file was not read),
//! `reading` (a file that is read up to a limit). For tests and for texts that the program makes
//! itself: `calls` (calls that fail by their numbers), `progress` (where a source stands),
//! `contents` (files in memory, and how a piece of one is given), `mem_files`, `sure_files`,
//! `mem_sink`, `sure_sink`, `grow_sink`. The trusted edge, which passes calls on to the runtime: `open_files`,
//! `disk_files`, `std_sink`.
#![tactic(auto)]

mod calls;
mod contents;
mod disk_files;
mod failed;
mod files;
mod gate;
mod grow_sink;
mod made;
mod mem_files;
mod mem_sink;
mod open_files;
mod progress;
mod put_buffer;
mod reading;
mod sink;
mod std_sink;
mod sure_files;
mod sure_sink;
mod text;
mod unread;

pub use disk_files::DiskFiles;
pub use failed::Failed;
pub use files::Files;
pub use gate::{Gate, NoGate};
pub use grow_sink::GrowSink;
pub use made::all_made;
pub use mem_files::MemFiles;
pub use mem_sink::MemSink;
pub use open_files::OpenFiles;
pub use put_buffer::{PutBuffer, put_all};
pub use reading::{read_more, read_up_to};
pub use sink::Sink;
pub use std_sink::StdSink;
pub use sure_files::SureFiles;
pub use sure_sink::SureSink;
pub use text::{add, add_constant, add_decimal};
pub use unread::Unread;
