//! The program: it hands the words after its name, the real files and the real outputs to the call that does the work,
//! and ends with the exit status that this answers.
//!
//! The call has a thread of its own, since its stack may have to be larger than that of a program.
#![tactic(auto)]

use bsv_io::{DiskFiles, Failed, Sink, StdSink};
use bsv_page::Page;
use bsv_view::{Status, view};
use std::io::{self, ErrorKind, IsTerminal, Stderr, Stdout};
use std::process::ExitCode;
use std::rt::Files;
use std::thread::{Builder, Threads};

/// The exit status where the system does not give the words of the command.
const NO_WORDS: u8 = 9;

/// The stack of the call, in bytes of address space: what is not used takes no memory.
const STACK: usize = 256 * 1024 * 1024;

/// The words after the program's name.
fn words_of(rt: &HostRuntime) -> io::Result<Vec<String>> {
    let words = std::env::args(rt)?.skip(1).collect(rt.alloc())?;
    Ok(words)
}

/// Does all that the program does with these words, over the real files and outputs.
fn view_really<R: Files + AllocGlobal + Threads + Sync>(
    rt: &R,
    words: &[String],
    out: Stdout,
    err: Stderr,
) -> Status {
    let is_watched = err.is_terminal();
    let mut files = DiskFiles::new(rt);
    let mut page = Page::new(StdSink::new(out));
    let mut err = StdSink::new(err);
    view(
        rt,
        rt.alloc(),
        words,
        &mut files,
        &mut page,
        &mut err,
        is_watched,
    )
}

/// Tells that there is no memory for the words or for the thread.
fn tell_no_memory(rt: HostRuntime) -> Status {
    let mut err = StdSink::new(rt.stderr());
    match err.put(b"out of memory\n") {
        Ok(()) => Status::OutOfMemory,
        Err(Failed) => Status::WriteFault,
    }
}

/// The exit status where the words could not be had, for this reason.
fn without_words(rt: HostRuntime, kind: ErrorKind) -> ExitCode {
    if kind == ErrorKind::OutOfMemory {
        return ExitCode::from(tell_no_memory(rt).code());
    }
    ExitCode::from(NO_WORDS)
}

fn main(rt: HostRuntime) -> ExitCode {
    let words = match words_of(&rt) {
        Ok(words) => words,
        Err(error) => return without_words(rt, error.kind()),
    };
    let thread = Builder::new().stack_size(STACK).spawn(&rt, move || {
        view_really(&rt, words.as_slice(), rt.stdout(), rt.stderr())
    });
    let status = match thread {
        Ok(thread) => thread.join(&rt),
        Err(_) => tell_no_memory(rt),
    };
    ExitCode::from(status.code())
}
