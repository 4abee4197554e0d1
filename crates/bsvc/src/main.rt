//! The program: it hands the words after its name, the real files and the real outputs to the
//! top call, and ends with the exit status that this answers.
//!
//! The top call has a thread of its own, since its stack may have to be larger than that of a
//! program.
#![tactic(auto)]

ghost use Rattle.std.specs.Prelude.{◌≡◌};

use bsv_io::{DiskFiles, Failed, Sink, StdSink};
use bsv_top::{Status, run};
use std::io::{self, ErrorKind, Stderr, Stdout};
use std::process::ExitCode;
use std::rt::Files;
use std::thread::{Builder, Threads};

/// The exit status where the system does not give the words of the command.
const NO_WORDS: u8 = 9;

/// The stack of the top call, in bytes of address space: what is not used takes no memory. Reading
/// and building go deeper for each bracket with its operators, each call and each module inside
/// another one, which may be 64 deep each: the deepest design that was tried uses 144 MiB.
const STACK: usize = 256 * 1024 * 1024;

/// The words after the program's name.
fn words_of(rt: &HostRuntime) -> io::Result<Vec<String>> {
    let words = std::env::args(rt)?.skip(1).collect(rt.alloc())?;
    Ok(words)
}

/// The exit status of a run that ended so.
fn code(status: Status) -> u8
    ensures done { status ≡ Status.Done → result ≡ 0 }
    ensures refused { status ≡ Status.Refused → result ≡ 1 }
    ensures usage { status ≡ Status.Usage → result ≡ 2 }
    ensures read_fault { status ≡ Status.ReadFault → result ≡ 3 }
    ensures write_fault { status ≡ Status.WriteFault → result ≡ 4 }
    ensures no_memory { status ≡ Status.OutOfMemory → result ≡ 5 }
    ensures trace_fault { status ≡ Status.TraceFault → result ≡ 6 }
{
    match status {
        Status::Done => 0,
        Status::Refused => 1,
        Status::Usage => 2,
        Status::ReadFault => 3,
        Status::WriteFault => 4,
        Status::OutOfMemory => 5,
        Status::TraceFault => 6,
    }
}

/// Does all that the program does with these words, over the real files and outputs.
fn run_really<R: Files + AllocGlobal + Threads + Sync>(
    rt: &R,
    words: &[String],
    out: Stdout,
    err: Stderr,
) -> Status {
    let mut files = DiskFiles::new(rt);
    let mut out = StdSink::new(out);
    let mut err = StdSink::new(err);
    run(rt, rt.alloc(), words, &mut files, &mut out, &mut err)
}

/// Tells that there is no memory for the words or for the thread.
fn tell_no_memory(rt: HostRuntime) -> Status {
    let mut err = StdSink::new(rt.stderr());
    match err.put(b"out of memory\n") {
        Ok(()) => Status::OutOfMemory,
        Err(Failed) => Status::WriteFault,
    }
}

/// The exit status where the words could not be had, for this reason.
fn without_words(rt: HostRuntime, kind: ErrorKind) -> ExitCode {
    if kind == ErrorKind::OutOfMemory {
        return ExitCode::from(code(tell_no_memory(rt)));
    }
    ExitCode::from(NO_WORDS)
}

fn main(rt: HostRuntime) -> ExitCode {
    let words = match words_of(&rt) {
        Ok(words) => words,
        Err(error) => return without_words(rt, error.kind()),
    };
    let thread = Builder::new().stack_size(STACK).spawn(&rt, move || {
        run_really(&rt, words.as_slice(), rt.stdout(), rt.stderr())
    });
    let status = match thread {
        Ok(thread) => thread.join(&rt),
        Err(_) => tell_no_memory(rt),
    };
    ExitCode::from(code(status))
}
