use crate::counted::{CountedFiles, CountedSink};
use anyhow::Result;
use bsv_bits::Name;
use bsv_io::{MemFiles, MemSink};
use bsv_top::{Status, run};
use std::alloc::{AllocError, Global};
use std::thread::Threads;

/// The room of an output, in bytes: more than any answer here has.
const ROOM: usize = 100_000;

/// The name of the source.
pub(crate) const SOURCE: &str = "Gcd.bsv";

/// The name of the trace.
pub(crate) const TRACE: &str = "trace.txt";

/// The name of the list of a suite.
pub(crate) const LIST: &str = "list.txt";

/// The list: nine traces, which are more than a group.
const NAMES: &[u8] =
    b"trace.txt\ntrace.txt\ntrace.txt\ntrace.txt\ntrace.txt\ntrace.txt\ntrace.txt\ntrace.txt\ntrace.txt";

/// Which call fails, by its number among those of its kind.
#[derive(Clone, Copy)]
pub(crate) enum Failing {
    Nothing,
    /// A call of the files.
    Read(u64),
    /// A put of the output.
    Put(u64),
    /// A put of the fault text.
    Text(u64),
}

impl Failing {
    /// The numbers of the calls that fail: those of the files, of the output, and of the fault text.
    fn numbers(self) -> (Option<u64>, Option<u64>, Option<u64>) {
        match self {
            Failing::Nothing => (None, None, None),
            Failing::Read(number) => (Some(number), None, None),
            Failing::Put(number) => (None, Some(number), None),
            Failing::Text(number) => (None, None, Some(number)),
        }
    }
}

/// The contents of the source and of the trace.
#[derive(Clone, Copy)]
pub(crate) struct Contents<'a> {
    pub(crate) source: &'a [u8],
    pub(crate) trace: &'a [u8],
}

/// What the program answered, and how it called the files.
#[derive(Drop)]
pub(crate) struct Answer {
    pub(crate) status: Status,
    pub(crate) files: CountedFiles,
    pub(crate) out: CountedSink,
    pub(crate) err: CountedSink,
}

/// The words of a line.
pub(crate) fn words_of(alloc: Global, line: &str) -> Result<Vec<String>, AllocError> {
    let mut words = Vec::new(alloc);
    for word in line.split_whitespace() {
        words.push(String::from_str(alloc, word)?)?;
    }
    Ok(words)
}

/// A list of this number, if there is one.
fn listed(alloc: Global, number: Option<u64>) -> Result<Vec<u64>, AllocError> {
    let mut numbers = Vec::new(alloc);
    if let Some(number) = number {
        numbers.push(number)?;
    }
    Ok(numbers)
}

/// The source, the trace and the list, of which this call fails.
fn files_of(alloc: Global, contents: Contents<'_>, failing: Option<u64>) -> Result<CountedFiles> {
    let mut files = Vec::new(alloc);
    let all = [
        (SOURCE, contents.source),
        (TRACE, contents.trace),
        (LIST, NAMES),
    ];
    for (name, bytes) in all {
        let name = Name::new(alloc, name.as_bytes())?;
        files.push((name, Vec::from_slice(alloc, bytes)?))?;
    }
    let files = MemFiles::new(alloc, files, listed(alloc, failing)?)?;
    Ok(CountedFiles::new(files))
}

/// An output, of which this put fails.
fn sink_of(alloc: Global, failing: Option<u64>) -> Result<CountedSink> {
    let sink = MemSink::new(alloc, ROOM, listed(alloc, failing)?)?;
    Ok(CountedSink::new(sink))
}

/// Runs the program with the words of a line over these contents, where one call fails.
pub(crate) fn answer_to<R: AllocGlobal + Threads + Sync>(
    rt: &R,
    line: &str,
    contents: Contents<'_>,
    failing: Failing,
) -> Result<Answer> {
    let alloc = rt.alloc();
    let (read, put, text) = failing.numbers();
    let mut files = files_of(alloc, contents, read)?;
    let mut out = sink_of(alloc, put)?;
    let mut err = sink_of(alloc, text)?;
    let words = words_of(alloc, line)?;
    let status = run(rt, alloc, words.as_slice(), &mut files, &mut out, &mut err);
    Ok(Answer {
        status,
        files,
        out,
        err,
    })
}
