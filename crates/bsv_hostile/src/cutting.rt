//! Runs over a source that is cut after each of its bytes.

use crate::running::{Answer, Contents, Failing, answer_to};
use anyhow::Result;
use bsv_top::Status;
use std::thread::Threads;

/// What is cut off a source of which the package is whole: all after `endpackage`, or after the name at its end.
const REST: [&[u8]; 3] = [b": Gcd\n", b"\n", b""];

/// What is cut of a source, and what the answer to the uncut one is.
#[derive(Clone, Copy)]
struct Cutting<'a> {
    source: &'a [u8],
    trace: &'a [u8],
    line: &'a str,
    whole: &'a Answer,
}

/// Whether an answer is a refusal by this line, or by one that begins so, after which nothing was read.
fn is_refused(answer: &Answer, front: &[u8]) -> bool {
    answer.status == Status::Refused
        && answer.files.choices == 1
        && answer.out.bytes().is_empty()
        && answer.err.bytes().starts_with(front)
}

/// Whether two answers are one.
fn is_same(answer: &Answer, whole: &Answer) -> bool {
    answer.status == whole.status
        && answer.out.bytes() == whole.out.bytes()
        && answer.err.bytes() == whole.err.bytes()
}

impl Cutting<'_> {
    /// Whether the package is whole where this front of the source is left.
    fn is_whole(self, left: &[u8]) -> bool {
        match self.source.strip_prefix(left) {
            None => false,
            Some(cut) => REST.into_iter().any(|rest| cut == rest),
        }
    }

    /// Whether the answer to a front of the source is as it should be.
    fn is_right<R: AllocGlobal + Threads + Sync>(self, rt: &R, left: &[u8]) -> Result<bool> {
        let contents = Contents {
            source: left,
            trace: self.trace,
        };
        let answer = answer_to(rt, self.line, contents, Failing::Nothing)?;
        if self.is_whole(left) {
            return Ok(is_same(&answer, self.whole));
        }
        let front: &[u8] = if left.is_empty() {
            b"refused 12 NoSuchModule mkGcd\n"
        } else {
            b"refused 5 Syntax Gcd.bsv:"
        };
        Ok(is_refused(&answer, front))
    }
}

/// Cuts the source after each of its bytes, and tells how many runs with the words of a line did not end as they
/// should; and gives it.
pub(crate) fn cut_each<R: AllocGlobal + Print + Threads + Sync>(
    rt: &R,
    line: &str,
    contents: Contents<'_>,
) -> Result<u64> {
    let whole = answer_to(rt, line, contents, Failing::Nothing)?;
    let Contents { source, trace } = contents;
    let cutting = Cutting {
        source,
        trace,
        line,
        whole: &whole,
    };
    let mut left = Vec::new(rt.alloc());
    let mut faults = u64::from(!cutting.is_right(rt, left.as_slice())?);
    for byte in source {
        left.push(*byte)?;
        if !cutting.is_right(rt, left.as_slice())? {
            faults = faults.saturating_add(1);
        }
    }
    let count = source.len();
    println!(rt; "{line}: cut after each of {count} bytes, {faults} faults")?;
    Ok(faults)
}
