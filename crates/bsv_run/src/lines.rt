ghost use Rattle.std.specs.Prelude.{◌≡◌, ◌≤◌, ◌<◌, ◌+◌, ◌++◌, [], length, not, ◌==◌, vec_capacity};
ghost use Rattle.std.specs.Prelude.{IfOk, OnOk, OnErr, IfSome, IfNone};
ghost use Rattle.std.specs.List.{prefix_len};
ghost use Rattle.bsv_run.specs.Reading.{HasNoFeed, IsFirstLine, IsOver, line_limit};
ghost use Rattle.bsv_run.specs.Traces as traces;
ghost use Rattle.bsv_run.specs.Traces.{line_text};

use bsv_trace::BadLine;
use std::alloc::{AllocError, Global};

/// How many bytes a line may have with its end: a carriage return and a line feed.
const LINE_LIMIT: usize = 4_098;

/// How far a trace was read: the lines that ended, the bytes before the line that was begun, and what was
/// read of that line; and how many bytes the trace may have.
#[derive(Drop)]
pub struct Lines {
    pub(crate) done: u64,
    pub(crate) at: u64,
    pub(crate) limit: u64,
    pub(crate) held: Vec<u8>,
    ghost numbered: { done ≤ at },
    ghost within: { at + length held.items ≤ limit },
    ghost short: { length held.items ≤ line_limit },
    ghost room: { line_limit ≤ vec_capacity held },
}

impl Lines {
    ghost use Rattle.bsv_run.specs.Gathered.{bytes_before, bytes_read, held_of, limit_of};
    ghost use Rattle.bsv_run.specs.Gathered.{lines_ended};

    /// The start of a trace that may have so many bytes, with room for a line.
    pub fn new(alloc: Global, limit: u64) -> Result<Lines, AllocError>
        ensures done { IfOk result (λ lines. lines_ended lines ≡ 0) }
        ensures at { IfOk result (λ lines. bytes_before lines ≡ 0) }
        ensures held { IfOk result (λ lines. held_of lines ≡ []) }
        ensures limit { IfOk result (λ lines. limit_of lines ≡ limit) }
    {
        Ok(Lines {
            done: 0,
            at: 0,
            limit,
            held: Vec::with_capacity(alloc, LINE_LIMIT)?,
        })
    }

    /// How many lines ended.
    pub fn done(&self) -> u64
        ensures done { result ≡ lines_ended self.now }
        ensures within { result ≤ limit_of self.now }
    {
        self.done
    }

    /// The number of the line that was begun.
    pub fn number(&self) -> u64
        requires { 0 < length (held_of self.now) }
        ensures { result ≡ lines_ended self.now + 1 }
    {
        self.done + 1
    }

    /// Whether no line was begun.
    pub fn is_empty(&self) -> bool
        ensures { result ≡ (length (held_of self.now) == 0) }
    {
        self.held.is_empty()
    }

    /// Adds bytes to the line that was begun. It is bad where it is too long, or ends after the limit of
    /// the trace.
    pub fn gather(&mut self, bytes: &[u8]) -> Result<(), BadLine>
        ensures gathered { OnOk result (held_of self.new ≡ held_of self.old ++ bytes.now) }
        ensures over { OnErr result (IsOver (limit_of self.old) (bytes_before self.old)
            (held_of self.old ++ bytes.now)) }
        ensures kept { OnErr result (self.new ≡ self.old) }
        ensures done { lines_ended self.new ≡ lines_ended self.old }
        ensures at { bytes_before self.new ≡ bytes_before self.old }
        ensures limit { limit_of self.new ≡ limit_of self.old }
    {
        let len = self.held.len() + bytes.len();
        if len > LINE_LIMIT || len as u64 > self.limit - self.at {
            return Err(BadLine);
        }
        let _added = self.held.extend_from_slice(bytes);
        Ok(())
    }

    /// What the line says that was begun.
    pub fn text(&self) -> &[u8]
        ensures { result.now ≡ line_text (held_of self.now) }
    {
        text_of(self.held.as_slice())
    }

    /// The line ended, and the next one begins.
    pub fn end_line(&mut self)
        requires { 0 < length (held_of self.old) }
        ensures done { lines_ended self.new ≡ lines_ended self.old + 1 }
        ensures at { bytes_before self.new ≡ bytes_read self.old }
        ensures held { held_of self.new ≡ [] }
        ensures limit { limit_of self.new ≡ limit_of self.old }
    {
        self.done += 1;
        self.at += self.held.len() as u64;
        self.held.clear();
    }
}

/// How many bytes come before the first line feed, or in all where there is none.
fn unended_len(bytes: &[u8]) -> usize
    ensures value { result ≡ prefix_len (λ byte. not (byte == 10)) bytes.now }
    ensures within { result ≤ length bytes.now }
{
    bytes.iter().take_while(|byte| **byte != b'\n').count()
}

/// The bytes up to the first line feed, and those after it, where there is one.
pub fn first_line(bytes: &[u8]) -> Option<(&[u8], &[u8])>
    ensures line { IfSome result (λ parts. IsFirstLine bytes.now parts.0.now parts.1.now) }
    ensures some { IfSome result (λ parts. 0 < length parts.0.now) }
    ensures none { IfNone result (HasNoFeed bytes.now) }
{
    let len = unended_len(bytes);
    if len == bytes.len() {
        return None;
    }
    Some(bytes.split_at(len + 1))
}

/// The bytes without the last one, where that is the given one.
fn without_last(byte: u8, bytes: &[u8]) -> &[u8]
    ensures { result.now ≡ traces.without_last byte bytes.now }
{
    match bytes.split_last() {
        Some((last, front)) if *last == byte => front,
        _ => bytes,
    }
}

/// What a line says, without its line feed and without one carriage return before that.
pub fn text_of(line: &[u8]) -> &[u8]
    ensures { result.now ≡ line_text line.now }
{
    without_last(b'\r', without_last(b'\n', line))
}
