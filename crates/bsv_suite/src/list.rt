ghost use Rattle.std.specs.Prelude.{◌≡◌, ◌<◌, ◌≤◌, ℕ, ◌+◌, ◌*◌, ◌++◌, List, [], length};
ghost use Rattle.std.specs.List.{list_all};
ghost use Rattle.std.specs.Prelude.{true, false, None, Some, Err, Ok, IfOk, IsSome, OnOk};
ghost use Rattle.bsv_io.specs.Faults.{MayFault};
ghost use Rattle.bsv_io.specs.Moving.{SameFile};
ghost use Rattle.bsv_io.specs.Reading.{bytes_given, current_name, rest};
ghost use Rattle.bsv_run.specs.Reading.{HasNoFeed};
ghost use Rattle.bsv_run.specs.Traces.{line_text, lines_of};
ghost use Rattle.bsv_suite.specs.Lists as spec;
ghost use Rattle.bsv_suite.specs.Lists.{HasBadLineAt, IsNamed};
ghost use Rattle.bsv_suite.specs.Lists.{NamesNone, NamesTraces, list_limit};
ghost use Rattle.bsv_suite.specs.Reading.{Fills, IsNext, MeetsBad, TakesName};
ghost use Rattle.bsv_suite.specs.Reading.{name_line_limit, trace_read_limit};

use crate::halt::ListHalt;
use bsv_bits::Name;
use bsv_io::{Files, Unread, read_more};
use bsv_run::{first_line, text_of};
use std::alloc::Global;

/// How many lines a list may have.
const LIST_LIMIT: usize = 256;

/// How many bytes a line of a list may have with its end: a carriage return and a line feed.
const LINE_LIMIT: usize = 257;

/// How many bytes the name of a trace may have.
const NAME_LIMIT: usize = 255;

/// Whether a byte may stand in the name of a trace.
fn is_printable(byte: u8) -> bool
    ensures { result ≡ spec.is_printable byte }
{
    byte >= b' ' && byte <= b'~'
}

/// Whether all bytes may stand in the name of a trace.
fn are_printable(bytes: &[u8]) -> bool
    ensures { result ≡ list_all spec.is_printable bytes.now }
{
    bytes.iter().all(|byte| is_printable(*byte))
}

/// Whether a text is the name of a trace.
fn is_trace_name(text: &[u8]) -> bool
    ensures { result ≡ spec.is_trace_name text.now }
{
    !text.is_empty() && text.len() <= NAME_LIMIT && are_printable(text)
}

/// Whether a line ends in the bytes.
fn has_line(bytes: &[u8]) -> bool
    ensures { result ≡ true → HasNoFeed bytes.now → ⊥ }
{
    first_line(bytes).is_some()
}

/// Reads on until a line is held, or more than a line may have, or all of the list.
fn read_line<F: Files>(files: &mut F, held: &mut Vec<u8>, buffer: &mut [u8]) -> Result<(), Unread>
    requires room { 0 < length buffer.old }
    requires current { IsSome (F.reading files.old).current }
    ensures filled { OnOk result ((left : List ℕ) → rest (F.reading files.old) ≡ Some left
        → Fills held.old.items left held.new.items (rest (F.reading files.new))) }
    ensures file { OnOk result (SameFile (F.reading files.old) (F.reading files.new)) }
    ensures within { bytes_given (F.reading files.new)
        ≤ bytes_given (F.reading files.old) + (name_line_limit + length buffer.old) }
    ensures room { length buffer.new ≡ length buffer.old }
    ensures contents { (F.reading files.new).contents ≡ (F.reading files.old).contents }
    ensures failed { result ≡ Err Unread.Failed
        → MayFault (F.reading files.old).faults (F.reading files.new).faults
        × ((F.reading files.new).blamed ≡ current_name (F.reading files.old)) }
    ensures count { (F.reading files.old).faults ≤ (F.reading files.new).faults }
    ensures kept { (result ≡ Err Unread.Failed → ⊥)
        → (F.reading files.new).faults ≡ (F.reading files.old).faults }
{
    for _turn in 0..LINE_LIMIT + 2 {
        if held.len() > LINE_LIMIT || has_line(held.as_slice()) {
            return Ok(());
        }
        if read_more(files, held, buffer)? == 0 {
            return Ok(());
        }
    }
    unreachable!()
}

/// The next line of what is held, and what comes after it; all of it where no line ends there.
fn next_line(held: &[u8]) -> (&[u8], &[u8])
    requires { 0 < length held.now }
    ensures { (after : List ℕ) → (HasNoFeed held.now → length held.now ≤ name_line_limit
        → after ≡ []) → IsNext held.now after result.0.now result.1.now }
{
    match first_line(held) {
        Some(parts) => parts,
        None => (held, &[]),
    }
}

/// The name of the trace that a line names after so many others.
fn name_of(alloc: Global, line: &[u8], before: usize) -> Result<Name, ListHalt>
    requires { before ≤ list_limit }
    ensures name { IfOk result (λ name. IsNamed before line.now name) }
    ensures bad { (number : ℕ) → result ≡ Err (ListHalt.BadLine number)
        → (number ≡ before + 1) × NamesNone before line.now }
    ensures reads { result ≡ Err ListHalt.Unreadable → ⊥ }
{
    let text = text_of(line);
    if before >= LIST_LIMIT || !is_trace_name(text) {
        return Err(ListHalt::BadLine(before as u64 + 1));
    }
    Ok(Name::new(alloc, text)?)
}

/// Takes the name of the next line of a list, after so many lines; none at the end of the list.
fn take_name<F: Files>(
    alloc: Global,
    files: &mut F,
    held: &mut Vec<u8>,
    buffer: &mut [u8],
    before: usize,
) -> Result<Option<Name>, ListHalt>
    requires room { 0 < length buffer.old }
    requires current { IsSome (F.reading files.old).current }
    requires before { before ≤ list_limit }
    ensures name { (name : List ℕ) → result ≡ Ok (Some name) → (left : List ℕ)
        → rest (F.reading files.old) ≡ Some left
        → TakesName before held.old.items left name held.new.items (rest (F.reading files.new)) }
    ensures end { result ≡ Ok None → (left : List ℕ) → rest (F.reading files.old) ≡ Some left
        → lines_of (held.old.items ++ left) ≡ [] }
    ensures bad { (number : ℕ) → result ≡ Err (ListHalt.BadLine number)
        → (number ≡ before + 1) × ((left : List ℕ) → rest (F.reading files.old) ≡ Some left
        → MeetsBad before (held.old.items ++ left)) }
    ensures few { (name : List ℕ) → result ≡ Ok (Some name) → before < list_limit }
    ensures file { OnOk result (SameFile (F.reading files.old) (F.reading files.new)) }
    ensures within { bytes_given (F.reading files.new)
        ≤ bytes_given (F.reading files.old) + (name_line_limit + length buffer.old) }
    ensures room { length buffer.new ≡ length buffer.old }
    ensures contents { (F.reading files.new).contents ≡ (F.reading files.old).contents }
    ensures unreadable { result ≡ Err ListHalt.Unreadable
        → MayFault (F.reading files.old).faults (F.reading files.new).faults
        × ((F.reading files.new).blamed ≡ current_name (F.reading files.old)) }
    ensures count { (F.reading files.old).faults ≤ (F.reading files.new).faults }
    ensures kept { (result ≡ Err ListHalt.Unreadable → ⊥)
        → (F.reading files.new).faults ≡ (F.reading files.old).faults }
{
    read_line(files, held, buffer)?;
    if held.is_empty() {
        return Ok(None);
    }
    let (line, behind) = next_line(held.as_slice());
    let name = name_of(alloc, line, before)?;
    let behind = Vec::from_slice(alloc, behind)?;
    *held = behind;
    Ok(Some(name))
}

/// Reads the names of the current file, which is a list.
fn read_names<F: Files>(
    alloc: Global,
    files: &mut F,
    buffer: &mut [u8],
) -> Result<Vec<Name>, ListHalt>
    requires room { 0 < length buffer.old }
    requires short { length buffer.old ≤ 1024 }
    requires current { IsSome (F.reading files.old).current }
    ensures names { IfOk result (λ names. (list : List ℕ) → rest (F.reading files.old) ≡ Some list
        → NamesTraces list names.items) }
    ensures bad { (number : ℕ) → result ≡ Err (ListHalt.BadLine number) → (list : List ℕ)
        → rest (F.reading files.old) ≡ Some list → HasBadLineAt list number }
    ensures within { bytes_given (F.reading files.new)
        ≤ bytes_given (F.reading files.old) + 329217 }
    ensures contents { (F.reading files.new).contents ≡ (F.reading files.old).contents }
    ensures unreadable { result ≡ Err ListHalt.Unreadable
        → MayFault (F.reading files.old).faults (F.reading files.new).faults
        × ((F.reading files.new).blamed ≡ current_name (F.reading files.old)) }
    ensures count { (F.reading files.old).faults ≤ (F.reading files.new).faults }
    ensures kept { (result ≡ Err ListHalt.Unreadable → ⊥)
        → (F.reading files.new).faults ≡ (F.reading files.old).faults }
{
    let mut held = Vec::new(alloc);
    let mut names = Vec::new(alloc);
    for before in 0..LIST_LIMIT + 1 {
        let found = take_name(alloc, files, &mut held, buffer, before)?;
        let Some(name) = found else {
            return Ok(names);
        };
        names.push(name)?;
    }
    unreachable!()
}

/// Reads a list of traces to its end, or to its first bad line: each line is the name of a trace file, of 1 to 255
/// bytes from 0x20 to 0x7e, and there are at most 256 of them. The names are those of its lines, in their order.
pub fn read_list<F: Files>(alloc: Global, files: &mut F, list: &[u8]) -> Result<Vec<Name>, ListHalt>
    ensures names { IfOk result (λ names. (contents : List ℕ → List ℕ)
        → (F.reading files.old).contents ≡ Some contents
        → NamesTraces (contents list.now) names.items) }
    ensures bad { (number : ℕ) → result ≡ Err (ListHalt.BadLine number)
        → (contents : List ℕ → List ℕ) → (F.reading files.old).contents ≡ Some contents
        → HasBadLineAt (contents list.now) number }
    ensures within { trace_read_limit < bytes_given (F.reading files.new)
        → (F.reading files.new).current ≡ (F.reading files.old).current }
    ensures contents { (F.reading files.new).contents ≡ (F.reading files.old).contents }
    ensures unreadable { result ≡ Err ListHalt.Unreadable
        → MayFault (F.reading files.old).faults (F.reading files.new).faults
        × ((F.reading files.new).blamed ≡ Some list.now) }
    ensures count { (F.reading files.old).faults ≤ (F.reading files.new).faults }
    ensures kept { (result ≡ Err ListHalt.Unreadable → ⊥)
        → (F.reading files.new).faults ≡ (F.reading files.old).faults }
{
    let mut buffer = [0u8; 1024];
    files.choose(Name::new(alloc, list)?)?;
    read_names(alloc, files, &mut buffer)
}
