//! Runs in which one call fails: each call of the files, each put of the output, and the put of the fault text.

use crate::running::{Answer, Contents, Failing, LIST, SOURCE, TRACE, answer_to};
use anyhow::Result;
use bsv_top::Status;
use std::thread::Threads;

/// Whether a text is one line with these words and this name.
fn is_line(text: &[u8], words: &str, name: &str) -> bool {
    let rest = text.strip_prefix(words.as_bytes());
    let rest = rest.and_then(|rest| rest.strip_prefix(name.as_bytes()));
    rest == Some(b"\n".as_slice())
}

/// The name of the file that was chosen last, after so many choices, in a run with the words of a line.
fn chosen_in(line: &str, choices: u64) -> &'static str {
    match choices {
        0 | 1 => SOURCE,
        2 if line.starts_with("suite") => LIST,
        _ => TRACE,
    }
}

/// Whether a run ended as it should where a call of the files failed, the one after so many: status 3, the name
/// of the file that was chosen, no later call, and a front of what is put without a fault.
fn is_read_fault(line: &str, answer: &Answer, before: u64, whole: &Answer) -> bool {
    let name = chosen_in(line, answer.files.choices);
    answer.status == Status::ReadFault
        && answer.files.calls == before.saturating_add(1)
        && is_line(answer.err.bytes(), "cannot read ", name)
        && whole.out.bytes().starts_with(answer.out.bytes())
}

/// Whether a run ended as it should where a put of the output failed, the one after so many: status 4, no later
/// put, no fault text, and a front of what is put without a fault.
fn is_write_fault(answer: &Answer, before: u64, whole: &Answer) -> bool {
    answer.status == Status::WriteFault
        && answer.out.calls == before.saturating_add(1)
        && answer.err.bytes().is_empty()
        && answer.out.bytes().len() < whole.out.bytes().len()
        && whole.out.bytes().starts_with(answer.out.bytes())
}

/// Fails each call of the files in turn, and gives how many runs did not end as they should.
fn fail_reads<R: AllocGlobal + Threads + Sync>(
    rt: &R,
    line: &str,
    contents: Contents<'_>,
    whole: &Answer,
) -> Result<u64> {
    let mut faults = 0u64;
    for number in 0..whole.files.calls {
        let answer = answer_to(rt, line, contents, Failing::Read(number))?;
        if !is_read_fault(line, &answer, number, whole) {
            faults = faults.saturating_add(1);
        }
    }
    Ok(faults)
}

/// Fails each put of the output in turn, and gives how many runs did not end as they should.
fn fail_puts<R: AllocGlobal + Threads + Sync>(
    rt: &R,
    line: &str,
    contents: Contents<'_>,
    whole: &Answer,
) -> Result<u64> {
    let mut faults = 0u64;
    for number in 0..whole.out.calls {
        let answer = answer_to(rt, line, contents, Failing::Put(number))?;
        if !is_write_fault(&answer, number, whole) {
            faults = faults.saturating_add(1);
        }
    }
    Ok(faults)
}

/// Whether a run with the words of a line has a fault text, and ends with 4 and a front of it where it cannot be
/// put, and with the same output.
fn has_text<R: AllocGlobal + Threads + Sync>(
    rt: &R,
    line: &str,
    contents: Contents<'_>,
) -> Result<bool> {
    let whole = answer_to(rt, line, contents, Failing::Nothing)?;
    let answer = answer_to(rt, line, contents, Failing::Text(0))?;
    Ok(
        whole.err.calls == 1
            && answer.status == Status::WriteFault
            && answer.err.calls == 1
            && answer.out.bytes() == whole.out.bytes()
            && answer.err.bytes().len() < whole.err.bytes().len()
            && whole.err.bytes().starts_with(answer.err.bytes()),
    )
}

/// Fails each call of a run with the words of a line, and tells how many there are of each kind and how many runs
/// did not end as they should; and gives the latter.
pub(crate) fn fail_each<R: AllocGlobal + Print + Threads + Sync>(
    rt: &R,
    line: &str,
    contents: Contents<'_>,
) -> Result<u64> {
    let whole = answer_to(rt, line, contents, Failing::Nothing)?;
    let mut faults = fail_reads(rt, line, contents, &whole)?;
    faults = faults.saturating_add(fail_puts(rt, line, contents, &whole)?);
    if whole.status != Status::Done {
        faults = faults.saturating_add(1);
    }
    let calls = whole.files.calls;
    let puts = whole.out.calls;
    println!(rt; "{line}: {calls} calls of the files, {puts} puts, {faults} faults")?;
    Ok(faults)
}

/// Fails the put of the fault text for the words of each line, and tells how many runs did not end as they should;
/// and gives it.
pub(crate) fn fail_texts<R: AllocGlobal + Print + Threads + Sync>(
    rt: &R,
    lines: &[&str],
    contents: Contents<'_>,
) -> Result<u64> {
    let mut faults = 0u64;
    for line in lines {
        if !has_text(rt, line, contents)? {
            faults = faults.saturating_add(1);
        }
    }
    let count = lines.len();
    println!(rt; "{count} fault texts, {faults} faults")?;
    Ok(faults)
}
