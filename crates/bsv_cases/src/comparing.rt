use crate::running::{Answer, bytes_of};
use anyhow::Result;
use bsv_case_files::{Kind, Want, Whole};
use bsv_top::Status;
use std::rt::Files;

/// The kind by which an answer refuses, where it is one that a want can name.
fn refused_kind(answer: &Answer) -> Option<Kind> {
    let line = str::from_utf8(answer.err.bytes()).ok()?;
    let (_number, rest) = line.strip_prefix("refused ")?.split_once(' ')?;
    Kind::named(rest.split_whitespace().next()?)
}

/// Whether nothing is refused by this kind, nor by one that is looked for before it.
fn is_past(answer: &Answer, kind: Kind) -> bool {
    match answer.status {
        Status::Done => true,
        Status::Refused => match refused_kind(answer) {
            None => true,
            Some(found) => found.is_later(kind),
        },
        _ => false,
    }
}

/// Whether an answer is a refusal with this line.
fn has_line(answer: &Answer, line: &str) -> bool {
    answer.status == Status::Refused
        && answer.out.bytes().is_empty()
        && answer.err.bytes() == line.as_bytes()
}

/// Whether an answer is this schedule.
fn is_plan(answer: &Answer, plan: &str) -> bool {
    answer.status == Status::Done
        && answer.out.bytes() == plan.as_bytes()
        && answer.err.bytes().is_empty()
}

/// Whether an answer is just this.
fn is_whole<R: Files + AllocGlobal>(rt: &R, answer: &Answer, whole: &Whole) -> Result<bool> {
    let out = bytes_of(rt, &whole.out)?;
    Ok(
        answer.status as u8 == whole.status
            && answer.out.bytes() == out.as_slice()
            && answer.err.bytes() == whole.err.as_bytes(),
    )
}

/// Whether an answer is as it is wanted.
pub(crate) fn agrees<R: Files + AllocGlobal>(rt: &R, answer: &Answer, want: &Want) -> Result<bool> {
    match want {
        Want::Done => Ok(answer.status == Status::Done),
        Want::Typed => Ok(is_past(answer, Kind::WidthFault)),
        Want::Past(kind) => Ok(is_past(answer, *kind)),
        Want::Refused(kind) => {
            Ok(answer.status == Status::Refused && refused_kind(answer) == Some(*kind))
        }
        Want::Line(line) => Ok(has_line(answer, line.as_str())),
        Want::Plan(plan) => Ok(is_plan(answer, plan.as_str())),
        Want::Whole(whole) => is_whole(rt, answer, whole),
    }
}
