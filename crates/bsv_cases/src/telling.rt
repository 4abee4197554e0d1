use crate::running::{Answer, bytes_of};
use anyhow::Result;
use bsv_case_files::{Case, Want, Whole};
use std::rt::Files;

/// A text that is told: these bytes, where they are one.
fn text_of(bytes: &[u8]) -> &str {
    str::from_utf8(bytes).unwrap_or("bytes that are no text")
}

/// The first line in which two texts differ: its number, and the line of each.
fn first_difference<'a>(came: &'a str, wanted: &'a str) -> (usize, &'a str, &'a str) {
    let mut number = 1usize;
    let mut others = wanted.lines();
    for line in came.lines() {
        let other = others.next().unwrap_or("");
        if line != other {
            return (number, line, other);
        }
        number = number.saturating_add(1);
    }
    (number, "", others.next().unwrap_or(""))
}

/// Tells where a text differs from the wanted one, if it does.
fn tell_text(rt: &impl Print, name: &str, came: &[u8], wanted: &[u8]) -> Result<()> {
    if came != wanted {
        let (number, line, other) = first_difference(text_of(came), text_of(wanted));
        println!(rt; "  {name}, line {number}: {line:?}, wanted {other:?}")?;
    }
    Ok(())
}

/// Tells where an answer is not just this.
fn tell_whole<R: Files + AllocGlobal + Print>(
    rt: &R,
    answer: &Answer,
    whole: &Whole,
) -> Result<()> {
    let out = bytes_of(rt, &whole.out)?;
    let status = whole.status;
    println!(rt; "  wanted status {status}")?;
    tell_text(rt, "out", answer.out.bytes(), out.as_slice())?;
    tell_text(rt, "err", answer.err.bytes(), whole.err.as_bytes())
}

/// Tells of a case that it does not answer as it says: what came, and what was wanted.
pub(crate) fn tell<R: Files + AllocGlobal + Print>(
    rt: &R,
    file: &str,
    case: &Case,
    answer: &Answer,
) -> Result<()> {
    let line = case.line;
    let status = answer.status as u8;
    let err = text_of(answer.err.bytes()).trim_end();
    println!(rt; "{file}:{line}: status {status}, err {err:?}")?;
    match &case.want {
        Want::Done => println!(rt; "  wanted done")?,
        Want::Typed => println!(rt; "  wanted typed")?,
        Want::Past(kind) => {
            let name = kind.name();
            println!(rt; "  wanted past {name}")?
        }
        Want::Refused(kind) => {
            let name = kind.name();
            println!(rt; "  wanted {name}")?
        }
        Want::Line(line) => {
            let line = line.as_str().trim_end();
            println!(rt; "  wanted {line:?}")?
        }
        Want::Plan(plan) => tell_text(rt, "out", answer.out.bytes(), plan.as_bytes())?,
        Want::Whole(whole) => tell_whole(rt, answer, whole)?,
    }
    Ok(())
}
