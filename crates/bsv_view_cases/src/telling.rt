use crate::running::Answer;
use anyhow::Result;

/// A text that is told: these bytes, where they are one.
fn text_of(bytes: &[u8]) -> &str {
    str::from_utf8(bytes).unwrap_or("bytes that are no text")
}

/// The first line in which two texts differ: its number, and the line of each.
fn first_difference<'a>(came: &'a str, wanted: &'a str) -> (usize, &'a str, &'a str) {
    let mut number = 1usize;
    let mut others = wanted.lines();
    for line in came.lines() {
        let other = others.next().unwrap_or("");
        if line != other {
            return (number, line, other);
        }
        number = number.saturating_add(1);
    }
    (number, "", others.next().unwrap_or(""))
}

/// Tells where a text differs from the wanted one, if it does.
fn tell_text(rt: &impl Print, name: &str, came: &[u8], wanted: &[u8]) -> Result<()> {
    if came != wanted {
        let (number, line, other) = first_difference(text_of(came), text_of(wanted));
        println!(rt; "  {name}, line {number}: {line:?}, wanted {other:?}")?;
    }
    Ok(())
}

/// Tells of the case of a line that it does not answer as it says.
pub(crate) fn tell(
    rt: &impl Print,
    file: &str,
    line: usize,
    came: &Answer,
    wanted: &Answer,
) -> Result<()> {
    let status = came.status;
    let other = wanted.status;
    println!(rt; "{file}:{line}: status {status}, wanted {other}")?;
    tell_text(rt, "out", came.out.as_slice(), wanted.out.as_slice())?;
    tell_text(rt, "err", came.err.as_slice(), wanted.err.as_slice())
}
