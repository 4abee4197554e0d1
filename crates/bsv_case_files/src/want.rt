use crate::kind::Kind;
use std::alloc::{AllocError, Global};

/// A text that is in a case file, or in a file of its own.
#[derive(Drop)]
pub enum Text {
    Given(String),
    /// What the file of this name holds.
    Stored(String),
}

/// The whole of an answer.
#[derive(Drop)]
pub struct Whole {
    pub status: u8,
    pub out: Text,
    pub err: String,
}

/// What is wanted of an answer.
#[derive(Drop)]
pub enum Want {
    /// The run is done, whatever it prints.
    Done,
    /// Nothing is refused by 1 to 11.
    Typed,
    /// Nothing is refused by this kind, nor by one that is looked for before it.
    Past(Kind),
    /// A refusal of this kind, wherever.
    Refused(Kind),
    /// This line, of a refusal.
    Line(String),
    /// This schedule.
    Plan(String),
    /// Just this.
    Whole(Whole),
}

/// The line of a refusal at a place. One without a file is in `T.bsv`.
fn line_of(alloc: Global, kind: Kind, place: &str) -> Result<String, AllocError> {
    let number = kind.number();
    let name = kind.name();
    let is_bare = place
        .as_bytes()
        .first()
        .is_some_and(|byte| byte.is_ascii_digit());
    if is_bare {
        format!(in alloc; "refused {number} {name} T.bsv:{place}\n")
    } else {
        format!(in alloc; "refused {number} {name} {place}\n")
    }
}

/// The text of a schedule: the names of both orders, and of what stops what, with a stroke between each two.
fn plan_of(alloc: Global, text: &str) -> Result<String, AllocError> {
    let mut made = String::new(alloc);
    for (at, names) in text.split('/').enumerate() {
        made.push_str(match at {
            0 => "execution",
            1 => "urgency",
            _ => "stops",
        })?;
        for name in names.split_whitespace() {
            made.push(' ')?;
            made.push_str(name)?;
        }
        made.push('\n')?;
    }
    Ok(made)
}

impl Want {
    /// The words of a row that wants this.
    pub(crate) fn words(&self) -> &'static str {
        match self {
            Want::Plan(_) => "schedule T.bsv mkT",
            _ => "sim T.bsv mkT t",
        }
    }
}

/// What is wanted by these words, or none where they say nothing.
pub(crate) fn want_of(alloc: Global, text: &str) -> Result<Option<Want>, AllocError> {
    if text == "typed" {
        return Ok(Some(Want::Typed));
    }
    if text == "done" {
        return Ok(Some(Want::Done));
    }
    let Some((word, rest)) = text.split_once(' ') else {
        return Ok(Kind::named(text).map(Want::Refused));
    };
    if word == "past" {
        return Ok(Kind::named(rest).map(Want::Past));
    }
    if word == "plan" {
        return Ok(Some(Want::Plan(plan_of(alloc, rest)?)));
    }
    match Kind::named(word) {
        None => Ok(None),
        Some(kind) => Ok(Some(Want::Line(line_of(alloc, kind, rest)?))),
    }
}
