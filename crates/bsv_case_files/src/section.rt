use crate::case::Part;
use crate::want::{Text, want_of};
use std::alloc::{AllocError, Global};

/// What lines of a case file are part of.
#[derive(Drop)]
pub(crate) enum Section {
    Nothing,
    /// A file of the case, with its name.
    File(String),
    Out,
    Err,
    Frame,
    InnerFrame,
    Rows,
    RepeatedRows,
}

/// What the line in front of a section says.
#[derive(Drop)]
pub(crate) enum Head {
    /// The text of a row is a whole file.
    NoFrame,
    /// A section of a table begins.
    Table(Section),
    /// A section of a case begins.
    Case(Section),
    /// The line is a part of a case.
    Part(Part),
}

/// The section of a table with this head.
fn table_section(head: &str) -> Option<Section> {
    if head == "frame" {
        Some(Section::Frame)
    } else if head == "inner frame" {
        Some(Section::InnerFrame)
    } else if head == "rows" {
        Some(Section::Rows)
    } else if head == "repeated rows" {
        Some(Section::RepeatedRows)
    } else {
        None
    }
}

/// The section of a case with this head, which is one word.
fn case_section(alloc: Global, head: &str) -> Result<Section, AllocError> {
    if head == "out" {
        return Ok(Section::Out);
    }
    if head == "err" {
        return Ok(Section::Err);
    }
    Ok(Section::File(String::from_str(alloc, head)?))
}

/// The numbers of a line, or none where a word of it is no number.
fn numbers_of(alloc: Global, line: &str) -> Result<Option<Vec<u64>>, AllocError> {
    let mut numbers = Vec::new(alloc);
    for word in line.split_whitespace() {
        let Ok(number) = word.parse::<u64>() else {
            return Ok(None);
        };
        numbers.push(number)?;
    }
    Ok(Some(numbers))
}

/// The part of a case that says what fails outside.
fn outside_part(alloc: Global, word: &str, rest: &str) -> Result<Option<Part>, AllocError> {
    if word == "room" {
        return Ok(rest.parse::<usize>().ok().map(Part::Room));
    }
    if word == "text_room" {
        return Ok(rest.parse::<usize>().ok().map(Part::TextRoom));
    }
    let Some(calls) = numbers_of(alloc, rest)? else {
        return Ok(None);
    };
    if word == "failing_reads" {
        return Ok(Some(Part::FailingReads(calls)));
    }
    if word == "failing_puts" {
        return Ok(Some(Part::FailingPuts(calls)));
    }
    if word == "failing_texts" {
        return Ok(Some(Part::FailingTexts(calls)));
    }
    Ok(None)
}

/// The part of a case that a word and what comes after it say.
fn part_of(alloc: Global, word: &str, rest: &str) -> Result<Option<Part>, AllocError> {
    if word == "status" {
        return Ok(rest.parse::<u8>().ok().map(Part::Status));
    }
    if word == "want" {
        return Ok(want_of(alloc, rest)?.map(Part::Want));
    }
    if word == "report" {
        let name = String::from_str(alloc, rest)?;
        return Ok(Some(Part::Out(Text::Stored(name))));
    }
    if word == "read" {
        let name = String::from_str(alloc, rest)?;
        let stored = String::from_str(alloc, rest)?;
        return Ok(Some(Part::File(name, Text::Stored(stored))));
    }
    outside_part(alloc, word, rest)
}

/// What a head says, or none where it says nothing that is known.
pub(crate) fn head_of(alloc: Global, head: &str) -> Result<Option<Head>, AllocError> {
    if head == "no frame" {
        return Ok(Some(Head::NoFrame));
    }
    if let Some(section) = table_section(head) {
        return Ok(Some(Head::Table(section)));
    }
    match head.split_once(' ') {
        None => Ok(Some(Head::Case(case_section(alloc, head)?))),
        Some((word, rest)) => Ok(part_of(alloc, word, rest)?.map(Head::Part)),
    }
}
