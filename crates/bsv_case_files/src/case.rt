use crate::outside::Outside;
use crate::want::{Text, Want, Whole};
use std::alloc::{AllocError, Global};

/// A run of the program: its words, its files and what else is outside, and what is wanted of it.
#[derive(Drop)]
pub struct Case {
    /// The line of the case file on which it begins.
    pub line: usize,
    pub words: Vec<String>,
    /// The names and the texts of the files.
    pub files: Vec<(String, Text)>,
    pub outside: Outside,
    pub want: Want,
}

/// A part of a case.
#[derive(Drop)]
pub(crate) enum Part {
    File(String, Text),
    Status(u8),
    Out(Text),
    Err(String),
    /// The calls of the files that fail.
    FailingReads(Vec<u64>),
    /// The puts of the output that fail.
    FailingPuts(Vec<u64>),
    /// The puts of the fault text that fail.
    FailingTexts(Vec<u64>),
    /// How many bytes the output has room for.
    Room(usize),
    /// How many bytes the fault text has room for.
    TextRoom(usize),
    /// What is wanted in place of a status and two texts.
    Want(Want),
}

/// A case of which some parts are read.
#[derive(Drop)]
pub(crate) struct UnreadCase {
    line: usize,
    words: Vec<String>,
    files: Vec<(String, Text)>,
    outside: Outside,
    whole: Whole,
    want: Option<Want>,
}

impl UnreadCase {
    /// A case with these words, of which no part is read.
    pub(crate) fn new(alloc: Global, line: usize, words: Vec<String>) -> UnreadCase {
        UnreadCase {
            line,
            words,
            files: Vec::new(alloc),
            outside: Outside::sound(alloc),
            whole: Whole {
                status: 0,
                out: Text::Given(String::new(alloc)),
                err: String::new(alloc),
            },
            want: None,
        }
    }

    /// Adds a part.
    pub(crate) fn add(&mut self, part: Part) -> Result<(), AllocError> {
        match part {
            Part::File(name, text) => self.files.push((name, text))?,
            Part::Status(status) => self.whole.status = status,
            Part::Out(text) => self.whole.out = text,
            Part::Err(text) => self.whole.err = text,
            Part::FailingReads(calls) => self.outside.failing_reads = calls,
            Part::FailingPuts(calls) => self.outside.failing_puts = calls,
            Part::FailingTexts(calls) => self.outside.failing_texts = calls,
            Part::Room(bytes) => self.outside.room = bytes,
            Part::TextRoom(bytes) => self.outside.text_room = bytes,
            Part::Want(want) => self.want = Some(want),
        }
        Ok(())
    }

    /// The case, whose parts are all read.
    pub(crate) fn finished(self) -> Case {
        let UnreadCase {
            line,
            words,
            files,
            outside,
            whole,
            want,
        } = self;
        Case {
            line,
            words,
            files,
            outside,
            want: want.unwrap_or(Want::Whole(whole)),
        }
    }
}
