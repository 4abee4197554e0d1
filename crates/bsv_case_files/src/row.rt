use crate::case::Case;
use crate::fault::Unread;
use crate::outside::Outside;
use crate::want::{Text, Want, want_of};
use std::alloc::{AllocError, Global};

/// What comes before and after the text of each row of a table.
#[derive(Drop)]
pub(crate) struct Frame {
    front: String,
    back: String,
}

impl Frame {
    /// The frame of a text that is a whole file.
    pub(crate) fn empty(alloc: Global) -> Frame {
        Frame {
            front: String::new(alloc),
            back: String::new(alloc),
        }
    }

    /// The frame of these lines, each after an end of a line, or none where they have no place for
    /// a text.
    pub(crate) fn of(alloc: Global, lines: &str) -> Result<Option<Frame>, AllocError> {
        let lines = lines.strip_prefix('\n').unwrap_or(lines);
        let Some((front, back)) = lines.split_once('@') else {
            return Ok(None);
        };
        Ok(Some(Frame {
            front: String::from_str(alloc, front)?,
            back: String::from_str(alloc, back)?,
        }))
    }
}

/// A row of a table.
#[derive(Drop)]
pub(crate) struct Row {
    line: usize,
    /// How many times each piece between two `@` of the text stands, where the table says so.
    times: Option<usize>,
    want: Want,
    text: String,
}

/// The text without the blank in front of it.
fn after_blank(text: &str) -> &str {
    text.strip_prefix(' ').unwrap_or(text)
}

/// How many times a piece stands, and what is wanted.
fn parted(repeated: bool, words: &str) -> Option<(Option<usize>, &str)> {
    if !repeated {
        return Some((None, words));
    }
    let (count, rest) = words.split_once(' ')?;
    Some((Some(count.parse::<usize>().ok()?), rest.trim()))
}

impl Row {
    /// The row that a line begins: what is wanted, a bar, and the text.
    pub(crate) fn of(
        alloc: Global,
        line: usize,
        repeated: bool,
        text: &str,
    ) -> Result<Row, Unread> {
        let Some((words, text)) = text.split_once('|') else {
            return Err(Unread::Fault(line, "a row has no bar"));
        };
        let Some((times, words)) = parted(repeated, words.trim()) else {
            return Err(Unread::Fault(line, "a row does not say how many times"));
        };
        let Some(want) = want_of(alloc, words)? else {
            return Err(Unread::Fault(line, "a row wants nothing that is known"));
        };
        Ok(Row {
            line,
            times,
            want,
            text: String::from_str(alloc, after_blank(text))?,
        })
    }

    /// Takes a line that goes on with the text, without the blanks in front of it: after a bar a
    /// new line, after a plus the same one. Answers whether it is either.
    pub(crate) fn go_on(&mut self, line: &str) -> Result<bool, AllocError> {
        if let Some(text) = line.strip_prefix('|') {
            self.text.push('\n')?;
            self.text.push_str(after_blank(text))?;
            return Ok(true);
        }
        let Some(text) = line.strip_prefix("+ ") else {
            return Ok(false);
        };
        self.text.push(' ')?;
        self.text.push_str(text)?;
        Ok(true)
    }

    /// The case that the row is: its text in the inner frame, and that in the outer one, is
    /// `T.bsv`, and the trace, where there is one, has no line.
    pub(crate) fn finished(
        self,
        alloc: Global,
        outer: &Frame,
        inner: &Frame,
    ) -> Result<Case, AllocError> {
        let Row {
            line,
            times,
            want,
            text,
        } = self;
        let mut source = outer.front.clone()?;
        source.push_str(inner.front.as_str())?;
        match times {
            None => source.push_str(text.as_str())?,
            Some(times) => push_repeated(&mut source, text.as_str(), times)?,
        }
        source.push_str(inner.back.as_str())?;
        source.push_str(outer.back.as_str())?;
        Ok(Case {
            line,
            words: words_of(alloc, want.words())?,
            files: row_files(alloc, source)?,
            outside: Outside::sound(alloc),
            want,
        })
    }
}

/// The files of a row.
fn row_files(alloc: Global, source: String) -> Result<Vec<(String, Text)>, AllocError> {
    let mut files = Vec::new(alloc);
    files.push((String::from_str(alloc, "T.bsv")?, Text::Given(source)))?;
    files.push((
        String::from_str(alloc, "t")?,
        Text::Given(String::new(alloc)),
    ))?;
    Ok(files)
}

/// The words of a line.
pub(crate) fn words_of(alloc: Global, line: &str) -> Result<Vec<String>, AllocError> {
    let mut words = Vec::new(alloc);
    for word in line.split_whitespace() {
        words.push(String::from_str(alloc, word)?)?;
    }
    Ok(words)
}

/// Puts a piece so many times after a text.
fn push_times(made: &mut String, piece: &str, times: usize) -> Result<(), AllocError> {
    for _turn in 0..times {
        made.push_str(piece)?;
    }
    Ok(())
}

/// Puts a text after another one, with each piece between two `@` so many times.
fn push_repeated(made: &mut String, text: &str, times: usize) -> Result<(), AllocError> {
    for (at, piece) in text.split('@').enumerate() {
        push_times(made, piece, if at % 2 == 1 { times } else { 1 })?;
    }
    Ok(())
}
