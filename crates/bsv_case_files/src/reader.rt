use crate::case::{Case, Part, UnreadCase};
use crate::fault::Unread;
use crate::row::{Frame, Row, words_of};
use crate::section::{Head, Section, head_of};
use crate::want::Text;
use std::alloc::{AllocError, Global};
use std::mem;

/// A case file of which some lines are read.
#[derive(Drop)]
struct Reader {
    alloc: Global,
    /// The number of the line.
    line: usize,
    section: Section,
    /// The lines of the section, where it has no rows.
    lines: String,
    frame: Frame,
    /// What is at the place of the frame.
    inner: Frame,
    row: Option<Row>,
    draft: Option<UnreadCase>,
    cases: Vec<Case>,
}

/// Whether a line is a comment.
fn is_comment(line: &str) -> bool {
    line == "#" || line.starts_with("# ")
}

/// The words of a line that begins a case.
fn words_line(line: &str) -> Option<&str> {
    if line == ">" {
        return Some("");
    }
    line.strip_prefix("> ")
}

/// Puts a line of a frame after an end of a line: one after a plus goes on with the line before it.
fn push_frame_line(lines: &mut String, line: &str) -> Result<(), AllocError> {
    if let Some(rest) = line.strip_prefix("+ ") {
        lines.push(' ')?;
        return lines.push_str(rest);
    }
    lines.push('\n')?;
    lines.push_str(line)
}

/// Puts a line, and the end of it. A line that is a backslash alone takes the end of the line before
/// it away.
fn push_line(lines: &mut String, line: &str) -> Result<(), AllocError> {
    if line == "\\" {
        let _end = lines.pop();
        return Ok(());
    }
    lines.push_str(line)?;
    lines.push('\n')
}

impl Reader {
    fn new(alloc: Global) -> Reader {
        Reader {
            alloc,
            line: 0,
            section: Section::Nothing,
            lines: String::new(alloc),
            frame: Frame::empty(alloc),
            inner: Frame::empty(alloc),
            row: None,
            draft: None,
            cases: Vec::new(alloc),
        }
    }

    fn fault(&self, what: &'static str) -> Unread {
        Unread::Fault(self.line, what)
    }

    /// Takes the next line.
    fn take(&mut self, line: &str) -> Result<(), Unread> {
        self.line = self.line.saturating_add(1);
        if is_comment(line) {
            return Ok(());
        }
        if let Some(head) = line.strip_prefix("== ") {
            self.end_section()?;
            return self.begin_section(head);
        }
        if let Some(words) = words_line(line) {
            self.end_section()?;
            self.end_case()?;
            let words = words_of(self.alloc, words)?;
            self.draft = Some(UnreadCase::new(self.alloc, self.line, words));
            return Ok(());
        }
        self.take_content(line)
    }

    /// Ends the row that is being read.
    fn end_row(&mut self) -> Result<(), Unread> {
        if let Some(row) = self.row.take() {
            let case = row.finished(self.alloc, &self.frame, &self.inner)?;
            self.cases.push(case)?;
        }
        Ok(())
    }

    /// Ends the case that is being read.
    fn end_case(&mut self) -> Result<(), Unread> {
        if let Some(draft) = self.draft.take() {
            self.cases.push(draft.finished())?;
        }
        Ok(())
    }

    /// Adds a part to the case that is being read.
    fn add(&mut self, part: Part) -> Result<(), Unread> {
        let line = self.line;
        match self.draft.as_mut() {
            None => Err(Unread::Fault(line, "the section above is in no case")),
            Some(draft) => Ok(draft.add(part)?),
        }
    }

    /// Sets the frame, with nothing at its place but the text.
    fn set_frame(&mut self, frame: Frame) {
        self.frame = frame;
        self.inner = Frame::empty(self.alloc);
    }

    /// The frame of the lines that were read.
    fn frame_of(&self, lines: &str) -> Result<Frame, Unread> {
        match Frame::of(self.alloc, lines)? {
            None => Err(self.fault("the frame above has no place")),
            Some(frame) => Ok(frame),
        }
    }

    /// Ends the section that is being read.
    fn end_section(&mut self) -> Result<(), Unread> {
        let lines = mem::replace(&mut self.lines, String::new(self.alloc));
        match mem::replace(&mut self.section, Section::Nothing) {
            Section::Nothing => Ok(()),
            Section::Rows | Section::RepeatedRows => self.end_row(),
            Section::Frame => {
                let frame = self.frame_of(lines.as_str())?;
                self.set_frame(frame);
                Ok(())
            }
            Section::InnerFrame => {
                self.inner = self.frame_of(lines.as_str())?;
                Ok(())
            }
            Section::File(name) => self.add(Part::File(name, Text::Given(lines))),
            Section::Out => self.add(Part::Out(Text::Given(lines))),
            Section::Err => self.add(Part::Err(lines)),
        }
    }

    /// Begins a section with this head.
    fn begin_section(&mut self, head: &str) -> Result<(), Unread> {
        match head_of(self.alloc, head)? {
            None => Err(self.fault("a head says nothing that is known")),
            Some(Head::Part(part)) => self.add(part),
            Some(Head::Case(section)) => {
                self.section = section;
                Ok(())
            }
            Some(Head::Table(section)) => {
                self.section = section;
                self.end_case()
            }
            Some(Head::NoFrame) => {
                self.set_frame(Frame::empty(self.alloc));
                self.end_case()
            }
        }
    }

    /// Takes a line that is no head.
    fn take_content(&mut self, line: &str) -> Result<(), Unread> {
        match &self.section {
            Section::Nothing if line.is_empty() => Ok(()),
            Section::Nothing => Err(self.fault("a line of no section")),
            Section::Rows => self.take_row_line(false, line),
            Section::RepeatedRows => self.take_row_line(true, line),
            Section::Frame | Section::InnerFrame => Ok(push_frame_line(&mut self.lines, line)?),
            Section::File(_) | Section::Out | Section::Err => Ok(push_line(&mut self.lines, line)?),
        }
    }

    /// Takes a line of a table: one that begins a row, or goes on with one.
    fn take_row_line(&mut self, repeated: bool, line: &str) -> Result<(), Unread> {
        if line.is_empty() {
            return Ok(());
        }
        if !line.starts_with(' ') {
            self.end_row()?;
            self.row = Some(Row::of(self.alloc, self.line, repeated, line)?);
            return Ok(());
        }
        let goes_on = match self.row.as_mut() {
            None => false,
            Some(row) => row.go_on(line.trim_start())?,
        };
        if goes_on {
            Ok(())
        } else {
            Err(self.fault("a line does not go on with a row"))
        }
    }
}

/// The cases of a case file, in their order.
pub fn cases_of(alloc: Global, text: &str) -> Result<Vec<Case>, Unread> {
    let mut reader = Reader::new(alloc);
    for line in text.lines() {
        reader.take(line)?;
    }
    reader.end_section()?;
    reader.end_case()?;
    Ok(mem::replace(&mut reader.cases, Vec::new(alloc)))
}
