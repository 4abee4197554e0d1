use anyhow::{Context, Result};
use bsv_bits::Name;
use bsv_case_files::{Case, Text, Want};
use bsv_io::{MemFiles, MemSink};
use bsv_page::Page;
use bsv_view::view;
use std::fs;
use std::rt::Files;
use std::thread::Threads;

/// The room of the output, in bytes.
const ROOM: usize = 1 << 20;

/// An answer: the status, and both texts.
#[derive(Drop)]
pub(crate) struct Answer {
    pub(crate) status: u8,
    pub(crate) out: Vec<u8>,
    pub(crate) err: Vec<u8>,
}

impl Answer {
    /// Whether it is just the other one.
    pub(crate) fn is(&self, other: &Answer) -> bool {
        self.status == other.status
            && self.out.as_slice() == other.out.as_slice()
            && self.err.as_slice() == other.err.as_slice()
    }
}

/// The bytes of a text.
fn bytes_of<R: Files + AllocGlobal>(rt: &R, text: &Text) -> Result<Vec<u8>> {
    match text {
        Text::Given(text) => Ok(Vec::from_slice(rt.alloc(), text.as_bytes())?),
        Text::Stored(name) => {
            let name = name.as_str();
            Ok(fs::read(rt, name).context(format_args!("reading {name}"))?)
        }
    }
}

/// The files of a case, with their bytes.
fn files_of<R: Files + AllocGlobal>(rt: &R, case: &Case) -> Result<Vec<(Name, Vec<u8>)>> {
    let mut files = Vec::new(rt.alloc());
    for (name, text) in case.files.as_slice() {
        let name = Name::new(rt.alloc(), name.as_bytes())?;
        files.push((name, bytes_of(rt, text)?))?;
    }
    Ok(files)
}

/// The answer that a case wants, where it says it whole.
pub(crate) fn wanted<R: Files + AllocGlobal>(rt: &R, case: &Case) -> Result<Option<Answer>> {
    let Want::Whole(whole) = &case.want else {
        return Ok(None);
    };
    let out = bytes_of(rt, &whole.out)?;
    let err = Vec::from_slice(rt.alloc(), whole.err.as_bytes())?;
    Ok(Some(Answer {
        status: whole.status,
        out,
        err,
    }))
}

/// Runs the program on the words and the files of a case.
pub(crate) fn answer_to<R: Files + AllocGlobal + Threads + Sync>(
    rt: &R,
    case: &Case,
) -> Result<Answer> {
    let alloc = rt.alloc();
    let mut files = MemFiles::new(alloc, files_of(rt, case)?, Vec::new(alloc))?;
    let mut page = Page::new(MemSink::new(alloc, ROOM, Vec::new(alloc))?);
    let mut err = MemSink::new(alloc, ROOM, Vec::new(alloc))?;
    let words = case.words.as_slice();
    let status = view(rt, alloc, words, &mut files, &mut page, &mut err, false);
    Ok(Answer {
        status: status.code(),
        out: Vec::from_slice(alloc, page.sink().bytes())?,
        err: Vec::from_slice(alloc, err.bytes())?,
    })
}
