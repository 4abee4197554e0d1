use anyhow::{Context, Result};
use bsv_bits::Name;
use bsv_case_files::{Case, Text};
use bsv_io::{MemFiles, MemSink, SureFiles, SureSink};
use bsv_top::{Status, run, run_surely};
use std::fs;
use std::rt::Files;
use std::thread::Threads;

/// The room of a fault text, in bytes.
const TEXT_ROOM: usize = 100_000;

/// What the program answered.
#[derive(Drop)]
pub(crate) struct Answer {
    pub(crate) status: Status,
    pub(crate) out: MemSink,
    pub(crate) err: MemSink,
}

/// The bytes of a text.
pub(crate) fn bytes_of<R: Files + AllocGlobal>(rt: &R, text: &Text) -> Result<Vec<u8>> {
    match text {
        Text::Given(text) => Ok(Vec::from_slice(rt.alloc(), text.as_bytes())?),
        Text::Stored(name) => {
            let name = name.as_str();
            Ok(fs::read(rt, name).context(format_args!("reading {name}"))?)
        }
    }
}

/// The files of a case, with their bytes.
fn files_of<R: Files + AllocGlobal>(rt: &R, case: &Case) -> Result<Vec<(Name, Vec<u8>)>> {
    let mut files = Vec::new(rt.alloc());
    for (name, text) in case.files.as_slice() {
        let name = Name::new(rt.alloc(), name.as_bytes())?;
        files.push((name, bytes_of(rt, text)?))?;
    }
    Ok(files)
}

/// Runs the program on the words and the files of a case.
pub(crate) fn answer_to<R: Files + AllocGlobal + Threads + Sync>(
    rt: &R,
    case: &Case,
) -> Result<Answer> {
    let alloc = rt.alloc();
    let outside = &case.outside;
    let mut files = MemFiles::new(alloc, files_of(rt, case)?, outside.failing_reads.clone()?)?;
    let mut out = MemSink::new(alloc, outside.room, outside.failing_puts.clone()?)?;
    let mut err = MemSink::new(alloc, outside.text_room, outside.failing_texts.clone()?)?;
    let words = case.words.as_slice();
    let status = run(rt, alloc, words, &mut files, &mut out, &mut err);
    Ok(Answer { status, out, err })
}

/// Whether a run over files and sinks that never fail answers the same, and puts as many bytes.
pub(crate) fn is_sure<R: Files + AllocGlobal + Threads + Sync>(
    rt: &R,
    case: &Case,
    answer: &Answer,
) -> Result<bool> {
    let mut files = SureFiles::new(files_of(rt, case)?);
    let mut out = SureSink::new();
    let mut err = SureSink::new();
    let words = case.words.as_slice();
    let status = run_surely(rt, rt.alloc(), words, &mut files, &mut out, &mut err);
    Ok(
        status == answer.status
            && out.taken() == answer.out.bytes().len() as u64
            && err.taken() == answer.err.bytes().len() as u64,
    )
}

/// Whether another command answers to the source of a run as the run did: `schedule` is refused by the same line where
/// the run was refused, and `verilog` is done where it was done or met a bad line of its trace.
pub(crate) fn is_alike<R: Files + AllocGlobal + Threads + Sync>(
    rt: &R,
    case: &Case,
    answer: &Answer,
) -> Result<bool> {
    let alloc = rt.alloc();
    let [_, file, top, _] = case.words.as_slice() else {
        return Ok(true);
    };
    let command = if answer.status == Status::Refused {
        "schedule"
    } else {
        "verilog"
    };
    let mut words = Vec::new(alloc);
    for word in [command, file.as_str(), top.as_str()] {
        words.push(String::from_str(alloc, word)?)?;
    }
    let mut files = SureFiles::new(files_of(rt, case)?);
    let mut out = SureSink::new();
    let mut err = MemSink::new(alloc, TEXT_ROOM, Vec::new(alloc))?;
    let status = run(rt, alloc, words.as_slice(), &mut files, &mut out, &mut err);
    Ok(match answer.status {
        Status::Refused => {
            status == Status::Refused && out.taken() == 0 && err.bytes() == answer.err.bytes()
        }
        Status::Done | Status::TraceFault => status == Status::Done && out.taken() > 0,
        _ => true,
    })
}
