use crate::answer::answer;
use crate::faults::{tell_stop, tell_usage};
use crate::form::{Entry, Form, form_of};
use crate::status::Status;
use crate::stop::Stop;
use bsv_flow::Refusal;
use bsv_io::{Failed, Files, Sink};
use bsv_page::Page;
use bsv_why::cause;
use std::alloc::Global;
use std::thread::Threads;

/// Puts the text to its end, and answers the status; it is a write fault where that fails.
fn ended<O: Sink + Drop>(page: &mut Page<O>, status: Status) -> Status {
    match page.end() {
        Ok(()) => status,
        Err(Failed) => Status::WriteFault,
    }
}

/// Puts the cause of a refusal, whose line was told before.
fn tell_cause<R: Threads + Sync, F: Files, O: Sink + Drop>(
    rt: &R,
    alloc: Global,
    files: &mut F,
    entry: Entry<'_>,
    refusal: &Refusal,
    page: &mut Page<O>,
) -> Status {
    if cause(rt, alloc, files, entry.file, entry.top, refusal, page).is_err() {
        page.text(b"the cause could not be told\n");
    }
    ended(page, Status::Refused)
}

/// Tells why words that have a form are not done, after the text that was put up to there; and of a refused design,
/// where it is asked why, the cause.
fn stopped<R: Threads + Sync, F: Files, O: Sink + Drop, E: Sink>(
    rt: &R,
    alloc: Global,
    files: &mut F,
    form: Form<'_>,
    stop: &Stop,
    page: &mut Page<O>,
    err: &mut E,
) -> Status {
    if let Err(Failed) = page.end() {
        return Status::WriteFault;
    }
    let status = tell_stop(err, stop);
    match form {
        Form::Why(entry) => match stop {
            Stop::Refused(refusal) if status == Status::Refused => {
                tell_cause(rt, alloc, files, entry, refusal, page)
            }
            _ => status,
        },
        _ => status,
    }
}

/// Does all that the program does. `words` are those after the program's name, `files` are read, the output goes to
/// the page, and a fault text of one line to `err`, with the number of clocks that are done before it where that is
/// watched. The answer is the exit status.
pub fn view<R: Threads + Sync, F: Files, O: Sink + Drop, E: Sink>(
    rt: &R,
    alloc: Global,
    words: &[String],
    files: &mut F,
    page: &mut Page<O>,
    err: &mut E,
    is_watched: bool,
) -> Status {
    let Some(form) = form_of(words, is_watched) else {
        return tell_usage(err);
    };
    match answer(rt, alloc, files, form, page, err) {
        Ok(()) => ended(page, Status::Done),
        Err(stop) => stopped(rt, alloc, files, form, &stop, page, err),
    }
}
