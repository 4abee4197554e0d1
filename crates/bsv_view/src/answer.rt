use crate::form::Form;
use crate::stop::Stop;
use bsv_io::{Files, Sink};
use bsv_page::Page;
use bsv_waves::waves;
use bsv_why::{graph, why};
use std::alloc::Global;
use std::thread::Threads;

/// Puts what a form asks for.
pub(crate) fn answer<R: Threads + Sync, F: Files, O: Sink + Drop, E: Sink>(
    rt: &R,
    alloc: Global,
    files: &mut F,
    form: Form<'_>,
    page: &mut Page<O>,
    err: &mut E,
) -> Result<(), Stop> {
    match form {
        Form::Waves(asked) => Ok(waves(rt, alloc, files, asked, page, err)?),
        Form::Graph(entry) => Ok(graph(rt, alloc, files, entry.file, entry.top, page)?),
        Form::Why(entry) => Ok(why(rt, alloc, files, entry.file, entry.top, page)?),
    }
}
