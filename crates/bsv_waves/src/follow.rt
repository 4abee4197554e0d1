ghost use Rattle.std.specs.Prelude.{◌<◌, length, IsSome};
ghost use Rattle.bsv_waves.specs.Running.{FitsRun};

use crate::fault::Halt;
use crate::recorder::Recorder;
use bsv_io::{Files, Sink};
use bsv_page::Page;
use bsv_tree::Tree;

/// How many bytes a trace may have.
pub(crate) const TRACE_LIMIT: u64 = 67_108_864;

/// Runs the pieces of the trace, which is the current file, one after the other, and puts their clocks; `buffer` is
/// room to read into. Where the output fails, the trace is read no further.
pub(crate) fn run_trace<F: Files, O: Sink + Drop, E: Sink>(
    files: &mut F,
    tree: &Tree,
    recorder: &mut Recorder,
    buffer: &mut [u8],
    page: &mut Page<O>,
    err: &mut E,
) -> Result<(), Halt>
    requires room { 0 < length buffer.old }
    requires current { IsSome (F.reading files.old).current }
    requires fits { FitsRun recorder.old.run }
{
    for _turn in 0..TRACE_LIMIT + 2 {
        let Ok(len) = files.read(buffer) else {
            return Err(Halt::Unreadable);
        };
        if len == 0 || page.has_failed() {
            return recorder.run_last(tree, page);
        }
        recorder.run_piece(tree, &buffer[..len], page, err)?;
    }
    Ok(())
}
