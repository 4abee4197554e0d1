ghost use Rattle.std.specs.Prelude.{◌≡◌, ◌≤◌, ◌<◌, ◌+◌, ℕ, List, [], length, Some, Err};
ghost use Rattle.std.specs.Prelude.{OnOk, IsSome};
ghost use Rattle.bsv_design.specs.scheme.Schemes.{Asking};
ghost use Rattle.bsv_io.specs.Faults.{MayFault};
ghost use Rattle.bsv_io.specs.Reading.{bytes_given, current_name, rest};
ghost use Rattle.bsv_io.specs.Writing.{Writing};
ghost use Rattle.bsv_run.specs.Gathered.{limit_of, lines_ended};
ghost use Rattle.bsv_run.specs.Traces.{bytes_in, lines_of};
ghost use Rattle.bsv_top.specs.Running.{HasRun, IsStart, its_outlines};
ghost use Rattle.bsv_top.specs.Running.{IsStartedOf, IsDoneOf, IsFaultyOf, IsReportToOf};
ghost use Rattle.bsv_top.specs.Traces.{HasBadLine, trace_limit};

use crate::scheduled::ScheduledDesign;
use bsv_io::{Failed, Files, Sink};
use bsv_run::{Halt, Run};

/// How many bytes a trace may have.
pub(crate) const TRACE_LIMIT: u64 = 67_108_864;

/// Reads the trace, which is the current file, to its end, and runs its clocks; `buffer` is room to
/// read into.
pub(crate) fn run_trace<F: Files, O: Sink>(
    files: &mut F,
    scheduled: &ScheduledDesign,
    run: &mut Run,
    buffer: &mut [u8],
    out: &mut O,
) -> Result<(), Halt>
    requires start { IsStart scheduled.now run.old }
    requires room { 0 < length buffer.old }
    requires current { IsSome (F.reading files.old).current }

    // All lines are run; or the first bad one is met; and in any case a prefix of a report is put.
    ensures done { OnOk result ((start : Writing) (trace : List ℕ)
        → HasRun scheduled.now start [] run.old (O.writing out.old)
        → rest (F.reading files.old) ≡ Some trace
        → IsDoneOf scheduled.now start trace (O.writing out.new)) }
    ensures bad { result ≡ Err Halt.BadLine → (start : Writing) (trace : List ℕ)
        → HasRun scheduled.now start [] run.old (O.writing out.old)
        → rest (F.reading files.old) ≡ Some trace
        → IsFaultyOf scheduled.now start trace (O.writing out.new) (lines_ended run.new.lines + 1) }
    ensures started { (start : Writing) (trace : List ℕ)
        → HasRun scheduled.now start [] run.old (O.writing out.old)
        → rest (F.reading files.old) ≡ Some trace
        → IsStartedOf scheduled.now start trace (O.writing out.new) }

    // Where the trace can be read no further, the report is put of the lines that were given whole.
    ensures interrupted { result ≡ Err Halt.Unreadable → (start : Writing) (trace : List ℕ)
        → HasRun scheduled.now start [] run.old (O.writing out.old)
        → rest (F.reading files.old) ≡ Some trace → (place : ℕ)
        → bytes_given (F.reading files.new) ≡ bytes_given (F.reading files.old) + place
        → IsReportToOf scheduled.now start trace place (O.writing out.new) }

    // The causes of the other faults.
    ensures unreadable { result ≡ Err Halt.Unreadable
        → MayFault (F.reading files.old).faults (F.reading files.new).faults
        × ((F.reading files.new).blamed ≡ current_name (F.reading files.old)) }
    ensures unwritable { result ≡ Err Halt.Unwritable
        → MayFault (O.writing out.old).faults (O.writing out.new).faults }

    // The same file is read on to its end at most, and at most one piece after its first bad line.
    ensures current { current_name (F.reading files.new) ≡ current_name (F.reading files.old) }
    ensures end { (trace : List ℕ) → rest (F.reading files.old) ≡ Some trace
        → bytes_given (F.reading files.new) ≤ bytes_given (F.reading files.old) + length trace }
    ensures within { (start : Writing) (trace : List ℕ) (qs : List Asking)
        → HasRun scheduled.now start [] run.old (O.writing out.old)
        → rest (F.reading files.old) ≡ Some trace
        → HasBadLine (its_outlines scheduled.now) trace qs
        → bytes_given (F.reading files.new) ≤ bytes_given (F.reading files.old)
        + bytes_in (length qs + 1) (lines_of trace) + length buffer.old }

    ensures limit { limit_of run.new.lines ≡ trace_limit }
    ensures contents { (F.reading files.new).contents ≡ (F.reading files.old).contents }
    ensures files_count { (F.reading files.old).faults ≤ (F.reading files.new).faults }
    ensures files_kept { (result ≡ Err Halt.Unreadable → ⊥)
        → (F.reading files.new).faults ≡ (F.reading files.old).faults }
    ensures out_count { (O.writing out.old).faults ≤ (O.writing out.new).faults }
    ensures out_kept { (result ≡ Err Halt.Unwritable → ⊥)
        → (O.writing out.new).faults ≡ (O.writing out.old).faults }
{
    for _turn in 0..TRACE_LIMIT + 1 {
        let len = match files.read(buffer) {
            Ok(len) => len,
            Err(Failed) => return Err(Halt::Unreadable),
        };
        if len == 0 {
            return run.run_last(&scheduled.design, &scheduled.schedule, out);
        }
        run.run_piece(&scheduled.design, &scheduled.schedule, &buffer[..len], out)?;
    }
    unreachable!()
}
