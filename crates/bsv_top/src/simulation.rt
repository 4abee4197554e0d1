ghost use Rattle.std.specs.Prelude.{◌≡◌, ◌⊎◌, ℕ, ◌+◌, ◌<◌, ◌≤◌, List, length, Some, Err};
ghost use Rattle.std.specs.Prelude.{IfOk, OnOk};
ghost use Rattle.bsv_io.specs.Faults.{MayFault};
ghost use Rattle.bsv_io.specs.Reading.{bytes_given};
ghost use Rattle.bsv_run.specs.Gathered.{limit_of, lines_ended};
ghost use Rattle.bsv_flow.specs.Running.{BelongTogether};
ghost use Rattle.bsv_flow.specs.declared.refusal.Refusal.{Refusal as TheRefusal};
ghost use Rattle.bsv_top.specs.Answers.{sim_words};
ghost use Rattle.bsv_top.specs.Outcomes.{IsDoneBy, IsUnread, OutputStarted};
ghost use Rattle.bsv_top.specs.Places.{IsTraceWithin, ReadsWithin, piece_limit};
ghost use Rattle.bsv_top.specs.Running.{IsStart, IsStartedOf, IsDoneOf, IsFaultyOf};
ghost use Rattle.bsv_top.specs.Running.{Follows, IsFollowed, IsInterruptedOf, its_outlines, scheduled_of};
ghost use Rattle.bsv_top.specs.Stops.{IsStopOf, stop_for};
ghost use Rattle.bsv_top.specs.Traces.{trace_limit};
ghost use Rattle.bsv_top.specs.declared.stop.Stop.{Stop as TheStop};

use crate::follow::{TRACE_LIMIT, run_trace};
use crate::form::Simulation;
use crate::scheduled::ScheduledDesign;
use crate::stop::Stop;
use bsv_bits::{Name, OutOfMemory};
use bsv_flow::{Compiled, compile};
use bsv_io::{Failed, Files, NoGate, Sink};
use bsv_run::{Halt, Run};
use bsv_trace::write_opening_registers;
use std::alloc::Global;
use std::thread::Threads;

/// Chooses the trace, and puts the report of its run; `buffer` is room to read into.
fn put_report<F: Files, O: Sink>(
    files: &mut F,
    name: Name,
    scheduled: &ScheduledDesign,
    run: &mut Run,
    buffer: &mut [u8],
    out: &mut O,
) -> Result<(), Halt>
    requires start { IsStart scheduled.now run.old }
    requires room { 0 < length buffer.old }
    ensures done { OnOk result ((contents : List ℕ → List ℕ)
        → (F.reading files.old).contents ≡ Some contents
        → IsDoneOf scheduled.now (O.writing out.old) (contents name) (O.writing out.new)) }
    ensures bad { result ≡ Err Halt.BadLine → (contents : List ℕ → List ℕ)
        → (F.reading files.old).contents ≡ Some contents
        → IsFaultyOf scheduled.now (O.writing out.old) (contents name) (O.writing out.new)
        (lines_ended run.new.lines + 1) }
    ensures started { (contents : List ℕ → List ℕ)
        → (F.reading files.old).contents ≡ Some contents
        → IsStartedOf scheduled.now (O.writing out.old) (contents name) (O.writing out.new) }
    ensures unreadable { result ≡ Err Halt.Unreadable
        → MayFault (F.reading files.old).faults (F.reading files.new).faults
        × ((F.reading files.new).blamed ≡ Some name) }
    ensures interrupted { result ≡ Err Halt.Unreadable → (contents : List ℕ → List ℕ)
        → (F.reading files.old).contents ≡ Some contents
        → IsInterruptedOf scheduled.now (O.writing out.old) (contents name)
        (F.reading files.new).current (O.writing out.new) }
    ensures unwritable { result ≡ Err Halt.Unwritable
        → MayFault (O.writing out.old).faults (O.writing out.new).faults }
    ensures followed { (result ≡ Err Halt.Unreadable → ⊥) → (contents : List ℕ → List ℕ)
        → (F.reading files.old).contents ≡ Some contents
        → IsFollowed (its_outlines scheduled.now) (length buffer.old) name contents
        (F.reading files.new) }
    ensures within { (contents : List ℕ → List ℕ)
        → (F.reading files.old).contents ≡ Some contents
        → (bytes_given (F.reading files.new) ≡ 0) ⊎ IsFollowed (its_outlines scheduled.now)
        (length buffer.old) name contents (F.reading files.new) }
    ensures limit { limit_of run.new.lines ≡ trace_limit }
    ensures files_count { (F.reading files.old).faults ≤ (F.reading files.new).faults }
    ensures files_kept { (result ≡ Err Halt.Unreadable → ⊥)
        → (F.reading files.new).faults ≡ (F.reading files.old).faults }
    ensures out_count { (O.writing out.old).faults ≤ (O.writing out.new).faults }
    ensures out_kept { (result ≡ Err Halt.Unwritable → ⊥)
        → (O.writing out.new).faults ≡ (O.writing out.old).faults }
{
    if let Err(Failed) = files.choose(name) {
        return Err(Halt::Unreadable);
    }
    write_opening_registers(&scheduled.design, run.registers(), out)?;
    run_trace(files, scheduled, run, buffer, out)
}

/// Why a trace of this name is not run to its end; its next line has this number.
fn stop_for(halt: Halt, trace: Name, number: u64) -> Stop
    ensures { result ≡ stop_for halt trace number }
{
    match halt {
        Halt::BadLine => Stop::BadLine(number),
        Halt::Unreadable => Stop::Unread(trace),
        Halt::Unwritable => Stop::Unwritable,
    }
}

/// What was compiled as it is run, and the start of its run.
#[derive(Drop)]
pub(crate) struct Started {
    pub(crate) scheduled: ScheduledDesign,
    pub(crate) run: Run,
}

/// The start of a run of what was compiled. All memory is taken here that its clocks need.
pub(crate) fn start(alloc: Global, compiled: Compiled) -> Result<Started, OutOfMemory>
    requires { BelongTogether compiled }
    ensures scheduled { IfOk result (λ started. started.scheduled ≡ scheduled_of compiled) }
    ensures start { IfOk result (λ started. IsStart started.scheduled started.run) }
{
    let Compiled {
        design,
        schedule,
        net,
        ..
    } = compiled;
    let run = Run::start(alloc, &design, net, TRACE_LIMIT)?;
    Ok(Started {
        scheduled: ScheduledDesign { design, schedule },
        run,
    })
}

/// Runs a scheduled design over the trace of a name, from the start of its run.
fn run_over<F: Files, O: Sink>(
    alloc: Global,
    files: &mut F,
    scheduled: &ScheduledDesign,
    run: &mut Run,
    trace: &str,
    out: &mut O,
) -> Result<(), Stop>
    requires start { IsStart scheduled.now run.old }
    ensures done { OnOk result ((contents : List ℕ → List ℕ)
        → (F.reading files.old).contents ≡ Some contents
        → IsDoneOf scheduled.now (O.writing out.old) (contents trace.now) (O.writing out.new)) }
    ensures bad { (number : ℕ) → result ≡ Err (Stop.BadLine number) → (contents : List ℕ → List ℕ)
        → (F.reading files.old).contents ≡ Some contents
        → IsFaultyOf scheduled.now (O.writing out.old) (contents trace.now) (O.writing out.new)
        number }
    ensures started { (contents : List ℕ → List ℕ)
        → (F.reading files.old).contents ≡ Some contents
        → IsStartedOf scheduled.now (O.writing out.old) (contents trace.now) (O.writing out.new) }
    ensures no_memory { result ≡ Err Stop.OutOfMemory
        → O.writing out.new ≡ O.writing out.old }
    ensures own { (r : TheRefusal) → result ≡ Err (Stop.Refused r) → ⊥ }
    ensures no_list_line { (number : ℕ) → result ≡ Err (Stop.BadListLine number) → ⊥ }
    ensures no_traces { (count : ℕ) → result ≡ Err (Stop.BadTraces count) → ⊥ }
    ensures unread { (name : List ℕ) → result ≡ Err (Stop.Unread name) → (name ≡ trace.now)
        × MayFault (F.reading files.old).faults (F.reading files.new).faults
        × ((F.reading files.new).blamed ≡ Some name) }
    ensures interrupted { (name : List ℕ) → result ≡ Err (Stop.Unread name)
        → (contents : List ℕ → List ℕ) → (F.reading files.old).contents ≡ Some contents
        → IsInterruptedOf scheduled.now (O.writing out.old) (contents trace.now)
        (F.reading files.new).current (O.writing out.new) }
    ensures unwritable { result ≡ Err Stop.Unwritable
        → MayFault (O.writing out.old).faults (O.writing out.new).faults }
    ensures within { (contents : List ℕ → List ℕ) → (F.reading files.old).contents ≡ Some contents
        → Follows (its_outlines scheduled.now) trace.now contents
        (F.reading files.old) (F.reading files.new) }
    ensures done_within { OnOk result ((contents : List ℕ → List ℕ)
        → (F.reading files.old).contents ≡ Some contents
        → IsFollowed (its_outlines scheduled.now) piece_limit trace.now contents
        (F.reading files.new)) }
    ensures bad_within { (number : ℕ) → result ≡ Err (Stop.BadLine number)
        → (contents : List ℕ → List ℕ) → (F.reading files.old).contents ≡ Some contents
        → IsFollowed (its_outlines scheduled.now) piece_limit trace.now contents
        (F.reading files.new) }
    ensures files_count { (F.reading files.old).faults ≤ (F.reading files.new).faults }
    ensures files_kept { ((name : List ℕ) → result ≡ Err (Stop.Unread name) → ⊥)
        → (F.reading files.new).faults ≡ (F.reading files.old).faults }
    ensures out_count { (O.writing out.old).faults ≤ (O.writing out.new).faults }
    ensures out_kept { (result ≡ Err Stop.Unwritable → ⊥)
        → (O.writing out.new).faults ≡ (O.writing out.old).faults }
{
    let mut buffer = vec![in alloc; 0u8; 4096]?;
    let name = Name::new(alloc, trace.as_bytes())?;
    let blamed = Name::new(alloc, trace.as_bytes())?;
    match put_report(files, name, scheduled, run, &mut buffer, out) {
        Ok(()) => Ok(()),
        Err(halt) => Err(stop_for(halt, blamed, run.lines_done() + 1)),
    }
}

/// Compiles the file and what it imports, and puts the report of its run over the trace.
pub(crate) fn simulate<R: Threads + Sync, F: Files, O: Sink>(
    rt: &R,
    alloc: Global,
    form: Simulation<'_>,
    files: &mut F,
    out: &mut O,
) -> Result<(), Stop>
    ensures done { OnOk result ((contents : List ℕ → List ℕ)
        → (F.reading files.old).contents ≡ Some contents
        → IsDoneBy (sim_words form.entry.file.now form.entry.top.now form.entry.trace.now) contents
        (O.writing out.old) (O.writing out.new)) }
    ensures stopped { (s : TheStop) → result ≡ Err s → (contents : List ℕ → List ℕ)
        → (F.reading files.old).contents ≡ Some contents
        → IsStopOf (sim_words form.entry.file.now form.entry.top.now form.entry.trace.now) contents
        (O.writing out.old) (O.writing out.new) s }
    ensures started { (contents : List ℕ → List ℕ)
        → (F.reading files.old).contents ≡ Some contents
        → OutputStarted (sim_words form.entry.file.now form.entry.top.now form.entry.trace.now)
        contents (O.writing out.old) (O.writing out.new) }
    ensures no_memory { result ≡ Err Stop.OutOfMemory
        → O.writing out.new ≡ O.writing out.old }
    ensures refused { (r : TheRefusal) → result ≡ Err (Stop.Refused r)
        → O.writing out.new ≡ O.writing out.old }
    ensures no_list_line { (number : ℕ) → result ≡ Err (Stop.BadListLine number) → ⊥ }
    ensures no_traces { (count : ℕ) → result ≡ Err (Stop.BadTraces count) → ⊥ }
    ensures unread { (name : List ℕ) → result ≡ Err (Stop.Unread name)
        → IsUnread (sim_words form.entry.file.now form.entry.top.now form.entry.trace.now) name
        (F.reading files.old) (F.reading files.new) (O.writing out.old) (O.writing out.new) }
    ensures unwritable { result ≡ Err Stop.Unwritable
        → MayFault (O.writing out.old).faults (O.writing out.new).faults }
    ensures within { (contents : List ℕ → List ℕ)
        → (F.reading files.old).contents ≡ Some contents
        → ReadsWithin form.entry.file.now form.entry.top.now form.entry.trace.now contents
        (F.reading files.old) (F.reading files.new) }
    ensures done_within { OnOk result ((contents : List ℕ → List ℕ)
        → (F.reading files.old).contents ≡ Some contents
        → IsTraceWithin form.entry.file.now form.entry.top.now form.entry.trace.now contents
        (F.reading files.new)) }
    ensures bad_within { (number : ℕ) → result ≡ Err (Stop.BadLine number)
        → (contents : List ℕ → List ℕ) → (F.reading files.old).contents ≡ Some contents
        → IsTraceWithin form.entry.file.now form.entry.top.now form.entry.trace.now contents
        (F.reading files.new) }
    ensures files_count { (F.reading files.old).faults ≤ (F.reading files.new).faults }
    ensures files_kept { ((name : List ℕ) → result ≡ Err (Stop.Unread name) → ⊥)
        → (F.reading files.new).faults ≡ (F.reading files.old).faults }
    ensures out_count { (O.writing out.old).faults ≤ (O.writing out.new).faults }
    ensures out_kept { (result ≡ Err Stop.Unwritable → ⊥)
        → (O.writing out.new).faults ≡ (O.writing out.old).faults }
{
    let compiled = compile(rt, alloc, files, form.file, form.top, &NoGate)?;
    let mut started = start(alloc, compiled)?;
    run_over(
        alloc,
        files,
        &started.scheduled,
        &mut started.run,
        form.trace,
        out,
    )
}
