ghost use Rattle.std.specs.Prelude.{IfOk};
ghost use Rattle.bsv_waves.specs.Running.{FitsRun};

use crate::fault::{Halt, WavesFault};
use crate::follow::{TRACE_LIMIT, run_trace};
use crate::recorder::Recorder;
use crate::run::Run;
use bsv_bits::{Name, OutOfMemory};
use bsv_flow::{CompileFault, load, scheduled, tree, typed};
use bsv_io::{Failed, Files, NoGate, Sink};
use bsv_page::Page;
use bsv_run::Lines;
use bsv_tree::Tree;
use bsv_vcd::Waves;
use std::alloc::Global;
use std::thread::Threads;

/// Of what the waves are asked.
#[derive(Clone, Copy)]
pub struct Asked<'a> {
    pub file: &'a str,
    pub top: &'a str,
    pub trace: &'a str,
    /// Whether it is told how many clocks are done.
    pub is_watched: bool,
}

/// The tree of a file and what it imports.
fn built<F: Files>(
    alloc: Global,
    files: &mut F,
    file: &str,
    top: &str,
) -> Result<Tree, CompileFault> {
    let loaded = load(alloc, files, file)?;
    let program = typed(alloc, &loaded)?;
    tree(alloc, program, top)
}

/// The start of a run of a tree.
fn run_of<R: Threads + Sync>(rt: &R, alloc: Global, tree: &Tree) -> Result<Run, CompileFault>
    ensures { IfOk result FitsRun }
{
    let compiled = scheduled(rt, alloc, tree, &NoGate)?;
    Ok(Run::new(alloc, compiled)?)
}

/// A run of a tree whose clocks are put as waves.
fn recorder_of(
    alloc: Global,
    tree: &Tree,
    run: Run,
    is_watched: bool,
) -> Result<Recorder, OutOfMemory>
    requires { FitsRun run }
    ensures { IfOk result (λ recorder. FitsRun recorder.run) }
{
    let lines = Lines::new(alloc, TRACE_LIMIT)?;
    let waves = Waves::new(alloc, tree, run.elements(), run.registers())?;
    Ok(Recorder {
        run,
        waves,
        lines,
        is_watched,
    })
}

/// Why a trace of this name has no further waves, of which so many clocks were run.
fn fault_of(halt: Halt, trace: Name, done: u64) -> WavesFault {
    match halt {
        Halt::BadLine => WavesFault::BadLine(done.saturating_add(1)),
        Halt::Unreadable => WavesFault::ReadFault(trace),
    }
}

/// Puts the waves of a run over the trace of a name.
fn put_waves<F: Files, O: Sink + Drop, E: Sink>(
    alloc: Global,
    files: &mut F,
    tree: &Tree,
    trace: &str,
    recorder: &mut Recorder,
    page: &mut Page<O>,
    err: &mut E,
) -> Result<(), WavesFault>
    requires { FitsRun recorder.old.run }
{
    let mut buffer = vec![in alloc; 0u8; 4096]?;
    let name = Name::new(alloc, trace.as_bytes())?;
    let blamed = Name::new(alloc, trace.as_bytes())?;
    if let Err(Failed) = files.choose(name) {
        return Err(WavesFault::ReadFault(blamed));
    }
    recorder.put_start(tree, page);
    let ran = run_trace(files, tree, recorder, &mut buffer, page, err);
    recorder.waves.put_end(tree, page);
    match ran {
        Ok(()) => Ok(()),
        Err(halt) => Err(fault_of(halt, blamed, recorder.lines.done())),
    }
}

/// Compiles a file and what it imports, runs its top over a trace, and puts the waves of the run. Where a line is bad,
/// those of the clocks before it are put. All memory is taken before the first is put. How many clocks are done is told
/// on `err`, where that is watched.
pub fn waves<R: Threads + Sync, F: Files, O: Sink + Drop, E: Sink>(
    rt: &R,
    alloc: Global,
    files: &mut F,
    asked: Asked<'_>,
    page: &mut Page<O>,
    err: &mut E,
) -> Result<(), WavesFault> {
    let tree = built(alloc, files, asked.file, asked.top)?;
    let run = run_of(rt, alloc, &tree)?;
    let mut recorder = recorder_of(alloc, &tree, run, asked.is_watched)?;
    put_waves(alloc, files, &tree, asked.trace, &mut recorder, page, err)
}
