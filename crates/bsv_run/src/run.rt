ghost use Rattle.std.specs.Prelude.{◌≡◌, ◌≤◌, ◌<◌, ℕ, ◌+◌, ◌++◌, List, length, Err};
ghost use Rattle.std.specs.Prelude.{IfOk, OnOk, OnErr};
ghost use Rattle.bsv_design.specs.scheme.Schemes.{Asking};
ghost use Rattle.bsv_design.specs.declared.schedule.Schedule.{Schedule as TheSchedule};
ghost use Rattle.bsv_prim.specs.declared.part.Part.{Part};
ghost use Rattle.bsv_io.specs.Faults.{MayFault};
ghost use Rattle.bsv_io.specs.Writing.{Writing};
ghost use Rattle.bsv_sim.specs.Simulation.{IsSimulated, registers_of};
ghost use Rattle.bsv_trace.specs.Lines.{AsksFor};
ghost use Rattle.bsv_run.specs.Gathered.{bytes_read, held_of, limit_of, lines_ended};
ghost use Rattle.bsv_run.specs.Reading.{IsEnded};
ghost use Rattle.bsv_run.specs.Running.{BeginsClock, EndsLine, FitsRun, HasRun, IsStart};
ghost use Rattle.bsv_run.specs.Running.{IsStartedOf, IsDoneOf, IsFaultyOf, ShowsParts};
ghost use Rattle.bsv_run.specs.Running.{outlines_of};
ghost use Rattle.bsv_run.specs.Traces.{line_text};

use crate::halt::Halt;
use crate::lines::{Lines, first_line};
use bsv_bits::{OutOfMemory, Word};
use bsv_design::{Design, Fired, Requests, Schedule};
use bsv_io::Sink;
use bsv_net::Net;
use bsv_sim::Sim;
use bsv_trace::{ClockWriter, line};
use std::alloc::Global;

/// How far a trace was run: how far it was read, and the simulator, whose registers show the state; with room for
/// what a line asks for, for what happens in its clock, and for its text. A clock takes no memory.
#[derive(Drop)]
pub struct Run {
    pub lines: Lines,
    pub sim: Sim,
    pub requests: Requests,
    pub fired: Fired,
    pub writer: ClockWriter,
}

impl Run {
    /// The start of a run of a design on its net, over a trace that may have so many bytes. All memory is taken
    /// here that its clocks need.
    pub fn start(alloc: Global, design: &Design, net: Net, limit: u64) -> Result<Run, OutOfMemory>
        ensures { IfOk result (λ run. (made : TheSchedule) → IsSimulated design.now made net
            → IsStart limit design.now made run) }
    {
        let requests = Requests::new(alloc, design)?;
        let fired = Fired::new(alloc, design)?;
        let lines = Lines::new(alloc, limit)?;
        let writer = ClockWriter::new();
        let sim = Sim::make(alloc, net)?;
        Ok(Run {
            lines,
            sim,
            requests,
            fired,
            writer,
        })
    }

    /// How many lines were run.
    pub fn lines_done(&self) -> u64
        ensures done { result ≡ lines_ended self.now.lines }
        ensures within { result ≤ limit_of self.now.lines }
    {
        self.lines.done()
    }

    /// The words of the registers, which show the state.
    pub fn registers(&self) -> &[Word]
        ensures { result.now ≡ registers_of self.now.sim }
    {
        self.sim.registers()
    }

    /// Runs the clock of the line that was gathered, and puts its lines.
    fn run_line<O: Sink>(
        &mut self,
        design: &Design,
        schedule: &Schedule,
        out: &mut O,
    ) -> Result<(), Halt>
        requires fits { FitsRun design.now schedule.now self.old }
        requires some { 0 < length (held_of self.old.lines) }
        ensures fits { FitsRun design.now schedule.now self.new }
        ensures ran { OnOk result (EndsLine design.now schedule.now self.old self.new
            (O.writing out.old) (O.writing out.new)) }
        ensures bad { result ≡ Err Halt.BadLine → (q : Asking)
            → AsksFor (outlines_of design.now) (line_text (held_of self.old.lines)) q → ⊥ }
        ensures started { result ≡ Err Halt.Unwritable → (s : List Part)
            → ShowsParts design.now self.old s
            → BeginsClock design.now schedule.now self.old self.new s
            (O.writing out.old) (O.writing out.new) }
        ensures lines { OnErr result (self.new.lines ≡ self.old.lines) }
        ensures quiet { OnErr result ((result ≡ Err Halt.Unwritable → ⊥)
            → O.writing out.new ≡ O.writing out.old) }
        ensures unwritable { result ≡ Err Halt.Unwritable
            → MayFault (O.writing out.old).faults (O.writing out.new).faults }
        ensures reads { result ≡ Err Halt.Unreadable → ⊥ }
        ensures kept { (result ≡ Err Halt.Unwritable → ⊥)
            → (O.writing out.new).faults ≡ (O.writing out.old).faults }
        ensures count { (O.writing out.old).faults ≤ (O.writing out.new).faults }
        ensures limit { limit_of self.new.lines ≡ limit_of self.old.lines }
    {
        line(design, self.lines.text(), &mut self.requests)?;
        self.sim.clock(schedule, &self.requests, &mut self.fired);
        let number = self.lines.number();
        let registers = self.sim.registers();
        self.writer
            .put(design, number, &self.fired, registers, out)?;
        self.lines.end_line();
        Ok(())
    }

    /// Takes bytes that end a line, and runs its clock.
    fn run_ended<O: Sink>(
        &mut self,
        design: &Design,
        schedule: &Schedule,
        bytes: &[u8],
        out: &mut O,
    ) -> Result<(), Halt>
        requires fits { FitsRun design.now schedule.now self.old }
        requires ended { IsEnded bytes.now }
        ensures fits { FitsRun design.now schedule.now self.new }
        ensures ran { OnOk result ((limit : ℕ) (start : Writing) (read : List ℕ)
            → HasRun limit design.now schedule.now start read self.old (O.writing out.old)
            → HasRun limit design.now schedule.now start (read ++ bytes.now) self.new
            (O.writing out.new)) }
        ensures bad { result ≡ Err Halt.BadLine
            → (limit : ℕ) (start : Writing) (read left : List ℕ)
            → HasRun limit design.now schedule.now start read self.old (O.writing out.old)
            → IsFaultyOf limit design.now schedule.now start ((read ++ bytes.now) ++ left)
            (O.writing out.new) (lines_ended self.new.lines + 1) }
        ensures started { OnErr result ((limit : ℕ) (start : Writing) (read left : List ℕ)
            → HasRun limit design.now schedule.now start read self.old (O.writing out.old)
            → IsStartedOf limit design.now schedule.now start ((read ++ bytes.now) ++ left)
            (O.writing out.new)) }
        ensures long { OnOk result (bytes_read self.new.lines
            ≡ bytes_read self.old.lines + length bytes.now) }
        ensures unwritable { result ≡ Err Halt.Unwritable
            → MayFault (O.writing out.old).faults (O.writing out.new).faults }
        ensures reads { result ≡ Err Halt.Unreadable → ⊥ }
        ensures kept { (result ≡ Err Halt.Unwritable → ⊥)
            → (O.writing out.new).faults ≡ (O.writing out.old).faults }
        ensures count { (O.writing out.old).faults ≤ (O.writing out.new).faults }
        ensures limit { limit_of self.new.lines ≡ limit_of self.old.lines }
    {
        self.lines.gather(bytes)?;
        self.run_line(design, schedule, out)
    }

    /// Takes a piece of the trace, and runs the clock of each line that ends in it.
    pub fn run_piece<O: Sink>(
        &mut self,
        design: &Design,
        schedule: &Schedule,
        piece: &[u8],
        out: &mut O,
    ) -> Result<(), Halt>
        requires fits { FitsRun design.now schedule.now self.old }
        ensures fits { FitsRun design.now schedule.now self.new }
        ensures ran { OnOk result ((limit : ℕ) (start : Writing) (read : List ℕ)
            → HasRun limit design.now schedule.now start read self.old (O.writing out.old)
            → HasRun limit design.now schedule.now start (read ++ piece.now) self.new
            (O.writing out.new)) }
        ensures bad { result ≡ Err Halt.BadLine
            → (limit : ℕ) (start : Writing) (read left : List ℕ)
            → HasRun limit design.now schedule.now start read self.old (O.writing out.old)
            → IsFaultyOf limit design.now schedule.now start ((read ++ piece.now) ++ left)
            (O.writing out.new) (lines_ended self.new.lines + 1) }
        ensures started { OnErr result ((limit : ℕ) (start : Writing) (read left : List ℕ)
            → HasRun limit design.now schedule.now start read self.old (O.writing out.old)
            → IsStartedOf limit design.now schedule.now start ((read ++ piece.now) ++ left)
            (O.writing out.new)) }
        ensures long { OnOk result (bytes_read self.new.lines
            ≡ bytes_read self.old.lines + length piece.now) }
        ensures unwritable { result ≡ Err Halt.Unwritable
            → MayFault (O.writing out.old).faults (O.writing out.new).faults }
        ensures reads { result ≡ Err Halt.Unreadable → ⊥ }
        ensures kept { (result ≡ Err Halt.Unwritable → ⊥)
            → (O.writing out.new).faults ≡ (O.writing out.old).faults }
        ensures count { (O.writing out.old).faults ≤ (O.writing out.new).faults }
        ensures limit { limit_of self.new.lines ≡ limit_of self.old.lines }
        ensures within { bytes_read self.new.lines ≤ limit_of self.new.lines }
    {
        let mut left = piece;
        while let Some((ended, behind)) = first_line(left) {
            self.run_ended(design, schedule, ended, out)?;
            left = behind;
        }
        self.lines.gather(left)?;
        Ok(())
    }

    /// Takes the end of the trace: what was begun of a line is a line.
    pub fn run_last<O: Sink>(
        &mut self,
        design: &Design,
        schedule: &Schedule,
        out: &mut O,
    ) -> Result<(), Halt>
        requires fits { FitsRun design.now schedule.now self.old }
        ensures done { OnOk result ((limit : ℕ) (start : Writing) (trace : List ℕ)
            → HasRun limit design.now schedule.now start trace self.old (O.writing out.old)
            → IsDoneOf limit design.now schedule.now start trace (O.writing out.new)) }
        ensures bad { result ≡ Err Halt.BadLine → (limit : ℕ) (start : Writing) (trace : List ℕ)
            → HasRun limit design.now schedule.now start trace self.old (O.writing out.old)
            → IsFaultyOf limit design.now schedule.now start trace (O.writing out.new)
            (lines_ended self.new.lines + 1) }
        ensures started { (limit : ℕ) (start : Writing) (trace : List ℕ)
            → HasRun limit design.now schedule.now start trace self.old (O.writing out.old)
            → IsStartedOf limit design.now schedule.now start trace (O.writing out.new) }
        ensures unwritable { result ≡ Err Halt.Unwritable
            → MayFault (O.writing out.old).faults (O.writing out.new).faults }
        ensures reads { result ≡ Err Halt.Unreadable → ⊥ }
        ensures kept { (result ≡ Err Halt.Unwritable → ⊥)
            → (O.writing out.new).faults ≡ (O.writing out.old).faults }
        ensures count { (O.writing out.old).faults ≤ (O.writing out.new).faults }
        ensures limit { limit_of self.new.lines ≡ limit_of self.old.lines }
    {
        if self.lines.is_empty() {
            return Ok(());
        }
        self.run_line(design, schedule, out)
    }
}
