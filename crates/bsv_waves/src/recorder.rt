ghost use Rattle.std.specs.Prelude.{OnOk, ◌<◌, length};
ghost use Rattle.bsv_run.specs.Gathered.{held_of};
ghost use Rattle.bsv_waves.specs.Running.{FitsRun};

use crate::fault::Halt;
use crate::progress::tell_done;
use crate::run::Run;
use bsv_io::Sink;
use bsv_page::Page;
use bsv_run::{Lines, first_line};
use bsv_tree::Tree;
use bsv_vcd::Waves;

/// A run whose clocks are put as waves, and how far it was read.
#[derive(Drop)]
pub(crate) struct Recorder {
    pub(crate) run: Run,
    pub(crate) waves: Waves,
    pub(crate) lines: Lines,
    /// Whether it is told how many clocks are done.
    pub(crate) is_watched: bool,
}

impl Recorder {
    /// Runs the clock of the line that was gathered, and puts it.
    fn run_line<O: Sink + Drop>(&mut self, tree: &Tree, page: &mut Page<O>) -> Result<(), Halt>
        requires fits { FitsRun self.old.run }
        requires some { 0 < length (held_of self.old.lines) }
        ensures { OnOk result (FitsRun self.new.run) }
    {
        self.run.clock(self.lines.text())?;
        self.lines.end_line();
        let run = &self.run;
        let waves = &mut self.waves;
        waves.put_clock(tree, &run.requests, &run.fired, run.registers(), page);
        Ok(())
    }

    /// Takes bytes that end a line, and runs its clock.
    fn run_ended<O: Sink + Drop, E: Sink>(
        &mut self,
        tree: &Tree,
        bytes: &[u8],
        page: &mut Page<O>,
        err: &mut E,
    ) -> Result<(), Halt>
        requires fits { FitsRun self.old.run }
        requires some { 0 < length bytes.now }
        ensures { OnOk result (FitsRun self.new.run) }
    {
        self.lines.gather(bytes)?;
        self.run_line(tree, page)?;
        if self.is_watched {
            tell_done(self.lines.done(), err);
        }
        Ok(())
    }

    /// Takes a piece of the trace, and runs the clock of each line that ends in it.
    pub(crate) fn run_piece<O: Sink + Drop, E: Sink>(
        &mut self,
        tree: &Tree,
        piece: &[u8],
        page: &mut Page<O>,
        err: &mut E,
    ) -> Result<(), Halt>
        requires { FitsRun self.old.run }
        ensures { OnOk result (FitsRun self.new.run) }
    {
        let mut left = piece;
        for _line in 0..piece.len() {
            let Some((ended, after)) = first_line(left) else {
                break;
            };
            self.run_ended(tree, ended, page, err)?;
            left = after;
        }
        self.lines.gather(left)?;
        Ok(())
    }

    /// Takes the end of the trace: what was begun of a line is a line.
    pub(crate) fn run_last<O: Sink + Drop>(
        &mut self,
        tree: &Tree,
        page: &mut Page<O>,
    ) -> Result<(), Halt>
        requires { FitsRun self.old.run }
    {
        if self.lines.is_empty() {
            return Ok(());
        }
        self.run_line(tree, page)
    }

    /// Puts what stands before the first clock.
    pub(crate) fn put_start<O: Sink + Drop>(&mut self, tree: &Tree, page: &mut Page<O>)
        requires { FitsRun self.old.run }
        ensures { FitsRun self.new.run }
    {
        self.waves.put_start(tree, self.run.registers(), page);
    }
}
