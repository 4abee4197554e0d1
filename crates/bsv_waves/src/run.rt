ghost use Rattle.std.specs.Prelude.{IfOk, OnOk};
ghost use Rattle.bsv_flow.specs.Running.{BelongTogether};
ghost use Rattle.bsv_waves.specs.Running.{FitsRun};

use bsv_bits::{OutOfMemory, Word};
use bsv_design::{Design, Fired, Requests, Schedule};
use bsv_flow::Compiled;
use bsv_sim::Sim;
use bsv_trace::{BadLine, line};
use std::alloc::Global;

/// A design with its simulator, and room for what a line asks for and for what happens in its clock.
#[derive(Drop)]
pub(crate) struct Run {
    pub(crate) design: Design,
    pub(crate) schedule: Schedule,
    pub(crate) sim: Sim,
    pub(crate) requests: Requests,
    pub(crate) fired: Fired,
}

impl Run {
    /// The start of a run of what was compiled. A clock takes no memory.
    pub(crate) fn new(alloc: Global, compiled: Compiled) -> Result<Run, OutOfMemory>
        requires { BelongTogether compiled }
        ensures { IfOk result FitsRun }
    {
        let requests = Requests::new(alloc, &compiled.design)?;
        let fired = Fired::new(alloc, &compiled.design)?;
        let Compiled {
            design,
            schedule,
            net,
            ..
        } = compiled;
        let sim = Sim::make(alloc, net)?;
        Ok(Run {
            design,
            schedule,
            sim,
            requests,
            fired,
        })
    }

    /// Runs the clock of a line of a trace.
    pub(crate) fn clock(&mut self, text: &[u8]) -> Result<(), BadLine>
        requires { FitsRun self.old }
        ensures { OnOk result (FitsRun self.new) }
    {
        line(&self.design, text, &mut self.requests)?;
        self.sim
            .clock(&self.schedule, &self.requests, &mut self.fired);
        Ok(())
    }

    /// How many elements there are.
    pub(crate) fn elements(&self) -> usize {
        self.design.elements.len()
    }

    /// The words of the registers.
    pub(crate) fn registers(&self) -> &[Word] {
        self.sim.registers()
    }
}
