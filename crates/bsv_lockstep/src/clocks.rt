ghost use Rattle.std.specs.Prelude.{IfOk};
ghost use Rattle.bsv_flow.specs.Running.{BelongTogether};
ghost use Rattle.bsv_lockstep.specs.Running.{CarriesDesign, FitsRun};

use crate::agreeing::{agrees, simulator_agrees};
use crate::asked::inputs;
use crate::evaluating::evaluated;
use crate::shown::{filled, shown};
use anyhow::{Result, bail};
use bsv_bits::{OutOfMemory, Word};
use bsv_design::{Design, Fired, Requests, State};
use bsv_flow::Compiled;
use bsv_net::Net;
use bsv_serial::clock;
use bsv_share::share;
use bsv_sim::Sim;
use bsv_trace::line;
use std::alloc::Global;

/// An engine that is compared with the serial one.
#[derive(Clone, Copy)]
pub(crate) enum Engine {
    /// The net before repeats were taken out of it.
    Net,
    /// The net without repeats.
    SharedNet,
    Simulator,
}

/// How a trace is run by all engines.
#[derive(Clone, Copy)]
pub(crate) enum Outcome {
    /// They agree in so many clocks, which are all.
    Agree(u64),
    /// This clock, counted from 1, is the first one in which an engine differs, which is this one.
    Differ(u64, Engine),
}

/// How far the serial engine and the simulator have run a design: the state, and what was asked and what happened in the
/// last clock.
#[derive(Drop)]
pub(crate) struct Run {
    pub(crate) state: State,
    pub(crate) requests: Requests,
    pub(crate) fired: Fired,
    pub(crate) sim: Sim,
    /// What the simulator tells of the last clock.
    pub(crate) told: Fired,
}

impl Run {
    /// Nothing was run yet.
    fn new(alloc: Global, compiled: &Compiled, net: &Net) -> Result<Run, OutOfMemory>
        requires compiled { BelongTogether compiled.now }
        requires net { CarriesDesign compiled.now net.now }
        ensures { IfOk result (FitsRun compiled.now) }
    {
        let design = &compiled.design;
        let shared = share(alloc, net)?;
        Ok(Run {
            state: State::opening(alloc, design)?,
            requests: Requests::new(alloc, design)?,
            fired: Fired::new(alloc, design)?,
            sim: Sim::make(alloc, shared)?,
            told: Fired::new(alloc, design)?,
        })
    }

    /// The words of all nodes of a net in the clock of this number, from the state before it.
    fn words(&self, alloc: Global, design: &Design, net: &Net, number: u64) -> Result<Vec<Word>> {
        let before = shown(alloc, design, &self.state)?;
        let registers = filled(alloc, net.registers.as_slice(), &before)?;
        let inputs = inputs(alloc, design, &self.requests, number)?;
        evaluated(alloc, net, &registers, &inputs)
    }

    /// Runs a clock by the serial engine and by the simulator.
    fn run_clock(&mut self, alloc: Global, compiled: &Compiled) -> Result<(), OutOfMemory>
        requires compiled { BelongTogether compiled.now }
        requires fits { FitsRun compiled.now self.old }
        ensures fits { FitsRun compiled.now self.new }
    {
        self.sim
            .clock(&compiled.schedule, &self.requests, &mut self.told);
        clock(
            alloc,
            &compiled.design,
            &compiled.guards,
            &compiled.schedule,
            &mut self.state,
            &self.requests,
            &mut self.fired,
        )
    }

    /// Runs the clock of a line of the trace, counted from 1, and tells which engine differs from the serial one.
    fn run_line(
        &mut self,
        alloc: Global,
        compiled: &Compiled,
        net: &Net,
        text: &[u8],
        number: u64,
    ) -> Result<Option<Engine>>
        requires compiled { BelongTogether compiled.now }
        requires fits { FitsRun compiled.now self.old }
        ensures fits { FitsRun compiled.now self.new }
    {
        let design = &compiled.design;
        if line(design, text, &mut self.requests).is_err() {
            bail!("a line of the trace asks for nothing");
        }
        let words = self.words(alloc, design, net, number)?;
        let shared_words = self.words(alloc, design, &compiled.net, number)?;
        self.run_clock(alloc, compiled)?;
        let behind = shown(alloc, design, &self.state)?;
        if !agrees(design, net, &words, &self.fired, &behind) {
            return Ok(Some(Engine::Net));
        }
        if !agrees(design, &compiled.net, &shared_words, &self.fired, &behind) {
            return Ok(Some(Engine::SharedNet));
        }
        if !simulator_agrees(self.sim.registers(), &self.told, &self.fired, &behind) {
            return Ok(Some(Engine::Simulator));
        }
        Ok(None)
    }
}

/// Runs the clock of each line of a trace by all engines, until one differs. `net` is the net of the design before repeats
/// were taken out of it.
pub(crate) fn outcome_of(
    alloc: Global,
    compiled: &Compiled,
    net: &Net,
    trace: &str,
) -> Result<Outcome>
    requires compiled { BelongTogether compiled.now }
    requires net { CarriesDesign compiled.now net.now }
{
    let mut run = Run::new(alloc, compiled, net)?;
    let mut clocks = 0u64;
    for text in trace.split('\n') {
        clocks = clocks.saturating_add(1);
        if let Some(engine) = run.run_line(alloc, compiled, net, text.as_bytes(), clocks)? {
            return Ok(Outcome::Differ(clocks, engine));
        }
    }
    Ok(Outcome::Agree(clocks))
}
