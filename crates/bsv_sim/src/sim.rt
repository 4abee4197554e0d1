ghost use Rattle.std.specs.Prelude.{◌≡◌, ◌≤◌, IfOk, length, map, vec_capacity};
ghost use Rattle.bsv_guard.specs.Fitting.{HaveWidths};
ghost use Rattle.bsv_net.specs.Nets.{register_widths};
ghost use Rattle.bsv_engine.specs.Engines.{code_of};

use crate::inputs::ask;
use crate::registers::{starts, take_over};
use crate::signals::ElementSignals;
use bsv_bits::{OutOfMemory, Word};
use bsv_design::{Fired, Requests, Schedule};
use bsv_engine::Engine;
use bsv_net::Net;
use std::alloc::Global;

/// A net that is run clock after clock, with the words of its registers. What a clock needs is there from the start.
#[derive(Drop)]
pub struct Sim {
    net: Net,
    engine: Engine,
    registers: Vec<Word>,
    /// Room for the words of the inputs.
    inputs: Vec<Word>,
    /// Of each element one that stopped it, where one did.
    stoppers: Vec<u32>,
    ghost code: { code_of engine ≡ record {
      inputs = net.inputs;
      registers = net.registers;
      nodes = net.nodes;
    } },
    ghost widths: { ∥ HaveWidths (register_widths net.registers) registers.items ∥₁ },
    ghost room: { length net.inputs ≤ vec_capacity inputs },
    ghost table: { length stoppers.items ≡ length net.fires },
}

impl Sim {
    ghost use Rattle.bsv_design.specs.declared.design.Design.{Design as TheDesign};
    ghost use Rattle.bsv_design.specs.declared.kind.Kind.{Kind};
    ghost use Rattle.bsv_design.specs.scheme.Rooms.{HasRoom};
    ghost use Rattle.bsv_design.specs.scheme.Seen.{asking};
    ghost use Rattle.bsv_design.specs.scheme.States.{opening};
    ghost use Rattle.bsv_clock.specs.Shows.{Shows, cell, cells_of};
    ghost use Rattle.bsv_prim.specs.declared.part.Part.{Part};
    ghost use Rattle.std.specs.Prelude.{List, ℕ};
    ghost use Rattle.bsv_sim.specs.Inputs.{inputs};
    ghost use Rattle.bsv_sim.specs.Simulation as spec;
    ghost use Rattle.bsv_sim.specs.Steps as steps;

    /// The simulator of a net, with its registers at their start values.
    pub fn make(alloc: Global, net: Net) -> Result<Sim, OutOfMemory>
        ensures net { IfOk result (λ sim. spec.net_of sim ≡ net) }
        ensures registers { IfOk result (λ sim. spec.registers_of sim
            ≡ map (λ r. r.start) net.registers) }
        // Where they are those of parts of these kinds, they show the opening state.
        ensures opening { IfOk result (λ sim. (ks : List Kind)
            → map cell net.registers ≡ cells_of ks
            → Shows ks (opening ks) (spec.registers_of sim)) }
    {
        let engine = Engine::of_net(alloc, &net)?;
        let registers = starts(alloc, net.registers.as_slice())?;
        let inputs = Vec::with_capacity(alloc, net.inputs.len())?;
        let stoppers = vec![in alloc; 0; net.fires.len()]?;
        Ok(Sim {
            net,
            engine,
            registers,
            inputs,
            stoppers,
        })
    }

    /// Runs the net once: tells what its words tell of the elements, and the registers take over their next words.
    fn step(&mut self, schedule: &Schedule, requests: &Requests, fired: &mut Fired)
        requires { steps.CanStep self.old schedule.now (asking requests.now) fired.old }
        ensures step { steps.IsStep (spec.net_of self.old) (spec.registers_of self.old)
            schedule.now (asking requests.now) self.old.stoppers.items fired.new
            (spec.registers_of self.new) }
        ensures net { spec.net_of self.new ≡ spec.net_of self.old }
        ensures room { steps.KeepsRoom fired.old fired.new }
    {
        ask(requests, &mut self.inputs);
        self.engine
            .run(self.registers.as_slice(), self.inputs.as_slice());
        let signals = ElementSignals {
            engine: &self.engine,
            fires: self.net.fires.as_slice(),
            readies: self.net.readies.as_slice(),
            results: self.net.results.as_slice(),
            nodes: self.net.nodes.len(),
        };
        let asked = requests.asked.as_slice();
        signals.tell(schedule, asked, &mut self.stoppers, fired);
        take_over(&self.engine, self.net.nexts.as_slice(), &mut self.registers);
    }

    /// One clock. Takes no memory and has no error.
    pub fn clock(&mut self, schedule: &Schedule, requests: &Requests, fired: &mut Fired)
        requires { ∥ spec.CanClock self.old schedule.now (asking requests.now) fired.old ∥₁ }
        ensures happens { (d : TheDesign) (s : List Part)
            → spec.IsSimulated d schedule.now (spec.net_of self.old)
            → spec.IsShown d (asking requests.now) s (spec.registers_of self.old)
            → spec.IsClockOf d schedule.now (asking requests.now) s fired.new
            (spec.registers_of self.new) }
        ensures net { spec.net_of self.new ≡ spec.net_of self.old }
        ensures room { (n : ℕ) → HasRoom n fired.old → HasRoom n fired.new }
    {
        self.step(schedule, requests, fired);
    }

    /// The words of the registers.
    pub fn registers(&self) -> &[Word]
        ensures { result.now ≡ spec.registers_of self.now }
    {
        self.registers.as_slice()
    }
}
