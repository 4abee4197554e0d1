ghost use Rattle.std.specs.Prelude.{◌≡◌, ◌<◌, length, vec_len, IfOk};
ghost use Rattle.bsv_design.specs.design.Bodies.{at};
ghost use Rattle.bsv_design.specs.design.Words as truth;
ghost use Rattle.bsv_guard.specs.Fitting.{HaveWidths};
ghost use Rattle.bsv_net.specs.Nets.{register_widths, words};
ghost use Rattle.bsv_engine.specs.Codes.{IsOfNet};
ghost use Rattle.bsv_engine.specs.Runs.{IsEngine};

use crate::cells::Cells;
use crate::making::{make_runs, widths_of};
use crate::run::Run;
use crate::running::{Given, run_all};
use bsv_bits::{OutOfMemory, Word};
use bsv_net::{Net, NetNode};
use bsv_prim::RegisterInfo;
use sqlite_items::Items;
use std::alloc::Global;

/// The nodes of a net as code that can run, and their words after the last run.
#[derive(Drop)]
pub struct Engine {
    inputs: Items<u32>,
    registers: Items<RegisterInfo>,
    nodes: Items<NetNode>,
    /// The widths of the nodes.
    widths: Items<u32>,
    runs: Items<Run>,
    /// By the places of the nodes the words of at most 64 bits.
    narrow: Vec<u64>,
    /// By the places of the nodes the wider words.
    wide: Vec<u128>,
    ghost right: { ∥ IsEngine
        (record { inputs = inputs; registers = registers; nodes = nodes }) widths runs ∥₁ },
    ghost all_widths: { length widths ≡ length nodes },
    ghost narrow_room: { vec_len narrow ≡ length nodes },
    ghost wide_room: { vec_len wide ≡ length nodes },
}

impl Engine {
    ghost use Rattle.bsv_engine.specs.Cells.{HasPlaces, words_in};
    ghost use Rattle.bsv_engine.specs.Engines.{code_of, words_of};

    /// The engine of the nodes of a net.
    pub fn make(
        alloc: Global,
        inputs: &[u32],
        registers: &[RegisterInfo],
        nodes: &[NetNode],
    ) -> Result<Engine, OutOfMemory>
        requires { ∥ IsOfNet
            (record { inputs = inputs.now; registers = registers.now; nodes = nodes.now }) ∥₁ }
        ensures { IfOk result (λ engine. code_of engine
            ≡ record { inputs = inputs.now; registers = registers.now; nodes = nodes.now }) }
    {
        let widths = widths_of(alloc, inputs, registers, nodes)?;
        let runs = make_runs(alloc, nodes, widths.as_slice())?;
        Ok(Engine {
            inputs: Items::from_slice(alloc, inputs)?,
            registers: Items::from_slice(alloc, registers)?,
            nodes: Items::from_slice(alloc, nodes)?,
            widths,
            runs,
            narrow: vec![in alloc; 0; nodes.len()]?,
            wide: vec![in alloc; 0; nodes.len()]?,
        })
    }

    /// The engine of a net.
    pub fn of_net(alloc: Global, net: &Net) -> Result<Engine, OutOfMemory>
        ensures { IfOk result (λ engine. code_of engine
            ≡ record {
              inputs = net.now.inputs;
              registers = net.now.registers;
              nodes = net.now.nodes;
            }) }
    {
        Engine::make(
            alloc,
            net.inputs.as_slice(),
            net.registers.as_slice(),
            net.nodes.as_slice(),
        )
    }

    /// Computes the words of all nodes, for these words of the registers and of the inputs. Takes no memory.
    pub fn run(&mut self, registers: &[Word], inputs: &[Word])
        requires registers { HaveWidths (register_widths (code_of self.old).registers)
            registers.now }
        requires inputs { HaveWidths (code_of self.old).inputs inputs.now }
        ensures words { words_of self.new
            ≡ words (code_of self.old).nodes inputs.now registers.now }
        ensures code { code_of self.new ≡ code_of self.old }
    {
        let given = Given {
            registers,
            inputs,
            nodes: self.nodes.as_slice(),
            widths: self.widths.as_slice(),
        };
        run_all(
            given,
            self.runs.as_slice(),
            self.narrow.as_mut_slice(),
            self.wide.as_mut_slice(),
        );
    }

    /// The words after the last run.
    fn cells(&self) -> Cells<'_>
        ensures words { words_in result ≡ words_of self.now }
        ensures places { HasPlaces result }
    {
        Cells {
            widths: self.widths.as_slice(),
            narrow: self.narrow.as_slice(),
            wide: self.wide.as_slice(),
        }
    }

    /// The word of a node after the last run.
    pub fn word(&self, node: u32) -> Word
        requires { node < length (code_of self.now).nodes }
        ensures { result ≡ at (words_of self.now) node }
    {
        self.cells().at(node)
    }

    /// Whether the word of a node is 1 after the last run.
    pub fn is_one(&self, node: u32) -> bool
        requires { node < length (code_of self.now).nodes }
        ensures { result ≡ truth.is_one (at (words_of self.now) node) }
    {
        self.cells().is_one(node)
    }
}
