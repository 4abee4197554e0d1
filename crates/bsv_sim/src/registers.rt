ghost use Rattle.std.specs.Prelude.{◌≡◌, ◌≤◌, IfOk, IsTrue, length, map, vec_capacity};
ghost use Rattle.bsv_design.specs.design.Bodies.{at};
ghost use Rattle.bsv_sim.specs.AtHand.{all_below};
ghost use Rattle.bsv_engine.specs.Engines.{code_of, words_of};

use bsv_bits::{OutOfMemory, Word};
use bsv_engine::Engine;
use bsv_prim::RegisterInfo;
use std::alloc::Global;

/// The words of the registers at the start.
pub fn starts(alloc: Global, registers: &[RegisterInfo]) -> Result<Vec<Word>, OutOfMemory>
    ensures { IfOk result (λ words. words.items ≡ map (λ r. r.start) registers.now) }
{
    let mut words = Vec::with_capacity(alloc, registers.len())?;
    let mut rest = registers;
    while let Some((register, after)) = rest.split_first() {
        words.push(register.start)?;
        rest = after;
    }
    Ok(words)
}

/// Each register takes over the word of its node.
pub fn take_over(engine: &Engine, nexts: &[u32], registers: &mut Vec<Word>)
    requires nodes { IsTrue (all_below (length (code_of engine.now).nodes) nexts.now) }
    requires room { length nexts.now ≤ vec_capacity registers.old }
    ensures { registers.new.items ≡ map (at (words_of engine.now)) nexts.now }
{
    registers.clear();
    let mut rest = nexts;
    while let Some((node, after)) = rest.split_first() {
        let _ = registers.push(engine.word(*node));
        rest = after;
    }
}
