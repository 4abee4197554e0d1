ghost use Rattle.std.specs.Prelude.{◌≡◌, ◌+◌, ◌^◌, ◌<◌};
ghost use Rattle.bsv_sim.specs.Signals as spec;

use bsv_bits::Word;
use bsv_engine::Engine;

/// What the words of the nodes tell of the elements, after a run.
#[derive(Clone, Copy)]
pub struct ElementSignals<'a> {
    pub engine: &'a Engine,
    /// Of each element the node that is 1 where it fires.
    pub fires: &'a [u32],
    /// Of each element the node that is 1 where it is ready.
    pub readies: &'a [u32],
    /// Of each element the node of what it gives, or the number of nodes where it gives nothing.
    pub results: &'a [u32],
    /// How many nodes there are.
    pub nodes: usize,
}

impl ElementSignals<'_> {
    ghost use Rattle.bsv_sim.specs.AtHand as hand;

    /// Whether the element of this position fires.
    pub fn fires(self, number: u32) -> bool
        requires { hand.HasNodes self }
        ensures { result ≡ spec.fires (hand.signals self.entry) number }
    {
        match self.fires.get(number as usize) {
            Some(node) => self.engine.is_one(*node),
            None => false,
        }
    }

    /// Whether it is ready.
    pub fn is_ready(self, number: u32) -> bool
        requires { hand.HasNodes self }
        ensures { result ≡ spec.is_ready (hand.signals self.entry) number }
    {
        match self.readies.get(number as usize) {
            Some(node) => self.engine.is_one(*node),
            None => false,
        }
    }

    /// What it gives, where its entry names a node.
    pub fn word(self, number: u32) -> Option<Word>
        requires { hand.HasNodes self }
        ensures { result ≡ spec.word (hand.signals self.entry) number }
    {
        match self.results.get(number as usize) {
            Some(node) if (*node as usize) < self.nodes => Some(self.engine.word(*node)),
            _ => None,
        }
    }

    /// Whether it is a method that is asked and not ready.
    pub fn is_blocked(self, asked: &[bool], number: u32) -> bool
        requires { hand.HasNodes self }
        ensures { result ≡ spec.is_blocked (hand.signals self.entry) asked.now number }
    {
        match asked.get(number as usize) {
            Some(is_asked) => *is_asked && !self.is_ready(number),
            None => false,
        }
    }

    /// Whether it is ready and does not fire, as a rule or a method that is asked.
    pub fn is_stopped(self, asked: &[bool], number: u32) -> bool
        requires { hand.HasNodes self }
        ensures { result ≡ spec.is_stopped (hand.signals self.entry) asked.now number }
    {
        match asked.get(number as usize) {
            Some(is_asked) => *is_asked && self.is_ready(number) && !self.fires(number),
            None => self.is_ready(number) && !self.fires(number),
        }
    }
}
