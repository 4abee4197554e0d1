ghost use Rattle.std.specs.Prelude.{◌≡◌, IfOk, IfSome, IsNone, length};
ghost use Rattle.bsv_design.specs.design.Bodies.{at};
ghost use Rattle.bsv_guard.specs.Fitting.{HaveWidths};
ghost use Rattle.bsv_net.specs.Nets.{IsNet};
ghost use Rattle.bsv_net.specs.Nets as spec;
ghost use Rattle.bsv_net.specs.Equations.{computed};

use crate::checks::is_net;
use crate::net_data::NetData;
use crate::node::{NetNode, Site};
use bsv_bits::{OutOfMemory, Word};
use bsv_design::{between, extended, joined, picked, sign_extended, sliced, word_at};
use bsv_prim::RegisterInfo;
use sqlite_items::Items;
use std::alloc::{AllocError, Global};

/// A net in order: each node uses earlier nodes alone, operands have the widths that their operators need, there is
/// one next word for each register, and what tells of firing and readiness has one bit.
#[derive(Drop)]
pub struct Net {
    pub inputs: Items<u32>,
    pub registers: Items<RegisterInfo>,
    pub nodes: Items<NetNode>,
    pub nexts: Items<u32>,
    pub fires: Items<u32>,
    pub readies: Items<u32>,
    pub results: Items<u32>,
    pub sites: Items<Items<Site>>,
    ghost right: { ∥ IsNet (record {
      inputs = inputs;
      registers = registers;
      nodes = nodes;
      nexts = nexts;
      fires = fires;
      readies = readies;
      results = results;
      sites = sites;
    }) ∥₁ },
}

/// The word of a node after nodes of these words.
fn node_word(registers: &[Word], inputs: &[Word], words: &[Word], node: NetNode) -> Word
    ensures { result ≡ computed inputs.now registers.now (at words.now) node }
{
    match node {
        NetNode::Input(number) => word_at(inputs, number),
        NetNode::Register(number) => word_at(registers, number),
        NetNode::Constant(word) => word,
        NetNode::Not(a) => word_at(words, a).not(),
        NetNode::Two(operator, a, b) => between(operator, word_at(words, a), word_at(words, b)),
        NetNode::Pick(test, a, b) => {
            picked(word_at(words, test), word_at(words, a), word_at(words, b))
        }
        NetNode::Slice(a, high, low) => sliced(word_at(words, a), high, low),
        NetNode::Join(a, b) => joined(word_at(words, a), word_at(words, b)),
        NetNode::Extend(a, width) => extended(word_at(words, a), width),
        NetNode::SignExtend(a, width) => sign_extended(word_at(words, a), width),
    }
}

/// Equal nodes of the calls of an element.
fn copy_of(alloc: Global, sites: &[Site]) -> Result<Items<Site>, AllocError>
    ensures { IfOk result (λ copy. copy ≡ sites.now) }
{
    let mut copy = Items::new(alloc);
    for site in sites {
        copy.push(site.copy(alloc)?)?;
    }
    Ok(copy)
}

/// Equal nodes of the calls of elements.
fn copies_of(alloc: Global, sites: &[Items<Site>]) -> Result<Items<Items<Site>>, AllocError>
    ensures { IfOk result (λ copies. copies ≡ sites.now) }
{
    let mut copies = Items::new(alloc);
    for calls in sites {
        copies.push(copy_of(alloc, calls.as_slice())?)?;
    }
    Ok(copies)
}

impl Net {
    ghost use Rattle.bsv_net.specs.AtHand as hand;

    /// The net of some data, where they are in order.
    pub fn new(alloc: Global, net_data: NetData) -> Result<Option<Net>, OutOfMemory>
        ensures is { IfOk result (λ found. IfSome found (λ net. hand.net_data net ≡ net_data)) }
        ensures none { IfOk result (λ found. IsNone found → IsNet net_data → ⊥) }
    {
        if !is_net(alloc, &net_data)? {
            return Ok(None);
        }
        Ok(Some(Net {
            inputs: net_data.inputs,
            registers: net_data.registers,
            nodes: net_data.nodes,
            nexts: net_data.nexts,
            fires: net_data.fires,
            readies: net_data.readies,
            results: net_data.results,
            sites: net_data.sites,
        }))
    }

    /// An equal net.
    pub fn copy(&self, alloc: Global) -> Result<Net, OutOfMemory>
        ensures { IfOk result (λ net. hand.net_data net ≡ hand.net_data self.now) }
    {
        Ok(Net {
            inputs: Items::from_slice(alloc, self.inputs.as_slice())?,
            registers: Items::from_slice(alloc, self.registers.as_slice())?,
            nodes: Items::from_slice(alloc, self.nodes.as_slice())?,
            nexts: Items::from_slice(alloc, self.nexts.as_slice())?,
            fires: Items::from_slice(alloc, self.fires.as_slice())?,
            readies: Items::from_slice(alloc, self.readies.as_slice())?,
            results: Items::from_slice(alloc, self.results.as_slice())?,
            sites: copies_of(alloc, self.sites.as_slice())?,
        })
    }

    /// Gives each node its word in a clock in which registers and inputs have these words.
    pub fn eval(&self, registers: &[Word], inputs: &[Word], values: &mut [Word])
        requires registers { HaveWidths (spec.register_widths self.now.registers) registers.now }
        requires inputs { HaveWidths self.now.inputs inputs.now }
        requires values { length values.old ≡ length self.now.nodes }
        ensures { values.new ≡ spec.words self.now.nodes inputs.now registers.now }
    {
        let nodes = self.nodes.as_slice();
        for place in 0..nodes.len() {
            let word = node_word(registers, inputs, &values[..place], nodes[place]);
            values[place] = word;
        }
    }
}
