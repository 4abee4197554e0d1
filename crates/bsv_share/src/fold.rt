ghost use Rattle.std.specs.Prelude.{◌≡◌, IfOk, IsTrue, OnOk, map};
ghost use Rattle.std.specs.List.{list_all};
ghost use Rattle.bsv_guard.specs.Fitting.{HaveWidths};
ghost use Rattle.bsv_net.specs.AtHand.{net_data};
ghost use Rattle.bsv_net.specs.Nets.{register_widths, width_fits};
ghost use Rattle.bsv_share.specs.Keys.{key_of};
ghost use Rattle.bsv_share.specs.Folding as spec;

use crate::key::{Key, key_of};
use crate::operands::{first_operand, renamed};
use crate::outputs::with_nodes;
use crate::simplify::{constant_word, same_word};
use bsv_bits::{OutOfMemory, Word};
use bsv_design::word_at;
use bsv_net::{Net, NetNode};
use bsv_prim::RegisterInfo;
use indexmap::IndexSet;
use sqlite_items::Items;
use std::alloc::Global;

/// Nodes without two that are equal, and their keys in the same order.
#[derive(Drop)]
struct Folding {
    nodes: Items<NetNode>,
    keys: IndexSet<Key>,
}

impl Folding {
    /// The place of the node, which comes last where it is not there yet.
    fn add(&mut self, node: &NetNode) -> Result<u32, OutOfMemory>
        requires { self.old.keys.keys ≡ map key_of self.old.nodes }
        ensures keyed { OnOk result (self.new.keys.keys ≡ map key_of self.new.nodes) }
        ensures added { IfOk result (λ n. spec.Added self.old.nodes node.now self.new.nodes n) }
    {
        let key = key_of(*node);
        let (place, is_new) = self.keys.insert_full(key)?;
        if is_new {
            self.nodes.push(*node)?;
        }
        match u32::try_from(place) {
            Ok(place) => Ok(place),
            Err(_) => Err(OutOfMemory),
        }
    }

    /// The place of a node that has the word of this one, whose first operand has this width.
    fn place(&mut self, node: &NetNode, width: u32) -> Result<u32, OutOfMemory>
        requires { self.old.keys.keys ≡ map key_of self.old.nodes }
        ensures keyed { OnOk result (self.new.keys.keys ≡ map key_of self.new.nodes) }
        ensures placed { IfOk result (λ n.
            spec.Placed self.old.nodes width node.now self.new.nodes n) }
    {
        if let Some(word) = constant_word(self.nodes.as_slice(), *node) {
            let constant = NetNode::Constant(word);
            return self.add(&constant);
        }
        match same_word(self.nodes.as_slice(), *node, width) {
            Some(place) => Ok(place),
            None => self.add(node),
        }
    }
}

/// Words of the inputs.
fn input_words(alloc: Global, inputs: &[u32]) -> Result<Vec<Word>, OutOfMemory>
    requires { IsTrue (list_all width_fits inputs.now) }
    ensures { IfOk result (λ words. HaveWidths inputs.now words.items) }
{
    let mut words = Vec::new(alloc);
    for width in inputs {
        words.push(Word::zero(*width))?;
    }
    Ok(words)
}

/// Words of the registers.
fn register_words(alloc: Global, registers: &[RegisterInfo]) -> Result<Vec<Word>, OutOfMemory>
    ensures { IfOk result (λ words. HaveWidths (register_widths registers.now) words.items) }
{
    let mut words = Vec::new(alloc);
    for register in registers {
        words.push(register.start)?;
    }
    Ok(words)
}

/// The words of all nodes in some clock, which tell their widths.
fn some_words(alloc: Global, net: &Net) -> Result<Vec<Word>, OutOfMemory>
    ensures { IfOk result (λ vs. spec.AreSomeWords (net_data net.now) vs.items) }
{
    let inputs = input_words(alloc, net.inputs.as_slice())?;
    let registers = register_words(alloc, net.registers.as_slice())?;
    let mut words = vec![in alloc; Word::bit(false); net.nodes.len()]?;
    net.eval(&registers, &inputs, &mut words);
    Ok(words)
}

/// The nodes without those that have the word of an earlier one, and the place of each among them.
#[derive(Drop)]
struct Folded {
    nodes: Items<NetNode>,
    places: Items<u32>,
}

/// Nodes in turn, where these are their words in some clock.
fn fold_nodes(alloc: Global, nodes: &[NetNode], words: &[Word]) -> Result<Folded, OutOfMemory>
    ensures { IfOk result (λ made. spec.Folds words.now nodes.now made.nodes made.places) }
{
    let mut folding = Folding {
        nodes: Items::new(alloc),
        keys: IndexSet::new(alloc),
    };
    let mut places = Items::new(alloc);
    for node in nodes {
        let width = word_at(words, first_operand(*node)).width();
        let node = renamed(*node, places.as_slice());
        let place = folding.place(&node, width)?;
        places.push(place)?;
    }
    Ok(Folded {
        nodes: folding.nodes,
        places,
    })
}

/// The net without operators of constants and without equal nodes.
pub fn fold(alloc: Global, net: &Net) -> Result<Net, OutOfMemory>
    ensures { IfOk result (λ made. spec.IsFoldOf (net_data net.now) (net_data made)) }
{
    let words = some_words(alloc, net)?;
    let folded = fold_nodes(alloc, net.nodes.as_slice(), &words)?;
    with_nodes(alloc, net, folded.nodes, folded.places.as_slice())
}
