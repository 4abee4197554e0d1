ghost use Rattle.std.specs.Option.{option_copied};
ghost use Rattle.std.specs.Prelude.{◌≡◌, ◌+◌, IfOk, OnOk, slice_get};
ghost use Rattle.bsv_prim.specs.Shape.{shape_of};
ghost use Rattle.bsv_net.specs.Placing as spec;

use crate::node::NetNode;
use crate::nodes::add;
use bsv_bits::OutOfMemory;
use bsv_prim::Piece;
use sqlite_items::{Items, at};

/// The nodes of a method of a part in one clock.
#[derive(Drop)]
pub struct MethodPort {
    /// The node that is 1 where the method is called.
    pub called: u32,
    /// Those of the arguments of its last call.
    pub args: Items<u32>,
}

/// The nodes of which the pieces of a part are made.
#[derive(Clone, Copy)]
pub struct Wires<'a> {
    /// The node of the first register of the part; the others come after it.
    pub registers: u32,
    /// Of each method of the part its nodes, where they are placed.
    pub ports: &'a [Option<MethodPort>],
    /// A method that has arguments of its own, and their nodes.
    pub own: u32,
    pub own_args: &'a [u32],
}

/// The node of this place in a list, or the first node where there is none.
pub fn node_at(nodes: &[u32], place: u32) -> u32
    ensures { result ≡ spec.node_at nodes.now place }
{
    match at(nodes, place as usize) {
        Some(node) => *node,
        None => 0,
    }
}

impl Wires<'_> {
    ghost use Rattle.bsv_net.specs.AtHand as hand;

    /// The node of a register.
    fn register(self, number: u32) -> Result<u32, OutOfMemory>
        ensures { IfOk result (λ n. n ≡ (hand.wires self.entry).registers + number) }
    {
        match self.registers.checked_add(number) {
            Some(node) => Ok(node),
            None => Err(OutOfMemory),
        }
    }

    /// The nodes of a method, where they are placed.
    fn port(&self, method: u32) -> Option<&MethodPort>
        ensures { option_copied result ≡ hand.placed (slice_get self.now.ports.now method) }
    {
        match at(self.ports, method as usize) {
            Some(port) => port.as_ref(),
            None => None,
        }
    }

    /// The node that is 1 where the method is called.
    fn called(self, method: u32) -> u32
        ensures { result ≡ (hand.wires self.entry).called method }
    {
        match self.port(method) {
            Some(port) => port.called,
            None => 0,
        }
    }

    /// The node of an argument of a method.
    fn argument(self, method: u32, number: u32) -> u32
        ensures { result ≡ (hand.wires self.entry).argument method number }
    {
        if method == self.own {
            return node_at(self.own_args, number);
        }
        match self.port(method) {
            Some(port) => node_at(port.args.as_slice(), number),
            None => 0,
        }
    }

    /// Places a piece, and gives the node of its word.
    #[tactic(auto, unfolding(crate::specs::Placing::piece))]
    pub fn place(self, nodes: &mut Items<NetNode>, piece: &Piece) -> Result<u32, OutOfMemory>
        ensures nodes { OnOk result (nodes.new
            ≡ (spec.piece (hand.wires self.entry) nodes.old (shape_of piece.now)).nodes) }
        ensures place { IfOk result (λ n. n
            ≡ (spec.piece (hand.wires self.entry) nodes.old (shape_of piece.now)).place) }
    {
        match piece {
            Piece::Register(number) => self.register(*number),
            Piece::Called(method) => Ok(self.called(*method)),
            Piece::Argument(method, number) => Ok(self.argument(*method, *number)),
            Piece::Constant(word) => add(nodes, NetNode::Constant(*word)),
            Piece::Not(a) => {
                let a = self.place(nodes, a)?;
                add(nodes, NetNode::Not(a))
            }
            Piece::Two(operator, a, b) => {
                let a = self.place(nodes, a)?;
                let b = self.place(nodes, b)?;
                add(nodes, NetNode::Two(*operator, a, b))
            }
            Piece::Pick(choice, a, b) => {
                let choice = self.place(nodes, choice)?;
                let a = self.place(nodes, a)?;
                let b = self.place(nodes, b)?;
                add(nodes, NetNode::Pick(choice, a, b))
            }
            Piece::Slice(a, high, low) => {
                let a = self.place(nodes, a)?;
                add(nodes, NetNode::Slice(a, *high, *low))
            }
            Piece::Join(high, low) => {
                let high = self.place(nodes, high)?;
                let low = self.place(nodes, low)?;
                add(nodes, NetNode::Join(high, low))
            }
            Piece::Extend(a, width) => {
                let a = self.place(nodes, a)?;
                add(nodes, NetNode::Extend(a, *width))
            }
        }
    }
}
