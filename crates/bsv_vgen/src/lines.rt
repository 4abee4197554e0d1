ghost use Rattle.std.specs.Prelude.{◌≡◌, [], IfOk, OnOk};
ghost use Rattle.bsv_design.specs.design.Widths.{gives_bit};
ghost use Rattle.bsv_vgen.specs.AtHand as hand;
ghost use Rattle.bsv_vgen.specs.Lines as spec;

use crate::known::{Known, constant, known_at, register_at};
use crate::written::{Written, add_line};
use bsv_bits::{Operator, OutOfMemory, Word};
use bsv_design::{sliced, word};
use bsv_net::NetNode;
use bsv_prim::RegisterInfo;
use bsv_vtext::{Atom, Side, VOperator};
use sqlite_items::Items;
use std::alloc::Global;

/// How an operator is written.
fn two_side(operator: Operator, a: Atom, b: Atom) -> Side
    ensures { result ≡ spec.two_side operator a b }
{
    match operator {
        Operator::Add => Side::Two(VOperator::Add, a, b),
        Operator::Sub => Side::Two(VOperator::Sub, a, b),
        Operator::Mul => Side::Two(VOperator::Mul, a, b),
        Operator::And => Side::Two(VOperator::And, a, b),
        Operator::Or => Side::Two(VOperator::Or, a, b),
        Operator::Xor => Side::Two(VOperator::Xor, a, b),
        Operator::Same => Side::Two(VOperator::Same, a, b),
        Operator::Less => Side::Two(VOperator::Less, a, b),
        Operator::LessSigned => Side::LessSigned(a, b),
        Operator::Shl => Side::Two(VOperator::Shl, a, b),
        Operator::Shr => Side::Two(VOperator::Shr, a, b),
        Operator::Sar => Side::ShiftSigned(a, b),
    }
}

/// The width of what an operator gives for a first word of this width.
fn two_width(operator: Operator, width: u32) -> u32
    ensures { result ≡ spec.two_width operator width }
{
    match operator {
        Operator::Same | Operator::Less | Operator::LessSigned => 1,
        _ => width,
    }
}

/// So many bits that are 0.
fn zeros(width: u32) -> Word
    ensures { result ≡ spec.zeros width }
{
    word(width, 0)
}

/// What nodes are written with: what is known of the inputs, and the registers.
#[derive(Clone, Copy)]
pub(crate) struct Writing<'a> {
    pub alloc: Global,
    pub inputs: &'a [Known],
    pub registers: &'a [RegisterInfo],
}

impl<'a> Writing<'a> {
    /// A part of a word; that of a constant is a constant.
    fn slice(
        self,
        written: &mut Written,
        atom: Atom,
        high: u32,
        low: u32,
    ) -> Result<Known, OutOfMemory>
        ensures written { OnOk result (hand.written written.new
            ≡ (spec.slice (hand.written written.old) atom high low).written) }
        ensures known { IfOk result (λ known. known
            ≡ (spec.slice (hand.written written.old) atom high low).known) }
    {
        if let Atom::Constant(whole) = atom {
            return Ok(constant(sliced(whole, high, low)));
        }
        let Some(width) = high.saturating_sub(low).checked_add(1) else {
            return Err(OutOfMemory);
        };
        add_line(self.alloc, written, width, Side::Slice(atom, high, low))
    }

    /// The first word above the second one.
    fn join(self, written: &mut Written, a: Known, b: Known) -> Result<Known, OutOfMemory>
        ensures written { OnOk result (hand.written written.new
            ≡ (spec.join (hand.written written.old) a b).written) }
        ensures known { IfOk result (λ known. known
            ≡ (spec.join (hand.written written.old) a b).known) }
    {
        let Some(width) = a.width.checked_add(b.width) else {
            return Err(OutOfMemory);
        };
        let mut parts = Items::new(self.alloc);
        parts.push(a.atom)?;
        parts.push(b.atom)?;
        add_line(self.alloc, written, width, Side::Join(parts))
    }

    /// Zeros above a word, up to this width.
    fn extend(self, written: &mut Written, a: Known, width: u32) -> Result<Known, OutOfMemory>
        ensures written { OnOk result (hand.written written.new
            ≡ (spec.extend (hand.written written.old) a width).written) }
        ensures known { IfOk result (λ known. known
            ≡ (spec.extend (hand.written written.old) a width).known) }
    {
        if width <= a.width {
            return Ok(a);
        }
        let above = constant(zeros(width - a.width));
        self.join(written, above, a)
    }

    /// So many bits, which are 1 where the number of an atom of this width is negative.
    fn fill(
        self,
        written: &mut Written,
        atom: Atom,
        width: u32,
        more: u32,
    ) -> Result<Atom, OutOfMemory>
        ensures written { OnOk result (hand.written written.new ≡ (spec.filling (spec.negative
            (hand.written written.old) (record { atom = atom; width = width })) more).written) }
        ensures atom { IfOk result (λ filled. filled ≡ (spec.filling (spec.negative
            (hand.written written.old) (record { atom = atom; width = width })) more).known.atom) }
    {
        let zero = Atom::Constant(zeros(width));
        let negative = add_line(self.alloc, written, 1, Side::LessSigned(atom, zero))?;
        let none = zeros(more);
        let side = Side::Pick(
            negative.atom,
            Atom::Constant(none.not()),
            Atom::Constant(none),
        );
        Ok(add_line(self.alloc, written, more, side)?.atom)
    }

    /// Copies of the most significant bit above a word, up to this width.
    fn sign_extend(self, written: &mut Written, a: Known, width: u32) -> Result<Known, OutOfMemory>
        ensures written { OnOk result (hand.written written.new
            ≡ (spec.sign_extend (hand.written written.old) a width).written) }
        ensures known { IfOk result (λ known. known
            ≡ (spec.sign_extend (hand.written written.old) a width).known) }
    {
        if width <= a.width {
            return Ok(a);
        }
        let width = width - a.width;
        let atom = self.fill(written, a.atom, a.width, width)?;
        self.join(written, Known { atom, width }, a)
    }

    /// The line of an operator.
    fn operate(
        self,
        written: &mut Written,
        operator: Operator,
        a: Known,
        b: Known,
    ) -> Result<Known, OutOfMemory>
        ensures written { OnOk result (hand.written written.new
            ≡ (spec.line (hand.written written.old) (spec.two_width operator a.width)
            (spec.two_side operator a.atom b.atom)).written) }
        ensures known { IfOk result (λ known. known
            ≡ (spec.line (hand.written written.old) (spec.two_width operator a.width)
            (spec.two_side operator a.atom b.atom)).known) }
    {
        let width = two_width(operator, a.width);
        let side = two_side(operator, a.atom, b.atom);
        add_line(self.alloc, written, width, side)
    }

    /// A node, where this is known of the nodes before it.
    fn node(
        self,
        known: &[Known],
        written: &mut Written,
        node: NetNode,
    ) -> Result<Known, OutOfMemory>
        ensures written { OnOk result (hand.written written.new
            ≡ (spec.node self.entry.inputs.now self.entry.registers.now known.now
            (hand.written written.old) node).written) }
        ensures known { IfOk result (λ own. own
            ≡ (spec.node self.entry.inputs.now self.entry.registers.now known.now
            (hand.written written.old) node).known) }
    {
        match node {
            NetNode::Input(place) => Ok(known_at(self.inputs, place)),
            NetNode::Register(place) => Ok(register_at(self.registers, place)),
            NetNode::Constant(word) => Ok(constant(word)),
            NetNode::Not(a) => {
                let a = known_at(known, a);
                add_line(self.alloc, written, a.width, Side::Not(a.atom))
            }
            NetNode::Two(operator, a, b) => {
                self.operate(written, operator, known_at(known, a), known_at(known, b))
            }
            NetNode::Pick(test, a, b) => {
                let a = known_at(known, a);
                let side = Side::Pick(known_at(known, test).atom, a.atom, known_at(known, b).atom);
                add_line(self.alloc, written, a.width, side)
            }
            NetNode::Slice(a, high, low) => self.slice(written, known_at(known, a).atom, high, low),
            NetNode::Join(a, b) => self.join(written, known_at(known, a), known_at(known, b)),
            NetNode::Extend(a, width) => self.extend(written, known_at(known, a), width),
            NetNode::SignExtend(a, width) => self.sign_extend(written, known_at(known, a), width),
        }
    }

    /// All nodes; what is known of them.
    #[tactic(auto, unfolding(crate::specs::Lines::nodes))]
    pub(crate) fn nodes(
        self,
        written: &mut Written,
        nodes: &[NetNode],
    ) -> Result<Items<Known>, OutOfMemory>
        ensures written { OnOk result (hand.written written.new
            ≡ (spec.nodes self.entry.inputs.now self.entry.registers.now []
            (hand.written written.old) nodes.now).written) }
        ensures known { IfOk result (λ known. known
            ≡ (spec.nodes self.entry.inputs.now self.entry.registers.now []
            (hand.written written.old) nodes.now).known) }
    {
        let mut known = Items::new(self.alloc);
        let mut rest = nodes;
        while let Some((node, after)) = rest.split_first() {
            let Known { atom, width } = self.node(known.as_slice(), written, *node)?;
            known.push(Known { atom, width })?;
            rest = after;
        }
        Ok(known)
    }
}
