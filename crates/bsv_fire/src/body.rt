ghost use Rattle.std.specs.Prelude.{◌≡◌, ◌++◌, [], IfOk, OnOk, map, slice_get};
ghost use Rattle.std.specs.Option.{option_copied};
ghost use Rattle.bsv_fire.specs.Bodies as spec;
ghost use Rattle.bsv_ports.specs.CallSites.{or_none};
ghost use Rattle.bsv_net.specs.Placing as placing;

use bsv_bits::OutOfMemory;
use bsv_design::{Call, Condition, NamedPart, Need, Node};
use bsv_net::{MethodPort, NetNode, Site, Wires, add, both, node_at};
use bsv_prim::Primitive;
use sqlite_items::{Items, at};
use std::alloc::Global;

/// What the pieces of parts are placed with.
#[derive(Clone, Copy)]
pub struct Pieces<'a> {
    pub alloc: Global,
    pub parts: &'a [NamedPart],
    /// Of each part the node of its first register.
    pub registers: &'a [u32],
    /// Of each part, of each of its methods, its nodes where they are placed.
    pub ports: &'a [Items<Option<MethodPort>>],
    /// The node that is 0.
    pub none: u32,
}

impl<'a> Pieces<'a> {
    ghost use Rattle.bsv_fire.specs.AtHand as hand;
    ghost use Rattle.bsv_net.specs.AtHand.{wires as wires_of};

    /// The nodes of the methods of a part.
    fn ports_of(self, part: u32) -> &'a [Option<MethodPort>]
        ensures { result.now ≡ or_none (slice_get self.entry.ports.now part) }
    {
        match at(self.ports, part as usize) {
            Some(ports) => ports.as_slice(),
            None => &[],
        }
    }

    /// Where the pieces of a part find their words, beside these nodes of the arguments of one method.
    fn wires(self, part: u32, own: u32, own_args: &'a [u32]) -> Wires<'a>
        ensures { wires_of result ≡ spec.wires_of (hand.base self.entry) self.entry.ports.now part
            own own_args.entry.now }
    {
        Wires {
            registers: node_at(self.registers, part),
            ports: self.ports_of(part),
            own,
            own_args,
        }
    }

    /// The bit that is 1 where the guard of the method holds.
    #[tactic(auto, unfolding(crate::specs::Bodies::guard))]
    fn guard(self, nodes: &mut Items<NetNode>, part: u32, method: u32) -> Result<u32, OutOfMemory>
        ensures nodes { OnOk result (nodes.new ≡ (spec.guard (hand.base self.entry)
            self.entry.ports.now part method nodes.old).nodes) }
        ensures place { IfOk result (λ n. n ≡ (spec.guard (hand.base self.entry)
            self.entry.ports.now part method nodes.old).place) }
    {
        let Some(named) = at(self.parts, part as usize) else {
            return Ok(self.none);
        };
        if method >= named.kind.methods() {
            return Ok(self.none);
        }
        let piece = named.kind.guard_piece(self.alloc, method)?;
        self.wires(part, method, &[]).place(nodes, &piece)
    }

    /// That of a call.
    fn guard_of(self, nodes: &mut Items<NetNode>, call: Option<&Call>) -> Result<u32, OutOfMemory>
        ensures nodes { OnOk result (nodes.new ≡ (spec.guard_of (hand.base self.entry)
            self.entry.ports.now (option_copied call.entry) nodes.old).nodes) }
        ensures place { IfOk result (λ n. n ≡ (spec.guard_of (hand.base self.entry)
            self.entry.ports.now (option_copied call.entry) nodes.old).place) }
    {
        match call {
            Some(call) => self.guard(nodes, call.part, call.method),
            None => Ok(self.none),
        }
    }

    /// Those of the calls that need one.
    #[tactic(auto, unfolding(crate::specs::Bodies::guards))]
    pub fn guards(
        self,
        nodes: &mut Items<NetNode>,
        calls: &[Call],
        needs: &[Need],
    ) -> Result<Items<u32>, OutOfMemory>
        ensures nodes { OnOk result (nodes.new ≡ (spec.guards (hand.base self.entry)
            self.entry.ports.now calls.now nodes.old [] needs.now).nodes) }
        ensures places { IfOk result (λ places. places ≡ (spec.guards (hand.base self.entry)
            self.entry.ports.now calls.now nodes.old [] needs.now).places) }
    {
        let mut places = Items::new(self.alloc);
        let mut rest = needs;
        while let Some((need, after)) = rest.split_first() {
            let place = self.guard_of(nodes, at(calls, need.call as usize))?;
            places.push(place)?;
            rest = after;
        }
        Ok(places)
    }

    /// The word that a method gives for the words of these nodes.
    #[tactic(auto, unfolding(crate::specs::Bodies::result))]
    fn result(
        self,
        nodes: &mut Items<NetNode>,
        part: u32,
        method: u32,
        args: &[u32],
    ) -> Result<u32, OutOfMemory>
        ensures nodes { OnOk result (nodes.new ≡ (spec.result (hand.base self.entry)
            self.entry.ports.now part method args.now nodes.old).nodes) }
        ensures place { IfOk result (λ n. n ≡ (spec.result (hand.base self.entry)
            self.entry.ports.now part method args.now nodes.old).place) }
    {
        let Some(named) = at(self.parts, part as usize) else {
            return Ok(self.none);
        };
        if method >= named.kind.methods() || named.kind.is_action(method) {
            return Ok(self.none);
        }
        let piece = named.kind.result_piece(self.alloc, method)?;
        self.wires(part, method, args).place(nodes, &piece)
    }

    /// What a call gives, where the nodes of its body so far have these places.
    fn result_of(
        self,
        nodes: &mut Items<NetNode>,
        places: &[u32],
        call: Option<&Call>,
    ) -> Result<u32, OutOfMemory>
        ensures nodes { OnOk result (nodes.new ≡ (spec.result_of (hand.base self.entry)
            self.entry.ports.now places.now (option_copied call.entry) nodes.old).nodes) }
        ensures place { IfOk result (λ n. n ≡ (spec.result_of (hand.base self.entry)
            self.entry.ports.now places.now (option_copied call.entry) nodes.old).place) }
    {
        let Some(call) = call else {
            return Ok(self.none);
        };
        let args = nodes_at(self.alloc, places, call.args.as_slice())?;
        self.result(nodes, call.part, call.method, args.as_slice())
    }

    /// A node of a body, whose nodes so far have these places. Its arguments are the inputs from `start` on.
    fn body_node(
        self,
        nodes: &mut Items<NetNode>,
        start: u32,
        calls: &[Call],
        places: &[u32],
        node: Node,
    ) -> Result<u32, OutOfMemory>
        ensures nodes { OnOk result (nodes.new ≡ (spec.body_node (hand.base self.entry)
            self.entry.ports.now start calls.now places.now nodes.old node).nodes) }
        ensures place { IfOk result (λ n. n ≡ (spec.body_node (hand.base self.entry)
            self.entry.ports.now start calls.now places.now nodes.old node).place) }
    {
        match node {
            Node::Constant(word) => add(nodes, NetNode::Constant(word)),
            Node::Argument(number) => start.checked_add(number).ok_or(OutOfMemory),
            Node::Result(call) => self.result_of(nodes, places, at(calls, call as usize)),
            Node::Not(a) => add(nodes, NetNode::Not(node_at(places, a))),
            Node::Two(operator, a, b) => add(
                nodes,
                NetNode::Two(operator, node_at(places, a), node_at(places, b)),
            ),
            Node::Pick(test, a, b) => add(
                nodes,
                NetNode::Pick(
                    node_at(places, test),
                    node_at(places, a),
                    node_at(places, b),
                ),
            ),
            Node::Slice(a, high, low) => add(nodes, NetNode::Slice(node_at(places, a), high, low)),
            Node::Join(a, b) => add(nodes, NetNode::Join(node_at(places, a), node_at(places, b))),
            Node::Extend(a, width) => add(nodes, NetNode::Extend(node_at(places, a), width)),
            Node::SignExtend(a, width) => {
                add(nodes, NetNode::SignExtend(node_at(places, a), width))
            }
        }
    }

    /// The nodes of a body, with their places.
    #[tactic(auto, unfolding(crate::specs::Bodies::body))]
    pub fn body(
        self,
        nodes: &mut Items<NetNode>,
        start: u32,
        calls: &[Call],
        body: &[Node],
    ) -> Result<Items<u32>, OutOfMemory>
        ensures nodes { OnOk result (nodes.new ≡ (spec.body (hand.base self.entry)
            self.entry.ports.now start calls.now [] nodes.old body.now).nodes) }
        ensures places { IfOk result (λ places. places ≡ (spec.body (hand.base self.entry)
            self.entry.ports.now start calls.now [] nodes.old body.now).places) }
    {
        let mut places = Items::new(self.alloc);
        let mut rest = body;
        while let Some((node, after)) = rest.split_first() {
            let place = self.body_node(nodes, start, calls, places.as_slice(), *node)?;
            places.push(place)?;
            rest = after;
        }
        Ok(places)
    }
}

/// The nodes at these places of a list.
pub fn nodes_at(alloc: Global, nodes: &[u32], places: &[u32]) -> Result<Items<u32>, OutOfMemory>
    ensures { IfOk result (λ found. found ≡ map (placing.node_at nodes.now) places.now) }
{
    let mut found = Items::new(alloc);
    for place in places {
        found.push(node_at(nodes, *place))?;
    }
    Ok(found)
}

/// The bit that is 1 where this one and all of the others are.
#[tactic(auto, unfolding(crate::specs::Bodies::all_from))]
fn all_from(nodes: &mut Items<NetNode>, first: u32, others: &[u32]) -> Result<u32, OutOfMemory>
    ensures nodes { OnOk result (nodes.new ≡ (spec.all_from nodes.old first others.now).nodes) }
    ensures place { IfOk result (λ n. n ≡ (spec.all_from nodes.old first others.now).place) }
{
    let mut place = first;
    let mut rest = others;
    while let Some((next, after)) = rest.split_first() {
        place = both(nodes, place, *next)?;
        rest = after;
    }
    Ok(place)
}

/// The bit that is 1 where all of these are: the node `one` where there is none of them.
pub fn all_of(nodes: &mut Items<NetNode>, one: u32, bits: &[u32]) -> Result<u32, OutOfMemory>
    ensures nodes { OnOk result (nodes.new ≡ (spec.all_of one nodes.old bits.now).nodes) }
    ensures place { IfOk result (λ n. n ≡ (spec.all_of one nodes.old bits.now).place) }
{
    match bits.split_first() {
        Some((first, others)) => all_from(nodes, *first, others),
        None => Ok(one),
    }
}

/// The nodes of the calls of an element, whose own nodes have these places.
pub fn sites(alloc: Global, places: &[u32], calls: &[Call]) -> Result<Items<Site>, OutOfMemory>
    ensures { IfOk result (λ found. found ≡ spec.sites places.now calls.now) }
{
    let mut found = Items::new(alloc);
    for call in calls {
        let args = nodes_at(alloc, places, call.args.as_slice())?;
        let taken = node_at(places, call.taken);
        found.push(Site { taken, args })?;
    }
    Ok(found)
}

/// The truths of the conditions of an element come after these.
pub fn push_truths(
    bits: &mut Items<u32>,
    places: &[u32],
    conditions: &[Condition],
) -> Result<(), OutOfMemory>
    ensures { OnOk result (bits.new ≡ bits.old ++ spec.truths places.now conditions.now) }
{
    for condition in conditions {
        bits.push(node_at(places, condition.truth))?;
    }
    Ok(())
}
