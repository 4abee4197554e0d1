ghost use Rattle.std.specs.Prelude.{◌≡◌, ◌<◌, ◌+◌, IfOk, OnOk, IsTrue, Some};
ghost use Rattle.std.specs.Prelude.{length, slice_get, slice_set, option_map};
ghost use Rattle.bsv_design.specs.parts.Kinds.{kind_table};
ghost use Rattle.bsv_ports.specs.CallSites.{or_none};
ghost use Rattle.bsv_fire.specs.FireBuilder as spec;
ghost use Rattle.bsv_net.specs.Placing as placing;

use crate::body::{Pieces, all_of, push_truths, sites};
use crate::net_so_far::NetSoFar;
use bsv_bits::OutOfMemory;
use bsv_design::{Call, Design, Element, Guards, Kind, Need, Schedule};
use bsv_net::{MethodPort, NetNode, both, either, negated, node_at};
use bsv_ports::{CallSite, Firing, port};
use bsv_prim::Primitive;
use sqlite_items::{Items, at};
use std::alloc::Global;

/// What a net is made from.
#[derive(Clone, Copy)]
pub struct FireBuilder<'a> {
    pub alloc: Global,
    pub design: &'a Design,
    pub guards: &'a Guards,
    pub schedule: &'a Schedule,
    /// Of each part the call sites of methods that act.
    pub call_sites: &'a [Items<CallSite>],
    /// Of each element the node of its first input.
    pub inputs: &'a [u32],
    /// Of each part the node of its first register.
    pub registers: &'a [u32],
    /// The node that is 0; the one that is 1 comes after it.
    pub none: u32,
}

/// The nodes of an element that tell whether it is ready and whether it fires.
#[derive(Clone, Copy)]
struct ReadyAndFire {
    ready: u32,
    fire: u32,
}

/// The bit that is 1 where that one is and the other one, if there is one, is not.
fn unless(nodes: &mut Items<NetNode>, bit: u32, stopper: Option<u32>) -> Result<u32, OutOfMemory>
    ensures nodes { OnOk result (nodes.new
        ≡ (spec.unless (record { nodes = nodes.old; place = bit }) stopper).nodes) }
    ensures place { IfOk result (λ n. n
        ≡ (spec.unless (record { nodes = nodes.old; place = bit }) stopper).place) }
{
    let Some(stopper) = stopper else {
        return Ok(bit);
    };
    let free = negated(nodes, stopper)?;
    both(nodes, bit, free)
}

/// The node of an element that fires stands for those that stop another one, beside that one if there is one.
fn with_stopper(
    nodes: &mut Items<NetNode>,
    fire: u32,
    stopper: Option<u32>,
) -> Result<u32, OutOfMemory>
    ensures nodes { OnOk result (nodes.new ≡ (spec.with_stopper fire nodes.old stopper).nodes) }
    ensures place { IfOk result (λ n. n ≡ (spec.with_stopper fire nodes.old stopper).place) }
{
    match stopper {
        Some(stopper) => either(nodes, stopper, fire),
        None => Ok(fire),
    }
}

/// What is held in a list of answers that may be none, and none where there is no answer.
fn held(found: &[Option<u32>], number: u32) -> Option<u32>
    ensures { result ≡ spec.flattened (slice_get found.now number) }
{
    match at(found, number as usize) {
        Some(held) => *held,
        None => None,
    }
}

/// The element whose firing this node tells stops each of these.
#[tactic(auto, unfolding(crate::specs::FireBuilder::all_stopped))]
fn stop_all(
    nodes: &mut Items<NetNode>,
    stoppers: &mut [Option<u32>],
    fire: u32,
    stopped: &[u32],
) -> Result<(), OutOfMemory>
    ensures nodes { OnOk result (nodes.new
        ≡ (spec.all_stopped fire nodes.old stoppers.old stopped.now).nodes) }
    ensures stoppers { OnOk result (stoppers.new
        ≡ (spec.all_stopped fire nodes.old stoppers.old stopped.now).stoppers) }
{
    let mut rest = stopped;
    while let Some((number, after)) = rest.split_first() {
        let place = with_stopper(nodes, fire, held(stoppers, *number))?;
        if (*number as usize) < stoppers.len() {
            stoppers[*number as usize] = Some(place);
        }
        rest = after;
    }
    Ok(())
}

/// Whether there is such a method, and its nodes are not placed yet.
fn is_open(ports: &[Items<Option<MethodPort>>], part: u32, method: u32) -> bool
    ensures is { result ≡ spec.is_open ports.now part method }
    ensures part { IsTrue result → part < length ports.now }
    ensures method { IsTrue result → method < length (or_none (slice_get ports.now part)) }
{
    let Some(methods) = at(ports, part as usize) else {
        return false;
    };
    match at(methods.as_slice(), method as usize) {
        Some(port) => port.is_none(),
        None => false,
    }
}

/// The node of what an element gives, whose own nodes have these places.
fn result_at(places: &[u32], given: Option<u32>) -> Option<u32>
    ensures { result ≡ option_map (placing.node_at places.now) given }
{
    match given {
        Some(node) => Some(node_at(places, node)),
        None => None,
    }
}

impl<'a> FireBuilder<'a> {
    ghost use Rattle.bsv_fire.specs.AtHand as hand;

    fn pieces(self, ports: &'a [Items<Option<MethodPort>>]) -> Pieces<'a>
        ensures base { hand.base result ≡ (hand.ground self.entry).base }
        ensures ports { result.ports.now ≡ ports.entry.now }
    {
        Pieces {
            alloc: self.alloc,
            parts: self.design.parts.as_slice(),
            registers: self.registers,
            ports,
            none: self.none,
        }
    }

    fn call_sites_on(self, part: u32) -> &'a [CallSite]
        ensures { result.now ≡ or_none (slice_get (hand.ground self.entry).call_sites part) }
    {
        match at(self.call_sites, part as usize) {
            Some(call_sites) => call_sites.as_slice(),
            None => &[],
        }
    }

    fn needs(self, number: u32) -> &'a [Need]
        ensures { result.now ≡ or_none (slice_get (hand.ground self.entry).needs number) }
    {
        match at(self.guards.needs.as_slice(), number as usize) {
            Some(needs) => needs.as_slice(),
            None => &[],
        }
    }

    fn stopped_by(self, number: u32) -> &'a [u32]
        ensures { result.now ≡ or_none (slice_get (hand.ground self.entry).stops number) }
    {
        match at(self.schedule.stops.as_slice(), number as usize) {
            Some(stopped) => stopped.as_slice(),
            None => &[],
        }
    }

    /// The nodes of a method of a part are in the net, if they did not before.
    fn place_method(
        self,
        net_so_far: &mut NetSoFar,
        kind: &Kind,
        part: u32,
        method: u32,
    ) -> Result<(), OutOfMemory>
        requires { method < (kind_table kind.now).methods }
        ensures { OnOk result
            (hand.net_so_far net_so_far.new ≡ spec.with_method (hand.ground self.entry)
            kind.now part method (hand.net_so_far net_so_far.old)) }
    {
        if !is_open(net_so_far.ports.as_slice(), part, method) {
            return Ok(());
        }
        let firing = Firing {
            fires: net_so_far.fires.as_slice(),
            sites: net_so_far.sites.as_slice(),
        };
        let call_sites = self.call_sites_on(part);
        let nodes = &mut net_so_far.nodes;
        let found = port(
            self.alloc, nodes, kind, method, firing, call_sites, self.none,
        )?;
        net_so_far.ports[part as usize].set(method as usize, Some(found));
        Ok(())
    }

    /// Those of the methods of a part that this one sees.
    #[tactic(auto, using(crate::proofs::Onward::with_seen_more), unfolding(crate::specs::FireBuilder::with_seen))]
    fn place_seen(
        self,
        net_so_far: &mut NetSoFar,
        kind: &Kind,
        part: u32,
        by: u32,
    ) -> Result<(), OutOfMemory>
        ensures { OnOk result
            (hand.net_so_far net_so_far.new ≡ spec.with_seen_in (hand.ground self.entry)
            (Some kind.now) part by (hand.net_so_far net_so_far.old)) }
    {
        let methods = kind.methods();
        if by >= methods {
            return Ok(());
        }
        for method in 0..methods {
            if kind.sees(method, by) {
                self.place_method(net_so_far, kind, part, method)?;
            }
        }
        Ok(())
    }

    /// All that are seen by the methods of these calls.
    #[tactic(auto, unfolding(crate::specs::FireBuilder::with_ports))]
    fn place_all_seen(self, net_so_far: &mut NetSoFar, calls: &[Call]) -> Result<(), OutOfMemory>
        ensures { OnOk result
            (hand.net_so_far net_so_far.new ≡ spec.with_ports (hand.ground self.entry)
            (hand.net_so_far net_so_far.old) calls.now) }
    {
        let mut rest = calls;
        while let Some((call, after)) = rest.split_first() {
            if let Some(part) = at(self.design.parts.as_slice(), call.part as usize) {
                self.place_seen(net_so_far, &part.kind, call.part, call.method)?;
            }
            rest = after;
        }
        Ok(())
    }

    /// The nodes of the body of an element, with their places.
    fn place_body(
        self,
        net_so_far: &mut NetSoFar,
        number: u32,
        element: &Element,
    ) -> Result<Items<u32>, OutOfMemory>
        ensures net_so_far { OnOk result (hand.net_so_far net_so_far.new
            ≡ spec.at_nodes (hand.net_so_far net_so_far.old)
            (spec.element_body (hand.ground self.entry) (hand.net_so_far net_so_far.old) number
            element.now).nodes) }
        ensures places { IfOk result (λ places. places ≡ (spec.element_body
            (hand.ground self.entry) (hand.net_so_far net_so_far.old) number element.now).places) }
    {
        let start = node_at(self.inputs, number);
        let pieces = self.pieces(net_so_far.ports.as_slice());
        let nodes = &mut net_so_far.nodes;
        pieces.body(
            nodes,
            start,
            element.calls.as_slice(),
            element.nodes.as_slice(),
        )
    }

    /// The bit that is 1 where the element is ready. The nodes of its body have these places.
    fn place_ready(
        self,
        net_so_far: &mut NetSoFar,
        number: u32,
        element: &Element,
        places: &[u32],
    ) -> Result<u32, OutOfMemory>
        ensures net_so_far { OnOk result (hand.net_so_far net_so_far.new
            ≡ spec.at_nodes (hand.net_so_far net_so_far.old)
            (spec.element_ready (hand.ground self.entry) (hand.net_so_far net_so_far.old) number
            element.now
            places.now).nodes) }
        ensures place { IfOk result (λ n. n ≡ (spec.element_ready (hand.ground self.entry)
            (hand.net_so_far net_so_far.old) number element.now places.now).place) }
    {
        let Some(one) = self.none.checked_add(1) else {
            return Err(OutOfMemory);
        };
        let pieces = self.pieces(net_so_far.ports.as_slice());
        let nodes = &mut net_so_far.nodes;
        let mut bits = pieces.guards(nodes, element.calls.as_slice(), self.needs(number))?;
        push_truths(&mut bits, places, element.conditions.as_slice())?;
        all_of(nodes, one, bits.as_slice())
    }

    /// The input that tells whether a method is asked: the one after its arguments.
    fn asked(self, number: u32, element: &Element) -> Result<u32, OutOfMemory>
        ensures { IfOk result (λ n. n ≡ placing.node_at (hand.ground self.entry).inputs number
            + length element.now.arguments) }
    {
        let Ok(arguments) = u32::try_from(element.arguments.len()) else {
            return Err(OutOfMemory);
        };
        match node_at(self.inputs, number).checked_add(arguments) {
            Some(asked) => Ok(asked),
            None => Err(OutOfMemory),
        }
    }

    /// The bit that is 1 where an element may fire and is ready, as this node tells.
    fn place_asked(
        self,
        nodes: &mut Items<NetNode>,
        number: u32,
        element: &Element,
        ready: u32,
    ) -> Result<u32, OutOfMemory>
        ensures nodes { OnOk result (nodes.new ≡ (spec.asked_and (hand.ground self.entry) nodes.old
            number element.now ready).nodes) }
        ensures place { IfOk result (λ n. n ≡ (spec.asked_and (hand.ground self.entry) nodes.old
            number element.now ready).place) }
    {
        if element.role.is_rule() {
            return Ok(ready);
        }
        let asked = self.asked(number, element)?;
        both(nodes, asked, ready)
    }

    /// The bit that is 1 where the element fires: it is asked, or a rule, and ready, and no one that fires stops it.
    fn place_fire(
        self,
        net_so_far: &mut NetSoFar,
        number: u32,
        element: &Element,
        ready: u32,
    ) -> Result<u32, OutOfMemory>
        ensures net_so_far { OnOk result (hand.net_so_far net_so_far.new
            ≡ spec.at_nodes (hand.net_so_far net_so_far.old)
            (spec.element_fire (hand.ground self.entry) (hand.net_so_far net_so_far.old) number
            element.now
            ready).nodes) }
        ensures place { IfOk result (λ n. n ≡ (spec.element_fire (hand.ground self.entry)
            (hand.net_so_far net_so_far.old) number element.now ready).place) }
    {
        let stopper = held(net_so_far.stoppers.as_slice(), number);
        let bit = self.place_asked(&mut net_so_far.nodes, number, element, ready)?;
        unless(&mut net_so_far.nodes, bit, stopper)
    }

    /// What the net tells of an element is kept, for those after it.
    fn keep(
        self,
        net_so_far: &mut NetSoFar,
        number: u32,
        element: &Element,
        places: &[u32],
        telling: ReadyAndFire,
    ) -> Result<(), OutOfMemory>
        ensures { OnOk result (hand.net_so_far net_so_far.new ≡ spec.kept (hand.ground self.entry)
            (hand.net_so_far net_so_far.old) number element.now places.now telling.ready
            telling.fire) }
    {
        let stopped = self.stopped_by(number);
        stop_all(
            &mut net_so_far.nodes,
            net_so_far.stoppers.as_mut_slice(),
            telling.fire,
            stopped,
        )?;
        let found = sites(self.alloc, places, element.calls.as_slice())?;
        let place = number as usize;
        set(net_so_far.fires.as_mut_slice(), place, telling.fire);
        set(net_so_far.readies.as_mut_slice(), place, telling.ready);
        set_given(
            net_so_far.results.as_mut_slice(),
            place,
            result_at(places, element.result),
        );
        if place < net_so_far.sites.len() {
            net_so_far.sites[place] = found;
        }
        Ok(())
    }

    /// One element is in the net, too.
    #[tactic(auto, unfolding(crate::specs::FireBuilder::with_element))]
    fn place_element(
        self,
        net_so_far: &mut NetSoFar,
        number: u32,
        element: &Element,
    ) -> Result<(), OutOfMemory>
        ensures { OnOk result
            (hand.net_so_far net_so_far.new ≡ spec.with_element (hand.ground self.entry)
            (hand.net_so_far net_so_far.old) number element.now) }
    {
        self.place_all_seen(net_so_far, element.calls.as_slice())?;
        let places = self.place_body(net_so_far, number, element)?;
        let ready = self.place_ready(net_so_far, number, element, places.as_slice())?;
        let fire = self.place_fire(net_so_far, number, element, ready)?;
        let telling = ReadyAndFire { ready, fire };
        self.keep(net_so_far, number, element, places.as_slice(), telling)
    }

    /// All elements are in the net, the more urgent ones first.
    #[tactic(auto, unfolding(crate::specs::FireBuilder::grown))]
    pub fn grow(self, net_so_far: &mut NetSoFar) -> Result<(), OutOfMemory>
        ensures { OnOk result (hand.net_so_far net_so_far.new ≡ spec.grown (hand.ground self.entry)
            (hand.net_so_far net_so_far.old) self.entry.schedule.now.urgency) }
    {
        let mut rest = self.schedule.urgency.as_slice();
        while let Some((number, after)) = rest.split_first() {
            if let Some(element) = at(self.design.elements.as_slice(), *number as usize) {
                self.place_element(net_so_far, *number, element)?;
            }
            rest = after;
        }
        Ok(())
    }
}

/// The number is at this place, where there is one.
fn set(numbers: &mut [u32], place: usize, number: u32)
    ensures { numbers.new ≡ slice_set numbers.old place number }
{
    if place < numbers.len() {
        numbers[place] = number;
    }
}

fn set_given(given: &mut [Option<u32>], place: usize, number: Option<u32>)
    ensures { given.new ≡ slice_set given.old place number }
{
    if place < given.len() {
        given[place] = number;
    }
}
