ghost use Rattle.std.specs.Prelude.{◌≡◌, ◌⊎◌, ℕ, false, List, Some, Err, IfOk, OnOk, slice_get};
ghost use Rattle.bsv_attr.specs.Asserting.{IsAccepted};
ghost use Rattle.bsv_attr.specs.Obeying.{Obeys};
ghost use Rattle.bsv_clock.specs.Grounds.{IsScheduleOf, KeepsRules};
ghost use Rattle.bsv_clock.specs.Subjects.{design_subject, element_name};
ghost use Rattle.bsv_design.specs.design.Guards.{needs_of};
ghost use Rattle.bsv_design.specs.scheme.Schemes.{design_scheme, kinds_of};
ghost use Rattle.bsv_tree.specs.meaning.Schemes.{tree_scheme};
ghost use Rattle.bsv_design.specs.scheme.Seen.{design_data};
ghost use Rattle.bsv_tree.specs.tree.Seen.{tree_data};
ghost use Rattle.bsv_tree.specs.tree.Trees.{TreeData};
ghost use Rattle.bsv_design.specs.declared.schedule.Schedule.{Schedule as TheSchedule};
ghost use Rattle.bsv_schedule.specs.execution_order.Orders.{Executes};
ghost use Rattle.bsv_schedule.specs.relating.Relating.{feed_edges};
ghost use Rattle.bsv_schedule.specs.urgency_order.Orders.{Urges};
ghost use Rattle.bsv_graph.specs.Walks.{IsAcyclic};
ghost use Rattle.bsv_net.specs.AtHand.{net_data};
ghost use Rattle.bsv_net.specs.ShowsByNet.{NamesResults, NetCarries};
ghost use Rattle.bsv_share.specs.Sharing.{IsDistinct, IsFolded, IsNeeded};
ghost use Rattle.bsv_flow.specs.Breaches as breaches;
ghost use Rattle.bsv_flow.specs.Running.{BelongTogether};
ghost use Rattle.bsv_flow.specs.Schedulings as spec;
ghost use Rattle.bsv_flow.specs.Schedulings.{
  IsScheduled,
  IsUnexecuted,
  IsUnurged,
  IsUnasserted,
  Unscheduled,
  related,
  subject,
};
ghost use Rattle.bsv_flow.specs.declared.refusal.CompileFault.TheVariants.{Refused, ReadFault};
ghost use Rattle.bsv_flow.specs.declared.refusal.Refusal.{Refusal as TheRefusal};

use crate::flattening::flat;
use crate::naming::{attribute_word, element_name, method_name, part_path};
use crate::refusal::{CompileFault, Refusal};
use bsv_attr::{AttrFault, asserts, is_countable};
use bsv_bits::{Name, OutOfMemory};
use bsv_design::{Design, Element, Guards, NamedPart, Pair, Schedule, path_of};
use bsv_fire::add_fire;
use bsv_io::Gate;
use bsv_mux::add_next;
use bsv_net::Net;
use bsv_schedule::{OrderFault, UrgencyFault, execution, schedule, urgency};
use bsv_share::share;
use bsv_tree::Tree;
use bsv_vgen::generate;
use bsv_vtext::VModule;
use sqlite_items::Items;
use std::alloc::Global;
use std::thread::Threads;

/// A design that was compiled: its flat bodies, its guards, its schedule, its net, and its Verilog.
#[derive(Drop)]
pub struct Compiled {
    pub design: Design,
    pub guards: Guards,
    pub schedule: Schedule,
    pub net: Net,
    pub verilog: VModule,
}

/// The name of an element.
fn named(alloc: Global, design: &Design, position: u32) -> Result<Name, OutOfMemory>
    ensures { IfOk result (λ name.
        name ≡ element_name (design_scheme (design_data design.now)) position) }
{
    Name::new(alloc, element_name(design, position))
}

/// An attribute with a pair of elements.
fn paired(alloc: Global, design: &Design, pair: Pair) -> Result<(Name, Name, Name), OutOfMemory>
    ensures { IfOk result (λ names. names ≡ spec.pair_names (design_subject design.now) pair) }
{
    Ok((
        Name::new(alloc, attribute_word(pair.attribute).as_bytes())?,
        named(alloc, design, pair.before)?,
        named(alloc, design, pair.after)?,
    ))
}

/// The refusal that a fault of the execution order tells.
fn order_refusal(alloc: Global, design: &Design, fault: OrderFault) -> Result<Refusal, OutOfMemory>
    ensures { IfOk result (λ r. spec.order_told (design_subject design.now) fault ≡ Some r) }
{
    match fault {
        OrderFault::WireCycle(element) => {
            let name = named(alloc, design, element)?;
            Ok(Refusal::WireCycle(name))
        }
        OrderFault::ValueClash(method) => {
            let name = named(alloc, design, method)?;
            Ok(Refusal::ValueClash(name))
        }
        OrderFault::ExecutionCycle(pair) => {
            let (attribute, before, after) = paired(alloc, design, pair)?;
            Ok(Refusal::ExecutionCycle(attribute, before, after))
        }
        OrderFault::OutOfMemory => Err(OutOfMemory),
    }
}

/// The refusal that a fault of the urgency order tells.
fn urgency_refusal(
    alloc: Global,
    design: &Design,
    fault: UrgencyFault,
) -> Result<Refusal, OutOfMemory>
    ensures { IfOk result (λ r. spec.urgency_told (design_subject design.now) fault ≡ Some r) }
{
    match fault {
        UrgencyFault::UrgencyCycle(pair) => {
            let (attribute, before, after) = paired(alloc, design, pair)?;
            Ok(Refusal::UrgencyCycle(attribute, before, after))
        }
        UrgencyFault::MethodBehindRule(method, rule) => {
            let method = named(alloc, design, method)?;
            let rule = named(alloc, design, rule)?;
            Ok(Refusal::MethodBehindRule(method, rule))
        }
        UrgencyFault::OutOfMemory => Err(OutOfMemory),
    }
}

/// The name of a condition or a call of an element, by its place.
#[tactic(auto, using(crate::proofs::ScheduledTrees::of_condition, crate::proofs::ScheduledTrees::of_call))]
fn text_at(
    alloc: Global,
    parts: &[NamedPart],
    element: &Element,
    place: u32,
) -> Result<Name, OutOfMemory>
    ensures { IfOk result (λ name. name
        ≡ breaches.or_no_name (slice_get (spec.texts_in parts.now element.now) place)) }
{
    let place = place as usize;
    let conditions = element.conditions.len();
    if place < conditions {
        return condition_text(alloc, element, place);
    }
    call_text(alloc, parts, element, place - conditions)
}

/// The name of a condition.
fn condition_text(alloc: Global, element: &Element, place: usize) -> Result<Name, OutOfMemory>
    ensures { IfOk result (λ name. name ≡ spec.condition_at element.now place) }
{
    match element.conditions.get(place) {
        Some(condition) => match &condition.implicit {
            Some(name) => Name::new(alloc, name.bytes()),
            None => Name::new(alloc, b""),
        },
        None => Name::new(alloc, b""),
    }
}

/// The path and the name of what a call calls.
fn call_text(
    alloc: Global,
    parts: &[NamedPart],
    element: &Element,
    place: usize,
) -> Result<Name, OutOfMemory>
    ensures { IfOk result (λ name. name ≡ spec.call_at parts.now element.now place) }
{
    match element.calls.get(place) {
        Some(call) => path_of(
            alloc,
            part_path(parts, call.part),
            method_name(parts, call.part, call.method),
        ),
        None => Name::new(alloc, b""),
    }
}

/// The refusal of an implicit condition.
#[tactic(auto, using(crate::proofs::ScheduledTrees::implicit_same))]
fn implicit_refusal(
    alloc: Global,
    design: &Design,
    rule: u32,
    place: u32,
) -> Result<Refusal, OutOfMemory>
    ensures { IfOk result (λ r. r ≡ spec.implicit_told (design_subject design.now) rule place) }
{
    let Some(element) = design.elements.get(rule as usize) else {
        return Err(OutOfMemory);
    };
    let name = named(alloc, design, rule)?;
    let call = text_at(alloc, design.parts.as_slice(), element, place)?;
    Ok(Refusal::NoImplicit(name, call))
}

/// The refusal of what stops a rule that is to fire.
fn stopper_refusal(
    alloc: Global,
    design: &Design,
    rule: u32,
    element: u32,
) -> Result<Refusal, OutOfMemory>
    ensures { IfOk result (λ r. r ≡ spec.stopper_told (design_subject design.now) rule element) }
{
    let name = named(alloc, design, rule)?;
    let stopper = named(alloc, design, element)?;
    Ok(Refusal::FireWhenEnabled(name, stopper))
}

/// The execution order of a design.
fn executed<R: Threads + Sync, G: Gate + Sync>(
    rt: &R,
    alloc: Global,
    design: &Design,
    gate: &G,
) -> Result<Items<u32>, CompileFault>
    ensures executes { IfOk result (λ order.
        Executes (related (design_subject design.now)) order) }
    ensures refused { (r : TheRefusal) → result ≡ Err (Refused r)
        → IsUnexecuted (design_subject design.now) r }
    ensures own { (name : List ℕ) → result ≡ Err (ReadFault name) → ⊥ }
{
    match execution(rt, alloc, design, gate) {
        Ok(order) => Ok(order),
        Err(fault) => Err(CompileFault::Refused(order_refusal(alloc, design, fault)?)),
    }
}

/// The urgency order of a design.
#[tactic(auto, using(crate::proofs::ScheduledTrees::declined))]
fn urged(alloc: Global, design: &Design) -> Result<Items<u32>, CompileFault>
    requires { IsAcyclic (feed_edges (related (design_subject design.now))) }
    ensures urges { IfOk result (λ order. Urges (related (design_subject design.now)) order) }
    ensures refused { (r : TheRefusal) → result ≡ Err (Refused r)
        → IsUnurged (design_subject design.now) r }
    ensures own { (name : List ℕ) → result ≡ Err (ReadFault name) → ⊥ }
{
    match urgency(alloc, design) {
        Ok(order) => Ok(order),
        Err(fault) => Err(CompileFault::Refused(urgency_refusal(alloc, design, fault)?)),
    }
}

/// The marks of rules hold in a schedule.
#[tactic(auto, using(crate::proofs::ScheduledTrees::unasserted_implicit, crate::proofs::ScheduledTrees::unasserted_stopped))]
fn asserted(alloc: Global, design: &Design, schedule: &Schedule) -> Result<(), CompileFault>
    ensures accepted { OnOk result
        (IsAccepted (design_scheme (design_data design.now)) schedule.now) }
    ensures refused { (r : TheRefusal) → result ≡ Err (Refused r)
        → IsUnasserted (design_subject design.now) schedule.now r }
    ensures own { (name : List ℕ) → result ≡ Err (ReadFault name) → ⊥ }
{
    if !is_countable(design) {
        return Err(CompileFault::OutOfMemory);
    }
    match asserts(design, schedule) {
        Ok(()) => Ok(()),
        Err(AttrFault::NoImplicit(rule, place)) => {
            let refusal = implicit_refusal(alloc, design, rule, place)?;
            Err(CompileFault::Refused(refusal))
        }
        Err(AttrFault::FireWhenEnabled(rule, element)) => {
            let refusal = stopper_refusal(alloc, design, rule, element)?;
            Err(CompileFault::Refused(refusal))
        }
    }
}

/// The net of a design, which is its hardware, without repeats.
fn net_of(
    alloc: Global,
    design: &Design,
    guards: &Guards,
    schedule: &Schedule,
) -> Result<Net, OutOfMemory>
    requires rules { KeepsRules (design_scheme (design_data design.now)) }
    requires needs { guards.now.needs
        ≡ needs_of (kinds_of (design_data design.now)) design.now.elements }
    requires schedule { IsScheduleOf (design_scheme (design_data design.now)) schedule.now }
    ensures carries { IfOk result
        (NetCarries false (design_scheme (design_data design.now)) schedule.now) }
    ensures results { IfOk result (λ net.
        NamesResults (design_scheme (design_data design.now)) (net_data net)) }
    ensures folded { IfOk result (λ net. IsFolded net.nodes) }
    ensures distinct { IfOk result (λ net. IsDistinct net.nodes) }
    ensures needed { IfOk result (λ net. IsNeeded (net_data net)) }
{
    let net = add_fire(alloc, design, guards, schedule)?;
    let net = add_next(alloc, design, schedule, net)?;
    share(alloc, &net)
}

/// The design of a tree with its guards, its schedule, which obeys the attributes, and its net and its
/// module, which carry the tree; or the first refusal of two calls of one element, of the two orders, or of the marks
/// of rules.
#[tactic(auto, using(crate::proofs::ScheduledTrees::executed_order, crate::proofs::ScheduledTrees::urged_order))]
pub fn scheduled<R: Threads + Sync, G: Gate + Sync>(
    rt: &R,
    alloc: Global,
    tree: &Tree,
    gate: &G,
) -> Result<Compiled, CompileFault>
    ensures compiled { IfOk result (λ c. spec.IsCompiledOf (tree_data tree.now) c) }
    ensures scheduled { IfOk result (λ c.
        IsScheduled (subject (tree_data tree.now)) c.schedule) }
    ensures obeys { IfOk result (λ c. Obeys (tree_scheme (tree_data tree.now)) c.schedule) }
    ensures runs { IfOk result BelongTogether }
    ensures refused { (r : TheRefusal) → result ≡ Err (Refused r)
        → Unscheduled (tree_data tree.now) r }
    ensures own { (name : List ℕ) → result ≡ Err (ReadFault name) → ⊥ }
{
    let (design, guards) = flat(alloc, tree)?;
    let execution = executed(rt, alloc, &design, gate)?;
    let urgency = urged(alloc, &design)?;
    let schedule = schedule(alloc, &design, execution, urgency)?;
    asserted(alloc, &design, &schedule)?;
    let net = net_of(alloc, &design, &guards, &schedule)?;
    let verilog = generate(alloc, &design, &net)?;
    Ok(Compiled {
        design,
        guards,
        schedule,
        net,
        verilog,
    })
}

/// A tree has one schedule or one first refusal of scheduling, and not both.
pub fn one_schedule()
    ensures one { (h : TreeData) (made other : TheSchedule)
        → IsScheduled (subject h) made → IsScheduled (subject h) other → made ≡ other }
    ensures one_refusal { (h : TreeData) (r other : TheRefusal)
        → Unscheduled h r → Unscheduled h other → r ≡ other }
    ensures apart { (h : TreeData) (made : TheSchedule) (r : TheRefusal)
        → IsScheduled (subject h) made → Unscheduled h r → ⊥ }
    ensures some { (h : TreeData) → ((made : TheSchedule) × IsScheduled (subject h) made)
        ⊎ ((r : TheRefusal) × Unscheduled h r) }
{}
