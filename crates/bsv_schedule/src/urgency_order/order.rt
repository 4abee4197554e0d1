ghost use Rattle.std.specs.Prelude.{◌≡◌, ◌<◌};
ghost use Rattle.std.specs.Prelude.{ℕ, List, length, Some, slice_get, Result, IfOk, IfErr};
ghost use Rattle.bsv_design.specs.declared.attributes.Pair.{Pair};
ghost use Rattle.bsv_schedule.specs.relating.Elements.{is_urging, edges_of};
ghost use Rattle.bsv_schedule.specs.relating.Relating.{feed_edges};
ghost use Rattle.bsv_schedule.specs.relating.Relations.{relating_of};
ghost use Rattle.bsv_schedule.specs.urgency_order.Orders.{Urges};
ghost use Rattle.bsv_graph.specs.Walks.{IsAcyclic};
ghost use Rattle.bsv_schedule.specs.declared.urgency_order.fault.UrgencyFault.{UrgencyFault};
ghost use Rattle.bsv_schedule.specs.declared.urgency_order.fault.UrgencyFault.TheVariants as told;
ghost use Rattle.bsv_schedule.specs.urgency_order.Answers.{RefusesUrgency, IsUrgencyAnswer, IsUrgencyUnlessMemory};
ghost use Rattle.bsv_schedule.specs.urgency_order.Answers.{urging_pairs};
ghost use Rattle.bsv_schedule.specs.relating.Elements.{design_relating};
ghost use Rattle.bsv_schedule.specs.urgency_order.Stages.{HasUrging};

use crate::relating::Relations;
use crate::urgency_order::behind::method_behind_rule;
use crate::urgency_order::fault::UrgencyFault;
use bsv_design::{Attribute, Design, Pair};
use bsv_graph::Graph;
use sqlite_items::Items;
use std::alloc::Global;

// The pair at this place among those of urgency.
fn urging_pair(pairs: &[Pair], place: usize) -> Option<Pair>
    ensures { result ≡ slice_get (urging_pairs pairs.now) place }
{
    pairs
        .iter()
        .filter(|pair| !matches!(pair.attribute, Attribute::ExecutionOrder))
        .copied()
        .nth(place)
}

// Why there is no order, where the pair at this place closes a cycle.
fn cycle_at(pairs: &[Pair], place: usize) -> UrgencyFault
    requires { place < length (urging_pairs pairs.now) }
    ensures { (p : Pair)
        × (slice_get (urging_pairs pairs.now) place ≡ Some p) × (result ≡ told.UrgencyCycle p) }
{
    match urging_pair(pairs, place) {
        Some(pair) => UrgencyFault::UrgencyCycle(pair),
        None => unreachable!(),
    }
}

// The graph of the feeds and the pairs.
fn graph_of_urgency(
    alloc: Global,
    pairs: &[Pair],
    relations: &Relations,
) -> Result<Graph, UrgencyFault>
    requires feeds { IsAcyclic (feed_edges (relating_of relations.now)) }
    requires pairs { (relating_of relations.now).urging ≡ edges_of is_urging pairs.now }
    ensures ok { IfOk result (λ g. HasUrging (relating_of relations.now) g) }
    ensures err { IfErr result (λ e. RefusesUrgency (relating_of relations.now) pairs.now e) }
{
    let mut graph = relations.feed_graph(alloc)?;
    match graph.first_closing(relations.urging()) {
        Some(place) => Err(cycle_at(pairs, place)),
        None => Ok(graph),
    }
}

// The urgency order of elements that relate in this way.
fn order_of(
    alloc: Global,
    pairs: &[Pair],
    relations: &Relations,
) -> Result<Items<u32>, UrgencyFault>
    requires feeds { IsAcyclic (feed_edges (relating_of relations.now)) }
    requires pairs { (relating_of relations.now).urging ≡ edges_of is_urging pairs.now }
    ensures ok { IfOk result (λ order. Urges (relating_of relations.now) order) }
    ensures err { IfErr result (λ e. RefusesUrgency (relating_of relations.now) pairs.now e) }
{
    let graph = graph_of_urgency(alloc, pairs, relations)?;
    let order = graph.least_order(alloc)?;
    match method_behind_rule(relations, order.as_slice()) {
        Some((method, rule)) => Err(UrgencyFault::MethodBehindRule(method, rule)),
        None => Ok(order),
    }
}

/// The urgency order of the elements: the least list, compared by positions, that respects the feeds and the pairs of
/// `descending_urgency` and `preempts`.
pub fn urgency(alloc: Global, design: &Design) -> Result<Items<u32>, UrgencyFault>
    requires { IsAcyclic (feed_edges (design_relating design.now)) }
    ensures accepted { IfOk result (λ order. Urges (design_relating design.now) order) }
    ensures refused { IfErr result
        (λ fault. RefusesUrgency (design_relating design.now) design.now.pairs fault) }
    ensures exact { (answer : Result (List ℕ) UrgencyFault)
        → IsUrgencyAnswer (design_relating design.now) design.now.pairs answer
        → IsUrgencyUnlessMemory result answer }
{
    let relations = Relations::new(alloc, design)?;
    order_of(alloc, design.pairs.as_slice(), &relations)
}
