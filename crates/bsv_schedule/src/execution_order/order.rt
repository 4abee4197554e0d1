ghost use Rattle.std.specs.Prelude.{◌≡◌, ℕ, List, Result, IfOk, IfErr};
ghost use Rattle.bsv_design.specs.scheme.Schemes.{design_scheme};
ghost use Rattle.bsv_design.specs.scheme.Seen.{design_data};
ghost use Rattle.bsv_design.specs.declared.attributes.Attribute.TheVariants.{ExecutionOrder};
ghost use Rattle.bsv_schedule.specs.relating.Elements.{relating, edge_of};
ghost use Rattle.bsv_schedule.specs.execution_order.Orders.{Executes};
ghost use Rattle.bsv_schedule.specs.relating.Relations.{relating_of};
ghost use Rattle.bsv_schedule.specs.execution_order.Answers.{RefusesExecution, IsExecutionAnswer, IsExecutionUnlessMemory};
ghost use Rattle.bsv_schedule.specs.execution_order.Stages.{HasFeeds, HasEarly, HasHard};

use crate::execution_order::edges::all_soft;
use crate::execution_order::fault::OrderFault;
use crate::execution_order::values::first_clash;
use crate::relating::Relations;
use bsv_design::{Attribute, Design, Pair};
use bsv_graph::{Edge, Graph};
use bsv_io::Gate;
use sqlite_items::Items;
use std::alloc::Global;
use std::thread::Threads;

// The graph of the feeds, which has no cycle.
fn graph_of_feeds(alloc: Global, relations: &Relations) -> Result<Graph, OrderFault>
    ensures ok { IfOk result (λ g. HasFeeds (relating_of relations.now) g) }
    ensures err { IfErr result (λ e. RefusesExecution (relating_of relations.now) e) }
{
    let graph = relations.feed_graph(alloc)?;
    match graph.least_on_cycle() {
        Some(element) => Err(OrderFault::WireCycle(element)),
        None => Ok(graph),
    }
}

// The graph of these and of the edges of value methods, of which none clashes.
fn graph_with_values(alloc: Global, relations: &Relations) -> Result<Graph, OrderFault>
    ensures ok { IfOk result (λ g. HasEarly (relating_of relations.now) g) }
    ensures err { IfErr result (λ e. RefusesExecution (relating_of relations.now) e) }
{
    let mut graph = graph_of_feeds(alloc, relations)?;
    match first_clash(relations, &mut graph) {
        Some(method) => Err(OrderFault::ValueClash(method)),
        None => Ok(graph),
    }
}

// The edge as a pair of `execution_order`.
fn ordering_pair(edge: Edge) -> Pair
    ensures attribute { result.attribute ≡ ExecutionOrder }
    ensures edge { edge_of result ≡ edge }
{
    Pair {
        attribute: Attribute::ExecutionOrder,
        before: edge.from,
        after: edge.to,
    }
}

// The graph of all hard edges.
fn graph_with_pairs(alloc: Global, relations: &Relations) -> Result<Graph, OrderFault>
    ensures ok { IfOk result (λ g. HasHard (relating_of relations.now) g) }
    ensures err { IfErr result (λ e. RefusesExecution (relating_of relations.now) e) }
{
    let mut graph = graph_with_values(alloc, relations)?;
    let pairs = relations.ordering();
    match graph.first_closing(pairs) {
        Some(k) => Err(OrderFault::ExecutionCycle(ordering_pair(pairs[k]))),
        None => Ok(graph),
    }
}

fn order_of(alloc: Global, relations: &Relations) -> Result<Items<u32>, OrderFault>
    ensures ok { IfOk result (λ order. Executes (relating_of relations.now) order) }
    ensures err { IfErr result (λ e. RefusesExecution (relating_of relations.now) e) }
{
    let mut graph = graph_with_pairs(alloc, relations)?;
    let soft = all_soft(alloc, relations)?;
    graph.join_kept(soft.as_slice());
    Ok(graph.least_order(alloc)?)
}

/// The execution order of the elements: the least list, compared by positions, that respects the hard edges and those
/// of the soft ones that are kept. How an element relates to the others is found by workers, of which each has a block of
/// elements and passes the gate once for each of them, with the element's position.
pub fn execution<R: Threads + Sync, G: Gate + Sync>(
    rt: &R,
    alloc: Global,
    design: &Design,
    gate: &G,
) -> Result<Items<u32>, OrderFault>
    ensures accepted { IfOk result (λ list.
        Executes (relating (design_scheme (design_data design.now))) list) }
    ensures refused { IfErr result (λ fault.
        RefusesExecution (relating (design_scheme (design_data design.now))) fault) }
    ensures exact { (answer : Result (List ℕ) OrderFault)
        → IsExecutionAnswer (relating (design_scheme (design_data design.now))) answer
        → IsExecutionUnlessMemory result answer }
{
    let relations = Relations::in_parallel(rt, alloc, design, gate)?;
    order_of(alloc, &relations)
}
