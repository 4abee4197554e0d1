ghost use Rattle.std.specs.Prelude.{◌≡◌, ◌<◌, ◌↔◌, ◌++◌, suc, IsTrue, IsFalse, IfSome, IfNone};
ghost use Rattle.bsv_schedule.specs.execution_order.Orders.{HasNeither, IsValueClash, IsFirstValueClash};
ghost use Rattle.bsv_graph.specs.Graphs.{size_of, IsGraphOf, ForEdges};
ghost use Rattle.bsv_schedule.specs.relating.Relating.{early_edges};
ghost use Rattle.bsv_schedule.specs.relating.Relations.{relating_of, count_of};
ghost use Rattle.bsv_schedule.specs.execution_order.Between.{edge_between, edges_between};
ghost use Rattle.bsv_schedule.specs.execution_order.Stages.{HasFeeds, HasEarly};

use crate::execution_order::edges::goes_before_only;
use crate::relating::Relations;
use bsv_graph::{Edge, Graph};

// Whether some element is no value method, and neither goes before the other.
fn has_neither(relations: &Relations, v: usize) -> bool
    requires { v < count_of relations.now }
    ensures { IsTrue result ↔ HasNeither (relating_of relations.now) v }
{
    for e in 0..relations.count() {
        if !relations.is_value(e) && !relations.goes(v, e) && !relations.goes(e, v) {
            return true;
        }
    }
    false
}

// The graph gains the edge between a value method and another element.
fn join_between(relations: &Relations, graph: &mut Graph, v: usize, e: usize)
    requires size { size_of graph.old ≡ count_of relations.now }
    requires first { v < count_of relations.now }
    requires second { e < count_of relations.now }
    ensures size { size_of graph.new ≡ size_of graph.old }
    ensures gains { ForEdges graph.old
        (λ es. IsGraphOf (edge_between (relating_of relations.now) v e ++ es) graph.new) }
{
    if relations.is_value(e) {
        return;
    }
    if goes_before_only(relations, v, e) {
        graph.join(Edge {
            from: v as u32,
            to: e as u32,
        });
        return;
    }
    if goes_before_only(relations, e, v) {
        graph.join(Edge {
            from: e as u32,
            to: v as u32,
        });
    }
}

// The graph gains the edges between a value method and the other elements.
fn join_value(relations: &Relations, graph: &mut Graph, v: usize)
    requires size { size_of graph.old ≡ count_of relations.now }
    requires element { v < count_of relations.now }
    ensures size { size_of graph.new ≡ size_of graph.old }
    ensures gains { ForEdges graph.old
        (λ es. IsGraphOf
        (edges_between (relating_of relations.now) v (count_of relations.now) ++ es) graph.new) }
{
    for e in 0..relations.count() {
        join_between(relations, graph, v, e);
    }
}

// Whether the value method clashes. The graph, which has the feeds and the edges of those before it, gains
// its own.
fn clashes(relations: &Relations, graph: &mut Graph, v: usize) -> bool
    requires size { size_of graph.old ≡ count_of relations.now }
    requires element { v < count_of relations.now }
    requires before { IsGraphOf (early_edges (relating_of relations.now) v) graph.old }
    ensures size { size_of graph.new ≡ size_of graph.old }
    ensures clash { IsTrue result → IsValueClash (relating_of relations.now) v }
    ensures none { IsFalse result → ¬ IsValueClash (relating_of relations.now) v }
    ensures gains { IsFalse result
        → IsGraphOf (early_edges (relating_of relations.now) (suc v)) graph.new }
{
    if !relations.is_value(v) {
        return false;
    }
    if has_neither(relations, v) {
        return true;
    }
    join_value(relations, graph, v);
    match graph.least_on_cycle() {
        Some(_) => true,
        None => false,
    }
}

/// The first value method that clashes. The graph, which has the feeds, gains the edges of the value
/// methods.
pub(crate) fn first_clash(relations: &Relations, graph: &mut Graph) -> Option<u32>
    requires feeds { HasFeeds (relating_of relations.now) graph.old }
    ensures some { IfSome result (λ v. IsFirstValueClash (relating_of relations.now) v) }
    ensures none { IfNone result (HasEarly (relating_of relations.now) graph.new) }
{
    for v in 0..relations.count() {
        if clashes(relations, graph, v) {
            return Some(v as u32);
        }
    }
    None
}
