ghost use Rattle.std.specs.Prelude.{◌≡◌, ◌<◌, ◌++◌, IfOk, OnOk};
ghost use Rattle.bsv_graph.specs.Edges.{edges_from};
ghost use Rattle.bsv_schedule.specs.relating.Relating.{goes_only, is_soft, soft_edges};
ghost use Rattle.bsv_schedule.specs.relating.Relations.{relating_of, count_of};

use crate::picking::push_if;
use crate::relating::Relations;
use bsv_bits::OutOfMemory;
use bsv_graph::Edge;
use sqlite_items::Items;
use std::alloc::{AllocError, Global};

/// Whether the first element goes before the second, and not the other way round.
pub(crate) fn goes_before_only(relations: &Relations, a: usize, b: usize) -> bool
    requires first { a < count_of relations.now }
    requires second { b < count_of relations.now }
    ensures { result ≡ goes_only (relating_of relations.now) a b }
{
    relations.goes(a, b) && !relations.goes(b, a)
}

fn soft(relations: &Relations, a: usize, b: usize) -> bool
    requires first { a < count_of relations.now }
    requires second { b < count_of relations.now }
    ensures { result ≡ is_soft (relating_of relations.now) a b }
{
    !relations.is_value(a) && !relations.is_value(b) && goes_before_only(relations, a, b)
}

fn add_soft(relations: &Relations, a: usize, edges: &mut Items<Edge>) -> Result<(), AllocError>
    requires { a < count_of relations.now }
    ensures { OnOk result (edges.new
        ≡ edges.old
        ++ edges_from (is_soft (relating_of relations.now)) (count_of relations.now) a) }
{
    for b in 0..relations.count() {
        let edge = Edge {
            from: a as u32,
            to: b as u32,
        };
        push_if(soft(relations, a, b), edge, edges)?;
    }
    Ok(())
}

/// The soft edges, in the order in which they are taken.
pub(crate) fn all_soft(alloc: Global, relations: &Relations) -> Result<Items<Edge>, OutOfMemory>
    ensures { IfOk result (λ es. es ≡ soft_edges (relating_of relations.now)) }
{
    let mut edges = Items::new(alloc);
    for a in 0..relations.count() {
        add_soft(relations, a, &mut edges)?;
    }
    Ok(edges)
}
