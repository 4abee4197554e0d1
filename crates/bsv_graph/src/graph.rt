ghost use Rattle.std.specs.Prelude.{◌≡◌, ◌^◌, ◌<◌, ◌↔◌, ◌++◌, ◌∷◌, []};
ghost use Rattle.std.specs.Prelude.{List, length, take, All, IsTrue, IfNone, IfSome, IfOk};
ghost use Rattle.bsv_graph.specs.declared.edge.Edge.{Edge};
ghost use Rattle.bsv_graph.specs.Edges.{AllBelow, edges_from, edges_where};
ghost use Rattle.bsv_graph.specs.Graphs.{size_of, IsGraphOf, ForEdges, HasNoCycle};
ghost use Rattle.bsv_graph.specs.Orders.{IsLeastOrder};
ghost use Rattle.bsv_graph.specs.Table.{side_of, at};
ghost use Rattle.bsv_graph.specs.Walks.{Closes, Keeps, NoneCloses};
ghost use Rattle.bsv_graph.specs.Walks.{ClosesFirst, IsAcyclic, LeastOnCycle};

use crate::edge::Edge;
use crate::least::least_ready;
use crate::reach::grow;
use crate::table::Table;
use bsv_bits::OutOfMemory;
use sqlite_items::Items;
use std::alloc::Global;

/// A graph on the numbers below its size, of which is kept where walks lead.
#[derive(Drop)]
pub struct Graph {
    reach: Table,
}

impl Graph {
    /// A graph without edges.
    pub fn new(alloc: Global, size: usize) -> Result<Graph, OutOfMemory>
        requires { size < 2 ^ 32 }
        ensures size { IfOk result (λ g. size_of g ≡ size) }
        ensures empty { IfOk result (λ g. IsGraphOf [] g) }
    {
        Ok(Graph {
            reach: Table::new(alloc, size)?,
        })
    }

    /// The graph gains an edge.
    pub fn join(&mut self, edge: Edge)
        requires from { edge.from < size_of self.old }
        requires to { edge.to < size_of self.old }
        ensures size { size_of self.new ≡ size_of self.old }
        ensures gains { ForEdges self.old (λ es. IsGraphOf (edge ∷ es) self.new) }
    {
        let from = edge.from as usize;
        let to = edge.to as usize;
        if !self.reach.get(from, to) {
            grow(&mut self.reach, from, to);
        }
    }

    // The graph gains the marks of a row as edges.
    fn join_row(&mut self, table: &Table, a: usize)
        requires side { side_of table.now ≡ size_of self.old }
        requires row { a < side_of table.now }
        ensures size { size_of self.new ≡ size_of self.old }
        ensures gains { ForEdges self.old
            (λ es. IsGraphOf (edges_from (at table.now) (side_of table.now) a ++ es) self.new) }
    {
        for b in 0..table.side() {
            if table.get(a, b) {
                self.join(Edge {
                    from: a as u32,
                    to: b as u32,
                });
            }
        }
    }

    /// The graph whose edges are the marks of the table. The rows are taken from the last one: where edges lead to
    /// higher numbers, a row is joined to rows that are whole, and few of its edges lead to where it does not lead yet.
    pub fn of_marks(alloc: Global, table: &Table) -> Result<Graph, OutOfMemory>
        ensures size { IfOk result (λ g. size_of g ≡ side_of table.now) }
        ensures edges { IfOk result
            (λ g. IsGraphOf (edges_where (side_of table.now) (at table.now)) g) }
    {
        let side = table.side();
        let mut graph = Graph::new(alloc, side)?;
        for done in 0..side {
            graph.join_row(table, side - 1 - done);
        }
        Ok(graph)
    }

    /// Whether the edge closes a cycle with those of the graph.
    pub fn closes(&self, edge: Edge) -> bool
        requires from { edge.from < size_of self.now }
        requires to { edge.to < size_of self.now }
        ensures { ForEdges self.now (λ es. IsTrue result ↔ Closes es edge) }
    {
        edge.from == edge.to || self.reach.get(edge.to as usize, edge.from as usize)
    }

    // The graph gains the edge, unless it closes a cycle.
    fn keep(&mut self, edge: Edge)
        requires from { edge.from < size_of self.old }
        requires to { edge.to < size_of self.old }
        ensures size { size_of self.new ≡ size_of self.old }
        ensures kept { ForEdges self.old
            (λ es. (fs : List Edge) × Keeps es (edge ∷ []) fs × IsGraphOf fs self.new) }
    {
        if !self.closes(edge) {
            self.join(edge);
        }
    }

    /// The graph gains each edge in turn that closes no cycle with those that it has by then.
    pub fn join_kept(&mut self, edges: &[Edge])
        requires { AllBelow (size_of self.old) edges.now }
        ensures size { size_of self.new ≡ size_of self.old }
        ensures kept { ForEdges self.old
            (λ es. (fs : List Edge) × Keeps es edges.now fs × IsGraphOf fs self.new) }
        ensures acyclic { HasNoCycle self.old → HasNoCycle self.new }
    {
        for edge in edges {
            self.keep(*edge);
        }
    }

    /// The place of the first edge that closes a cycle with the graph and the edges before it. The graph gains those
    /// before it, or all where there is none.
    pub fn first_closing(&mut self, edges: &[Edge]) -> Option<usize>
        requires { AllBelow (size_of self.old) edges.now }
        ensures size { size_of self.new ≡ size_of self.old }
        ensures within { IfSome result (λ k. k < length edges.now) }
        ensures some { ForEdges self.old (λ es. IfSome result (λ k. ClosesFirst es edges.now k)) }
        ensures before { ForEdges self.old
            (λ es. IfSome result (λ k. IsGraphOf (take k edges.now ++ es) self.new)) }
        ensures none { ForEdges self.old (λ es. IfNone result (NoneCloses es edges.now)) }
        ensures all { ForEdges self.old
            (λ es. IfNone result (IsGraphOf (edges.now ++ es) self.new)) }
        ensures acyclic { HasNoCycle self.old → IfNone result (HasNoCycle self.new) }
    {
        for (k, edge) in edges.iter().enumerate() {
            if self.closes(*edge) {
                return Some(k);
            }
            self.join(*edge);
        }
        None
    }

    /// The least number from which a walk leads back to it.
    pub fn least_on_cycle(&self) -> Option<u32>
        ensures within { IfSome result (λ a. a < size_of self.now) }
        ensures some { ForEdges self.now (λ es. IfSome result (λ a. LeastOnCycle es a)) }
        ensures none { ForEdges self.now (λ es. IfNone result (IsAcyclic es)) }
    {
        for a in 0..self.reach.side() {
            if self.reach.get(a, a) {
                return Some(a as u32);
            }
        }
        None
    }

    /// The least order of the numbers below the size that respects the edges.
    pub fn least_order(&self, alloc: Global) -> Result<Items<u32>, OutOfMemory>
        requires { HasNoCycle self.now }
        ensures below { IfOk result (λ order. All (λ a. a < size_of self.now) order) }
        ensures least { IfOk result
            (λ order. ForEdges self.now (λ es. IsLeastOrder (size_of self.now) es order)) }
    {
        let side = self.reach.side();
        let mut placed = vec![in alloc; false; side]?;
        let mut waits = vec![in alloc; 0usize; side]?;
        let mut order = Items::new(alloc);
        for _ in 0..side {
            let next = least_ready(&self.reach, &placed, &mut waits);
            placed[next] = true;
            order.push(next as u32)?;
        }
        Ok(order)
    }
}
