ghost use Rattle.std.specs.Prelude.{◌≡◌, ◌<◌, ◌^◌, ◌↔◌, ◌++◌, ◌∷◌, [], All};
ghost use Rattle.std.specs.Prelude.{ℕ, IsTrue, IfOk, OnOk, length, map};
ghost use Rattle.std.specs.List.{list_all, list_any};
ghost use Rattle.bsv_design.specs.scheme.Schemes.{design_scheme};
ghost use Rattle.bsv_design.specs.scheme.Seen.{design_data};
ghost use Rattle.bsv_graph.specs.Edges.{AllBelow};
ghost use Rattle.bsv_graph.specs.Graphs.{size_of, IsGraphOf};
ghost use Rattle.bsv_schedule.specs.relating.Elements as elements;
ghost use Rattle.bsv_schedule.specs.relating.Elements.{relating};
ghost use Rattle.bsv_graph.specs.Table.{side_of, at, Adds};
ghost use Rattle.bsv_schedule.specs.relating.Rows.{mark, mark_at, AreRows, IsSquare};
ghost use Rattle.bsv_schedule.specs.relating.Uses as spec;

use crate::relating::related::Relation;
use crate::relating::rows::{Row, rows, rows_in_parallel};
use bsv_bits::OutOfMemory;
use bsv_design::{Attribute, Design, Element, Pair, Role};
use bsv_graph::{Edge, Graph, Table};
use bsv_io::Gate;
use sqlite_items::Items;
use std::alloc::{AllocError, Global};
use std::thread::Threads;

/// How the elements of a design relate.
#[derive(Drop)]
pub struct Relations {
    roles: Items<Role>,
    clashes: Table,
    feeds: Table,
    preempts: Table,
    ordering: Items<Edge>,
    urging: Items<Edge>,
    ghost few: { length roles < 2 ^ 32 },
    ghost clashes_side: { side_of clashes ≡ length roles },
    ghost feeds_side: { side_of feeds ≡ length roles },
    ghost preempts_side: { side_of preempts ≡ length roles },
    ghost ordering_below: { AllBelow (length roles) ordering },
    ghost urging_below: { AllBelow (length roles) urging },
}

fn roles(alloc: Global, elements: &[Element]) -> Result<Items<Role>, AllocError>
    ensures { IfOk result (λ found. found ≡ map (λ e. e.role) elements.now) }
{
    let mut found = Items::new(alloc);
    for element in elements {
        found.push(element.role)?;
    }
    Ok(found)
}

// The pair is marked where it meets.
fn mark_if(table: &mut Table, meets: bool, a: usize, b: usize)
    requires row { a < side_of table.old }
    requires column { b < side_of table.old }
    ensures { Adds table.old table.new (λ x y. IsTrue meets × (x ≡ a) × (y ≡ b)) }
{
    if meets {
        table.mark(a, b);
    }
}

// Row `a` gains these marks.
fn copy_row(table: &mut Table, a: usize, marks: &[bool])
    requires row { a < side_of table.old }
    requires count { length marks.now ≡ side_of table.old }
    ensures { Adds table.old table.new
        (λ x y. (x ≡ a) × IsTrue (mark marks.now y)) }
{
    for b in 0..marks.len() {
        mark_if(table, marks[b], a, b);
    }
}

// The marks of the rows as a table.
fn table_of(alloc: Global, relation: Relation, rows: &[Row]) -> Result<Table, OutOfMemory>
    requires few { length rows.now < 2 ^ 32 }
    requires square { IsSquare rows.now }
    ensures side { IfOk result (λ table. side_of table ≡ length rows.now) }
    ensures marked { IfOk result (λ table. (a b : ℕ)
        → a < length rows.now → b < length rows.now
        → IsTrue (at table a b) ↔ IsTrue (mark_at relation rows.now a b)) }
{
    let mut table = Table::new(alloc, rows.len())?;
    for a in 0..rows.len() {
        copy_row(&mut table, a, rows[a].marks(relation));
    }
    Ok(table)
}

fn is_listed(ordering: bool, attribute: Attribute) -> bool
    ensures { result ≡ spec.is_listed ordering attribute }
{
    match attribute {
        Attribute::ExecutionOrder => ordering,
        Attribute::DescendingUrgency | Attribute::Preempts => !ordering,
    }
}

// The pair as an edge, where its attribute is one of these.
fn push_listed(ordering: bool, pair: Pair, found: &mut Items<Edge>) -> Result<(), AllocError>
    ensures { OnOk result (found.new
        ≡ found.old ++ elements.edges_of (spec.is_listed ordering) (pair ∷ [])) }
{
    if is_listed(ordering, pair.attribute) {
        found.push(Edge {
            from: pair.before,
            to: pair.after,
        })?;
    }
    Ok(())
}

// The pairs of `execution_order`, or else those of `descending_urgency` and `preempts`.
fn listed(alloc: Global, ordering: bool, pairs: &[Pair]) -> Result<Items<Edge>, AllocError>
    ensures { IfOk result (λ found.
        found ≡ elements.edges_of (spec.is_listed ordering) pairs.now) }
{
    let mut found = Items::new(alloc);
    for pair in pairs {
        push_listed(ordering, *pair, &mut found)?;
    }
    Ok(found)
}

// The pair is marked, where it is one of `preempts`.
fn mark_preempts(table: &mut Table, pair: Pair)
    requires before { pair.before < side_of table.old }
    requires after { pair.after < side_of table.old }
    ensures { Adds table.old table.new (λ a b. IsTrue (elements.preempts a b pair)) }
{
    if pair.attribute == Attribute::Preempts {
        table.mark(pair.before as usize, pair.after as usize);
    }
}

// The pairs of `preempts` are marked.
fn preempts_of(alloc: Global, count: usize, pairs: &[Pair]) -> Result<Table, OutOfMemory>
    requires few { count < 2 ^ 32 }
    requires below { IsTrue (list_all (spec.pair_below count) pairs.now) }
    ensures side { IfOk result (λ table. side_of table ≡ count) }
    ensures marked { IfOk result (λ table. (a b : ℕ) → a < count → b < count
        → IsTrue (at table a b) ↔ IsTrue (list_any (elements.preempts a b) pairs.now)) }
{
    let mut table = Table::new(alloc, count)?;
    for pair in pairs {
        mark_preempts(&mut table, *pair);
    }
    Ok(table)
}

impl Relations {
    ghost use Rattle.bsv_schedule.specs.relating.Relating as relating_words;
    ghost use Rattle.bsv_schedule.specs.relating.Relating.{Agrees};
    ghost use Rattle.bsv_schedule.specs.relating.Relations.{relating_of, count_of};

    // How the elements of a design of these rows relate.
    fn of_rows(alloc: Global, design: &Design, rows: &[Row]) -> Result<Relations, OutOfMemory>
        requires rows { AreRows
            (design_scheme (design_data design.now)) (length design.now.elements) rows.now }
        ensures relating { IfOk result (λ relations.
            relating_of relations ≡ relating (design_scheme (design_data design.now))) }
        ensures agrees { IfOk result (λ relations. Agrees (relating_of relations)) }
    {
        let pairs = design.pairs.as_slice();
        let elements = design.elements.as_slice();
        let roles = roles(alloc, elements)?;
        let clashes = table_of(alloc, Relation::Clashes, rows)?;
        let feeds = table_of(alloc, Relation::Feeds, rows)?;
        let preempts = preempts_of(alloc, roles.len(), pairs)?;
        let ordering = listed(alloc, true, pairs)?;
        let urging = listed(alloc, false, pairs)?;
        Ok(Relations {
            roles,
            clashes,
            feeds,
            preempts,
            ordering,
            urging,
        })
    }

    /// How the elements of the design relate.
    pub fn new(alloc: Global, design: &Design) -> Result<Relations, OutOfMemory>
        ensures relating { IfOk result (λ relations.
            relating_of relations ≡ relating (design_scheme (design_data design.now))) }
        ensures agrees { IfOk result (λ relations. Agrees (relating_of relations)) }
    {
        let rows = rows(alloc, design)?;
        Relations::of_rows(alloc, design, rows.as_slice())
    }

    /// The same by workers, of which each has a block of elements and passes the gate once for each of them, with the
    /// element's position.
    pub fn in_parallel<R: Threads + Sync, G: Gate + Sync>(
        rt: &R,
        alloc: Global,
        design: &Design,
        gate: &G,
    ) -> Result<Relations, OutOfMemory>
        ensures relating { IfOk result (λ relations.
            relating_of relations ≡ relating (design_scheme (design_data design.now))) }
        ensures agrees { IfOk result (λ relations. Agrees (relating_of relations)) }
    {
        let rows = rows_in_parallel(rt, alloc, design, gate)?;
        Relations::of_rows(alloc, design, rows.as_slice())
    }

    /// How many elements there are.
    #[tactic(auto, unfolding(crate::specs::relating::Relations::relating_of))]
    pub fn count(&self) -> usize
        ensures count { result ≡ count_of self.now }
        ensures few { result < 2 ^ 32 }
    {
        self.roles.len()
    }

    /// Whether the element is a method that gives a value and does not act.
    #[tactic(auto, unfolding(crate::specs::relating::Relations::relating_of))]
    pub fn is_value(&self, element: usize) -> bool
        requires { element < count_of self.now }
        ensures { result ≡ (relating_of self.now).value element }
    {
        self.roles.as_slice()[element].is_value()
    }

    /// Whether the element is a rule.
    #[tactic(auto, unfolding(crate::specs::relating::Relations::relating_of))]
    pub fn is_rule(&self, element: usize) -> bool
        requires { element < count_of self.now }
        ensures { result ≡ (relating_of self.now).rule element }
    {
        self.roles.as_slice()[element].is_rule()
    }

    /// Whether the first element goes before the second.
    #[tactic(auto, unfolding(crate::specs::relating::Relations::relating_of))]
    pub fn goes(&self, a: usize, b: usize) -> bool
        requires first { a < count_of self.now }
        requires second { b < count_of self.now }
        ensures { result ≡ (relating_of self.now).goes a b }
    {
        !self.clashes.get(a, b)
    }

    /// Whether the first element feeds the second.
    #[tactic(auto, unfolding(crate::specs::relating::Relations::relating_of))]
    pub fn feeds(&self, a: usize, b: usize) -> bool
        requires first { a < count_of self.now }
        requires second { b < count_of self.now }
        ensures { result ≡ (relating_of self.now).feeds a b }
    {
        self.feeds.get(a, b)
    }

    /// Whether `preempts` has the first element on the left and the second on the right.
    #[tactic(auto, unfolding(crate::specs::relating::Relations::relating_of))]
    pub fn preempts(&self, a: usize, b: usize) -> bool
        requires first { a < count_of self.now }
        requires second { b < count_of self.now }
        ensures { result ≡ (relating_of self.now).preempts a b }
    {
        self.preempts.get(a, b)
    }

    /// The pairs of `execution_order`, in the order of the text.
    #[tactic(auto, unfolding(crate::specs::relating::Relations::relating_of))]
    pub fn ordering(&self) -> &[Edge]
        ensures ordering { result.now ≡ (relating_of self.now).ordering }
        ensures below { AllBelow (count_of self.now) result.now }
    {
        self.ordering.as_slice()
    }

    /// The pairs of `descending_urgency` and `preempts`, in the order of the text.
    #[tactic(auto, unfolding(crate::specs::relating::Relations::relating_of))]
    pub fn urging(&self) -> &[Edge]
        ensures urging { result.now ≡ (relating_of self.now).urging }
        ensures below { AllBelow (count_of self.now) result.now }
    {
        self.urging.as_slice()
    }

    /// The graph of the elements whose edges are the pairs of which the first feeds the second.
    pub fn feed_graph(&self, alloc: Global) -> Result<Graph, OutOfMemory>
        ensures size { IfOk result (λ g. size_of g ≡ count_of self.now) }
        ensures edges { IfOk result (λ g.
            IsGraphOf (relating_words.feed_edges (relating_of self.now)) g) }
    {
        Graph::of_marks(alloc, &self.feeds)
    }
}
