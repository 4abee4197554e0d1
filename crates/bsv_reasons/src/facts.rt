use bsv_design::{Attribute, Design, Pair};
use bsv_schedule::Relations;

/// Why one element is before another.
#[derive(Clone, Copy)]
pub(crate) enum Edge {
    /// The second sees what the first does.
    Feeds,
    /// One of them is a value method, and the second changes what the first looks at, or looks at what the first gives.
    Value,
    /// An attribute has the first directly before the second.
    Attribute(Attribute),
    /// Neither is a value method, and only the first may come before the second.
    Soft,
}

/// The edges that are gone along.
#[derive(Clone, Copy)]
pub(crate) enum Edges {
    Feeds,
    /// Feeds, and the edges of the value methods up to this position.
    Values(u32),
    /// The hard edges, with so many of the pairs of attributes.
    Hard(usize),
    /// The edges of the execution order.
    Execution,
    /// The edges of the urgency order, with so many of the pairs of attributes.
    Urgency(usize),
}

/// How the elements of a design relate, taken out of it once.
#[derive(Clone, Copy)]
pub struct Facts<'a> {
    pub(crate) design: &'a Design,
    pub(crate) relations: &'a Relations,
}

/// The attribute among the pairs that has `a` directly before `b`, of those of the execution order or else of urgency.
fn listed(pairs: &[Pair], executes: bool, a: u32, b: u32) -> Option<Edge> {
    for pair in pairs {
        let of_execution = pair.attribute == Attribute::ExecutionOrder;
        if of_execution == executes && pair.before == a && pair.after == b {
            return Some(Edge::Attribute(pair.attribute));
        }
    }
    None
}

/// The first of the pairs, so many or all.
fn first_pairs(pairs: &[Pair], count: usize) -> &[Pair] {
    &pairs[..pairs.len().min(count)]
}

impl<'a> Facts<'a> {
    /// How the elements of the design relate; the relations are those of the design.
    pub fn new(design: &'a Design, relations: &'a Relations) -> Facts<'a> {
        Facts { design, relations }
    }

    /// How many elements there are.
    pub(crate) fn count(self) -> u32 {
        self.relations.count() as u32
    }

    pub(crate) fn is_value(self, element: u32) -> bool {
        let element = element as usize;
        element < self.relations.count() && self.relations.is_value(element)
    }

    pub(crate) fn is_rule(self, element: u32) -> bool {
        let element = element as usize;
        element < self.relations.count() && self.relations.is_rule(element)
    }

    /// Whether the first element goes before the second.
    pub(crate) fn goes(self, a: u32, b: u32) -> bool {
        let (a, b) = (a as usize, b as usize);
        let count = self.relations.count();
        a < count && b < count && self.relations.goes(a, b)
    }

    /// Whether the second element sees what the first one does.
    pub(crate) fn feeds(self, a: u32, b: u32) -> bool {
        let (a, b) = (a as usize, b as usize);
        let count = self.relations.count();
        a < count && b < count && self.relations.feeds(a, b)
    }

    pub(crate) fn preempts(self, a: u32, b: u32) -> bool {
        let (a, b) = (a as usize, b as usize);
        let count = self.relations.count();
        a < count && b < count && self.relations.preempts(a, b)
    }

    /// The edge of a value method up to the last position.
    fn value_edge(self, last: u32, a: u32, b: u32) -> Option<Edge> {
        let of_first = self.is_value(a) && !self.is_value(b) && a <= last;
        let of_second = self.is_value(b) && !self.is_value(a) && b <= last;
        if (of_first || of_second) && self.goes(a, b) && !self.goes(b, a) {
            return Some(Edge::Value);
        }
        None
    }

    /// The hard edge from `a` to `b` that is no feed.
    fn hard_edge(self, pairs: usize, a: u32, b: u32) -> Option<Edge> {
        match self.value_edge(u32::MAX, a, b) {
            Some(edge) => Some(edge),
            None => listed(first_pairs(self.design.pairs.as_slice(), pairs), true, a, b),
        }
    }

    /// The soft edge from `a` to `b`.
    pub(crate) fn soft_edge(self, a: u32, b: u32) -> Option<Edge> {
        if a != b && !self.is_value(a) && !self.is_value(b) && self.goes(a, b) && !self.goes(b, a) {
            return Some(Edge::Soft);
        }
        None
    }

    /// The edge of these from `a` to `b`, if there is one.
    pub(crate) fn edge(self, edges: Edges, a: u32, b: u32) -> Option<Edge> {
        if self.feeds(a, b) {
            return Some(Edge::Feeds);
        }
        match edges {
            Edges::Feeds => None,
            Edges::Values(last) => self.value_edge(last, a, b),
            Edges::Hard(pairs) => self.hard_edge(pairs, a, b),
            Edges::Execution => match self.hard_edge(usize::MAX, a, b) {
                Some(edge) => Some(edge),
                None => self.soft_edge(a, b),
            },
            Edges::Urgency(pairs) => {
                listed(
                    first_pairs(self.design.pairs.as_slice(), pairs),
                    false,
                    a,
                    b,
                )
            }
        }
    }
}
