ghost use Rattle.std.specs.Prelude.{◌≡◌, ◌<◌, ◌↔◌, All, IsTrue, IfOk};
ghost use Rattle.bsv_graph.specs.Orders.{IsOrderOf};
ghost use Rattle.bsv_schedule.specs.relating.Relations.{relating_of, count_of};
ghost use Rattle.bsv_schedule.specs.stopping.Stops.{Clash, Stops, Picks, AreStops};
ghost use Rattle.bsv_schedule.specs.stopping.Placing.{size_of, IsPlaced, ForOrders};

use crate::picking::push_if;
use crate::relating::Relations;
use crate::stopping::places::places_of;
use bsv_bits::OutOfMemory;
use sqlite_items::Items;
use std::alloc::{AllocError, Global};

// How elements relate, and the place of each in the two orders.
#[derive(Clone, Copy)]
struct Placing<'a> {
    relations: &'a Relations,
    execution: &'a [usize],
    urgency: &'a [usize],
}

impl Placing<'_> {
    // Whether the one that is executed first does not go before the other.
    fn clash(self, a: usize, b: usize) -> bool
        requires first { a < size_of self }
        requires second { b < size_of self }
        requires placed { IsPlaced self }
        ensures { ForOrders self.entry
            (λ r execution urgency. IsTrue result ↔ Clash r execution a b) }
    {
        if self.execution[a] < self.execution[b] {
            return !self.relations.goes(a, b);
        }
        if self.execution[b] < self.execution[a] {
            return !self.relations.goes(b, a);
        }
        false
    }

    // Whether `a` stops `b`.
    fn stops(self, a: usize, b: usize) -> bool
        requires first { a < size_of self }
        requires second { b < size_of self }
        requires placed { IsPlaced self }
        ensures { ForOrders self.entry
            (λ r execution urgency. IsTrue result ↔ Stops r execution urgency a b) }
    {
        if self.relations.preempts(a, b) {
            return true;
        }
        if self.urgency[a] >= self.urgency[b] {
            return false;
        }
        self.clash(a, b)
    }

    // What `a` stops, in the order.
    fn stopped_by(self, alloc: Global, order: &[u32], a: usize) -> Result<Items<u32>, AllocError>
        requires element { a < size_of self }
        requires order { All (λ b. b < size_of self) order.now }
        requires placed { IsPlaced self }
        ensures { IfOk result (λ list. ForOrders self.entry
            (λ r execution urgency. Picks (Stops r execution urgency a) order.now list)) }
    {
        let mut list = Items::new(alloc);
        for b in order {
            push_if(self.stops(a, *b as usize), *b, &mut list)?;
        }
        Ok(list)
    }
}

/// Of each element those that it stops, by urgency.
#[tactic(auto, using(bsv_graph::proofs::LeastLemmas::order_below))]
pub(crate) fn stops_of(
    alloc: Global,
    relations: &Relations,
    execution: &[u32],
    urgency: &[u32],
) -> Result<Items<Items<u32>>, OutOfMemory>
    requires execution { IsOrderOf (count_of relations.now) execution.now }
    requires urgency { IsOrderOf (count_of relations.now) urgency.now }
    ensures { IfOk result
        (λ lists. AreStops (relating_of relations.now) execution.now urgency.now lists) }
{
    let count = relations.count();
    let execution_places = places_of(alloc, execution, count)?;
    let urgency_places = places_of(alloc, urgency, count)?;
    let placing = Placing {
        relations,
        execution: &execution_places,
        urgency: &urgency_places,
    };
    let mut lists = Items::new(alloc);
    for a in 0..count {
        lists.push(placing.stopped_by(alloc, urgency, a)?)?;
    }
    Ok(lists)
}
