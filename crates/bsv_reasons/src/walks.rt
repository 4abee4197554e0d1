use crate::facts::{Edges, Facts};
use bsv_bits::OutOfMemory;
use std::alloc::{AllocError, Global};

/// Which way the edges are gone along.
#[derive(Clone, Copy, PartialEq, Eq)]
pub(crate) enum Way {
    Along,
    Against,
}

/// Where a walk ends.
#[derive(Clone, Copy)]
pub(crate) enum Goal {
    Element(u32),
    Rule,
}

/// A search for a shortest walk: of each element that is reached the one before it, and those that are reached in the order
/// in which they were.
#[derive(Drop)]
struct Search {
    before: Vec<Option<u32>>,
    reached: Vec<u32>,
}

/// Notes those that the element leads to and that are new.
fn spread(
    facts: Facts,
    edges: Edges,
    way: Way,
    at: u32,
    search: &mut Search,
) -> Result<(), AllocError> {
    for next in 0..facts.count() {
        let edge = match way {
            Way::Along => facts.edge(edges, at, next),
            Way::Against => facts.edge(edges, next, at),
        };
        if edge.is_some() {
            note(search, at, next)?;
        }
    }
    Ok(())
}

/// Notes an element, if it is new.
fn note(search: &mut Search, at: u32, next: u32) -> Result<(), AllocError> {
    if let Some(before) = search.before.get_mut(next as usize) {
        if before.is_none() {
            *before = Some(at);
            search.reached.push(next)?;
        }
    }
    Ok(())
}

/// Whether the element is where the walk ends.
fn is_goal(facts: Facts, goal: Goal, element: u32) -> bool {
    match goal {
        Goal::Element(wanted) => element == wanted,
        Goal::Rule => facts.is_rule(element),
    }
}

/// Goes from the element on, those first that are reached with the fewest edges. The answer is where a shortest walk ends.
fn searched(
    facts: Facts,
    edges: Edges,
    way: Way,
    from: u32,
    goal: Goal,
    search: &mut Search,
) -> Result<Option<u32>, AllocError> {
    spread(facts, edges, way, from, search)?;
    for turn in 0..facts.count() {
        let Some(at) = search.reached.get(turn as usize).copied() else {
            return Ok(None);
        };
        if is_goal(facts, goal, at) {
            return Ok(Some(at));
        }
        spread(facts, edges, way, at, search)?;
    }
    Ok(None)
}

/// The walk that was found, from its end back to where it began.
fn traced(
    alloc: Global,
    before: &[Option<u32>],
    from: u32,
    end: u32,
) -> Result<Vec<u32>, AllocError> {
    let mut walk = Vec::new(alloc);
    let mut at = end;
    walk.push(at)?;
    for _ in 0..before.len() {
        let Some(Some(earlier)) = before.get(at as usize).copied() else {
            return Ok(walk);
        };
        at = earlier;
        walk.push(at)?;
        if at == from {
            return Ok(walk);
        }
    }
    Ok(walk)
}

/// A search that has reached nothing.
fn new_search(alloc: Global, count: u32) -> Result<Search, AllocError> {
    Ok(Search {
        before: vec![in alloc; None; count as usize]?,
        reached: Vec::new(alloc),
    })
}

/// The elements of a shortest walk of one edge or more, from its end back to where it begins. It is empty where there is
/// none.
pub(crate) fn shortest(
    alloc: Global,
    facts: Facts,
    edges: Edges,
    way: Way,
    from: u32,
    goal: Goal,
) -> Result<Vec<u32>, OutOfMemory> {
    let mut search = new_search(alloc, facts.count())?;
    let walk = match searched(facts, edges, way, from, goal, &mut search)? {
        Some(end) => traced(alloc, search.before.as_slice(), from, end)?,
        None => Vec::new(alloc),
    };
    Ok(walk)
}
