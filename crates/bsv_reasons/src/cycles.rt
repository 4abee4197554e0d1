use crate::facts::{Edges, Facts};
use crate::names::{attribute_word, element_name, position_of};
use crate::phrases::{put_before, put_clash, put_edge};
use crate::walks::{Goal, Way, shortest};
use bsv_bits::OutOfMemory;
use bsv_design::{Attribute, Design, Pair};
use bsv_io::Sink;
use bsv_page::Page;
use bsv_schedule::Relations;
use std::alloc::Global;

/// One step of a walk.
fn put_step<O: Sink + Drop>(page: &mut Page<O>, facts: Facts, edges: Edges, a: u32, b: u32) {
    if let Some(edge) = facts.edge(edges, a, b) {
        put_before(page, facts, a, b);
        put_edge(page, facts, edges, edge, a, b);
        page.text(b"\n");
    }
}

/// The steps of a walk that is given from its end back.
fn put_walk<O: Sink + Drop>(page: &mut Page<O>, facts: Facts, edges: Edges, walk: &[u32]) {
    let mut earlier: Option<u32> = None;
    for element in walk.iter().rev() {
        if let Some(a) = earlier {
            put_step(page, facts, edges, a, *element);
        }
        earlier = Some(*element);
    }
}

/// The steps of a walk against the edges, given from its end back: it leads from that end to where it began.
fn put_walk_against<O: Sink + Drop>(page: &mut Page<O>, facts: Facts, edges: Edges, walk: &[u32]) {
    let mut earlier: Option<u32> = None;
    for element in walk {
        if let Some(a) = earlier {
            put_step(page, facts, edges, a, *element);
        }
        earlier = Some(*element);
    }
}

/// Tells a shortest cycle of elements of which each sees what the one before it does.
pub fn put_wire_cycle<O: Sink + Drop>(
    alloc: Global,
    page: &mut Page<O>,
    design: &Design,
    element: &[u8],
) -> Result<(), OutOfMemory> {
    let Some(element) = position_of(design, element) else {
        return Ok(());
    };
    let relations = Relations::new(alloc, design)?;
    let facts = Facts::new(design, &relations);
    let goal = Goal::Element(element);
    let walk = shortest(alloc, facts, Edges::Feeds, Way::Along, element, goal)?;
    page.text(b"What is seen in the same clock leads back to where it began:\n");
    put_walk(page, facts, Edges::Feeds, walk.as_slice());
    page.text(
        b"A register in place of one of these wires, or an mkFIFO in place of one of these queues, cuts the cycle.\n",
    );
    Ok(())
}

/// The element that would have to come before the value method and after it, by its own calls.
fn split_by(facts: Facts, value: u32) -> Option<u32> {
    for element in 0..facts.count() {
        if !facts.is_value(element) && !facts.goes(value, element) && !facts.goes(element, value) {
            return Some(element);
        }
    }
    None
}

/// An element between which and the value method there is no order.
fn put_split<O: Sink + Drop>(page: &mut Page<O>, facts: Facts, value: u32, other: u32) {
    let (value_name, name) = (
        element_name(facts.design, value),
        element_name(facts.design, other),
    );
    page.texts(&[b"  ", value_name, b" cannot come before ", name, b": "]);
    put_clash(page, facts, value, other);
    page.texts(&[b"\n  ", value_name, b" cannot come after ", name, b": "]);
    put_clash(page, facts, other, value);
    page.text(b"\n");
}

/// Tells why a value method has no place among the others.
pub fn put_value_clash<O: Sink + Drop>(
    alloc: Global,
    page: &mut Page<O>,
    design: &Design,
    method: &[u8],
) -> Result<(), OutOfMemory> {
    let Some(value) = position_of(design, method) else {
        return Ok(());
    };
    let relations = Relations::new(alloc, design)?;
    let facts = Facts::new(design, &relations);
    page.texts(&[
        method,
        b" would have to come before and after the same element:\n",
    ]);
    if let Some(other) = split_by(facts, value) {
        put_split(page, facts, value, other);
    } else {
        let edges = Edges::Values(value);
        let goal = Goal::Element(value);
        let walk = shortest(alloc, facts, edges, Way::Along, value, goal)?;
        put_walk(page, facts, edges, walk.as_slice());
    }
    page.text(
        b"Two value methods, one for what is before and one for what is after it, or a register in place of the wire mend it.\n",
    );
    Ok(())
}

/// The attribute of a word.
fn attribute_of(word: &[u8]) -> Attribute {
    if word == attribute_word(Attribute::ExecutionOrder) {
        return Attribute::ExecutionOrder;
    }
    if word == attribute_word(Attribute::Preempts) {
        return Attribute::Preempts;
    }
    Attribute::DescendingUrgency
}

/// The place of a pair among those of the attributes.
fn place_of(pairs: &[Pair], wanted: Pair) -> usize {
    for (place, pair) in pairs.iter().enumerate() {
        if *pair == wanted {
            return place;
        }
    }
    pairs.len()
}

/// The walk that leads back from the second of a pair to the first.
fn put_back<O: Sink + Drop>(
    alloc: Global,
    page: &mut Page<O>,
    facts: Facts,
    edges: Edges,
    pair: Pair,
) -> Result<(), OutOfMemory> {
    put_before(page, facts, pair.before, pair.after);
    page.texts(&[
        b"attribute ",
        attribute_word(pair.attribute),
        b", this pair\n",
    ]);
    if pair.before == pair.after {
        page.text(b"  A rule cannot be before itself.\n");
        return Ok(());
    }
    let goal = Goal::Element(pair.before);
    let walk = shortest(alloc, facts, edges, Way::Along, pair.after, goal)?;
    put_walk(page, facts, edges, walk.as_slice());
    Ok(())
}

/// The pair of these names.
fn pair_of(design: &Design, attribute: &[u8], before: &[u8], after: &[u8]) -> Option<Pair> {
    Some(Pair {
        attribute: attribute_of(attribute),
        before: position_of(design, before)?,
        after: position_of(design, after)?,
    })
}

/// Tells the cycle that a pair of `execution_order` closes.
pub fn put_execution_cycle<O: Sink + Drop>(
    alloc: Global,
    page: &mut Page<O>,
    design: &Design,
    attribute: &[u8],
    names: (&[u8], &[u8]),
) -> Result<(), OutOfMemory> {
    let Some(pair) = pair_of(design, attribute, names.0, names.1) else {
        return Ok(());
    };
    let relations = Relations::new(alloc, design)?;
    let facts = Facts::new(design, &relations);
    page.text(b"The pair closes a cycle of the execution order:\n");
    let edges = Edges::Hard(place_of(design.pairs.as_slice(), pair));
    put_back(alloc, page, facts, edges, pair)
}

/// Tells the cycle that a pair of `descending_urgency` or `preempts` closes.
pub fn put_urgency_cycle<O: Sink + Drop>(
    alloc: Global,
    page: &mut Page<O>,
    design: &Design,
    attribute: &[u8],
    names: (&[u8], &[u8]),
) -> Result<(), OutOfMemory> {
    let Some(pair) = pair_of(design, attribute, names.0, names.1) else {
        return Ok(());
    };
    let relations = Relations::new(alloc, design)?;
    let facts = Facts::new(design, &relations);
    page.text(b"The pair closes a cycle of the urgency order:\n");
    let edges = Edges::Urgency(place_of(design.pairs.as_slice(), pair));
    put_back(alloc, page, facts, edges, pair)
}

/// Tells the rule that a method sees, itself or over others, and by which wires and queues.
pub fn put_behind_rule<O: Sink + Drop>(
    alloc: Global,
    page: &mut Page<O>,
    design: &Design,
    method: &[u8],
    rule: &[u8],
) -> Result<(), OutOfMemory> {
    let Some(element) = position_of(design, method) else {
        return Ok(());
    };
    let relations = Relations::new(alloc, design)?;
    let facts = Facts::new(design, &relations);
    let edges = Edges::Urgency(usize::MAX);
    let walk = shortest(alloc, facts, edges, Way::Against, element, Goal::Rule)?;
    page.texts(&[
        b"What is asked from outside does not wait for a rule of the same clock, but ",
        method,
    ]);
    page.text(b" sees one:\n");
    put_walk_against(page, facts, edges, walk.as_slice());
    if let Some(culprit) = walk.as_slice().first() {
        let name = element_name(design, *culprit);
        if name != rule {
            page.texts(&[
                b"  ",
                rule,
                b" is named above as the most urgent rule of the design; the cause is ",
                name,
                b".\n",
            ]);
        }
    }
    page.text(
        b"A register in place of the wire, or an mkFIFO in place of the pipeline or bypass queue, mends it; an attribute does not.\n",
    );
    Ok(())
}
