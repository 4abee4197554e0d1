use crate::facts::{Edge, Edges, Facts};
use crate::meeting::{Question, first_meeting};
use crate::names::{attribute_word, element_name};
use crate::phrases::{fed_through, put_method};
use crate::stops::in_order;
use bsv_bits::OutOfMemory;
use bsv_design::{Design, Schedule};
use bsv_io::Sink;
use bsv_page::Page;
use bsv_schedule::Relations;
use std::alloc::Global;

/// What stands in quotes: a quote and a backslash have a backslash in front.
fn put_quoted<O: Sink + Drop>(page: &mut Page<O>, text: &[u8]) {
    for byte in text {
        if *byte == b'"' || *byte == b'\\' {
            page.text(b"\\");
        }
        page.text(&[*byte]);
    }
}

/// The name of a node.
fn put_node<O: Sink + Drop>(page: &mut Page<O>, element: u32) {
    page.text(b"e");
    page.number(element as u64);
}

/// An arrow, with what comes in its brackets up to its label.
fn put_arrow<O: Sink + Drop>(page: &mut Page<O>, a: u32, b: u32, form: &[u8]) {
    page.text(b"  ");
    put_node(page, a);
    page.text(b" -> ");
    put_node(page, b);
    page.texts(&[b" [", form]);
}

/// The place of an element in an order, counted from 1.
fn place_in(order: &[u32], element: u32) -> u64 {
    for (place, other) in order.iter().enumerate() {
        if *other == element {
            return (place as u64).wrapping_add(1);
        }
    }
    0
}

/// An element with its places in both orders.
fn put_element<O: Sink + Drop>(
    page: &mut Page<O>,
    facts: Facts,
    schedule: &Schedule,
    element: u32,
) {
    page.text(b"  ");
    put_node(page, element);
    page.text(b" [label=\"");
    put_quoted(page, element_name(facts.design, element));
    page.text(b"\\nexecution ");
    page.number(place_in(schedule.execution.as_slice(), element));
    page.text(b", urgency ");
    page.number(place_in(schedule.urgency.as_slice(), element));
    let shape: &[u8] = if facts.is_rule(element) {
        b"\", shape=ellipse];\n"
    } else {
        b"\", shape=box];\n"
    };
    page.text(shape);
}

/// The elements in the execution order, one below the other.
fn put_elements<O: Sink + Drop>(page: &mut Page<O>, facts: Facts, schedule: &Schedule) {
    let mut earlier: Option<u32> = None;
    for element in schedule.execution.as_slice() {
        put_element(page, facts, schedule, *element);
        if let Some(a) = earlier {
            put_arrow(page, a, *element, b"style=invis, weight=100];\n");
        }
        earlier = Some(*element);
    }
}

/// A stop, labelled by the two calls that clash, that of the stopper first.
fn put_stop<O: Sink + Drop>(
    page: &mut Page<O>,
    facts: Facts,
    execution: &[u32],
    stopper: u32,
    stopped: u32,
) {
    put_arrow(
        page,
        stopper,
        stopped,
        b"color=red, fontcolor=red, constraint=false, label=\" ",
    );
    let (earlier, later) = in_order(execution, stopper, stopped);
    match first_meeting(facts.design, Question::Clashes, earlier, later) {
        Some(found) => {
            let (first, second) = if earlier == stopper {
                (found.first, found.second)
            } else {
                (found.second, found.first)
            };
            put_method(page, facts.design, found.part, first);
            page.text(b", ");
            put_method(page, facts.design, found.part, second);
        }
        None => page.text(b"preempts"),
    }
    page.text(b"\"];\n");
}

/// What an element stops.
fn put_row<O: Sink + Drop>(
    page: &mut Page<O>,
    facts: Facts,
    execution: &[u32],
    stopper: u32,
    stopped: &[u32],
) {
    for other in stopped {
        put_stop(page, facts, execution, stopper, *other);
    }
}

fn put_stops<O: Sink + Drop>(page: &mut Page<O>, facts: Facts, schedule: &Schedule) {
    for element in schedule.urgency.as_slice() {
        if let Some(stopped) = schedule.stops.get(*element as usize) {
            put_row(
                page,
                facts,
                schedule.execution.as_slice(),
                *element,
                stopped.as_slice(),
            );
        }
    }
}

/// Where an edge of the urgency order comes from.
fn put_origin<O: Sink + Drop>(page: &mut Page<O>, facts: Facts, edge: Edge, a: u32, b: u32) {
    match edge {
        Edge::Feeds => {
            page.text(b"feeds ");
            put_quoted(page, fed_through(facts, a, b));
        }
        Edge::Attribute(attribute) => page.text(attribute_word(attribute)),
        Edge::Value | Edge::Soft => {}
    }
}

/// The arrows of the urgency order from one element to another.
fn put_urgent<O: Sink + Drop>(page: &mut Page<O>, facts: Facts, next: bool, a: u32, b: u32) {
    let form = b"color=blue, fontcolor=blue, constraint=false, label=\" ";
    match facts.edge(Edges::Urgency(usize::MAX), a, b) {
        Some(edge) => {
            put_arrow(page, a, b, form);
            put_origin(page, facts, edge, a, b);
            page.text(b"\"];\n");
        }
        None => {
            if next {
                put_arrow(page, a, b, form);
                page.text(b"order of the text\"];\n");
            }
        }
    }
    if facts.feeds(a, b) {
        put_arrow(
            page,
            a,
            b,
            b"color=gray, style=dashed, constraint=false];\n",
        );
    }
}

fn put_urgent_row<O: Sink + Drop>(page: &mut Page<O>, facts: Facts, a: u32, after: &[u32]) {
    for (place, b) in after.iter().enumerate() {
        put_urgent(page, facts, place == 0, a, *b);
    }
}

fn put_urgency<O: Sink + Drop>(page: &mut Page<O>, facts: Facts, order: &[u32]) {
    for (place, a) in order.iter().enumerate() {
        put_urgent_row(page, facts, *a, &order[place + 1..]);
    }
}

/// Puts the schedule of a design as Graphviz DOT.
pub fn put_dot<O: Sink + Drop>(
    alloc: Global,
    page: &mut Page<O>,
    design: &Design,
    schedule: &Schedule,
) -> Result<(), OutOfMemory> {
    let relations = Relations::new(alloc, design)?;
    let facts = Facts::new(design, &relations);
    page.text(b"digraph \"");
    put_quoted(page, design.name.bytes());
    page.text(
        b"\" {\n  node [fontname=\"Helvetica\"];\n  edge [fontname=\"Helvetica\", fontsize=10];\n",
    );
    put_elements(page, facts, schedule);
    put_stops(page, facts, schedule);
    put_urgency(page, facts, schedule.urgency.as_slice());
    page.text(b"}\n");
    Ok(())
}
