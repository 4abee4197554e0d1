use crate::facts::{Edges, Facts};
use crate::phrases::{put_before, put_clash, put_edge, put_names};
use bsv_io::Sink;
use bsv_page::Page;

/// Why the first element is before the second: each edge, and the order of the text where there is none and the second
/// comes next.
fn put_pair<O: Sink + Drop>(
    page: &mut Page<O>,
    facts: Facts,
    edges: Edges,
    next: bool,
    a: u32,
    b: u32,
) {
    match facts.edge(edges, a, b) {
        Some(edge) => {
            put_before(page, facts, a, b);
            put_edge(page, facts, edges, edge, a, b);
            page.text(b"\n");
        }
        None => {
            if next {
                put_before(page, facts, a, b);
                page.text(b"order of the text\n");
            }
        }
    }
}

/// The soft edge from the later element to the earlier one, which was left out.
fn put_left_out<O: Sink + Drop>(page: &mut Page<O>, facts: Facts, later: u32, earlier: u32) {
    if facts.soft_edge(later, earlier).is_some() {
        put_before(page, facts, later, earlier);
        page.text(b"soft, and left out, since it closes a cycle with the edges in front of it: ");
        put_clash(page, facts, earlier, later);
        page.text(b"\n");
    }
}

/// Why an element is before those after it.
fn put_row<O: Sink + Drop>(page: &mut Page<O>, facts: Facts, edges: Edges, a: u32, after: &[u32]) {
    for (place, b) in after.iter().enumerate() {
        put_pair(page, facts, edges, place == 0, a, *b);
    }
}

/// The soft edges to an element from those after it.
fn put_row_left_out<O: Sink + Drop>(page: &mut Page<O>, facts: Facts, a: u32, after: &[u32]) {
    for b in after {
        put_left_out(page, facts, *b, a);
    }
}

/// The execution order, and why each two are in it as they are.
pub(crate) fn put_execution<O: Sink + Drop>(page: &mut Page<O>, facts: Facts, order: &[u32]) {
    page.text(b"execution order:");
    put_names(page, facts.design, order);
    page.text(b"\n");
    for (place, a) in order.iter().enumerate() {
        put_row(page, facts, Edges::Execution, *a, &order[place + 1..]);
        put_row_left_out(page, facts, *a, &order[place + 1..]);
    }
}

/// The urgency order, and why each two are in it as they are.
pub(crate) fn put_urgency<O: Sink + Drop>(page: &mut Page<O>, facts: Facts, order: &[u32]) {
    page.text(b"urgency order:");
    put_names(page, facts.design, order);
    page.text(b"\n");
    for (place, a) in order.iter().enumerate() {
        put_row(
            page,
            facts,
            Edges::Urgency(usize::MAX),
            *a,
            &order[place + 1..],
        );
    }
}
