use crate::facts::Facts;
use crate::meeting::{Question, first_meeting};
use crate::names::element_name;
use crate::phrases::put_clash;
use bsv_io::Sink;
use bsv_page::Page;
use bsv_prim::Rel;
use sqlite_items::Items;

/// The earlier and the later of two elements in the order.
pub(crate) fn in_order(order: &[u32], a: u32, b: u32) -> (u32, u32) {
    for element in order {
        if *element == b {
            return (b, a);
        }
        if *element == a {
            return (a, b);
        }
    }
    (a, b)
}

/// Whether the calls of two elements conflict, whichever comes first.
fn conflict(facts: Facts, a: u32, b: u32) -> bool {
    match first_meeting(facts.design, Question::Clashes, a, b) {
        Some(found) => matches!(found.relation, Rel::C),
        None => false,
    }
}

/// Why the earlier of two elements and the later one are not to fire in one clock.
fn put_no_pair<O: Sink + Drop>(page: &mut Page<O>, facts: Facts, earlier: u32, later: u32) {
    put_clash(page, facts, earlier, later);
    if conflict(facts, earlier, later) {
        return;
    }
    page.texts(&[
        b"; ",
        element_name(facts.design, earlier),
        b" is the earlier one in the execution order",
    ]);
    if facts.goes(later, earlier) {
        return;
    }
    page.text(b". The other way round ");
    put_clash(page, facts, later, earlier);
}

/// Why the first element stops the second.
pub(crate) fn put_stop<O: Sink + Drop>(
    page: &mut Page<O>,
    facts: Facts,
    execution: &[u32],
    stopper: u32,
    stopped: u32,
) {
    page.texts(&[
        b"  ",
        element_name(facts.design, stopper),
        b" stops ",
        element_name(facts.design, stopped),
        b": ",
    ]);
    if facts.preempts(stopper, stopped) {
        page.text(b"attribute preempts; ");
    }
    let (earlier, later) = in_order(execution, stopper, stopped);
    if facts.goes(earlier, later) {
        page.text(b"their calls could be in one clock\n");
        return;
    }
    put_no_pair(page, facts, earlier, later);
    page.text(b"\n");
}

/// Why an element stops these.
fn put_row<O: Sink + Drop>(
    page: &mut Page<O>,
    facts: Facts,
    execution: &[u32],
    stopper: u32,
    stopped: &[u32],
) {
    for other in stopped {
        put_stop(page, facts, execution, stopper, *other);
    }
}

/// Whether nothing stops anything.
fn is_free(stops: &[Items<u32>]) -> bool {
    for stopped in stops {
        if !stopped.is_empty() {
            return false;
        }
    }
    true
}

/// What stops what, by urgency, and why.
pub(crate) fn put_stops<O: Sink + Drop>(
    page: &mut Page<O>,
    facts: Facts,
    execution: &[u32],
    urgency: &[u32],
    stops: &[Items<u32>],
) {
    if is_free(stops) {
        page.text(b"stops: none\n");
        return;
    }
    page.text(b"stops, the more urgent one first:\n");
    for element in urgency {
        if let Some(stopped) = stops.get(*element as usize) {
            put_row(page, facts, execution, *element, stopped.as_slice());
        }
    }
}
