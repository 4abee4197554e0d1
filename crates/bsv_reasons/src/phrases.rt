use crate::facts::{Edge, Edges, Facts};
use crate::meeting::{Meeting, Question, first_meeting};
use crate::names::{attribute_word, element_name, method_name, part_at, part_path};
use bsv_design::{Design, Kind};
use bsv_io::Sink;
use bsv_page::Page;
use bsv_prim::Rel;

/// What a call of a method of a queue does with it.
fn queue_deed(method: u32) -> &'static [u8] {
    match method {
        0 => b"puts an item into it",
        1 => b"takes its front",
        2 => b"looks at its front",
        3 => b"asks whether it is not full",
        4 => b"asks whether it is not empty",
        _ => b"clears it",
    }
}

/// What a call of a method does with its part.
fn deed(kind: &Kind, method: u32) -> &'static [u8] {
    let first = method == 0;
    match kind {
        Kind::Reg(_) | Kind::RegU(_) if first => b"reads it",
        Kind::Reg(_) | Kind::RegU(_) => b"writes it",
        Kind::Wire(_) | Kind::DWire(_) if first => b"writes it",
        Kind::RWire(_) if first => b"sets it",
        Kind::RWire(_) => b"looks at it",
        Kind::Pulse(_) if first => b"sends it",
        Kind::Wire(_) | Kind::DWire(_) | Kind::Pulse(_) => b"reads it",
        Kind::Plain(_) | Kind::Pipeline(_) | Kind::Bypass(_) => queue_deed(method),
    }
}

/// A method of a part, as `x._write`.
pub(crate) fn put_method<O: Sink + Drop>(
    page: &mut Page<O>,
    design: &Design,
    part: u32,
    method: u32,
) {
    page.texts(&[
        part_path(design, part),
        b".",
        method_name(design, part, method),
    ]);
}

/// What a call does with its part, as `writes it (x._write)`.
pub(crate) fn put_done<O: Sink + Drop>(
    page: &mut Page<O>,
    design: &Design,
    part: u32,
    method: u32,
) {
    if let Some(named) = part_at(design, part) {
        page.texts(&[deed(&named.kind, method), b" ("]);
    }
    put_method(page, design, part, method);
    page.text(b")");
}

/// What an element does with a part, as `start writes it (x._write)`.
pub(crate) fn put_deed<O: Sink + Drop>(
    page: &mut Page<O>,
    design: &Design,
    element: u32,
    part: u32,
    method: u32,
) {
    page.texts(&[element_name(design, element), b" "]);
    put_done(page, design, part, method);
}

/// What two elements do with the part on which their calls meet.
pub(crate) fn put_deeds<O: Sink + Drop>(
    page: &mut Page<O>,
    design: &Design,
    a: u32,
    b: u32,
    meeting: Meeting,
) {
    page.texts(&[part_path(design, meeting.part), b": "]);
    put_deed(page, design, a, meeting.part, meeting.first);
    page.text(b", ");
    put_deed(page, design, b, meeting.part, meeting.second);
}

/// How the first of two calls stands to the second.
pub(crate) fn put_relation<O: Sink + Drop>(page: &mut Page<O>, design: &Design, meeting: Meeting) {
    let (between, after): (&[u8], &[u8]) = match meeting.relation {
        Rel::Cf => (b" and ", b" may come in either order"),
        Rel::Sb => (b" may only come before ", b""),
        Rel::Sa => (b" may only come after ", b""),
        Rel::Sbr => (b" and ", b" may come in either order, but not in one rule"),
        Rel::C => (b" and ", b" conflict, and are never in one clock"),
    };
    put_method(page, design, meeting.part, meeting.first);
    page.text(between);
    put_method(page, design, meeting.part, meeting.second);
    page.text(after);
}

/// Why the first of two elements may not come before the second; nothing where it may.
pub(crate) fn put_clash<O: Sink + Drop>(page: &mut Page<O>, facts: Facts, a: u32, b: u32) {
    let design = facts.design;
    if let Some(found) = first_meeting(design, Question::Clashes, a, b) {
        page.text(b"both call ");
        put_deeds(page, design, a, b, found);
        page.text(b"; ");
        put_relation(page, design, found);
    }
}

/// What the second of two elements sees of the first.
fn put_feed<O: Sink + Drop>(page: &mut Page<O>, facts: Facts, a: u32, b: u32) {
    let design = facts.design;
    if let Some(found) = first_meeting(design, Question::Feeds, a, b) {
        page.texts(&[
            element_name(design, b),
            b" sees in the same clock what ",
            element_name(design, a),
            b" does with ",
        ]);
        put_deeds(page, design, a, b, found);
    }
}

/// The part through which the first element feeds the second.
pub(crate) fn fed_through(facts: Facts, a: u32, b: u32) -> &[u8] {
    match first_meeting(facts.design, Question::Feeds, a, b) {
        Some(found) => part_path(facts.design, found.part),
        None => b"",
    }
}

/// Why there is an edge of these from the first element to the second.
pub(crate) fn put_edge<O: Sink + Drop>(
    page: &mut Page<O>,
    facts: Facts,
    edges: Edges,
    edge: Edge,
    a: u32,
    b: u32,
) {
    match edge {
        Edge::Feeds => {
            if !matches!(edges, Edges::Urgency(_)) {
                page.text(b"hard, ");
            }
            put_feed(page, facts, a, b);
        }
        Edge::Value => {
            page.text(b"hard, with a value method: ");
            put_clash(page, facts, b, a);
        }
        Edge::Attribute(attribute) => {
            page.texts(&[b"attribute ", attribute_word(attribute)]);
        }
        Edge::Soft => {
            page.text(b"soft: ");
            put_clash(page, facts, b, a);
        }
    }
}

/// Two elements, as `a before b`.
pub(crate) fn put_before<O: Sink + Drop>(page: &mut Page<O>, facts: Facts, a: u32, b: u32) {
    page.texts(&[
        b"  ",
        element_name(facts.design, a),
        b" before ",
        element_name(facts.design, b),
        b": ",
    ]);
}

/// Names of elements, each after a blank.
pub(crate) fn put_names<O: Sink + Drop>(page: &mut Page<O>, design: &Design, elements: &[u32]) {
    for element in elements {
        page.texts(&[b" ", element_name(design, *element)]);
    }
}
