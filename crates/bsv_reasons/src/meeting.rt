use crate::names::part_at;
use bsv_design::{Call, Design, Kind};
use bsv_prim::{Primitive, Rel};

/// What is asked of two calls on one part, the first one of the first element.
#[derive(Clone, Copy)]
pub(crate) enum Question {
    /// Whether the first may not come before the second.
    Clashes,
    /// Whether the second sees the first.
    Feeds,
}

/// Two calls on one part, and how the first stands to the second.
#[derive(Clone, Copy)]
pub(crate) struct Meeting {
    pub part: u32,
    pub first: u32,
    pub second: u32,
    pub relation: Rel,
}

/// How the first method of a part stands to the second.
pub(crate) fn relation_of(design: &Design, part: u32, first: u32, second: u32) -> Option<Rel> {
    let kind = &part_at(design, part)?.kind;
    if first < kind.methods() && second < kind.methods() {
        Some(kind.relation(first, second))
    } else {
        None
    }
}

/// Whether calls of the first method of a kind are seen by the second.
pub(crate) fn sees(kind: &Kind, seen: u32, by: u32) -> bool {
    seen < kind.methods() && by < kind.methods() && kind.sees(seen, by)
}

/// Whether two methods of a part are as it is asked.
fn holds(design: &Design, question: Question, part: u32, first: u32, second: u32) -> bool {
    match question {
        Question::Clashes => matches!(
            relation_of(design, part, first, second),
            Some(Rel::Sa | Rel::C)
        ),
        Question::Feeds => match part_at(design, part) {
            Some(part) => sees(&part.kind, first, second),
            None => false,
        },
    }
}

/// The first of these calls that is with the call as it is asked.
fn meeting_of(
    design: &Design,
    question: Question,
    call: &Call,
    others: &[Call],
) -> Option<Meeting> {
    for other in others {
        if call.part == other.part
            && holds(design, question, call.part, call.method, other.method)
        {
            return Some(Meeting {
                part: call.part,
                first: call.method,
                second: other.method,
                relation: relation_of(design, call.part, call.method, other.method)?,
            });
        }
    }
    None
}

/// The calls of an element.
pub(crate) fn calls_of(design: &Design, element: u32) -> &[Call] {
    match design.elements.get(element as usize) {
        Some(element) => element.calls.as_slice(),
        None => &[],
    }
}

/// The first call of the one element, and the first of the other, that are as it is asked.
pub(crate) fn first_meeting(
    design: &Design,
    question: Question,
    a: u32,
    b: u32,
) -> Option<Meeting> {
    let others = calls_of(design, b);
    for call in calls_of(design, a) {
        let found = meeting_of(design, question, call, others);
        if found.is_some() {
            return found;
        }
    }
    None
}
