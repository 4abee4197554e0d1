use crate::meeting::{Meeting, calls_of, relation_of, sees};
use crate::names::{part_at, part_of, position_of};
use crate::phrases::{put_deed, put_done, put_method, put_relation};
use bsv_design::{Call, Design};
use bsv_io::Sink;
use bsv_page::Page;
use bsv_prim::Primitive;

/// The number of the method of a name of a part.
fn method_of(design: &Design, part: u32, name: &[u8]) -> Option<u32> {
    let kind = &part_at(design, part)?.kind;
    for method in 0..kind.methods() {
        if kind.method_name(method).as_bytes() == name {
            return Some(method);
        }
    }
    None
}

/// How many of the calls call the method in a branch, and how many in none.
fn counts(calls: &[Call], part: u32, method: u32) -> (u64, u64) {
    let mut inside = 0u64;
    let mut outside = 0u64;
    for call in calls {
        if call.part == part && call.method == method {
            if call.branches.is_empty() {
                outside = outside.wrapping_add(1);
            } else {
                inside = inside.wrapping_add(1);
            }
        }
    }
    (inside, outside)
}

/// How often an element calls a method of a part.
fn put_count<O: Sink + Drop>(
    page: &mut Page<O>,
    design: &Design,
    element: u32,
    part: u32,
    method: u32,
) {
    let (inside, outside) = counts(calls_of(design, element), part, method);
    page.text(b"  ");
    put_method(page, design, part, method);
    page.text(b" is called ");
    page.number(inside.wrapping_add(outside));
    page.text(b" times in it, ");
    page.number(inside);
    page.text(b" of them in branches\n");
}

/// Why the two calls may not be in one element.
fn put_why<O: Sink + Drop>(page: &mut Page<O>, design: &Design, meeting: Meeting) {
    let Some(part) = part_at(design, meeting.part) else {
        return;
    };
    let (kind, first, second) = (&part.kind, meeting.first, meeting.second);
    if sees(kind, first, second) || sees(kind, second, first) {
        page.text(
            b"  One of them sees what the other does in the same clock, and an element does not see itself: ",
        );
    } else {
        page.text(b"  They cannot both happen in one element: ");
    }
    put_relation(page, design, meeting);
    page.text(
        b".\n  In two arms of one choice they may stand, since only one of them is taken; two choices whose conditions exclude each other are still two.\n",
    );
}

/// Tells which two calls an element makes that may not be in it, by the names of the element, the part and the methods.
pub fn put_two_calls<O: Sink + Drop>(
    page: &mut Page<O>,
    design: &Design,
    element: &[u8],
    part: &[u8],
    methods: (&[u8], &[u8]),
) {
    let Some(element) = position_of(design, element) else {
        return;
    };
    let Some(part) = part_of(design, part) else {
        return;
    };
    let Some(first) = method_of(design, part, methods.0) else {
        return;
    };
    let Some(second) = method_of(design, part, methods.1) else {
        return;
    };
    let Some(relation) = relation_of(design, part, first, second) else {
        return;
    };
    put_deed(page, design, element, part, first);
    page.text(b" and ");
    put_done(page, design, part, second);
    page.text(b".\n");
    put_count(page, design, element, part, first);
    if first != second {
        put_count(page, design, element, part, second);
    }
    put_why(
        page,
        design,
        Meeting {
            part,
            first,
            second,
            relation,
        },
    );
}
