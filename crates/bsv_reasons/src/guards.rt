use crate::names::{method_name, part_at, part_path};
use crate::phrases::put_method;
use bsv_design::{Call, Condition, Design, Element, Guards, Kind, Need};
use bsv_io::Sink;
use bsv_page::Page;

/// The node that is 1 in every clock, in each flat body.
const ALWAYS: u32 = 0;

/// What is told of a condition or a guard in a branch.
const IN_BRANCH: &[u8] = b" (in a branch; asked whether or not it is taken)";

/// What the guard of a method asks of its part.
pub(crate) fn put_asked<O: Sink + Drop>(
    page: &mut Page<O>,
    design: &Design,
    part: u32,
    method: u32,
) {
    let Some(named) = part_at(design, part) else {
        return;
    };
    let puts = method_name(design, part, method) == b"enq".as_slice();
    let asks: &[u8] = match named.kind {
        Kind::Wire(_) => b" is written in this clock",
        Kind::Pipeline(_) if puts => b" is not full, or its front is taken in this clock",
        Kind::Bypass(_) if !puts => b" is not empty, or an item is put in this clock",
        _ if puts => b" is not full",
        _ => b" is not empty",
    };
    page.texts(&[part_path(design, part), asks]);
}

/// Whether the need before it asks the same.
fn is_asked_in(calls: &[Call], needs: &[Need], part: u32, method: u32) -> bool {
    for need in needs {
        if let Some(call) = calls.get(need.call as usize) {
            if call.part == part && call.method == method {
                return true;
            }
        }
    }
    false
}

/// Whether a call of the method stands in no branch.
fn is_called_always(calls: &[Call], part: u32, method: u32) -> bool {
    for call in calls {
        if call.part == part && call.method == method && call.branches.is_empty() {
            return true;
        }
    }
    false
}

/// What the guard of a call asks.
fn put_call<O: Sink + Drop>(page: &mut Page<O>, design: &Design, calls: &[Call], call: &Call) {
    page.text(b"    ");
    put_method(page, design, call.part, call.method);
    page.text(b": ");
    put_asked(page, design, call.part, call.method);
    if !is_called_always(calls, call.part, call.method) {
        page.text(IN_BRANCH);
    }
    page.text(b"\n");
}

/// What the guards of calls ask, each once.
fn put_needs<O: Sink + Drop>(page: &mut Page<O>, design: &Design, calls: &[Call], needs: &[Need]) {
    for (place, need) in needs.iter().enumerate() {
        if let Some(call) = calls.get(need.call as usize) {
            if !is_asked_in(calls, &needs[..place], call.part, call.method) {
                put_call(page, design, calls, call);
            }
        }
    }
}

/// Whether the condition of this method is among these.
fn is_named_in(conditions: &[Condition], method: &[u8]) -> bool {
    for condition in conditions {
        if let Some(name) = &condition.implicit {
            if name.bytes() == method {
                return true;
            }
        }
    }
    false
}

/// What a condition asks, where those before it do not ask the same.
fn put_condition<O: Sink + Drop>(page: &mut Page<O>, before: &[Condition], condition: &Condition) {
    match &condition.implicit {
        None => page.text(b"    its own condition"),
        Some(name) => {
            if is_named_in(before, name.bytes()) {
                return;
            }
            page.texts(&[b"    ", name.bytes(), b": the condition of this method"]);
        }
    }
    if condition.taken != ALWAYS {
        page.text(IN_BRANCH);
    }
    page.text(b"\n");
}

fn put_conditions<O: Sink + Drop>(page: &mut Page<O>, conditions: &[Condition]) {
    for (place, condition) in conditions.iter().enumerate() {
        put_condition(page, &conditions[..place], condition);
    }
}

/// What an element asks.
fn put_element<O: Sink + Drop>(
    page: &mut Page<O>,
    design: &Design,
    element: &Element,
    needs: &[Need],
) {
    let conditions = element.conditions.as_slice();
    let kind: &[u8] = if element.role.is_rule() {
        b"  rule "
    } else {
        b"  method "
    };
    page.texts(&[kind, element.name.bytes()]);
    if conditions.is_empty() && needs.is_empty() {
        page.text(b" asks nothing\n");
        return;
    }
    page.text(b" asks\n");
    put_conditions(page, conditions);
    put_needs(page, design, element.calls.as_slice(), needs);
}

/// What each element asks, so that it is ready.
pub(crate) fn put_guards<O: Sink + Drop>(page: &mut Page<O>, design: &Design, guards: &Guards) {
    page.text(b"guards:\n");
    for (place, element) in design.elements.as_slice().iter().enumerate() {
        let needs: &[Need] = match guards.needs.get(place) {
            Some(needs) => needs.as_slice(),
            None => &[],
        };
        put_element(page, design, element, needs);
    }
}
