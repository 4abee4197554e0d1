use crate::facts::Facts;
use crate::guards::put_asked;
use crate::meeting::calls_of;
use crate::names::{element_name, method_name, part_path, position_of};
use crate::stops::put_stop;
use bsv_bits::OutOfMemory;
use bsv_design::{Call, Design};
use bsv_io::Sink;
use bsv_page::Page;
use bsv_schedule::Relations;
use std::alloc::Global;

/// Tells why an element can stop a rule that is marked to fire, where this is the execution order.
pub fn put_not_enabled<O: Sink + Drop>(
    alloc: Global,
    page: &mut Page<O>,
    design: &Design,
    execution: &[u32],
    rule: &[u8],
    element: &[u8],
) -> Result<(), OutOfMemory> {
    let Some(stopped) = position_of(design, rule) else {
        return Ok(());
    };
    let Some(stopper) = position_of(design, element) else {
        return Ok(());
    };
    let relations = Relations::new(alloc, design)?;
    let facts = Facts::new(design, &relations);
    page.texts(&[
        rule,
        b" is marked with fire_when_enabled, and may be stopped:\n",
    ]);
    put_stop(page, facts, execution, stopper, stopped);
    page.text(
        b"Whether an element can stop another is asked of what they call, and not of when they are ready.\n",
    );
    Ok(())
}

/// Whether the text is the path and the name of what the call calls.
fn is_call(design: &Design, call: &Call, text: &[u8]) -> bool {
    let path = part_path(design, call.part);
    let name = method_name(design, call.part, call.method);
    match text.strip_prefix(path) {
        Some([b'.', rest @ ..]) => rest == name,
        _ => false,
    }
}

/// The call of an element that has this text.
fn call_of<'a>(design: &'a Design, element: u32, text: &[u8]) -> Option<&'a Call> {
    for call in calls_of(design, element) {
        if is_call(design, call, text) {
            return Some(call);
        }
    }
    None
}

/// Tells what the call of a rule asks that is marked to have no implicit conditions.
pub fn put_not_implicit<O: Sink + Drop>(
    page: &mut Page<O>,
    design: &Design,
    rule: &[u8],
    text: &[u8],
) {
    let Some(element) = position_of(design, rule) else {
        return;
    };
    page.texts(&[
        element_name(design, element),
        b" is marked with no_implicit_conditions, and its call ",
    ]);
    page.texts(&[text, b" asks that "]);
    match call_of(design, element, text) {
        Some(call) => put_asked(page, design, call.part, call.method),
        None => page.text(b"the condition of this method of a module holds"),
    }
    page.text(
        b".\nA call that is always ready (as of an mkDWire, or one of mkFIFO that is not asked in this rule), or no attribute, mends it.\n",
    );
}
