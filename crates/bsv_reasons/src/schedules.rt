use crate::facts::Facts;
use crate::guards::put_guards;
use crate::orders::{put_execution, put_urgency};
use crate::stops::put_stops;
use bsv_bits::OutOfMemory;
use bsv_design::{Design, Guards, Schedule};
use bsv_io::Sink;
use bsv_page::Page;
use bsv_schedule::Relations;
use std::alloc::Global;

/// Tells why the schedule of a design is as it is, and what its elements ask.
pub fn put_schedule<O: Sink + Drop>(
    alloc: Global,
    page: &mut Page<O>,
    design: &Design,
    guards: &Guards,
    schedule: &Schedule,
) -> Result<(), OutOfMemory> {
    let relations = Relations::new(alloc, design)?;
    let facts = Facts::new(design, &relations);
    let execution = schedule.execution.as_slice();
    let urgency = schedule.urgency.as_slice();
    page.texts(&[b"module ", design.name.bytes(), b"\n\n"]);
    put_execution(page, facts, execution);
    page.text(b"\n");
    put_urgency(page, facts, urgency);
    page.text(b"\n");
    put_stops(page, facts, execution, urgency, schedule.stops.as_slice());
    page.text(b"\n");
    put_guards(page, design, guards);
    Ok(())
}
