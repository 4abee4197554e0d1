use crate::designs::put_design_cause;
use crate::modules::put_module_cause;
use crate::sources::{place_of, put_place_cause};
use bsv_flow::{CompileFault, Refusal};
use bsv_io::{Files, Sink};
use bsv_page::Page;
use std::alloc::Global;
use std::thread::Threads;

/// Whether the refusal is one that is met as the design is built.
fn is_of_building(refusal: &Refusal) -> bool {
    matches!(
        refusal,
        Refusal::NoSuchModule(_)
            | Refusal::StaticFault(_)
            | Refusal::Loop(_)
            | Refusal::Recursion(_)
            | Refusal::NameTaken(_)
            | Refusal::Limit(_, _)
            | Refusal::NoSuchRule(_, _)
    )
}

/// Tells the cause of a refusal that the same files were answered with the same `file` and `top`.
pub fn cause<R: Threads + Sync, F: Files, O: Sink + Drop>(
    rt: &R,
    alloc: Global,
    files: &mut F,
    file: &str,
    top: &str,
    refusal: &Refusal,
    page: &mut Page<O>,
) -> Result<(), CompileFault> {
    if let Some(placed) = place_of(refusal) {
        return put_place_cause(alloc, files, placed, page);
    }
    if is_of_building(refusal) {
        return put_module_cause(alloc, files, (file, top), refusal, page);
    }
    put_design_cause(rt, alloc, files, (file, top), refusal, page)
}
