use bsv_flow::{CompileFault, Compiled, compile};
use bsv_io::{Files, NoGate, Sink};
use bsv_page::Page;
use bsv_reasons::{put_dot, put_schedule};
use std::alloc::Global;
use std::thread::Threads;

/// Puts the schedule of what was compiled as a graph.
fn put_graph<O: Sink + Drop>(
    alloc: Global,
    compiled: &Compiled,
    page: &mut Page<O>,
) -> Result<(), CompileFault> {
    put_dot(alloc, page, &compiled.design, &compiled.schedule)?;
    Ok(())
}

/// Tells why the schedule of what was compiled is as it is.
fn put_why<O: Sink + Drop>(
    alloc: Global,
    compiled: &Compiled,
    page: &mut Page<O>,
) -> Result<(), CompileFault> {
    put_schedule(
        alloc,
        page,
        &compiled.design,
        &compiled.guards,
        &compiled.schedule,
    )?;
    Ok(())
}

/// Puts the schedule of the module `top` as Graphviz DOT. Of a refused design nothing is put.
pub fn graph<R: Threads + Sync, F: Files, O: Sink + Drop>(
    rt: &R,
    alloc: Global,
    files: &mut F,
    file: &str,
    top: &str,
    page: &mut Page<O>,
) -> Result<(), CompileFault> {
    let compiled = compile(rt, alloc, files, file, top, &NoGate)?;
    put_graph(alloc, &compiled, page)
}

/// Tells why the schedule of the module `top` is as it is, and what its elements ask. Of a refused design nothing is put:
/// `cause` tells of it.
pub fn why<R: Threads + Sync, F: Files, O: Sink + Drop>(
    rt: &R,
    alloc: Global,
    files: &mut F,
    file: &str,
    top: &str,
    page: &mut Page<O>,
) -> Result<(), CompileFault> {
    let compiled = compile(rt, alloc, files, file, top, &NoGate)?;
    put_why(alloc, &compiled, page)
}
