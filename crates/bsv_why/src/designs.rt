use bsv_bits::OutOfMemory;
use bsv_design::Design;
use bsv_flow::{CompileFault, Loaded, Refusal, load, tree, typed};
use bsv_inline::flatten;
use bsv_io::{Files, NoGate, Sink};
use bsv_page::Page;
use bsv_reasons::{
    put_behind_rule, put_execution_cycle, put_not_enabled, put_not_implicit, put_two_calls,
    put_urgency_cycle, put_value_clash, put_wire_cycle,
};
use bsv_schedule::execution;
use std::alloc::Global;
use std::thread::Threads;

/// The design of what was loaded, whether it has a schedule or not.
fn design_of(alloc: Global, loaded: &Loaded, top: &str) -> Result<Design, CompileFault> {
    let program = typed(alloc, loaded)?;
    let built = tree(alloc, program, top)?;
    Ok(flatten(alloc, &built)?)
}

/// Tells why a rule that is marked to fire can be stopped.
fn put_stopped<R: Threads + Sync, O: Sink + Drop>(
    rt: &R,
    alloc: Global,
    design: &Design,
    rule: &[u8],
    element: &[u8],
    page: &mut Page<O>,
) -> Result<(), OutOfMemory> {
    let Ok(order) = execution(rt, alloc, design, &NoGate) else {
        return Err(OutOfMemory);
    };
    put_not_enabled(alloc, page, design, order.as_slice(), rule, element)
}

/// Tells why a design has two calls too many, or no order.
fn put_orderless<O: Sink + Drop>(
    alloc: Global,
    design: &Design,
    refusal: &Refusal,
    page: &mut Page<O>,
) -> Result<(), OutOfMemory> {
    match refusal {
        Refusal::WireCycle(element) => put_wire_cycle(alloc, page, design, element.bytes()),
        Refusal::ValueClash(method) => put_value_clash(alloc, page, design, method.bytes()),
        Refusal::ExecutionCycle(word, before, after) => {
            let names = (before.bytes(), after.bytes());
            put_execution_cycle(alloc, page, design, word.bytes(), names)
        }
        Refusal::UrgencyCycle(word, before, after) => {
            let names = (before.bytes(), after.bytes());
            put_urgency_cycle(alloc, page, design, word.bytes(), names)
        }
        Refusal::MethodBehindRule(method, rule) => {
            put_behind_rule(alloc, page, design, method.bytes(), rule.bytes())
        }
        _ => Ok(()),
    }
}

/// Tells why a design is refused by its calls, its orders or the marks of its rules.
fn put_refused<R: Threads + Sync, O: Sink + Drop>(
    rt: &R,
    alloc: Global,
    design: &Design,
    refusal: &Refusal,
    page: &mut Page<O>,
) -> Result<(), OutOfMemory> {
    match refusal {
        Refusal::InRule(element, part, first, second) => {
            let methods = (first.bytes(), second.bytes());
            put_two_calls(page, design, element.bytes(), part.bytes(), methods);
            Ok(())
        }
        Refusal::NoImplicit(rule, call) => {
            put_not_implicit(page, design, rule.bytes(), call.bytes());
            Ok(())
        }
        Refusal::FireWhenEnabled(rule, element) => {
            put_stopped(rt, alloc, design, rule.bytes(), element.bytes(), page)
        }
        _ => put_orderless(alloc, design, refusal, page),
    }
}

/// Tells the cause of a refusal of 18 to 25.
pub(crate) fn put_design_cause<R: Threads + Sync, F: Files, O: Sink + Drop>(
    rt: &R,
    alloc: Global,
    files: &mut F,
    names: (&str, &str),
    refusal: &Refusal,
    page: &mut Page<O>,
) -> Result<(), CompileFault> {
    let loaded = load(alloc, files, names.0)?;
    let design = design_of(alloc, &loaded, names.1)?;
    put_refused(rt, alloc, &design, refusal, page)?;
    Ok(())
}
