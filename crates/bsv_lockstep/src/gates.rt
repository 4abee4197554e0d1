ghost use Rattle.bsv_flow.specs.Running.{BelongTogether};

use crate::case::Case;
use crate::compiling::compiled_of;
use anyhow::Result;
use bsv_bits::Name;
use bsv_flow::Compiled;
use bsv_io::{Gate, NoGate};
use bsv_suite::{Trace, reports};
use std::alloc::Global;
use std::sync::atomic::{AtomicBool, AtomicU64, Ordering};
use std::thread::Threads;

/// How often the first worker looks whether a second one has come.
const TURNS: u64 = 1_000_000_000;

/// How many traces are run side by side.
const TRACES: u64 = 64;

/// A gate that holds the first worker until a second one has come, and notes where none came.
#[derive(Drop)]
struct MeetingGate {
    come: AtomicU64,
    missed: AtomicBool,
}

impl MeetingGate {
    fn new() -> MeetingGate {
        MeetingGate {
            come: AtomicU64::new(0),
            missed: AtomicBool::new(false),
        }
    }

    /// Whether workers came, the first of which met a second one.
    fn has_met(&self) -> bool {
        self.come.load(Ordering::SeqCst) > 1 && !self.missed.load(Ordering::SeqCst)
    }
}

impl Gate for MeetingGate {
    fn pass(&self, _number: u64) {
        if self.come.fetch_add(1, Ordering::SeqCst) > 0 {
            return;
        }
        for _turn in 0..TURNS {
            if self.come.load(Ordering::SeqCst) > 1 {
                return;
            }
        }
        self.missed.store(true, Ordering::SeqCst);
    }
}

/// Traces without a line.
fn empty_traces(alloc: Global) -> Result<Vec<Trace>> {
    let mut traces = Vec::new(alloc);
    for _number in 0..TRACES {
        traces.push(Trace {
            name: Name::new(alloc, b"empty")?,
            bytes: Vec::new(alloc),
        })?;
    }
    Ok(traces)
}

/// Whether two workers stand side by side where traces are run.
fn sections_meet<R: AllocGlobal + Threads + Sync>(rt: &R, compiled: &Compiled) -> Result<bool>
    requires { BelongTogether compiled.now }
{
    let gate = MeetingGate::new();
    let traces = empty_traces(rt.alloc())?;
    let (design, schedule) = (&compiled.design, &compiled.schedule);
    reports(
        rt,
        rt.alloc(),
        design,
        schedule,
        &compiled.net,
        traces,
        &gate,
    )?;
    Ok(gate.has_met())
}

/// Whether two workers stand side by side where it is found how elements relate.
fn rows_meet<R: AllocGlobal + Threads + Sync>(rt: &R, case: &Case) -> Result<bool> {
    let gate = MeetingGate::new();
    compiled_of(rt, case, &gate)?;
    Ok(gate.has_met())
}

/// Whether two workers stand side by side wherever the work on this case goes by workers.
pub(crate) fn workers_meet<R: AllocGlobal + Threads + Sync>(rt: &R, case: &Case) -> Result<bool> {
    let compiled = compiled_of(rt, case, &NoGate)?;
    Ok(rows_meet(rt, case)? && sections_meet(rt, &compiled)?)
}
