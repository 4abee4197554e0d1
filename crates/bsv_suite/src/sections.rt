ghost use Rattle.std.specs.Prelude.{◌≡◌, ◌<◌, ◌^◌, IfOk, length, map};
ghost use Rattle.bsv_clock.specs.Subjects.{design_subject};
ghost use Rattle.bsv_sim.specs.Simulation.{IsSimulated};
ghost use Rattle.bsv_suite.specs.Sections.{AreSections, IsSection};

use crate::report::report_of;
use bsv_bits::{Name, OutOfMemory};
use bsv_design::{Design, Schedule};
use bsv_io::{Gate, all_made};
use bsv_net::Net;
use std::alloc::{AllocError, Global};
use std::thread::{Threads, map_vec};

/// A trace of a suite: the name of its file, and its bytes.
#[derive(Drop)]
pub struct Trace {
    pub name: Name,
    pub bytes: Vec<u8>,
}

/// What is told of a trace: its name, the report of its run, and the number of its first bad line, or 0 where there is none.
#[derive(Drop)]
pub struct Section {
    pub name: Name,
    pub text: Vec<u8>,
    pub bad: u64,
}

/// A trace with its place among the others.
#[derive(Drop)]
struct Job {
    number: u64,
    trace: Trace,
}

/// The traces, each with its place.
fn jobs_of(alloc: Global, mut traces: Vec<Trace>) -> Result<Vec<Job>, AllocError>
    ensures { IfOk result (λ jobs. traces.items ≡ map (λ job. job.trace) jobs.items) }
{
    let mut jobs = Vec::new(alloc);
    while !traces.is_empty() {
        let number = jobs.len() as u64;
        let trace = traces.remove(0);
        jobs.push(Job { number, trace })?;
    }
    Ok(jobs)
}

/// The section of a trace, whose worker passes the gate first and runs a copy of the net.
fn section_of<G: Gate>(
    alloc: Global,
    design: &Design,
    schedule: &Schedule,
    net: &Net,
    gate: &G,
    job: Job,
) -> Result<Section, OutOfMemory>
    requires { IsSimulated design.now schedule.now net.now }
    ensures { IfOk result (λ section.
        IsSection (design_subject design.now) schedule.now job.trace section) }
{
    gate.pass(job.number);
    let net = net.copy(alloc)?;
    let report = report_of(alloc, design, schedule, net, job.trace.bytes.as_slice())?;
    Ok(Section {
        name: job.trace.name,
        text: report.text,
        bad: report.bad,
    })
}

/// The sections of the traces, each once, in their order: each is run from the opening state on the net, which is that of the
/// design and its schedule, by a worker of its own, which passes the gate once, with the trace's place. A trace may have
/// 1,048,576 bytes; the line that holds the next one is bad, and ends its section.
pub fn reports<R: Threads + Sync, G: Gate + Sync>(
    rt: &R,
    alloc: Global,
    design: &Design,
    schedule: &Schedule,
    net: &Net,
    traces: Vec<Trace>,
    gate: &G,
) -> Result<Vec<Section>, OutOfMemory>
    requires { IsSimulated design.now schedule.now net.now }
    ensures { IfOk result (λ sections. AreSections
        (design_subject design.now) schedule.now traces.items sections.items) }
{
    let jobs = jobs_of(alloc, traces)?;
    let made = map_vec(
        rt,
        jobs,
        &|job| section_of(alloc, design, schedule, net, gate, job),
    )?;
    all_made(alloc, made)
}
