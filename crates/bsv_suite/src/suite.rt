ghost use Rattle.std.specs.Prelude.{◌≡◌, ◌<◌, ◌≤◌, ℕ, ◌*◌, List, length, map, take, Contains, Some, Err};
ghost use Rattle.std.specs.Prelude.{IfOk, OnOk, OnErr};
ghost use Rattle.bsv_clock.specs.Subjects.{design_subject};
ghost use Rattle.bsv_io.specs.Faults.{MayFault};
ghost use Rattle.bsv_io.specs.Reading.{bytes_given};
ghost use Rattle.bsv_io.specs.Writing.{appended, AppendsPrefix};
ghost use Rattle.bsv_sim.specs.Simulation.{IsSimulated};
ghost use Rattle.bsv_suite.specs.Reading.{AreRead, IsReadOf};
ghost use Rattle.bsv_suite.specs.Reading.{trace_read_limit};
ghost use Rattle.bsv_suite.specs.Suites.{IsSuite, IsSuiteCut, IsSuiteStarted, bad_traces};
ghost use Rattle.bsv_suite.specs.Suites.{suite_text};
ghost use Rattle.bsv_suite.specs.Texts.{told_of};

use crate::halt::SuiteHalt;
use crate::sections::{Section, Trace, reports};
use crate::text::put_section;
use bsv_bits::Name;
use bsv_design::{Design, Schedule};
use bsv_io::{Failed, Files, NoGate, Sink, Unread, read_up_to};
use bsv_net::Net;
use std::alloc::Global;
use std::thread::Threads;

/// How many traces are read, run and put at a time.
const GROUP: usize = 8;

/// How many bytes of a trace are read: one more than it may have.
const READ_LIMIT: usize = 1_048_577;

/// Reads the trace of a name, up to one byte more than it may have.
fn read_trace<F: Files>(alloc: Global, files: &mut F, name: &Name) -> Result<Trace, SuiteHalt>
    ensures trace { IfOk result (λ trace. (contents : List ℕ → List ℕ)
        → (F.reading files.old).contents ≡ Some contents → IsReadOf contents name.now trace) }
    ensures unread { (blamed : List ℕ) → result ≡ Err (SuiteHalt.Unread blamed)
        → (blamed ≡ name.now)
        × MayFault (F.reading files.old).faults (F.reading files.new).faults
        × ((F.reading files.new).blamed ≡ Some blamed) }
    ensures writes { result ≡ Err SuiteHalt.Unwritable → ⊥ }
    ensures within { trace_read_limit < bytes_given (F.reading files.new)
        → (F.reading files.new).current ≡ (F.reading files.old).current }
    ensures contents { (F.reading files.new).contents ≡ (F.reading files.old).contents }
    ensures count { (F.reading files.old).faults ≤ (F.reading files.new).faults }
    ensures kept { ((blamed : List ℕ) → result ≡ Err (SuiteHalt.Unread blamed) → ⊥)
        → (F.reading files.new).faults ≡ (F.reading files.old).faults }
{
    let own = Name::new(alloc, name.bytes())?;
    let blamed = Name::new(alloc, name.bytes())?;
    match read_up_to(alloc, files, name.bytes(), READ_LIMIT) {
        Ok(bytes) => Ok(Trace { name: own, bytes }),
        Err(Unread::Failed) => Err(SuiteHalt::Unread(blamed)),
        Err(Unread::OutOfMemory) => Err(SuiteHalt::OutOfMemory),
    }
}

/// Reads the traces of these names, one after the other.
fn read_group<F: Files>(
    alloc: Global,
    files: &mut F,
    names: &[Name],
) -> Result<Vec<Trace>, SuiteHalt>
    ensures traces { IfOk result (λ traces. (contents : List ℕ → List ℕ)
        → (F.reading files.old).contents ≡ Some contents
        → AreRead contents names.now traces.items) }
    ensures long { IfOk result (λ traces. length traces.items ≡ length names.now) }
    ensures unread { (blamed : List ℕ) → result ≡ Err (SuiteHalt.Unread blamed)
        → Contains names.now blamed
        × MayFault (F.reading files.old).faults (F.reading files.new).faults
        × ((F.reading files.new).blamed ≡ Some blamed) }
    ensures writes { result ≡ Err SuiteHalt.Unwritable → ⊥ }
    ensures within { trace_read_limit < bytes_given (F.reading files.new)
        → (F.reading files.new).current ≡ (F.reading files.old).current }
    ensures contents { (F.reading files.new).contents ≡ (F.reading files.old).contents }
    ensures count { (F.reading files.old).faults ≤ (F.reading files.new).faults }
    ensures kept { ((blamed : List ℕ) → result ≡ Err (SuiteHalt.Unread blamed) → ⊥)
        → (F.reading files.new).faults ≡ (F.reading files.old).faults }
{
    let mut traces = Vec::new(alloc);
    for name in names {
        traces.push(read_trace(alloc, files, name)?)?;
    }
    Ok(traces)
}

/// Puts sections, and tells how many of them are of a trace with a bad line.
fn put_sections<O: Sink>(sections: &[Section], out: &mut O) -> Result<u64, Failed>
    ensures put { OnOk result (O.writing out.new
        ≡ appended (suite_text (map told_of sections.now)) (O.writing out.old)) }
    ensures bad { IfOk result (λ bad. bad ≡ bad_traces (map told_of sections.now)) }
    ensures prefix { AppendsPrefix (suite_text (map told_of sections.now)) (O.writing out.old)
        (O.writing out.new) }
    ensures count { (O.writing out.old).faults ≤ (O.writing out.new).faults }
    ensures counted { OnErr result (MayFault (O.writing out.old).faults
        (O.writing out.new).faults) }
{
    let mut bad = 0;
    for section in sections {
        put_section(section, out)?;
        if section.bad != 0 {
            bad += 1;
        }
    }
    Ok(bad)
}

/// Reads the traces of a group, runs them, and puts their sections. The answer is how many of them have a bad line.
fn put_group<R: Threads + Sync, F: Files, O: Sink>(
    rt: &R,
    alloc: Global,
    files: &mut F,
    design: &Design,
    schedule: &Schedule,
    net: &Net,
    names: &[Name],
    out: &mut O,
) -> Result<u64, SuiteHalt>
    requires { IsSimulated design.now schedule.now net.now }
    ensures done { IfOk result (λ bad. (contents : List ℕ → List ℕ)
        → (F.reading files.old).contents ≡ Some contents
        → IsSuite (design_subject design.now) schedule.now contents names.now
        (O.writing out.old) (O.writing out.new) bad) }
    ensures started { (contents : List ℕ → List ℕ) → (F.reading files.old).contents ≡ Some contents
        → IsSuiteStarted (design_subject design.now) schedule.now contents names.now
        (O.writing out.old) (O.writing out.new) }
    ensures unread { (blamed : List ℕ) → result ≡ Err (SuiteHalt.Unread blamed)
        → Contains names.now blamed
        × MayFault (F.reading files.old).faults (F.reading files.new).faults
        × ((F.reading files.new).blamed ≡ Some blamed) }
    ensures quiet { (blamed : List ℕ) → result ≡ Err (SuiteHalt.Unread blamed)
        → O.writing out.new ≡ O.writing out.old }
    ensures unwritable { result ≡ Err SuiteHalt.Unwritable
        → MayFault (O.writing out.old).faults (O.writing out.new).faults }
    ensures few { IfOk result (λ bad. bad ≤ length names.now) }
    ensures within { trace_read_limit < bytes_given (F.reading files.new)
        → (F.reading files.new).current ≡ (F.reading files.old).current }
    ensures contents { (F.reading files.new).contents ≡ (F.reading files.old).contents }
    ensures files_count { (F.reading files.old).faults ≤ (F.reading files.new).faults }
    ensures files_kept { ((blamed : List ℕ) → result ≡ Err (SuiteHalt.Unread blamed) → ⊥)
        → (F.reading files.new).faults ≡ (F.reading files.old).faults }
    ensures out_count { (O.writing out.old).faults ≤ (O.writing out.new).faults }
    ensures out_kept { (result ≡ Err SuiteHalt.Unwritable → ⊥)
        → (O.writing out.new).faults ≡ (O.writing out.old).faults }
{
    let traces = read_group(alloc, files, names)?;
    let sections = reports(rt, alloc, design, schedule, net, traces, &NoGate)?;
    Ok(put_sections(sections.as_slice(), out)?)
}

/// Reads the traces of these names, eight at a time, runs them side by side, and puts what is told of each. The answer is how many
/// of them have a bad line.
pub fn run_suite<R: Threads + Sync, F: Files, O: Sink>(
    rt: &R,
    alloc: Global,
    files: &mut F,
    design: &Design,
    schedule: &Schedule,
    net: &Net,
    names: &[Name],
    out: &mut O,
) -> Result<u64, SuiteHalt>
    requires { IsSimulated design.now schedule.now net.now }
    ensures done { IfOk result (λ bad. (contents : List ℕ → List ℕ)
        → (F.reading files.old).contents ≡ Some contents
        → IsSuite (design_subject design.now) schedule.now contents names.now
        (O.writing out.old) (O.writing out.new) bad) }
    ensures started { (contents : List ℕ → List ℕ) → (F.reading files.old).contents ≡ Some contents
        → IsSuiteStarted (design_subject design.now) schedule.now contents names.now
        (O.writing out.old) (O.writing out.new) }
    ensures unread { (blamed : List ℕ) → result ≡ Err (SuiteHalt.Unread blamed)
        → Contains names.now blamed
        × MayFault (F.reading files.old).faults (F.reading files.new).faults
        × ((F.reading files.new).blamed ≡ Some blamed) }
    ensures cut { (blamed : List ℕ) → result ≡ Err (SuiteHalt.Unread blamed)
        → (contents : List ℕ → List ℕ) → (F.reading files.old).contents ≡ Some contents
        → IsSuiteCut (design_subject design.now) schedule.now contents names.now blamed
        (O.writing out.old) (O.writing out.new) }
    ensures unwritable { result ≡ Err SuiteHalt.Unwritable
        → MayFault (O.writing out.old).faults (O.writing out.new).faults }
    ensures within { trace_read_limit < bytes_given (F.reading files.new)
        → (F.reading files.new).current ≡ (F.reading files.old).current }
    ensures contents { (F.reading files.new).contents ≡ (F.reading files.old).contents }
    ensures files_count { (F.reading files.old).faults ≤ (F.reading files.new).faults }
    ensures files_kept { ((blamed : List ℕ) → result ≡ Err (SuiteHalt.Unread blamed) → ⊥)
        → (F.reading files.new).faults ≡ (F.reading files.old).faults }
    ensures out_count { (O.writing out.old).faults ≤ (O.writing out.new).faults }
    ensures out_kept { (result ≡ Err SuiteHalt.Unwritable → ⊥)
        → (O.writing out.new).faults ≡ (O.writing out.old).faults }
{
    let mut left = names;
    let mut bad = 0;
    while !left.is_empty() {
        let (group, rest) = left.split_at(left.len().min(GROUP));
        bad += put_group(rt, alloc, files, design, schedule, net, group, out)?;
        left = rest;
    }
    Ok(bad)
}
