ghost use Rattle.std.specs.Prelude.{◌≡◌, ◌<◌, ◌≤◌, ℕ, List, Contains, Some, Err, IfOk, OnOk};
ghost use Rattle.bsv_io.specs.Faults.{MayFault};
ghost use Rattle.bsv_io.specs.Reading.{bytes_given};
ghost use Rattle.bsv_flow.specs.Running.{BelongTogether};
ghost use Rattle.bsv_flow.specs.Sources.{read_limit};
ghost use Rattle.bsv_flow.specs.declared.refusal.Refusal.{Refusal as TheRefusal};
ghost use Rattle.bsv_clock.specs.Subjects.{design_subject};
ghost use Rattle.bsv_suite.specs.Lists.{HasBadLineAt, NamesTraces};
ghost use Rattle.bsv_suite.specs.Suites.{IsSuite, IsSuiteCut, IsSuiteStarted};
ghost use Rattle.bsv_top.specs.Answers.{suite_words};
ghost use Rattle.bsv_top.specs.Outcomes.{IsDoneBy, IsUnread, OutputStarted};
ghost use Rattle.bsv_top.specs.Stops.{IsStopOf, stop_of_list};
ghost use Rattle.bsv_top.specs.declared.stop.Stop.{Stop as TheStop};

use crate::form::Suite;
use crate::stop::Stop;
use bsv_bits::Name;
use bsv_flow::{Compiled, compile};
use bsv_io::{Files, NoGate, Sink};
use bsv_suite::{ListHalt, read_list, run_suite};
use std::alloc::Global;
use std::thread::Threads;

/// Why the list of this name is not read to its end.
fn stop_of_list(halt: ListHalt, list: Name) -> Stop
    ensures { result ≡ stop_of_list halt list }
{
    match halt {
        ListHalt::BadLine(number) => Stop::BadListLine(number),
        ListHalt::Unreadable => Stop::Unread(list),
        ListHalt::OutOfMemory => Stop::OutOfMemory,
    }
}

/// Reads the names of the list.
fn names_of<F: Files>(alloc: Global, files: &mut F, list: &str) -> Result<Vec<Name>, Stop>
    ensures names { IfOk result (λ names. (contents : List ℕ → List ℕ)
        → (F.reading files.old).contents ≡ Some contents
        → NamesTraces (contents list.now) names.items) }
    ensures bad { (number : ℕ) → result ≡ Err (Stop.BadListLine number)
        → (contents : List ℕ → List ℕ) → (F.reading files.old).contents ≡ Some contents
        → HasBadLineAt (contents list.now) number }
    ensures unread { (name : List ℕ) → result ≡ Err (Stop.Unread name)
        → (name ≡ list.now)
        × MayFault (F.reading files.old).faults (F.reading files.new).faults
        × ((F.reading files.new).blamed ≡ Some name) }
    ensures own { (r : TheRefusal) → result ≡ Err (Stop.Refused r) → ⊥ }
    ensures no_line { (number : ℕ) → result ≡ Err (Stop.BadLine number) → ⊥ }
    ensures no_count { (count : ℕ) → result ≡ Err (Stop.BadTraces count) → ⊥ }
    ensures writes { result ≡ Err Stop.Unwritable → ⊥ }
    ensures within { read_limit < bytes_given (F.reading files.new)
        → (F.reading files.new).current ≡ (F.reading files.old).current }
    ensures contents { (F.reading files.new).contents ≡ (F.reading files.old).contents }
    ensures count { (F.reading files.old).faults ≤ (F.reading files.new).faults }
    ensures kept { ((name : List ℕ) → result ≡ Err (Stop.Unread name) → ⊥)
        → (F.reading files.new).faults ≡ (F.reading files.old).faults }
{
    let blamed = Name::new(alloc, list.as_bytes())?;
    match read_list(alloc, files, list.as_bytes()) {
        Ok(names) => Ok(names),
        Err(halt) => Err(stop_of_list(halt, blamed)),
    }
}

/// Puts what is told of the traces of these names, and stops where some have a bad line.
fn tell_traces<R: Threads + Sync, F: Files, O: Sink>(
    rt: &R,
    alloc: Global,
    files: &mut F,
    compiled: &Compiled,
    names: &[Name],
    out: &mut O,
) -> Result<(), Stop>
    requires { BelongTogether compiled.now }
    ensures done { OnOk result ((contents : List ℕ → List ℕ)
        → (F.reading files.old).contents ≡ Some contents
        → IsSuite (design_subject compiled.now.design) compiled.now.schedule contents names.now
        (O.writing out.old) (O.writing out.new) 0) }
    ensures bad { (count : ℕ) → result ≡ Err (Stop.BadTraces count) → (0 < count)
        × ((contents : List ℕ → List ℕ) → (F.reading files.old).contents ≡ Some contents
        → IsSuite (design_subject compiled.now.design) compiled.now.schedule contents names.now
        (O.writing out.old) (O.writing out.new) count) }
    ensures started { (contents : List ℕ → List ℕ)
        → (F.reading files.old).contents ≡ Some contents
        → IsSuiteStarted (design_subject compiled.now.design) compiled.now.schedule contents
        names.now (O.writing out.old) (O.writing out.new) }
    ensures unread { (name : List ℕ) → result ≡ Err (Stop.Unread name) → Contains names.now name
        × MayFault (F.reading files.old).faults (F.reading files.new).faults
        × ((F.reading files.new).blamed ≡ Some name) }
    ensures cut { (name : List ℕ) → result ≡ Err (Stop.Unread name)
        → (contents : List ℕ → List ℕ) → (F.reading files.old).contents ≡ Some contents
        → IsSuiteCut (design_subject compiled.now.design) compiled.now.schedule contents names.now
        name (O.writing out.old) (O.writing out.new) }
    ensures own { (r : TheRefusal) → result ≡ Err (Stop.Refused r) → ⊥ }
    ensures no_line { (number : ℕ) → result ≡ Err (Stop.BadLine number) → ⊥ }
    ensures no_list_line { (number : ℕ) → result ≡ Err (Stop.BadListLine number) → ⊥ }
    ensures unwritable { result ≡ Err Stop.Unwritable
        → MayFault (O.writing out.old).faults (O.writing out.new).faults }
    ensures within { read_limit < bytes_given (F.reading files.new)
        → (F.reading files.new).current ≡ (F.reading files.old).current }
    ensures files_count { (F.reading files.old).faults ≤ (F.reading files.new).faults }
    ensures files_kept { ((name : List ℕ) → result ≡ Err (Stop.Unread name) → ⊥)
        → (F.reading files.new).faults ≡ (F.reading files.old).faults }
    ensures out_count { (O.writing out.old).faults ≤ (O.writing out.new).faults }
    ensures out_kept { (result ≡ Err Stop.Unwritable → ⊥)
        → (O.writing out.new).faults ≡ (O.writing out.old).faults }
{
    let (design, schedule, net) = (&compiled.design, &compiled.schedule, &compiled.net);
    let bad = run_suite(rt, alloc, files, design, schedule, net, names, out)?;
    if bad > 0 {
        return Err(Stop::BadTraces(bad));
    }
    Ok(())
}

/// Compiles the file and what it imports, reads the list, and puts what is told of the traces that it names.
pub(crate) fn tell_suite<R: Threads + Sync, F: Files, O: Sink>(
    rt: &R,
    alloc: Global,
    form: Suite<'_>,
    files: &mut F,
    out: &mut O,
) -> Result<(), Stop>
    ensures done { OnOk result ((contents : List ℕ → List ℕ)
        → (F.reading files.old).contents ≡ Some contents
        → IsDoneBy (suite_words form.entry.file.now form.entry.top.now form.entry.list.now) contents
        (O.writing out.old) (O.writing out.new)) }
    ensures stopped { (s : TheStop) → result ≡ Err s → (contents : List ℕ → List ℕ)
        → (F.reading files.old).contents ≡ Some contents
        → IsStopOf (suite_words form.entry.file.now form.entry.top.now form.entry.list.now) contents
        (O.writing out.old) (O.writing out.new) s }
    ensures started { (contents : List ℕ → List ℕ)
        → (F.reading files.old).contents ≡ Some contents
        → OutputStarted (suite_words form.entry.file.now form.entry.top.now form.entry.list.now)
        contents (O.writing out.old) (O.writing out.new) }
    ensures refused { (r : TheRefusal) → result ≡ Err (Stop.Refused r)
        → O.writing out.new ≡ O.writing out.old }
    ensures unread { (name : List ℕ) → result ≡ Err (Stop.Unread name)
        → IsUnread (suite_words form.entry.file.now form.entry.top.now form.entry.list.now) name
        (F.reading files.old) (F.reading files.new) (O.writing out.old) (O.writing out.new) }
    ensures unwritable { result ≡ Err Stop.Unwritable
        → MayFault (O.writing out.old).faults (O.writing out.new).faults }
    ensures within { read_limit < bytes_given (F.reading files.new)
        → (F.reading files.new).current ≡ (F.reading files.old).current }
    ensures files_count { (F.reading files.old).faults ≤ (F.reading files.new).faults }
    ensures files_kept { ((name : List ℕ) → result ≡ Err (Stop.Unread name) → ⊥)
        → (F.reading files.new).faults ≡ (F.reading files.old).faults }
    ensures out_count { (O.writing out.old).faults ≤ (O.writing out.new).faults }
    ensures out_kept { (result ≡ Err Stop.Unwritable → ⊥)
        → (O.writing out.new).faults ≡ (O.writing out.old).faults }
{
    let compiled = compile(rt, alloc, files, form.file, form.top, &NoGate)?;
    let names = names_of(alloc, files, form.list)?;
    tell_traces(rt, alloc, files, &compiled, names.as_slice(), out)
}
