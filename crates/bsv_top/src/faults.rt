ghost use Rattle.std.specs.Prelude.{◌≡◌, ◌≤◌, ◌⊎◌};
ghost use Rattle.bsv_io.specs.Faults.{MayFault};
ghost use Rattle.bsv_io.specs.Writing.{appended, joined, AppendsPrefix};
ghost use Rattle.bsv_flow.specs.Refusals.{refusal_line};
ghost use Rattle.bsv_top.specs.Answers.{cannot_read_line, no_memory_line, trace_fault_line};
ghost use Rattle.bsv_top.specs.Answers.{bad_traces_line, list_fault_line, usage_line};
ghost use Rattle.bsv_top.specs.Stops.{status_of, text_of};

use crate::status::Status;
use crate::stop::Stop;
use bsv_flow::Refusal;
use bsv_io::{Failed, Sink, put_all};
use itoa::Buffer;

/// Puts the fault text of a status, and answers the status; it is a write fault where the text
/// could not be put.
fn tell<E: Sink>(err: &mut E, pieces: &[&[u8]], status: Status) -> Status
    requires { status ≡ Status.WriteFault → ⊥ }
    ensures told { (result ≡ Status.WriteFault → ⊥)
        → (result ≡ status) × (E.writing err.new
        ≡ appended (joined pieces.now) (E.writing err.old)) }
    ensures failed { result ≡ Status.WriteFault
        → MayFault (E.writing err.old).faults (E.writing err.new).faults }
    ensures prefix { AppendsPrefix (joined pieces.now) (E.writing err.old) (E.writing err.new) }
    ensures count { (E.writing err.old).faults ≤ (E.writing err.new).faults }
{
    match put_all(err, pieces) {
        Ok(()) => status,
        Err(Failed) => Status::WriteFault,
    }
}

/// Tells how the program is called.
#[tactic(auto, unfolding(crate::specs::Answers::usage_line))]
pub(crate) fn tell_usage<E: Sink>(err: &mut E) -> Status
    ensures told { (result ≡ Status.WriteFault → ⊥)
        → (result ≡ Status.Usage) × (E.writing err.new ≡ appended usage_line (E.writing err.old)) }
    ensures failed { result ≡ Status.WriteFault
        → MayFault (E.writing err.old).faults (E.writing err.new).faults }
    ensures prefix { AppendsPrefix usage_line (E.writing err.old) (E.writing err.new) }
    ensures count { (E.writing err.old).faults ≤ (E.writing err.new).faults }
{
    let line =
        b"usage: bsvc verilog FILE TOP | schedule FILE TOP | sim FILE TOP TRACE | made N | suite FILE TOP LIST\n";
    tell(err, &[line], Status::Usage)
}

/// Tells why what was loaded is refused.
fn tell_refusal<E: Sink>(err: &mut E, refusal: &Refusal) -> Status
    ensures told { (result ≡ Status.WriteFault → ⊥)
        → (result ≡ Status.Refused) × (E.writing err.new
        ≡ appended (refusal_line refusal.now) (E.writing err.old)) }
    ensures failed { result ≡ Status.WriteFault
        → MayFault (E.writing err.old).faults (E.writing err.new).faults }
    ensures prefix { AppendsPrefix (refusal_line refusal.now) (E.writing err.old)
        (E.writing err.new) }
    ensures count { (E.writing err.old).faults ≤ (E.writing err.new).faults }
{
    match refusal.put(err) {
        Ok(()) => Status::Refused,
        Err(Failed) => Status::WriteFault,
    }
}

/// Tells that a file cannot be read.
#[tactic(auto, unfolding(crate::specs::Answers::cannot_read_line))]
fn tell_unread<E: Sink>(err: &mut E, name: &[u8]) -> Status
    ensures told { (result ≡ Status.WriteFault → ⊥)
        → (result ≡ Status.ReadFault) × (E.writing err.new
        ≡ appended (cannot_read_line name.now) (E.writing err.old)) }
    ensures failed { result ≡ Status.WriteFault
        → MayFault (E.writing err.old).faults (E.writing err.new).faults }
    ensures prefix { AppendsPrefix (cannot_read_line name.now) (E.writing err.old)
        (E.writing err.new) }
    ensures count { (E.writing err.old).faults ≤ (E.writing err.new).faults }
{
    tell(err, &[b"cannot read ", name, b"\n"], Status::ReadFault)
}

/// Tells that a line of the trace is bad.
#[tactic(auto, unfolding(crate::specs::Answers::trace_fault_line))]
fn tell_bad_line<E: Sink>(err: &mut E, number: u64) -> Status
    ensures told { (result ≡ Status.WriteFault → ⊥)
        → (result ≡ Status.TraceFault) × (E.writing err.new
        ≡ appended (trace_fault_line number) (E.writing err.old)) }
    ensures failed { result ≡ Status.WriteFault
        → MayFault (E.writing err.old).faults (E.writing err.new).faults }
    ensures prefix { AppendsPrefix (trace_fault_line number) (E.writing err.old)
        (E.writing err.new) }
    ensures count { (E.writing err.old).faults ≤ (E.writing err.new).faults }
{
    let mut digits = Buffer::new();
    tell(
        err,
        &[b"trace line ", digits.format(number).as_bytes(), b"\n"],
        Status::TraceFault,
    )
}

/// Tells that a line of the list is bad.
#[tactic(auto, unfolding(crate::specs::Answers::list_fault_line))]
fn tell_bad_list_line<E: Sink>(err: &mut E, number: u64) -> Status
    ensures told { (result ≡ Status.WriteFault → ⊥)
        → (result ≡ Status.TraceFault) × (E.writing err.new
        ≡ appended (list_fault_line number) (E.writing err.old)) }
    ensures failed { result ≡ Status.WriteFault
        → MayFault (E.writing err.old).faults (E.writing err.new).faults }
    ensures prefix { AppendsPrefix (list_fault_line number) (E.writing err.old)
        (E.writing err.new) }
    ensures count { (E.writing err.old).faults ≤ (E.writing err.new).faults }
{
    let mut digits = Buffer::new();
    tell(
        err,
        &[b"list line ", digits.format(number).as_bytes(), b"\n"],
        Status::TraceFault,
    )
}

/// Tells how many traces have a bad line.
#[tactic(auto, unfolding(crate::specs::Answers::bad_traces_line))]
fn tell_bad_traces<E: Sink>(err: &mut E, count: u64) -> Status
    ensures told { (result ≡ Status.WriteFault → ⊥)
        → (result ≡ Status.TraceFault) × (E.writing err.new
        ≡ appended (bad_traces_line count) (E.writing err.old)) }
    ensures failed { result ≡ Status.WriteFault
        → MayFault (E.writing err.old).faults (E.writing err.new).faults }
    ensures prefix { AppendsPrefix (bad_traces_line count) (E.writing err.old)
        (E.writing err.new) }
    ensures count { (E.writing err.old).faults ≤ (E.writing err.new).faults }
{
    let mut digits = Buffer::new();
    tell(
        err,
        &[b"bad traces ", digits.format(count).as_bytes(), b"\n"],
        Status::TraceFault,
    )
}

/// Tells why words that have a form are not done. A sink that failed is told of by the status alone.
#[tactic(auto, unfolding(crate::specs::Answers::no_memory_line))]
pub(crate) fn tell_stop<E: Sink>(err: &mut E, stop: Stop) -> Status
    ensures told { (result ≡ Status.WriteFault → ⊥) → (result ≡ status_of stop)
        × (E.writing err.new ≡ appended (text_of stop) (E.writing err.old)) }
    ensures failed { result ≡ Status.WriteFault → (stop ≡ Stop.Unwritable)
        ⊎ MayFault (E.writing err.old).faults (E.writing err.new).faults }
    ensures quiet { stop ≡ Stop.Unwritable → E.writing err.new ≡ E.writing err.old }
    ensures prefix { AppendsPrefix (text_of stop) (E.writing err.old) (E.writing err.new) }
    ensures count { (E.writing err.old).faults ≤ (E.writing err.new).faults }
{
    match stop {
        Stop::Refused(refusal) => tell_refusal(err, &refusal),
        Stop::Unread(name) => tell_unread(err, name.bytes()),
        Stop::Unwritable => Status::WriteFault,
        Stop::OutOfMemory => tell(err, &[b"out of memory\n"], Status::OutOfMemory),
        Stop::BadLine(number) => tell_bad_line(err, number),
        Stop::BadListLine(number) => tell_bad_list_line(err, number),
        Stop::BadTraces(count) => tell_bad_traces(err, count),
    }
}
