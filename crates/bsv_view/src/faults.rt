use crate::status::Status;
use crate::stop::Stop;
use bsv_flow::Refusal;
use bsv_io::{Failed, Sink, put_all};
use itoa::Buffer;

/// Puts a fault text, and answers the status; it is a write fault where the text could not be put.
fn tell<E: Sink>(err: &mut E, pieces: &[&[u8]], status: Status) -> Status {
    match put_all(err, pieces) {
        Ok(()) => status,
        Err(Failed) => Status::WriteFault,
    }
}

/// Tells how the program is called.
pub(crate) fn tell_usage<E: Sink>(err: &mut E) -> Status {
    let line = b"usage: bsvview waves FILE TOP TRACE | graph FILE TOP | why FILE TOP\n";
    tell(err, &[line], Status::Usage)
}

/// Tells why a design is refused, as `bsvc` does.
fn tell_refusal<E: Sink>(err: &mut E, refusal: &Refusal) -> Status {
    match refusal.put(err) {
        Ok(()) => Status::Refused,
        Err(Failed) => Status::WriteFault,
    }
}

/// Tells that a line of the trace is bad.
fn tell_bad_line<E: Sink>(err: &mut E, number: u64) -> Status {
    let mut digits = Buffer::new();
    let digits = digits.format(number).as_bytes();
    tell(err, &[b"trace line ", digits, b"\n"], Status::TraceFault)
}

/// Tells why words that have a form are not done.
pub(crate) fn tell_stop<E: Sink>(err: &mut E, stop: &Stop) -> Status {
    match stop {
        Stop::Refused(refusal) => tell_refusal(err, refusal),
        Stop::Unread(name) => tell(
            err,
            &[b"cannot read ", name.bytes(), b"\n"],
            Status::ReadFault,
        ),
        Stop::BadLine(number) => tell_bad_line(err, *number),
        Stop::OutOfMemory => tell(err, &[b"out of memory\n"], Status::OutOfMemory),
    }
}
