ghost use Rattle.std.specs.Prelude.{◌≡◌, ◌≤◌, None, OnOk, OnErr, MatchBool};
ghost use Rattle.std.specs.Io.KnownBytes.{Appends, Keeps};
ghost use Rattle.bsv_io.specs.Faults.{MayFault};
ghost use Rattle.bsv_io.specs.Standing.{raised};
ghost use Rattle.bsv_io.specs.Writer.{passing_writing, HoldsFront};
ghost use Rattle.bsv_io.specs.Writing.{appended, AppendsPrefix};

use crate::failed::Failed;
use crate::sink::Sink;
use std::io::{ErrorKind, Write};
use std::marker::Model;

/// A real writer as a sink.
///
/// Contracts see the count of faults and what the writer tells of its bytes.
#[derive(Drop)]
pub struct StdSink<W: Write + Drop> {
    writer: W,
    faults: u64,
}

impl<W: Write + Drop> Model for StdSink<W> {
    ghost use Rattle.bsv_io.specs.Writer.{Passing};

    ghost Value = { Passing };

    ghost view = { λ sink. record { faults = sink.faults; held = W.contents sink.writer } };
}

/// Writes all the bytes, again where a signal came between, and answers whether all were taken. A
/// writer that takes none of them has failed.
fn write_whole<W: Write>(writer: &mut W, bytes: &[u8]) -> bool
    ensures { MatchBool result
        (Appends (W.contents writer.old) (W.contents writer.new) bytes.now)
        (HoldsFront bytes.now (W.contents writer.old) (W.contents writer.new)) }
{
    let mut rest = bytes;
    for _turn in 0..u64::MAX {
        if rest.is_empty() {
            return true;
        }
        match writer.write(rest) {
            Ok(0) => return false,
            Ok(count) => rest = &rest[count..],
            Err(error) => {
                if error.kind() != ErrorKind::Interrupted {
                    return false;
                }
            }
        }
    }
    false
}

impl<W: Write + Drop> StdSink<W> {
    pub fn new(writer: W) -> StdSink<W>
        ensures { result ≡ record { faults = 0; held = W.contents writer } }
    {
        StdSink { writer, faults: 0 }
    }
}

impl<W: Write + Drop> Sink for StdSink<W> {
    ghost writing = { passing_writing };

    /// Writes and flushes, so that what was put has left the program.
    fn put(&mut self, bytes: &[u8]) -> Result<(), Failed>
        ensures ok { OnOk result (passing_writing self.new
            ≡ appended bytes.now (passing_writing self.old)) }
        ensures err { OnErr result (AppendsPrefix bytes.now (passing_writing self.old)
            (passing_writing self.new)) }
        ensures count { self.old.faults ≤ self.new.faults }
        ensures counted { OnErr result (MayFault self.old.faults self.new.faults) }

        // Each failure counts once, and the bytes reach the writer.
        ensures raised { OnErr result (self.new.faults ≡ raised self.old.faults) }
        ensures held { OnOk result (Appends self.old.held self.new.held bytes.now) }
        ensures front { OnErr result (HoldsFront bytes.now self.old.held self.new.held) }
    {
        if write_whole(&mut self.writer, bytes) && self.writer.flush().is_ok() {
            return Ok(());
        }
        self.faults = self.faults.saturating_add(1);
        Err(Failed)
    }
}
