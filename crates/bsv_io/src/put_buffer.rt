ghost use Rattle.std.specs.Prelude.{◌≡◌, ◌+◌, ◌≤◌, ◌⊎◌, [], ◌++◌, length, OnOk, OnErr};
ghost use Rattle.bsv_io.specs.Faults.{MayFault};
ghost use Rattle.bsv_io.specs.Writing.{appended, joined, AppendsPrefix};

use crate::failed::Failed;
use crate::sink::Sink;
use arrayvec::ArrayVec;
use std::marker::Model;

/// Bytes that wait to be put to a sink, up to 4,096, so that a text which is made piece by piece
/// goes to the sink in one call of `put` where it fits. It takes no memory.
///
/// After a call that failed nothing waits: no byte is put twice, and those that were not put are
/// given up.
#[derive(Drop)]
pub struct PutBuffer {
    waiting: ArrayVec<u8, 4096>,
}

impl Model for PutBuffer {
    ghost use Rattle.std.specs.Prelude.{List, ℕ};

    ghost Value = { List ℕ };

    ghost view = { λ buffer. buffer.waiting.items };
}

impl PutBuffer {
    /// Nothing waits.
    pub fn new() -> PutBuffer
        ensures { result ≡ [] }
    {
        PutBuffer {
            waiting: ArrayVec::new(),
        }
    }

    /// Adds bytes after those that wait. Bytes that do not fit make room by a `put` of what
    /// waits; a piece of more than 4,096 bytes is put by itself.
    pub fn add<S: Sink>(&mut self, sink: &mut S, bytes: &[u8]) -> Result<(), Failed>
        ensures ok { OnOk result (appended self.new (S.writing sink.new)
            ≡ appended (self.old ++ bytes.now) (S.writing sink.old)) }
        ensures err { OnErr result (self.new ≡ []) }
        ensures prefix { AppendsPrefix (self.old ++ bytes.now) (S.writing sink.old)
            (S.writing sink.new) }
        ensures count { (S.writing sink.old).faults ≤ (S.writing sink.new).faults }
        ensures counted { OnErr result (MayFault (S.writing sink.old).faults
            (S.writing sink.new).faults) }
    {
        self.make_room(sink, bytes.len())?;
        self.extend_or_put(sink, bytes)
    }

    /// Adds the pieces in order, as `add` adds each.
    pub fn add_all<S: Sink>(&mut self, sink: &mut S, pieces: &[&[u8]]) -> Result<(), Failed>
        ensures ok { OnOk result (appended self.new (S.writing sink.new)
            ≡ appended (self.old ++ joined pieces.now) (S.writing sink.old)) }
        ensures err { OnErr result (self.new ≡ []) }
        ensures prefix { AppendsPrefix (self.old ++ joined pieces.now) (S.writing sink.old)
            (S.writing sink.new) }
        ensures count { (S.writing sink.old).faults ≤ (S.writing sink.new).faults }
        ensures counted { OnErr result (MayFault (S.writing sink.old).faults
            (S.writing sink.new).faults) }
    {
        for piece in pieces {
            self.add(sink, piece)?;
        }
        Ok(())
    }

    /// Leaves room for so many bytes, or nothing that waits.
    fn make_room<S: Sink>(&mut self, sink: &mut S, len: usize) -> Result<(), Failed>
        ensures room { OnOk result (length self.new + len ≤ 4096 ⊎ self.new ≡ []) }
        ensures ok { OnOk result (appended self.new (S.writing sink.new)
            ≡ appended self.old (S.writing sink.old)) }
        ensures err { OnErr result (self.new ≡ []) }
        ensures prefix { AppendsPrefix self.old (S.writing sink.old) (S.writing sink.new) }
        ensures count { (S.writing sink.old).faults ≤ (S.writing sink.new).faults }
        ensures counted { OnErr result (MayFault (S.writing sink.old).faults
            (S.writing sink.new).faults) }
    {
        if self.waiting.remaining_capacity() < len {
            self.flush(sink)?;
        }
        Ok(())
    }

    /// Keeps bytes that fit, and puts a piece that is longer than the whole buffer.
    fn extend_or_put<S: Sink>(&mut self, sink: &mut S, bytes: &[u8]) -> Result<(), Failed>
        requires { length self.old + length bytes.now ≤ 4096 ⊎ self.old ≡ [] }
        ensures ok { OnOk result (appended self.new (S.writing sink.new)
            ≡ appended (self.old ++ bytes.now) (S.writing sink.old)) }
        ensures err { OnErr result (self.new ≡ []) }
        ensures prefix { AppendsPrefix (self.old ++ bytes.now) (S.writing sink.old)
            (S.writing sink.new) }
        ensures count { (S.writing sink.old).faults ≤ (S.writing sink.new).faults }
        ensures counted { OnErr result (MayFault (S.writing sink.old).faults
            (S.writing sink.new).faults) }
    {
        if self.waiting.try_extend_from_slice(bytes).is_ok() {
            return Ok(());
        }
        sink.put(bytes)
    }

    /// Puts what waits. Nothing is put where nothing waits.
    pub fn flush<S: Sink>(&mut self, sink: &mut S) -> Result<(), Failed>
        ensures empty { self.new ≡ [] }
        ensures ok { OnOk result (S.writing sink.new ≡ appended self.old (S.writing sink.old)) }
        ensures prefix { AppendsPrefix self.old (S.writing sink.old) (S.writing sink.new) }
        ensures count { (S.writing sink.old).faults ≤ (S.writing sink.new).faults }
        ensures counted { OnErr result (MayFault (S.writing sink.old).faults
            (S.writing sink.new).faults) }
    {
        if self.waiting.is_empty() {
            return Ok(());
        }
        let put = sink.put(self.waiting.as_slice());
        self.waiting.clear();
        put
    }
}

/// Puts a text that comes in pieces.
pub fn put_all<S: Sink>(sink: &mut S, pieces: &[&[u8]]) -> Result<(), Failed>
    ensures ok { OnOk result (S.writing sink.new
        ≡ appended (joined pieces.now) (S.writing sink.old)) }
    ensures prefix { AppendsPrefix (joined pieces.now) (S.writing sink.old) (S.writing sink.new) }
    ensures count { (S.writing sink.old).faults ≤ (S.writing sink.new).faults }
    ensures counted { OnErr result (MayFault (S.writing sink.old).faults
        (S.writing sink.new).faults) }
{
    let mut buffer = PutBuffer::new();
    buffer.add_all(sink, pieces)?;
    buffer.flush(sink)
}
