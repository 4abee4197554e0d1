ghost use Rattle.std.specs.Prelude.{◌≡◌, ◌≤◌, ◌++◌, length, take, not, [], IsOk, IfOk, OnOk, OnErr, is_ok, if◌then◌else◌};
ghost use Rattle.bsv_io.specs.Calls.{called};
ghost use Rattle.bsv_io.specs.Faults.{MayFault};
ghost use Rattle.bsv_io.specs.InMemory.{mem_writing, must_fail, kept_count};
ghost use Rattle.bsv_io.specs.Standing.{raised};
ghost use Rattle.bsv_io.specs.Writing.{appended, AppendsPrefix};

use crate::calls::FailingCalls;
use crate::failed::Failed;
use crate::sink::Sink;
use bsv_bits::OutOfMemory;
use std::alloc::Global;
use std::marker::Model;

/// A sink in memory, for tests: calls that are listed by their numbers fail, and so do those that
/// find too little room.
#[derive(Drop)]
pub struct MemSink {
    bytes: Vec<u8>,
    room: usize,
    calls: FailingCalls,
    faults: u64,
}

impl Model for MemSink {
    ghost use Rattle.std.specs.Prelude.{◌≤◌, vec_len, vec_capacity};
    ghost use Rattle.bsv_io.specs.InMemory.{MemTarget};

    ghost Value = { MemTarget };

    ghost view = { λ s. record {
      bytes = s.bytes.items;
      room = s.room;
      plan = s.calls;
      faults = s.faults;
    } };

    ghost invariant = { λ s. (vec_len s.bytes ≤ s.room) × (s.room ≤ vec_capacity s.bytes) };
}

impl MemSink {
    /// A sink with room for so many bytes in all, which takes its memory now. The calls with these
    /// numbers fail; calls of `put` are numbered from 0.
    pub fn new(alloc: Global, room: usize, failing: Vec<u64>) -> Result<MemSink, OutOfMemory>
        ensures { IfOk result (λ s. s ≡ record {
          bytes = [];
          room = room;
          plan = record { failing = failing.items; made = 0 };
          faults = 0;
        }) }
    {
        Ok(MemSink {
            bytes: Vec::with_capacity(alloc, room)?,
            room,
            calls: FailingCalls::new(failing),
            faults: 0,
        })
    }

    /// The bytes that were put.
    pub fn bytes(&self) -> &[u8]
        ensures { result.now ≡ self.now.bytes }
    {
        self.bytes.as_slice()
    }
}

impl Sink for MemSink {
    ghost writing = { mem_writing };

    fn put(&mut self, bytes: &[u8]) -> Result<(), Failed>
        ensures ok { OnOk result (mem_writing self.new
            ≡ appended bytes.now (mem_writing self.old)) }
        ensures err { OnErr result (AppendsPrefix bytes.now (mem_writing self.old)
            (mem_writing self.new)) }
        ensures count { (mem_writing self.old).faults ≤ (mem_writing self.new).faults }
        ensures counted { OnErr result (MayFault (mem_writing self.old).faults
            (mem_writing self.new).faults) }

        // Which calls fail, how much a call keeps, and all else that it changes.
        ensures fails { is_ok result ≡ not (must_fail (length bytes.now) self.old) }
        ensures kept { self.new.bytes ≡ self.old.bytes ++ take
            (kept_count (length bytes.now) self.old) bytes.now }
        ensures room { self.new.room ≡ self.old.room }
        ensures numbered { self.new.plan ≡ called self.old.plan }
        ensures same { OnOk result (self.new.faults ≡ self.old.faults) }
        ensures raised { OnErr result (self.new.faults ≡ raised self.old.faults) }
    {
        let listed = self.calls.next_fails();
        let wanted = if listed { bytes.len() / 2 } else { bytes.len() };
        let kept = wanted.min(self.room - self.bytes.len());
        let _ = self.bytes.extend_from_slice(&bytes[..kept]);
        if listed || kept < wanted {
            self.faults = self.faults.saturating_add(1);
            return Err(Failed);
        }
        Ok(())
    }
}
