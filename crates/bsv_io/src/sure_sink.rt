ghost use Rattle.std.specs.Prelude.{◌≡◌, ◌+◌, ◌≤◌, ◌%◌, ◌^◌, length, IsOk, OnOk, OnErr};
ghost use Rattle.bsv_io.specs.Faults.{MayFault};
ghost use Rattle.bsv_io.specs.InMemory.{sure_writing};
ghost use Rattle.bsv_io.specs.Sure.{NoFault};
ghost use Rattle.bsv_io.specs.Writing.{appended, AppendsPrefix};

use crate::failed::Failed;
use crate::sink::Sink;
use std::marker::Model;

/// A sink that never fails and keeps no bytes, but only their number. Contracts see the number.
#[derive(Drop)]
pub struct SureSink {
    taken: u64,
}

impl Model for SureSink {
    ghost use Rattle.std.specs.Prelude.{ℕ};

    ghost Value = { ℕ };

    ghost view = { λ sink. sink.taken };
}

impl SureSink {
    pub fn new() -> SureSink
        ensures { result ≡ 0 }
    {
        SureSink { taken: 0 }
    }

    /// How many bytes were put, modulo 2^64.
    pub fn taken(&self) -> u64
        ensures { result ≡ self.now }
    {
        self.taken
    }
}

impl Sink for SureSink {
    ghost writing = { sure_writing };

    fn put(&mut self, bytes: &[u8]) -> Result<(), Failed>
        ensures ok { OnOk result (sure_writing self.new
            ≡ appended bytes.now (sure_writing self.old)) }
        ensures err { OnErr result (AppendsPrefix bytes.now (sure_writing self.old)
            (sure_writing self.new)) }
        ensures count { (sure_writing self.old).faults ≤ (sure_writing self.new).faults }
        ensures counted { OnErr result (MayFault (sure_writing self.old).faults
            (sure_writing self.new).faults) }

        // No call fails, and the bytes are counted.
        ensures sure { IsOk result }
        ensures never { NoFault (sure_writing self.old).faults (sure_writing self.new).faults }
        ensures taken { self.new ≡ (self.old + length bytes.now) % 2 ^ 64 }
    {
        self.taken = self.taken.wrapping_add(bytes.len() as u64);
        Ok(())
    }
}
