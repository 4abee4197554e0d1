ghost use Rattle.std.specs.Prelude.{◌≡◌, ◌≤◌, [], OnOk, OnErr};
ghost use Rattle.bsv_io.specs.Faults.{MayFault};
ghost use Rattle.bsv_io.specs.InMemory.{grow_writing};
ghost use Rattle.bsv_io.specs.Standing.{raised};
ghost use Rattle.bsv_io.specs.Writing.{appended, AppendsPrefix};

use crate::failed::Failed;
use crate::sink::Sink;
use std::alloc::Global;
use std::marker::Model;

/// A sink in memory that grows with what is put to it, by the allocator that it was made with. A call for which there is
/// no memory fails.
#[derive(Drop)]
pub struct GrowSink {
    bytes: Vec<u8>,
    faults: u64,
}

impl Model for GrowSink {
    ghost use Rattle.bsv_io.specs.InMemory.{GrowTarget};

    ghost Value = { GrowTarget };

    ghost view = { λ s. record { bytes = s.bytes.items; faults = s.faults } };
}

impl GrowSink {
    /// An empty sink, which takes no memory yet.
    pub fn new(alloc: Global) -> GrowSink
        ensures { result ≡ record { bytes = []; faults = 0 } }
    {
        GrowSink {
            bytes: Vec::new(alloc),
            faults: 0,
        }
    }

    /// The bytes that were put.
    pub fn bytes(self) -> Vec<u8>
        ensures { result.items ≡ self.bytes }
    {
        self.bytes
    }
}

impl Sink for GrowSink {
    ghost writing = { grow_writing };

    fn put(&mut self, bytes: &[u8]) -> Result<(), Failed>
        ensures ok { OnOk result (grow_writing self.new
            ≡ appended bytes.now (grow_writing self.old)) }
        ensures err { OnErr result (AppendsPrefix bytes.now (grow_writing self.old)
            (grow_writing self.new)) }
        ensures count { (grow_writing self.old).faults ≤ (grow_writing self.new).faults }
        ensures counted { OnErr result (MayFault (grow_writing self.old).faults
            (grow_writing self.new).faults) }

        // What else it changes: a failed call has put nothing.
        ensures none { OnErr result (self.new.bytes ≡ self.old.bytes) }
        ensures same { OnOk result (self.new.faults ≡ self.old.faults) }
        ensures raised { OnErr result (self.new.faults ≡ raised self.old.faults) }
    {
        if self.bytes.extend_from_slice(bytes).is_err() {
            self.faults = self.faults.saturating_add(1);
            return Err(Failed);
        }
        Ok(())
    }
}
