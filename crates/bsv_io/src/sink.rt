ghost use Rattle.std.specs.Prelude.{◌≡◌, ◌≤◌, OnOk, OnErr};
ghost use Rattle.bsv_io.specs.Faults.{MayFault};
ghost use Rattle.bsv_io.specs.Writing.{Writing, appended, AppendsPrefix};

use crate::failed::Failed;

/// Where bytes are put, one piece after the other.
///
/// A sink counts its faults, and the count never falls. It tells the bytes that were put to it, or
/// their number, or tells nothing of them.
pub trait Sink {
    /// What the sink tells of itself.
    ghost writing: { Self → Writing };

    /// Appends all the bytes. A failed call has appended a prefix of them.
    fn put(&mut self, bytes: &[u8]) -> Result<(), Failed>
        ensures ok { OnOk result (writing self.new ≡ appended bytes.now (writing self.old)) }
        ensures err { OnErr result (AppendsPrefix bytes.now (writing self.old) (writing self.new)) }
        ensures count { (writing self.old).faults ≤ (writing self.new).faults }
        ensures counted { OnErr result (MayFault (writing self.old).faults
            (writing self.new).faults) };
}
