ghost use Rattle.std.specs.Prelude.{◌≡◌, ◌<◌, ◌≤◌, length, None, Some, IsSome, IfOk, IfSome, OnOk, OnErr};
ghost use Rattle.bsv_io.specs.Faults.{MayFault};
ghost use Rattle.bsv_io.specs.Reading.{Reading, Gives, chosen, advanced, current_name, rest};

use crate::failed::Failed;
use bsv_bits::Name;

/// A source of files. A file is chosen by its name, and is then read piece by piece from its
/// start.
///
/// A source counts its faults, and the count never falls. It tells the name that its last failed
/// call was about. It tells the contents of its files, or tells nothing of them.
pub trait Files {
    /// What the source tells of itself.
    ghost reading: { Self → Reading };

    /// Makes the file of this name the current one, at its start. Of a failed call no file is
    /// current.
    fn choose(&mut self, name: Name) -> Result<(), Failed>
        ensures ok { OnOk result (reading self.new ≡ chosen name (reading self.old)) }
        ensures err { OnErr result (reading self.new ≡ record (reading self.old) {
          faults = (reading self.new).faults;
          blamed = Some name;
          current = None;
        }) }
        ensures count { (reading self.old).faults ≤ (reading self.new).faults }
        ensures counted { OnErr result (MayFault (reading self.old).faults
            (reading self.new).faults) };

    /// Puts the next bytes of the current file in front of the buffer, and answers how many; 0
    /// only at the end. A failed call leaves the place in the file as it was.
    fn read(&mut self, buf: &mut [u8]) -> Result<usize, Failed>
        requires room { 0 < length buf.old }
        requires current { IsSome (reading self.old).current }
        ensures within { IfOk result (λ n. n ≤ length buf.new) }
        ensures ok { IfOk result (λ n. reading self.new ≡ advanced n (reading self.old)) }
        ensures bytes { IfOk result (λ n. IfSome (rest (reading self.old)) (Gives n buf.new)) }
        ensures err { OnErr result (reading self.new ≡ record (reading self.old) {
          faults = (reading self.new).faults;
          blamed = current_name (reading self.old);
        }) }
        ensures count { (reading self.old).faults ≤ (reading self.new).faults }
        ensures counted { OnErr result (MayFault (reading self.old).faults
            (reading self.new).faults) };
}
