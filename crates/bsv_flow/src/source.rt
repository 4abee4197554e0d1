ghost use Rattle.std.specs.Prelude.{◌≡◌, ℕ, ◌<◌, ◌≤◌, List, take, Some, Err, IfOk};
ghost use Rattle.bsv_io.specs.Reading.{bytes_given};
ghost use Rattle.bsv_io.specs.Faults.{MayFault};
ghost use Rattle.bsv_flow.specs.Sources.{read_limit};
ghost use Rattle.bsv_flow.specs.declared.refusal.CompileFault.TheVariants.{Refused, ReadFault};
ghost use Rattle.bsv_flow.specs.declared.refusal.Refusal.{Refusal as TheRefusal};

use crate::refusal::CompileFault;
use bsv_bits::Name;
use bsv_io::{Files, Unread, read_up_to};
use std::alloc::Global;
use std::marker::Model;

/// How many bytes of a source are read: one more than a source may have.
const READ_LIMIT: usize = 1_048_577;

/// The bytes of a source. Contracts see the list of them.
#[derive(Debug, Drop)]
pub struct Source {
    bytes: Vec<u8>,
}

impl Model for Source {
    ghost use Rattle.std.specs.Prelude.{List, ℕ};

    ghost Value = { List ℕ };

    ghost view = { λ source. source.bytes.items };
}

impl Source {
    /// These bytes.
    pub fn new(bytes: Vec<u8>) -> Source
        ensures { result ≡ bytes.items }
    {
        Source { bytes }
    }

    /// The bytes.
    pub fn bytes(&self) -> &[u8]
        ensures { result.now ≡ self.now }
    {
        self.bytes.as_slice()
    }
}

/// Reads the file of a name up to one byte more than a source may have.
pub(crate) fn read_source<F: Files>(
    alloc: Global,
    files: &mut F,
    name: &[u8],
) -> Result<Source, CompileFault>
    ensures source { IfOk result (λ source. (contents : List ℕ → List ℕ)
        → (F.reading files.old).contents ≡ Some contents
        → source ≡ take read_limit (contents name.now)) }
    ensures within { read_limit < bytes_given (F.reading files.new)
        → (F.reading files.new).current ≡ (F.reading files.old).current }
    ensures contents { (F.reading files.new).contents ≡ (F.reading files.old).contents }
    ensures failed { (blamed : List ℕ) → result ≡ Err (ReadFault blamed)
        → MayFault (F.reading files.old).faults (F.reading files.new).faults
        × ((F.reading files.new).blamed ≡ Some blamed) × (blamed ≡ name.now) }
    ensures own { (r : TheRefusal) → result ≡ Err (Refused r) → ⊥ }
    ensures count { (F.reading files.old).faults ≤ (F.reading files.new).faults }
    ensures kept { ((blamed : List ℕ) → result ≡ Err (ReadFault blamed) → ⊥)
        → (F.reading files.new).faults ≡ (F.reading files.old).faults }
{
    let blamed = Name::new(alloc, name)?;
    match read_up_to(alloc, files, name, READ_LIMIT) {
        Ok(bytes) => Ok(Source::new(bytes)),
        Err(Unread::Failed) => Err(CompileFault::ReadFault(blamed)),
        Err(Unread::OutOfMemory) => Err(CompileFault::OutOfMemory),
    }
}
