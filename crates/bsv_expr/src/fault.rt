ghost use Rattle.std.specs.Prelude.{◌≡◌};
ghost use Rattle.bsv_expr.specs.Reading as spec;
ghost use Rattle.bsv_expr.specs.declared.fault.ReadFault.TheVariants.{OutOfMemory};

use bsv_bits::OutOfMemory as NoMemory;
use std::alloc::{AllocError, AllocFailed};

/// Why nothing was read.
#[derive(Clone, Copy, Debug, PartialEq, Eq)]
pub enum ReadFault {
    /// Nothing goes on with the next token: so many tokens are left, and 0 at the end.
    Syntax(usize),
    /// More brackets are open at once than the reader was given.
    TooDeep,
    /// There was no memory for the tree.
    OutOfMemory,
}

/// Whether a part that could not be read may be left out: softly, where only nothing goes on.
pub fn forgives(soft: bool, fault: ReadFault) -> bool
    ensures { result ≡ spec.forgives soft fault }
{
    matches!((soft, fault), (true, ReadFault::Syntax(_)))
}

impl From<AllocError> for ReadFault {
    ghost from_gives = { λ _ e. e ≡ OutOfMemory };

    fn from(_error: AllocError) -> ReadFault {
        ReadFault::OutOfMemory
    }
}

impl<T: Drop> From<AllocFailed<T>> for ReadFault {
    ghost from_gives = { λ _ e. e ≡ OutOfMemory };

    fn from(_error: AllocFailed<T>) -> ReadFault {
        ReadFault::OutOfMemory
    }
}

impl From<NoMemory> for ReadFault {
    ghost from_gives = { λ _ e. e ≡ OutOfMemory };

    fn from(_error: NoMemory) -> ReadFault {
        ReadFault::OutOfMemory
    }
}
