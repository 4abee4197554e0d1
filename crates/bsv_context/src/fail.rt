ghost use Rattle.std.specs.Prelude.{◌≡◌};
ghost use Rattle.bsv_context.specs.declared.fail.Fail.TheVariants.{Memory};

use bsv_bits::OutOfMemory;
use std::alloc::{AllocError, AllocFailed};

/// Why there is no typed expression.
#[derive(Debug, Drop)]
pub enum Fail {
    /// Memory ran out.
    Memory,
    /// There is no typing.
    Fault,
}

impl From<AllocError> for Fail {
    ghost from_gives = { λ _ e. e ≡ Memory };

    fn from(_error: AllocError) -> Fail {
        Fail::Memory
    }
}

impl<T: Drop> From<AllocFailed<T>> for Fail {
    ghost from_gives = { λ _ e. e ≡ Memory };

    fn from(_error: AllocFailed<T>) -> Fail {
        Fail::Memory
    }
}

impl From<OutOfMemory> for Fail {
    ghost from_gives = { λ _ e. e ≡ Memory };

    fn from(_error: OutOfMemory) -> Fail {
        Fail::Memory
    }
}
