ghost use Rattle.std.specs.Prelude.{◌≡◌};
ghost use Rattle.bsv_fail.specs.declared.fail.Fail.TheVariants.{Memory};

use bsv_bits::OutOfMemory;
use std::alloc::{AllocError, AllocFailed};

/// Why there is no answer.
#[derive(Clone, Copy, Debug, Drop, PartialEq, Eq)]
pub enum Fail<E> {
    /// Memory ran out.
    Memory,
    /// What was read is at fault.
    Fault(E),
}

impl<E> From<AllocError> for Fail<E> {
    ghost from_gives = { λ _ e. e ≡ Memory };

    fn from(_error: AllocError) -> Fail<E> {
        Fail::Memory
    }
}

impl<E, T: Drop> From<AllocFailed<T>> for Fail<E> {
    ghost from_gives = { λ _ e. e ≡ Memory };

    fn from(_error: AllocFailed<T>) -> Fail<E> {
        Fail::Memory
    }
}

impl<E> From<OutOfMemory> for Fail<E> {
    ghost from_gives = { λ _ e. e ≡ Memory };

    fn from(_error: OutOfMemory) -> Fail<E> {
        Fail::Memory
    }
}
