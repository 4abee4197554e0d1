ghost use Rattle.std.specs.Prelude.{◌≡◌};
ghost use Rattle.bsv_guard.specs.declared.fault.GuardFault.TheVariants as told;

use bsv_bits::OutOfMemory;
use std::alloc::AllocError;
use thiserror::Error;

/// Why a design has no guards.
#[derive(Clone, Copy, Debug, PartialEq, Eq, Error)]
pub enum GuardFault {
    /// In this element, calls of this part by these two methods break the rule of one element.
    #[error("two calls that may not stand in one element")]
    InRule(u32, u32, u32, u32),
    #[error("out of memory")]
    OutOfMemory,
}

impl From<OutOfMemory> for GuardFault {
    ghost from_gives = { λ _ e. e ≡ told.OutOfMemory };

    fn from(_error: OutOfMemory) -> GuardFault {
        GuardFault::OutOfMemory
    }
}

impl From<AllocError> for GuardFault {
    ghost from_gives = { λ _ e. e ≡ told.OutOfMemory };

    fn from(_error: AllocError) -> GuardFault {
        GuardFault::OutOfMemory
    }
}
