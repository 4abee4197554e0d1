ghost use Rattle.std.specs.Prelude.{◌≡◌};
ghost use Rattle.bsv_schedule.specs.declared.execution_order.fault.OrderFault.TheVariants as told;

use bsv_bits::OutOfMemory;
use bsv_design::Pair;
use std::alloc::AllocError;
use thiserror::Error;

/// Why a design has no execution order. Elements are told by their positions.
#[derive(Clone, Copy, Debug, PartialEq, Eq, Error)]
pub enum OrderFault {
    /// This element is the least one on a cycle of feeds.
    #[error("elements feed one another in a cycle")]
    WireCycle(u32),
    /// This value method is the first that has no place among the others.
    #[error("a value method has no place in the order")]
    ValueClash(u32),
    /// This pair is the first of `execution_order` that closes a cycle.
    #[error("a pair of `execution_order` closes a cycle")]
    ExecutionCycle(Pair),
    #[error("out of memory")]
    OutOfMemory,
}

impl From<OutOfMemory> for OrderFault {
    ghost from_gives = { λ _ e. e ≡ told.OutOfMemory };

    fn from(_error: OutOfMemory) -> OrderFault {
        OrderFault::OutOfMemory
    }
}

impl From<AllocError> for OrderFault {
    ghost from_gives = { λ _ e. e ≡ told.OutOfMemory };

    fn from(_error: AllocError) -> OrderFault {
        OrderFault::OutOfMemory
    }
}
