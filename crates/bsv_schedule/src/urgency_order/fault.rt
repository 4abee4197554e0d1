ghost use Rattle.std.specs.Prelude.{◌≡◌};
ghost use Rattle.bsv_schedule.specs.declared.urgency_order.fault.UrgencyFault.TheVariants as told;

use bsv_bits::OutOfMemory;
use bsv_design::Pair;
use thiserror::Error;

/// Why a design has no urgency order. Elements are told by their positions.
#[derive(Clone, Copy, Debug, PartialEq, Eq, Error)]
pub enum UrgencyFault {
    /// This pair is the first of `descending_urgency` and `preempts` that closes a cycle.
    #[error("a pair of `descending_urgency` or `preempts` closes a cycle")]
    UrgencyCycle(Pair),
    /// This method that acts is the least one after a rule, and this is the first rule.
    #[error("a method that acts stands behind a rule")]
    MethodBehindRule(u32, u32),
    #[error("out of memory")]
    OutOfMemory,
}

impl From<OutOfMemory> for UrgencyFault {
    ghost from_gives = { λ _ e. e ≡ told.OutOfMemory };

    fn from(_error: OutOfMemory) -> UrgencyFault {
        UrgencyFault::OutOfMemory
    }
}
