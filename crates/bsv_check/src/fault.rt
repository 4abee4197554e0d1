ghost use Rattle.std.specs.Prelude.{◌≡◌};
ghost use Rattle.bsv_check.specs.declared.fault.CheckFault.TheVariants as check_fault;

use bsv_bits::OutOfMemory;
use bsv_names::Place;
use thiserror::Error;

/// Why a program has no typed tree.
#[derive(Clone, Copy, Debug, Error, PartialEq, Eq)]
pub enum CheckFault {
    /// Memory ran out.
    #[error("out of memory")]
    OutOfMemory,
    /// A name is defined twice in one scope; here stands the later definition.
    #[error("twice defined")]
    TwiceDefined(Place),
    /// An attribute is malformed.
    #[error("bad attribute")]
    BadAttribute(Place),
    /// A name has no definition in scope.
    #[error("unknown name")]
    UnknownName(Place),
    /// There is no typing, widths and fits left aside.
    #[error("type fault")]
    TypeFault(Place),
    /// There is a typing, but a width is outside 1 to 128, or a literal or a range does not fit.
    #[error("width fault")]
    WidthFault(Place),
}

impl From<OutOfMemory> for CheckFault {
    ghost from_gives = { λ _ e. e ≡ check_fault.OutOfMemory };

    fn from(_error: OutOfMemory) -> CheckFault {
        CheckFault::OutOfMemory
    }
}
