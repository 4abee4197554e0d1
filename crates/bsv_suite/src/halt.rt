ghost use Rattle.std.specs.Prelude.{◌≡◌};
ghost use Rattle.bsv_suite.specs.declared.halt.ListHalt.TheVariants as list_halt;
ghost use Rattle.bsv_suite.specs.declared.halt.SuiteHalt.TheVariants as suite_halt;

use bsv_bits::{Name, OutOfMemory};
use bsv_io::{Failed, Unread};
use std::alloc::{AllocError, AllocFailed};

/// Why a list is not read to its end.
#[derive(Clone, Copy)]
pub enum ListHalt {
    /// The line of this number is bad.
    BadLine(u64),
    Unreadable,
    OutOfMemory,
}

impl From<Failed> for ListHalt {
    ghost from_gives = { λ _ h. h ≡ list_halt.Unreadable };

    fn from(_failed: Failed) -> ListHalt {
        ListHalt::Unreadable
    }
}

impl From<Unread> for ListHalt {
    ghost use Rattle.bsv_suite.specs.Halts.{list_halt_of};

    ghost from_gives = { λ u h. h ≡ list_halt_of u };

    fn from(unread: Unread) -> ListHalt {
        match unread {
            Unread::Failed => ListHalt::Unreadable,
            Unread::OutOfMemory => ListHalt::OutOfMemory,
        }
    }
}

impl From<OutOfMemory> for ListHalt {
    ghost from_gives = { λ _ h. h ≡ list_halt.OutOfMemory };

    fn from(_error: OutOfMemory) -> ListHalt {
        ListHalt::OutOfMemory
    }
}

impl<T: Drop> From<AllocFailed<T>> for ListHalt {
    ghost from_gives = { λ _ h. h ≡ list_halt.OutOfMemory };

    fn from(_failed: AllocFailed<T>) -> ListHalt {
        ListHalt::OutOfMemory
    }
}

impl From<AllocError> for ListHalt {
    ghost from_gives = { λ _ h. h ≡ list_halt.OutOfMemory };

    fn from(_error: AllocError) -> ListHalt {
        ListHalt::OutOfMemory
    }
}

/// Why a suite is not told to its end.
#[derive(Drop)]
pub enum SuiteHalt {
    /// The trace of this name could not be read.
    Unread(Name),
    Unwritable,
    OutOfMemory,
}

impl From<Failed> for SuiteHalt {
    ghost from_gives = { λ _ h. h ≡ suite_halt.Unwritable };

    fn from(_failed: Failed) -> SuiteHalt {
        SuiteHalt::Unwritable
    }
}

impl From<OutOfMemory> for SuiteHalt {
    ghost from_gives = { λ _ h. h ≡ suite_halt.OutOfMemory };

    fn from(_error: OutOfMemory) -> SuiteHalt {
        SuiteHalt::OutOfMemory
    }
}

impl<T: Drop> From<AllocFailed<T>> for SuiteHalt {
    ghost from_gives = { λ _ h. h ≡ suite_halt.OutOfMemory };

    fn from(_failed: AllocFailed<T>) -> SuiteHalt {
        SuiteHalt::OutOfMemory
    }
}

impl From<AllocError> for SuiteHalt {
    ghost from_gives = { λ _ h. h ≡ suite_halt.OutOfMemory };

    fn from(_error: AllocError) -> SuiteHalt {
        SuiteHalt::OutOfMemory
    }
}
