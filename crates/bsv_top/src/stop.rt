ghost use Rattle.std.specs.Prelude.{◌≡◌};
ghost use Rattle.bsv_top.specs.Stops.{stop_of, stop_of_suite};
ghost use Rattle.bsv_top.specs.declared.stop.Stop.TheVariants as stop;

use bsv_bits::{Name, OutOfMemory};
use bsv_flow::{CompileFault, Refusal};
use bsv_suite::SuiteHalt;
use std::alloc::AllocError;

/// Why words that have a form are not done.
#[derive(Drop)]
pub(crate) enum Stop {
    /// What the file says is refused.
    Refused(Refusal),
    /// The file of this name could not be read.
    Unread(Name),
    Unwritable,
    OutOfMemory,
    /// The line of the trace that has this number is bad.
    BadLine(u64),
    /// The line of the list that has this number is bad.
    BadListLine(u64),
    /// So many traces of the list have a bad line.
    BadTraces(u64),
}

impl From<OutOfMemory> for Stop {
    ghost from_gives = { λ _ s. s ≡ stop.OutOfMemory };

    fn from(_error: OutOfMemory) -> Stop {
        Stop::OutOfMemory
    }
}

impl From<AllocError> for Stop {
    ghost from_gives = { λ _ s. s ≡ stop.OutOfMemory };

    fn from(_error: AllocError) -> Stop {
        Stop::OutOfMemory
    }
}

impl From<CompileFault> for Stop {
    ghost from_gives = { λ fault s. s ≡ stop_of fault };

    fn from(fault: CompileFault) -> Stop {
        match fault {
            CompileFault::Refused(refusal) => Stop::Refused(refusal),
            CompileFault::ReadFault(name) => Stop::Unread(name),
            CompileFault::OutOfMemory => Stop::OutOfMemory,
        }
    }
}

impl From<SuiteHalt> for Stop {
    ghost from_gives = { λ halt s. s ≡ stop_of_suite halt };

    fn from(halt: SuiteHalt) -> Stop {
        match halt {
            SuiteHalt::Unread(name) => Stop::Unread(name),
            SuiteHalt::Unwritable => Stop::Unwritable,
            SuiteHalt::OutOfMemory => Stop::OutOfMemory,
        }
    }
}
