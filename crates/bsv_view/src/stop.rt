use bsv_bits::Name;
use bsv_flow::{CompileFault, Refusal};
use bsv_waves::WavesFault;

/// Why words that have a form are not done.
#[derive(Debug, Drop)]
pub(crate) enum Stop {
    /// The design is refused.
    Refused(Refusal),
    /// The file of this name could not be read.
    Unread(Name),
    /// The line of this number is none of a trace.
    BadLine(u64),
    OutOfMemory,
}

impl From<CompileFault> for Stop {
    fn from(fault: CompileFault) -> Stop {
        match fault {
            CompileFault::Refused(refusal) => Stop::Refused(refusal),
            CompileFault::ReadFault(name) => Stop::Unread(name),
            CompileFault::OutOfMemory => Stop::OutOfMemory,
        }
    }
}

impl From<WavesFault> for Stop {
    fn from(fault: WavesFault) -> Stop {
        match fault {
            WavesFault::Compile(fault) => Stop::from(fault),
            WavesFault::ReadFault(name) => Stop::Unread(name),
            WavesFault::BadLine(number) => Stop::BadLine(number),
            WavesFault::OutOfMemory => Stop::OutOfMemory,
        }
    }
}
