use bsv_bits::{Name, OutOfMemory};
use bsv_flow::CompileFault;
use bsv_trace::BadLine;
use std::alloc::AllocError;

/// Why there are no waves, or not those of a whole trace.
#[derive(Debug, Drop)]
pub enum WavesFault {
    /// The design was not compiled.
    Compile(CompileFault),
    /// The trace of this name could not be read.
    ReadFault(Name),
    /// The line of this number is none of a trace.
    BadLine(u64),
    /// There was no memory.
    OutOfMemory,
}

impl From<CompileFault> for WavesFault {
    fn from(fault: CompileFault) -> WavesFault {
        WavesFault::Compile(fault)
    }
}

impl From<OutOfMemory> for WavesFault {
    fn from(_error: OutOfMemory) -> WavesFault {
        WavesFault::OutOfMemory
    }
}

impl From<AllocError> for WavesFault {
    fn from(_error: AllocError) -> WavesFault {
        WavesFault::OutOfMemory
    }
}

/// Why a trace is not run to its end.
#[derive(Clone, Copy)]
pub(crate) enum Halt {
    BadLine,
    Unreadable,
}

impl From<BadLine> for Halt {
    fn from(_line: BadLine) -> Halt {
        Halt::BadLine
    }
}
