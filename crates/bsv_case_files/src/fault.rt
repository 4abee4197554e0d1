use std::alloc::{AllocError, AllocFailed};

/// Why the cases of a file are not read.
#[derive(Drop)]
pub enum Unread {
    OutOfMemory,
    /// The line with a fault, and what it is.
    Fault(usize, &'static str),
}

impl From<AllocError> for Unread {
    fn from(_error: AllocError) -> Unread {
        Unread::OutOfMemory
    }
}

impl<T: Drop> From<AllocFailed<T>> for Unread {
    fn from(_error: AllocFailed<T>) -> Unread {
        Unread::OutOfMemory
    }
}
