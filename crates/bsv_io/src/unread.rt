ghost use Rattle.std.specs.Prelude.{◌≡◌};
ghost use Rattle.bsv_io.specs.declared.unread.Unread.TheVariants as unread;

use crate::failed::Failed;
use bsv_bits::OutOfMemory;
use std::alloc::AllocError;

/// Why a file was not read.
#[derive(Clone, Copy)]
pub enum Unread {
    Failed,
    OutOfMemory,
}

impl From<Failed> for Unread {
    ghost from_gives = { λ _ u. u ≡ unread.Failed };

    fn from(_failed: Failed) -> Unread {
        Unread::Failed
    }
}

impl From<OutOfMemory> for Unread {
    ghost from_gives = { λ _ u. u ≡ unread.OutOfMemory };

    fn from(_error: OutOfMemory) -> Unread {
        Unread::OutOfMemory
    }
}

impl From<AllocError> for Unread {
    ghost from_gives = { λ _ u. u ≡ unread.OutOfMemory };

    fn from(_error: AllocError) -> Unread {
        Unread::OutOfMemory
    }
}
