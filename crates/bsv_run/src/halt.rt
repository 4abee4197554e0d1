ghost use Rattle.std.specs.Prelude.{◌≡◌};
ghost use Rattle.bsv_run.specs.declared.halt.Halt.TheVariants as halt;

use bsv_io::Failed;
use bsv_trace::BadLine;

/// Why a trace is not run to its end: a line is bad, or the source or the sink failed.
#[derive(Clone, Copy)]
pub enum Halt {
    BadLine,
    Unreadable,
    Unwritable,
}

impl From<BadLine> for Halt {
    ghost from_gives = { λ _ h. h ≡ halt.BadLine };

    fn from(_line: BadLine) -> Halt {
        Halt::BadLine
    }
}

impl From<Failed> for Halt {
    ghost from_gives = { λ _ h. h ≡ halt.Unwritable };

    fn from(_failed: Failed) -> Halt {
        Halt::Unwritable
    }
}
