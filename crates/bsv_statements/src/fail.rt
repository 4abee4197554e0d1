ghost use Rattle.std.specs.Prelude.{◌≡◌};
ghost use Rattle.bsv_statements.specs.declared.fail.BodyFail.TheVariants.{Memory};

use bsv_ast::Span;
use bsv_bits::OutOfMemory;
use std::alloc::{AllocError, AllocFailed};

/// Why a statement or a definition has no typing.
#[derive(Debug, Drop)]
pub enum BodyFail {
    /// Memory ran out.
    Memory,
    /// The statement or the definition at this place has none.
    At(Span),
}

impl From<AllocError> for BodyFail {
    ghost from_gives = { λ _ e. e ≡ Memory };

    fn from(_error: AllocError) -> BodyFail {
        BodyFail::Memory
    }
}

impl<T: Drop> From<AllocFailed<T>> for BodyFail {
    ghost from_gives = { λ _ e. e ≡ Memory };

    fn from(_error: AllocFailed<T>) -> BodyFail {
        BodyFail::Memory
    }
}

impl From<OutOfMemory> for BodyFail {
    ghost from_gives = { λ _ e. e ≡ Memory };

    fn from(_error: OutOfMemory) -> BodyFail {
        BodyFail::Memory
    }
}
