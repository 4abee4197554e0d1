ghost use Rattle.std.specs.Prelude.{◌≡◌};
ghost use Rattle.bsv_elab.specs.declared.fault.ElabFault.TheVariants as told;

use crate::refused::LimitKind;
use bsv_bits::{Name, OutOfMemory};
use bsv_design::Attribute;
use thiserror::Error;

/// Why a design has no tree.
#[derive(Debug, Drop, Error)]
pub enum ElabFault {
    /// No module has the name and no parameters.
    #[error("no such module")]
    NoSuchModule(Name),
    /// Something has to be static, or a number leaves its range, in this module.
    #[error("not static")]
    StaticFault(Name),
    /// A loop of this module begins a turn after its 4,096th.
    #[error("a loop without an end")]
    Loop(Name),
    /// This module is made inside itself.
    #[error("a module inside itself")]
    Recursion(Name),
    /// The path stands for two.
    #[error("a name that is taken")]
    NameTaken(Name),
    #[error("a limit is passed")]
    Limit(LimitKind, u64),
    /// The attribute names no rule.
    #[error("no such rule")]
    NoSuchRule(Attribute, Name),
    #[error("out of memory")]
    OutOfMemory,
}

impl From<OutOfMemory> for ElabFault {
    ghost from_gives = { λ _ e. e ≡ told.OutOfMemory };

    fn from(_error: OutOfMemory) -> ElabFault {
        ElabFault::OutOfMemory
    }
}
