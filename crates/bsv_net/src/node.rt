ghost use Rattle.std.specs.Prelude.{◌≡◌, IfOk};

use bsv_bits::{Operator, Word};
use sqlite_items::Items;
use std::alloc::{AllocError, Global};

/// A word, computed of the registers, the inputs and the words before it. A number names a node by its place.
#[derive(Clone, Copy, Debug, PartialEq, Eq)]
pub enum NetNode {
    /// The input of this place.
    Input(u32),
    /// The register of this place.
    Register(u32),
    Constant(Word),
    Not(u32),
    Two(Operator, u32, u32),
    /// The second one where the first one is 1, else the third one.
    Pick(u32, u32, u32),
    /// The bits from the second number to the first one.
    Slice(u32, u32, u32),
    /// The bits of the first one above those of the second one.
    Join(u32, u32),
    Extend(u32, u32),
    SignExtend(u32, u32),
}

/// The nodes of one call of an element.
#[derive(Drop)]
pub struct Site {
    /// The node that is 1 where the arms are taken in which the call stands.
    pub taken: u32,
    /// Those of its arguments.
    pub args: Items<u32>,
}

impl Site {
    /// Equal nodes of a call.
    pub(crate) fn copy(&self, alloc: Global) -> Result<Site, AllocError>
        ensures { IfOk result (λ site. site ≡ self.now) }
    {
        Ok(Site {
            taken: self.taken,
            args: Items::from_slice(alloc, self.args.as_slice())?,
        })
    }
}
