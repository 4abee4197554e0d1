ghost use Rattle.std.specs.Prelude.{◌≡◌, IfOk};
ghost use Rattle.bsv_design.specs.design.Paths.{with_dot};

use bsv_bits::{Name, OutOfMemory};
use std::alloc::Global;

/// The path of what has the name in the instance of a path. The top has the empty path.
pub fn path_of(alloc: Global, path: &[u8], name: &[u8]) -> Result<Name, OutOfMemory>
    ensures { IfOk result (λ whole. whole ≡ with_dot path.now name.now) }
{
    if path.is_empty() {
        return Name::new(alloc, name);
    }
    let mut text = Vec::from_slice(alloc, path)?;
    text.extend_from_slice(b".")?;
    text.extend_from_slice(name)?;
    Name::new(alloc, text.as_slice())
}
