ghost use Rattle.std.specs.Prelude.{◌≡◌, IfOk};
ghost use Rattle.bsv_tree.specs.tree.Elements as spec;

use bsv_bits::{Name, OutOfMemory};
use bsv_design::NamedPart;
use bsv_tree::{Instance, Made};
use sqlite_items::Items;
use std::alloc::Global;

/// The primitives, in building order.
pub(crate) fn parts(alloc: Global, instances: &[Instance]) -> Result<Items<NamedPart>, OutOfMemory>
    ensures { IfOk result (λ parts. parts ≡ spec.parts_among instances.now) }
{
    let mut parts = Items::new(alloc);
    let mut rest = instances;
    while let Some((instance, after)) = rest.split_first() {
        if let Made::Primitive(_, kind) = &instance.made {
            let path = Name::new(alloc, instance.path.bytes())?;
            parts.push(NamedPart { path, kind: *kind })?;
        }
        rest = after;
    }
    Ok(parts)
}
