ghost use Rattle.std.specs.Prelude.{◌≡◌, ◌++◌, ◌∷◌, [], if◌then◌else◌, OnOk};

use sqlite_items::Items;
use std::alloc::AllocError;

/// The item is added where it passes.
pub(crate) fn push_if<T: Drop>(
    passes: bool,
    item: T,
    items: &mut Items<T>,
) -> Result<(), AllocError>
    ensures { OnOk result (items.new ≡ items.old ++ (if passes then item ∷ [] else [])) }
{
    if passes {
        items.push(item)?;
    }
    Ok(())
}
