ghost use Rattle.std.specs.Prelude.{◌≡◌, IfOk, Ok, map};

use std::alloc::{AllocFailed, Global};

/// What the workers of a parallel call made, in their order, where each of them made it.
pub fn all_made<T: Drop, E: Drop + From<AllocFailed<T>>>(
    alloc: Global,
    mut made: Vec<Result<T, E>>,
) -> Result<Vec<T>, E>
    ensures { IfOk result (λ all. made.items ≡ map Ok all.items) }
{
    let mut all = Vec::new(alloc);
    while !made.is_empty() {
        let one = made.remove(0);
        all.push(one?)?;
    }
    Ok(all)
}
