ghost use Rattle.std.specs.Prelude.{◌≡◌, ◌+◌, IfOk};
ghost use Rattle.bsv_tree.specs.tree.Elements.{parts_before, is_part, one_if};
ghost use Rattle.bsv_inline.specs.Placed.{ArePartNumbers};

use bsv_bits::OutOfMemory;
use bsv_body::{Laid, next};
use bsv_tree::{Instance, Made};
use sqlite_items::Items;
use std::alloc::Global;

/// How many primitives there are with this instance.
fn counted(instance: &Instance, count: u32) -> Laid<u32>
    ensures { IfOk result (λ n. n ≡ count + one_if (is_part instance.now.made)) }
{
    match instance.made {
        Made::Primitive(..) => next(count),
        Made::Module(_) => Ok(count),
    }
}

/// Of each instance, how many primitives come before it, and at the end how many there are.
pub fn part_numbers(alloc: Global, instances: &[Instance]) -> Result<Items<u32>, OutOfMemory>
    ensures { IfOk result (λ numbers. ArePartNumbers instances.now numbers) }
{
    let mut numbers = Items::new(alloc);
    let mut count = 0;
    let mut rest = instances;
    while let Some((instance, after)) = rest.split_first() {
        numbers.push(count)?;
        count = counted(instance, count)?;
        rest = after;
    }
    numbers.push(count)?;
    Ok(numbers)
}

/// The place of an instance among the primitives.
#[tactic(auto, using(crate::proofs::PartNumbers::numbers_at))]
pub(crate) fn part_of(instances: &[Instance], numbers: &[u32], instance: u32) -> u32
    requires { ArePartNumbers instances.now numbers.now }
    ensures { result ≡ parts_before instances.now instance }
{
    if (instance as usize) < instances.len() {
        return numbers[instance as usize];
    }
    numbers[instances.len()]
}
