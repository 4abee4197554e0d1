ghost use Rattle.std.specs.Prelude.{◌≡◌, ◌<◌, ◌^◌, IfOk, length, replicate};
ghost use Rattle.std.specs.List.{AllByRecursion};
ghost use Rattle.bsv_serial.specs.Placing as spec;

use bsv_bits::OutOfMemory;
use std::alloc::Global;

/// The elements of the order have their places in it.
#[tactic(auto, unfolding(crate::specs::Placing::all_placed))]
fn place_all(places: &mut [u32], order: &[u32])
    requires few { length order.now < 2 ^ 32 }
    requires within { AllByRecursion (λ n. n < length places.old) order.now }
    ensures { places.new ≡ spec.all_placed places.old 0 order.now }
{
    let mut at = 0;
    let mut rest = order;
    while let Some((number, after)) = rest.split_first() {
        places[*number as usize] = at;
        at += 1;
        rest = after;
    }
}

/// Of each of so many elements its place in the order.
pub fn places_in(alloc: Global, order: &[u32], count: usize) -> Result<Vec<u32>, OutOfMemory>
    requires few { length order.now < 2 ^ 32 }
    requires within { AllByRecursion (λ n. n < count) order.now }
    ensures { IfOk result (λ places.
        places.items ≡ spec.all_placed (replicate count 0) 0 order.now) }
{
    let mut places = vec![in alloc; 0u32; count]?;
    place_all(&mut places, order);
    Ok(places)
}
