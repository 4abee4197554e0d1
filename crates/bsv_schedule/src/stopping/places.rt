ghost use Rattle.std.specs.Prelude.{IfOk};
ghost use Rattle.bsv_graph.specs.Orders.{IsOrderOf};
ghost use Rattle.bsv_schedule.specs.stopping.Placed.{HasPlaces};

use bsv_bits::OutOfMemory;
use std::alloc::Global;

/// The place of each element in the order.
pub(crate) fn places_of(
    alloc: Global,
    order: &[u32],
    count: usize,
) -> Result<Vec<usize>, OutOfMemory>
    requires { IsOrderOf count order.now }
    ensures { IfOk result (λ places. HasPlaces count order.now places.items) }
{
    let mut places = vec![in alloc; 0usize; count]?;
    for (place, element) in order.iter().enumerate() {
        places[*element as usize] = place;
    }
    Ok(places)
}
