ghost use Rattle.std.specs.Prelude.{◌≡◌, IfOk};
ghost use Rattle.bsv_graph.specs.Orders.{IsOrderOf};
ghost use Rattle.bsv_schedule.specs.stopping.Stops.{AreStops};
ghost use Rattle.bsv_schedule.specs.relating.Elements.{design_relating};

use crate::relating::Relations;
use crate::stopping::stops::stops_of;
use bsv_bits::OutOfMemory;
use bsv_design::{Design, Schedule};
use sqlite_items::Items;
use std::alloc::Global;

/// The two orders of the design's elements, with what each element stops.
pub fn schedule(
    alloc: Global,
    design: &Design,
    execution: Items<u32>,
    urgency: Items<u32>,
) -> Result<Schedule, OutOfMemory>
    requires execution { IsOrderOf (design_relating design.now).count execution }
    requires urgency { IsOrderOf (design_relating design.now).count urgency }
    ensures execution { IfOk result (λ made. made.execution ≡ execution) }
    ensures urgency { IfOk result (λ made. made.urgency ≡ urgency) }
    ensures stops { IfOk result
        (λ made. AreStops (design_relating design.now) execution urgency made.stops) }
{
    let relations = Relations::new(alloc, design)?;
    let stops = stops_of(alloc, &relations, execution.as_slice(), urgency.as_slice())?;
    Ok(Schedule {
        execution,
        urgency,
        stops,
    })
}
