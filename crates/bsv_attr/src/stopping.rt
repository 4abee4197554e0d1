ghost use Rattle.std.specs.Prelude.{◌↔◌, IsTrue, MatchOption};
ghost use Rattle.bsv_attr.specs.Stopping.{ListStops, NoneStops, IsFirstListed};

use bsv_design::Schedule;

/// Whether the element stops the rule.
fn stops(schedule: &Schedule, element: u32, rule: u32) -> bool
    ensures { IsTrue result ↔ ListStops schedule.now.stops element rule }
{
    match schedule.stops.get(element as usize) {
        Some(stopped) => stopped.as_slice().contains(&rule),
        None => false,
    }
}

/// The first element in urgency that stops the rule.
pub(crate) fn first_stopper(schedule: &Schedule, rule: u32) -> Option<u32>
    ensures { MatchOption result (NoneStops schedule.now.urgency schedule.now.stops rule)
        (IsFirstListed schedule.now.urgency schedule.now.stops rule) }
{
    for element in schedule.urgency.as_slice() {
        if stops(schedule, *element, rule) {
            return Some(*element);
        }
    }
    None
}
