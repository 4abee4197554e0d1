ghost use Rattle.bsv_fail.specs.Given.{Gives};
ghost use Rattle.bsv_tree.specs.carrying.Working as spec;

use crate::fault::Got;
use crate::values::{Count, Fault, Work};
use bsv_fail::Fail;

/// The greatest weight of a design.
const MOST_WEIGHT: u64 = 2_000_000;

/// So much weight more.
#[tactic(auto, unfolding(crate::specs::carrying::Working::tick))]
pub fn tick(count: Count, more: usize) -> Got<Count>
    ensures { Gives result (spec.tick count more) }
{
    let weight = count.weight.saturating_add(more as u64);
    if weight > MOST_WEIGHT {
        return Err(Fail::Fault(Fault::Weight));
    }
    Ok(Count {
        weight,
        slots: count.slots,
    })
}

/// Room for so many more values.
#[tactic(auto, unfolding(crate::specs::carrying::Working::fresh))]
pub(crate) fn fresh(count: Count, more: u32) -> Got<Count>
    ensures { Gives result (spec.fresh count more) }
{
    match count.slots.checked_add(more) {
        Some(slots) => Ok(Count {
            weight: count.weight,
            slots,
        }),
        None => Err(Fail::Fault(Fault::Weight)),
    }
}

/// The work with so much weight more.
#[tactic(auto, unfolding(crate::specs::carrying::Working::counted))]
pub fn counted(work: Work, more: usize) -> Got<Work>
    ensures { Gives result (spec.counted work more) }
{
    let count = tick(work.count, more)?;
    Ok(Work {
        steps: work.steps,
        count,
    })
}
