ghost use Rattle.std.specs.Prelude.{◌↔◌, IsTrue};
ghost use Rattle.bsv_schedule.specs.relating.Marks.{IsMarked};

use bsv_design::Assert;

/// Whether the rule is marked: with `fire_when_enabled`, or else with `no_implicit_conditions`.
pub(crate) fn is_marked(marks: &[Assert], rule: u32, fires: bool) -> bool
    ensures { IsTrue result ↔ IsMarked marks.now fires rule }
{
    for mark in marks {
        if mark.rule == rule && mark.fires == fires {
            return true;
        }
    }
    false
}
