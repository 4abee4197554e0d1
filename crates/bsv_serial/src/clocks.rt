ghost use Rattle.std.specs.Prelude.{◌≡◌, ℕ, false, length, IfOk, OnOk, OnErr};
ghost use Rattle.bsv_clock.specs.Events.{Happens};
ghost use Rattle.bsv_clock.specs.Grounds.{IsScheduleOf, KeepsRules};
ghost use Rattle.bsv_design.specs.design.Guards.{needs_of};
ghost use Rattle.bsv_design.specs.scheme.Schemes.{design_scheme, kinds_of};
ghost use Rattle.bsv_design.specs.scheme.Seen.{asking, design_data};
ghost use Rattle.bsv_design.specs.scheme.States.{AskingFits, FitsKinds};
ghost use Rattle.bsv_serial.specs.AtHand.{clock_course, so_far};
ghost use Rattle.bsv_serial.specs.Decider as spec;
ghost use Rattle.bsv_design.specs.scheme.Rooms.{HasRoom};

use crate::decider::Decider;
use crate::fates::Fates;
use crate::parts::{apply_all, emptied};
use crate::placing::places_in;
use crate::setting::Setting;
use crate::told_events::tell;
use bsv_bits::OutOfMemory;
use bsv_design::{Design, Fired, Guards, Requests, Schedule, State};
use bsv_prim::Part;
use std::alloc::Global;

/// What comes of each element, where these are the parts at the clock's start and the places in the execution order.
fn decide<'a>(
    alloc: Global,
    design: &'a Design,
    guards: &'a Guards,
    schedule: &'a Schedule,
    requests: &'a Requests,
    state: &'a [Part],
    places: &'a [u32],
) -> Result<Fates, OutOfMemory>
    requires { spec.CanDecideAll (clock_course design.now guards.now.needs schedule.now
        (asking requests.now) state.now places.now)
        (spec.undecided (clock_course design.now guards.now.needs schedule.now
        (asking requests.now) state.now places.now))
        schedule.now.urgency }
    ensures { IfOk result (λ found. so_far found ≡ spec.all_decided
        (clock_course design.now guards.now.needs schedule.now (asking requests.now) state.now
        places.now)
        (spec.undecided (clock_course design.now guards.now.needs schedule.now
        (asking requests.now) state.now places.now))
        schedule.now.urgency) }
{
    let decider = Decider {
        setting: Setting {
            alloc,
            design,
            guards,
            requests,
            state,
        },
        schedule,
        places,
    };
    decider.decide_all()
}

/// One clock of a design: many rules fire, and the state after it is that of running them one at a time in the
/// printed order (Hoe and Arvind 2004). `fired` says what happened. It has room for every element, as has
/// `Fired::new`, and a clock keeps it. Where memory does not suffice, nothing is changed.
pub fn clock(
    alloc: Global,
    design: &Design,
    guards: &Guards,
    schedule: &Schedule,
    state: &mut State,
    requests: &Requests,
    fired: &mut Fired,
) -> Result<(), OutOfMemory>
    requires rules { KeepsRules (design_scheme (design_data design.now)) }
    requires needs { guards.now.needs
        ≡ needs_of (kinds_of (design_data design.now)) design.now.elements }
    requires schedule { IsScheduleOf (design_scheme (design_data design.now)) schedule.now }
    requires parts { FitsKinds (kinds_of (design_data design.now)) state.old.parts.items }
    requires requests { AskingFits design.now.elements (asking requests.now) }
    requires room { HasRoom (length design.now.elements) fired.old }
    ensures happens { OnOk result (Happens false (design_scheme (design_data design.now))
        schedule.now (asking requests.now) state.old.parts.items fired.new
        state.new.parts.items) }
    ensures fits { FitsKinds (kinds_of (design_data design.now)) state.new.parts.items }
    ensures state_unchanged { OnErr result (state.new ≡ state.old) }
    ensures fired_unchanged { OnErr result (fired.new ≡ fired.old) }
    ensures room { HasRoom (length design.now.elements) fired.new }
{
    let parts = design.parts.as_slice();
    let mut behind = emptied(alloc, parts, state.parts.as_slice())?;
    let places = places_in(alloc, schedule.execution.as_slice(), design.elements.len())?;
    let decided = decide(alloc, design, guards, schedule, requests, &behind, &places)?;
    apply_all(parts, &mut behind, decided.calls_made.as_slice());
    tell(schedule, decided.fates.as_slice(), fired);
    state.parts = behind;
    Ok(())
}
