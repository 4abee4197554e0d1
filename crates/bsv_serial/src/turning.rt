ghost use Rattle.std.specs.Prelude.{◌≡◌, IfOk, OnOk, OnErr};
ghost use Rattle.bsv_design.specs.scheme.Schemes.{design_scheme, kinds_of};
ghost use Rattle.bsv_design.specs.scheme.Seen.{asking, design_data};
ghost use Rattle.bsv_design.specs.scheme.States.{FitsKinds};
ghost use Rattle.bsv_serial.specs.Turning as spec;

use crate::calls_made::none_made;
use crate::outcome::Turn;
use crate::parts::apply_all;
use crate::setting::Setting;
use bsv_bits::OutOfMemory;
use bsv_design::{Design, Guards, Requests, State};
use std::alloc::Global;

/// Runs the element whole where it is ready, asked or not. Where it is not, or memory is wanting, the
/// parts stay as they are.
pub fn turn(
    alloc: Global,
    design: &Design,
    guards: &Guards,
    element: u32,
    state: &mut State,
    requests: &Requests,
) -> Result<Turn, OutOfMemory>
    requires { spec.CanTurn design.now guards.now.needs element state.old.parts.items
        (asking requests.now) }
    ensures closed { IfOk result (λ turn. spec.IfClosed turn (spec.StaysClosed
        (design_scheme (design_data design.now)) (asking requests.now) element
        state.old.parts.items state.new.parts.items)) }
    ensures ran { IfOk result (λ turn. spec.IfRan turn (spec.RunsWhole
        (design_scheme (design_data design.now)) (asking requests.now) element
        state.old.parts.items state.new.parts.items)) }
    ensures fits { OnOk result
        (FitsKinds (kinds_of (design_data design.now)) state.new.parts.items) }
    ensures unchanged { OnErr result (state.new.parts.items ≡ state.old.parts.items) }
{
    let mut calls_made = none_made(alloc, design.parts.len())?;
    let setting = Setting {
        alloc,
        design,
        guards,
        requests,
        state: state.parts.as_slice(),
    };
    let mut words = Vec::new(alloc);
    if !setting.is_ready(element, calls_made.as_slice(), &mut words)? {
        return Ok(Turn::Closed);
    }
    setting.make_calls(element, 0, words.as_slice(), &mut calls_made)?;
    let value = setting.value(element, words.as_slice());
    apply_all(
        design.parts.as_slice(),
        &mut state.parts,
        calls_made.as_slice(),
    );
    Ok(Turn::Ran(value))
}
