ghost use Rattle.std.specs.Prelude.{◌≡◌, IfOk};
ghost use Rattle.bsv_design.specs.parts.Kinds.{kind_table};
ghost use Rattle.bsv_design.specs.scheme.States as states;
ghost use Rattle.bsv_serial.specs.Applying as spec;
ghost use Rattle.bsv_serial.specs.AtHand.{kinds};

use crate::calls_made::{MadeCall, MadeCalls};
use bsv_bits::OutOfMemory;
use bsv_design::{Kind, NamedPart};
use bsv_prim::{Part, Primitive};
use std::alloc::Global;

/// The part at a clock's start.
fn emptied_part(alloc: Global, kind: &Kind, part: &Part) -> Result<Part, OutOfMemory>
    requires { (kind_table kind.now).Fits part.now }
    ensures { IfOk result (λ found. found ≡ (kind_table kind.now).emptied part.now) }
{
    let mut found = part.copy(alloc)?;
    kind.emptied(&mut found);
    Ok(found)
}

/// The parts at a clock's start: all wires are empty.
pub fn emptied(alloc: Global, parts: &[NamedPart], state: &[Part]) -> Result<Vec<Part>, OutOfMemory>
    requires { states.FitsKinds (kinds parts.now) state.now }
    ensures { IfOk result (λ found. found.items ≡ states.emptied (kinds parts.now) state.now) }
{
    let mut found = Vec::new(alloc);
    let mut rest = parts;
    let mut left = state;
    while let (Some((named, more)), Some((part, after))) = (
        rest.split_first(),
        left.split_first(),
    ) {
        found.push(emptied_part(alloc, &named.kind, part)?)?;
        rest = more;
        left = after;
    }
    Ok(found)
}

/// The calls take effect on the part, one after the other.
fn apply(kind: &Kind, part: &mut Part, calls: &[MadeCall])
    requires { spec.CanTake kind.now part.old calls.now }
    ensures { part.new ≡ spec.behind kind.now part.old calls.now }
{
    let mut rest = calls;
    while let Some((call, after)) = rest.split_first() {
        kind.apply(call.method, part, call.args.as_slice());
        rest = after;
    }
}

/// The calls take effect that are made on each part.
pub fn apply_all(parts: &[NamedPart], state: &mut [Part], calls_made: &[MadeCalls])
    requires { spec.AllCanTake (kinds parts.now) state.old calls_made.now }
    ensures { state.new ≡ spec.all_after (kinds parts.now) state.old calls_made.now }
{
    for at in 0..state.len() {
        apply(&parts[at].kind, &mut state[at], calls_made[at].as_slice());
    }
}
