ghost use Rattle.std.specs.Prelude.{◌≡◌, IsTrue, OnOk, length, map, vec_len};
ghost use Rattle.std.specs.List.{list_all};
ghost use Rattle.bsv_design.specs.scheme.Traces.{site_at};
ghost use Rattle.bsv_design.specs.design.Widths.{call_named};
ghost use Rattle.bsv_serial.specs.AtHand.{kinds};
ghost use Rattle.bsv_serial.specs.Making as spec;

use crate::calls_made::{MadeCall, MadeCalls};
use crate::words::{is_one, words_at};
use bsv_bits::{OutOfMemory, Word};
use bsv_design::{Call, NamedPart, word_at};
use bsv_prim::Primitive;
use std::alloc::Global;

/// The element of this place in the execution order makes the call, where its method acts and its arm is taken.
#[tactic(auto, unfolding(crate::specs::Making::with_call))]
fn make_call(
    alloc: Global,
    parts: &[NamedPart],
    call: &Call,
    place: u32,
    words: &[Word],
    calls_made: &mut Vec<MadeCalls>,
) -> Result<(), OutOfMemory>
    requires named { IsTrue (call_named (kinds parts.now) call.now) }
    requires count { length calls_made.old.items ≡ length parts.now }
    ensures makes { OnOk result (calls_made.new.items
        ≡ spec.with_site (kinds parts.now) place calls_made.old.items
        (site_at (kinds parts.now) words.now call.now)) }
    ensures count { OnOk result (length calls_made.new.items ≡ length calls_made.old.items) }
{
    let kind = &parts[call.part as usize].kind;
    if kind.is_action(call.method) && is_one(word_at(words, call.taken)) {
        let args = words_at(alloc, words, call.args.as_slice())?;
        calls_made[call.part as usize].add(MadeCall {
            place,
            rank: kind.rank(call.method),
            method: call.method,
            args,
        })?;
    }
    Ok(())
}

/// The element of this place in the execution order makes its calls: those of methods that act in the arms that are
/// taken.
#[tactic(auto, unfolding(crate::specs::Making::with_sites))]
pub fn make_calls(
    alloc: Global,
    parts: &[NamedPart],
    calls: &[Call],
    place: u32,
    words: &[Word],
    calls_made: &mut Vec<MadeCalls>,
) -> Result<(), OutOfMemory>
    requires named { IsTrue (list_all (call_named (kinds parts.now)) calls.now) }
    requires count { length calls_made.old.items ≡ length parts.now }
    ensures { OnOk result
        (calls_made.new.items ≡ spec.with_sites (kinds parts.now) place calls_made.old.items
        (map (site_at (kinds parts.now) words.now) calls.now)) }
{
    let mut rest = calls;
    while let Some((call, after)) = rest.split_first() {
        make_call(alloc, parts, call, place, words, calls_made)?;
        rest = after;
    }
    Ok(())
}
