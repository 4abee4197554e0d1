ghost use Rattle.std.specs.Prelude.{◌≡◌, ◌<◌, ◌^◌, IsTrue, IfOk, length, slice_get};
ghost use Rattle.std.specs.List.{list_all};
ghost use Rattle.bsv_design.specs.design.Guards as guards;
ghost use Rattle.bsv_design.specs.design.Widths.{call_named};

use bsv_design::{Call, Kind, Need};
use bsv_prim::Primitive;
use sqlite_items::Items;
use std::alloc::{AllocError, Global};

/// Whether the method of the call has a guard.
fn is_guarded(kinds: &[Kind], call: &Call) -> bool
    requires { IsTrue (call_named kinds.now call.now) }
    ensures { result ≡ guards.is_guarded (slice_get kinds.now call.now.part) call.now.method }
{
    match kinds.get(call.part as usize) {
        Some(kind) => kind.guarded(call.method),
        None => false,
    }
}

/// One need for each call of a method that has a guard, in the order of the calls.
pub(crate) fn needs_of(
    alloc: Global,
    kinds: &[Kind],
    calls: &[Call],
) -> Result<Items<Need>, AllocError>
    requires named { IsTrue (list_all (call_named kinds.now) calls.now) }
    requires few { length calls.now < 2 ^ 32 }
    ensures { IfOk result (λ needs. needs ≡ guards.needs_from kinds.now 0 calls.now) }
{
    let mut needs = Items::new(alloc);
    for (number, call) in calls.iter().enumerate() {
        if is_guarded(kinds, call) {
            needs.push(Need {
                call: number as u32,
                under: None,
            })?;
        }
    }
    Ok(needs)
}
