ghost use Rattle.std.specs.Prelude.{◌≡◌, ◌+◌, ◌<◌, ◌^◌, IsTrue, IfSome, MatchOption, length, map};
ghost use Rattle.std.specs.List.{list_all};
ghost use Rattle.bsv_attr.specs.Calling.{names_method, condition_named};
ghost use Rattle.bsv_attr.specs.Calling.{call_guarded, implicit_places};
ghost use Rattle.bsv_attr.specs.Implicit.{IsFirstTrue, NoneTrue};

use bsv_design::{Call, Condition, Element, NamedPart};
use bsv_prim::Primitive;

/// The place of the first condition with a name.
fn first_named(conditions: &[Condition]) -> Option<usize>
    ensures within { IfSome result (λ place. place < length conditions.now) }
    ensures first { MatchOption result (NoneTrue (map condition_named conditions.now))
        (IsFirstTrue (map condition_named conditions.now)) }
{
    for (place, condition) in conditions.iter().enumerate() {
        if condition.implicit.is_some() {
            return Some(place);
        }
    }
    None
}

/// Whether the method of the call has a guard.
fn is_guarded(parts: &[NamedPart], call: &Call) -> bool
    requires { IsTrue (names_method parts.now call.now) }
    ensures { result ≡ call_guarded parts.now call.now }
{
    match parts.get(call.part as usize) {
        Some(part) => part.kind.guarded(call.method),
        None => false,
    }
}

/// The place of the first call of a method that has a guard.
fn first_guarded(parts: &[NamedPart], calls: &[Call]) -> Option<usize>
    requires { IsTrue (list_all (names_method parts.now) calls.now) }
    ensures within { IfSome result (λ place. place < length calls.now) }
    ensures first { MatchOption result (NoneTrue (map (call_guarded parts.now) calls.now))
        (IsFirstTrue (map (call_guarded parts.now) calls.now)) }
{
    for (place, call) in calls.iter().enumerate() {
        if is_guarded(parts, call) {
            return Some(place);
        }
    }
    None
}

/// The place of the first implicit condition, where conditions are counted before calls.
pub(crate) fn first_implicit(parts: &[NamedPart], element: &Element) -> Option<usize>
    requires named { IsTrue (list_all (names_method parts.now) element.now.calls) }
    requires few { length element.now.conditions + length element.now.calls < 2 ^ 32 }
    ensures within { IfSome result
        (λ place. place < length element.now.conditions + length element.now.calls) }
    ensures first { MatchOption result (NoneTrue (implicit_places parts.now element.now))
        (IsFirstTrue (implicit_places parts.now element.now)) }
{
    let conditions = element.conditions.as_slice();
    match first_named(conditions) {
        Some(place) => Some(place),
        None => {
            let place = first_guarded(parts, element.calls.as_slice())?;
            Some(conditions.len() + place)
        }
    }
}
