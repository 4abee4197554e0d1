ghost use Rattle.std.specs.Prelude.{◌≡◌, ◌<◌, map, slice_get};
ghost use Rattle.std.specs.List.{list_all};
ghost use Rattle.std.specs.Option.{option_copied};
ghost use Rattle.bsv_design.specs.parts.Kinds.{kind_table};
ghost use Rattle.bsv_design.specs.design.Widths as spec;

use crate::methods::{acts, answer_width};
use crate::operators::{has_width, width_at, width_if};
use bsv_design::{Call, Kind, NamedPart};
use bsv_prim::Primitive;
use sqlite_items::at;

/// The kind of the part of this place, if there is one.
fn kind_at(parts: &[NamedPart], part: u32) -> Option<&Kind>
    ensures { option_copied result ≡ slice_get (map (λ p. p.kind) parts.now) part }
{
    match at(parts, part as usize) {
        Some(found) => Some(&found.kind),
        None => None,
    }
}

/// Whether the nodes of a call's arguments have the widths of the method's.
fn args_fit(kind: &Kind, method: u32, widths: &[u32], args: &[u32]) -> bool
    requires { method < (kind_table kind.now).methods }
    ensures { result ≡ spec.args_fit (kind_table kind.now) method widths.now 0 args.now }
{
    let arity = kind.arity(method);
    let mut place = 0;
    let mut rest = args;
    while let Some((node, after)) = rest.split_first() {
        if place >= arity
            || !has_width(width_at(widths, *node), kind.argument_width(method, place))
        {
            return false;
        }
        place += 1;
        rest = after;
    }
    place == arity
}

/// Whether the method is one of its part and has the arguments that it takes.
fn method_fits(kind: Option<&Kind>, widths: &[u32], call: &Call) -> bool
    ensures { result ≡ spec.method_fits (option_copied kind.entry) widths.now call.now }
{
    match kind {
        Some(kind) => {
            call.method < kind.methods()
                && args_fit(kind, call.method, widths, call.args.as_slice())
        }
        None => false,
    }
}

/// The width of what a call gives, where it fits and does not act.
fn gives_word(kind: Option<&Kind>, widths: &[u32], call: &Call) -> Option<u32>
    ensures { result ≡ spec.gives_word (option_copied kind.entry) widths.now call.now }
{
    let Some(known) = kind else {
        return None;
    };
    width_if(
        method_fits(kind, widths, call) && !acts(known, call.method),
        answer_width(known, call.method),
    )
}

/// The width of what the call of this place gives.
pub(crate) fn result_width(
    parts: &[NamedPart],
    widths: &[u32],
    calls: &[Call],
    place: u32,
) -> Option<u32>
    ensures { result ≡
        spec.result_width (map (λ p. p.kind) parts.now) widths.now (slice_get calls.now place) }
{
    match at(calls, place as usize) {
        Some(call) => gives_word(kind_at(parts, call.part), widths, call),
        None => None,
    }
}

/// Whether the node of where a call is taken has one bit, and the method fits.
fn call_fits(parts: &[NamedPart], widths: &[u32], call: &Call) -> bool
    ensures { result ≡ spec.call_fits (map (λ p. p.kind) parts.now) widths.now call.now }
{
    has_width(width_at(widths, call.taken), 1)
        && method_fits(kind_at(parts, call.part), widths, call)
}

/// Whether each call fits.
pub(crate) fn calls_fit(parts: &[NamedPart], widths: &[u32], calls: &[Call]) -> bool
    ensures { result ≡
        list_all (spec.call_fits (map (λ p. p.kind) parts.now) widths.now) calls.now }
{
    let mut rest = calls;
    while let Some((call, after)) = rest.split_first() {
        if !call_fits(parts, widths, call) {
            return false;
        }
        rest = after;
    }
    true
}

/// Whether a call does not act.
fn acts_not(parts: &[NamedPart], call: &Call) -> bool
    ensures { result ≡ spec.acts_not (map (λ p. p.kind) parts.now) call.now }
{
    match kind_at(parts, call.part) {
        Some(kind) => !acts(kind, call.method),
        None => true,
    }
}

/// Whether no call acts.
pub(crate) fn none_acts(parts: &[NamedPart], calls: &[Call]) -> bool
    ensures { result ≡ list_all (spec.acts_not (map (λ p. p.kind) parts.now)) calls.now }
{
    let mut rest = calls;
    while let Some((call, after)) = rest.split_first() {
        if !acts_not(parts, call) {
            return false;
        }
        rest = after;
    }
    true
}
