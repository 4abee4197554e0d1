ghost use Rattle.std.specs.Prelude.{◌≡◌, ◌<◌, ◌^◌, ◌==◌, ◌&&◌, ◌||◌};
ghost use Rattle.std.specs.Prelude.{false, Some, map, IsTrue, IfOk, MatchOption, length, slice_get};
ghost use Rattle.std.specs.List.{list_all};
ghost use Rattle.bsv_design.specs.parts.Kinds.{kind_table};
ghost use Rattle.bsv_design.specs.scheme.Relations as relations;
ghost use Rattle.bsv_design.specs.design.Widths.{call_named};
ghost use Rattle.bsv_guard.specs.Groups.{AreGrouped};
ghost use Rattle.bsv_guard.specs.Pairs.{NoneAmong, NoneAfter};
ghost use Rattle.bsv_guard.specs.Pairs.{IsFirstAfter, IsSearched, IsSearchedAfter};
ghost use Rattle.bsv_guard.specs.Spread as arms;

use crate::groups::{group_of, grouped};
use crate::pairs::{break_the_rule, may_stand};
use crate::spread::{spread, spread_of};
use bsv_design::{Call, Kind};
use bsv_prim::Primitive;
use sqlite_items::Items;
use std::alloc::{AllocError, Global};

/// A part, and the methods of two of its calls that break the rule of one element.
#[derive(Clone, Copy)]
pub struct Breach {
    pub part: u32,
    pub first: u32,
    pub second: u32,
}

/// Whether a call of this group after this one breaks the rule with it.
fn breaks_among(kinds: &[Kind], calls: &[Call], earlier: usize, one: &Call, group: &[u32]) -> bool
    requires named { IsTrue (list_all (call_named kinds.now) calls.now) }
    requires one { IsTrue (call_named kinds.now one.now) }
    ensures { result ≡ false → NoneAmong kinds.now calls.now earlier one.now group.now }
{
    for later in group {
        if let Some(other) = calls.get(*later as usize) {
            if earlier < *later as usize && break_the_rule(kinds, one, other) {
                return true;
            }
        }
    }
    false
}

/// Whether no call of the method on the same part breaks the rule with this one, as the table tells, or else the arms
/// of all calls of its own method.
fn is_free(kind: &Kind, spread: &[bool], one: &Call, method: u32) -> bool
    requires one { one.now.method < (kind_table kind.now).methods }
    requires other { method < (kind_table kind.now).methods }
    requires some { 0 < length spread.now }
    ensures { result ≡ (relations.may_stand (Some kind.now) one.now.method method
        || ((one.now.method == method) && arms.spread_of spread.now one.now.part method)) }
{
    may_stand(kind, one.method, method)
        || (one.method == method && spread_of(spread, one.part, method))
}

/// Whether a call after this one breaks the rule with it. Only calls of methods that are not free of it are looked
/// at.
fn breaks_after(
    kinds: &[Kind],
    calls: &[Call],
    groups: &[Items<u32>],
    spread: &[bool],
    earlier: usize,
    one: &Call,
) -> bool
    requires named { IsTrue (list_all (call_named kinds.now) calls.now) }
    requires one { IsTrue (call_named kinds.now one.now) }
    requires some { 0 < length groups.now }
    requires grouped { AreGrouped calls.now groups.now }
    requires spread { spread.now ≡ map (arms.is_spread calls.now) groups.now }
    requires at { slice_get calls.now earlier ≡ Some one.now }
    ensures { result ≡ false → NoneAfter kinds.now calls.now earlier one.now }
{
    let Some(kind) = kinds.get(one.part as usize) else {
        return false;
    };
    for method in 0..kind.methods() {
        if !is_free(kind, spread, one, method)
            && breaks_among(
                kinds,
                calls,
                earlier,
                one,
                group_of(groups, one.part, method),
            )
        {
            return true;
        }
    }
    false
}

/// The method of the first call after this one that breaks the rule with it.
fn first_after(kinds: &[Kind], calls: &[Call], earlier: usize, one: &Call) -> Option<u32>
    requires named { IsTrue (list_all (call_named kinds.now) calls.now) }
    requires one { IsTrue (call_named kinds.now one.now) }
    ensures { MatchOption result (NoneAfter kinds.now calls.now earlier one.now)
        (IsFirstAfter kinds.now calls.now earlier one.now) }
{
    for (later, other) in calls.iter().enumerate() {
        if earlier < later && break_the_rule(kinds, one, other) {
            return Some(other.method);
        }
    }
    None
}

/// The first breach of the rule by this call and one after it.
fn breach_after(
    kinds: &[Kind],
    calls: &[Call],
    groups: &[Items<u32>],
    spread: &[bool],
    earlier: usize,
    one: &Call,
) -> Option<Breach>
    requires named { IsTrue (list_all (call_named kinds.now) calls.now) }
    requires one { IsTrue (call_named kinds.now one.now) }
    requires some { 0 < length groups.now }
    requires grouped { AreGrouped calls.now groups.now }
    requires spread { spread.now ≡ map (arms.is_spread calls.now) groups.now }
    requires at { slice_get calls.now earlier ≡ Some one.now }
    ensures { IsSearchedAfter kinds.now calls.now earlier one.now result }
{
    if !breaks_after(kinds, calls, groups, spread, earlier, one) {
        return None;
    }
    let second = first_after(kinds, calls, earlier, one)?;
    Some(Breach {
        part: one.part,
        first: one.method,
        second,
    })
}

/// The first breach of the rule of one element among its calls, by the earlier call and then by the later one.
pub(crate) fn first_breach(
    alloc: Global,
    kinds: &[Kind],
    calls: &[Call],
) -> Result<Option<Breach>, AllocError>
    requires named { IsTrue (list_all (call_named kinds.now) calls.now) }
    requires few { length calls.now < 2 ^ 32 }
    ensures { IfOk result (IsSearched kinds.now calls.now) }
{
    let groups = grouped(alloc, calls)?;
    let spread = spread(alloc, calls, groups.as_slice())?;
    for (earlier, one) in calls.iter().enumerate() {
        if let Some(breach) = breach_after(
            kinds,
            calls,
            groups.as_slice(),
            spread.as_slice(),
            earlier,
            one,
        ) {
            return Ok(Some(breach));
        }
    }
    Ok(None)
}
