ghost use Rattle.std.specs.Prelude.{◌≡◌, ◌<◌, IfOk, length, map};
ghost use Rattle.bsv_guard.specs.Spread as spec;

use crate::groups::place;
use bsv_design::{Branch, Call};
use sqlite_items::Items;
use std::alloc::{AllocError, Global};

/// Whether the second one is in a later arm of a choice of both, and around it both are in the same arms.
fn in_later_arm(one: &[Branch], other: &[Branch]) -> bool
    ensures { result ≡ spec.in_later_arm one.now other.now }
{
    let mut left = one;
    let mut right = other;
    while let Some((a, others)) = left.split_first() {
        let Some((b, rest)) = right.split_first() else {
            return false;
        };
        if a.choice != b.choice || b.arm < a.arm {
            return false;
        }
        if a.arm < b.arm {
            return true;
        }
        left = others;
        right = rest;
    }
    false
}

/// The arms in which the call of a number stands.
fn arms_of(calls: &[Call], number: u32) -> &[Branch]
    ensures { result.now ≡ spec.arms_of calls.now number }
{
    match calls.get(number as usize) {
        Some(call) => call.branches.as_slice(),
        None => &[],
    }
}

/// Whether each call of the group is in a later arm than the one before it.
fn is_spread(calls: &[Call], group: &[u32]) -> bool
    ensures { result ≡ spec.is_spread calls.now group.now }
{
    let Some((first, rest)) = group.split_first() else {
        return true;
    };
    let mut last = *first;
    for number in rest {
        if !in_later_arm(arms_of(calls, last), arms_of(calls, *number)) {
            return false;
        }
        last = *number;
    }
    true
}

/// Of each group, whether its calls are in later and later arms.
pub(crate) fn spread(
    alloc: Global,
    calls: &[Call],
    groups: &[Items<u32>],
) -> Result<Vec<bool>, AllocError>
    ensures { IfOk result (λ found. found.items ≡ map (spec.is_spread calls.now) groups.now) }
{
    let mut found = Vec::new(alloc);
    for group in groups {
        found.push(is_spread(calls, group.as_slice()))?;
    }
    Ok(found)
}

/// Whether the calls of a method are in later and later arms.
pub(crate) fn spread_of(found: &[bool], part: u32, method: u32) -> bool
    requires { 0 < length found.now }
    ensures { result ≡ spec.spread_of found.now part method }
{
    found[place(part, method, found.len())]
}
