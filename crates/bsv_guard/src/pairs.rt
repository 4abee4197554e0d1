ghost use Rattle.std.specs.Prelude.{◌≡◌, ◌<◌, IsTrue, Some, slice_get};
ghost use Rattle.bsv_prim.specs.Table as table;
ghost use Rattle.bsv_design.specs.design.Branches as arms;
ghost use Rattle.bsv_design.specs.parts.Kinds.{kind_table};
ghost use Rattle.bsv_design.specs.scheme.Relations as relations;
ghost use Rattle.bsv_design.specs.design.Widths.{call_named};
ghost use Rattle.bsv_guard.specs.Pairs.{breaks};

use bsv_design::{Branch, Call, Kind};
use bsv_prim::{Primitive, Rel};

/// Whether two calls in this relation may be in one element.
fn in_one_element(relation: Rel) -> bool
    ensures { result ≡ table.in_one_element relation }
{
    matches!(relation, Rel::Cf | Rel::Sb | Rel::Sa)
}

/// Whether calls of both methods on one part may be in one element, also where both are taken.
pub(crate) fn may_stand(kind: &Kind, first: u32, second: u32) -> bool
    requires first { first < (kind_table kind.now).methods }
    requires second { second < (kind_table kind.now).methods }
    ensures { result ≡ relations.may_stand (Some kind.now) first second }
{
    in_one_element(kind.relation(first, second))
        && !kind.sees(first, second)
        && !kind.sees(second, first)
}

/// Two arms of one choice.
fn other_arm(one: Branch, other: Branch) -> bool
    ensures { result ≡ arms.other_arm one other }
{
    one.choice == other.choice && one.arm != other.arm
}

/// Whether another arm of its choice is among these.
fn other_arm_of(one: Branch, others: &[Branch]) -> bool
    ensures { result ≡ arms.other_arm_of one others.now }
{
    for other in others {
        if other_arm(one, *other) {
            return true;
        }
    }
    false
}

/// Whether these arms have two that belong to one choice and differ.
fn apart(branches: &[Branch], others: &[Branch]) -> bool
    ensures { result ≡ arms.apart branches.now others.now }
{
    for branch in branches {
        if other_arm_of(*branch, others) {
            return true;
        }
    }
    false
}

/// Whether two calls of one element, the earlier one first, break the rule of one element.
pub(crate) fn break_the_rule(kinds: &[Kind], one: &Call, other: &Call) -> bool
    requires one { IsTrue (call_named kinds.now one.now) }
    requires other { IsTrue (call_named kinds.now other.now) }
    ensures { result ≡ breaks kinds.now one.now other.now }
{
    if one.part != other.part || apart(one.branches.as_slice(), other.branches.as_slice()) {
        return false;
    }
    match kinds.get(one.part as usize) {
        Some(kind) => !may_stand(kind, one.method, other.method),
        None => false,
    }
}
