ghost use Rattle.std.specs.Prelude.{◌≡◌, not, ℕ, map, slice_get, IsTrue};
ghost use Rattle.std.specs.List.{list_all, list_any};
ghost use Rattle.bsv_design.specs.design.Bodies.{target};
ghost use Rattle.bsv_design.specs.scheme.Relations as relations;
ghost use Rattle.bsv_design.specs.scheme.Schemes.{design_scheme};
ghost use Rattle.bsv_design.specs.scheme.Seen.{design_data};
ghost use Rattle.bsv_design.specs.design.Widths.{call_named};
ghost use Rattle.bsv_schedule.specs.relating.Related as spec;
ghost use Rattle.bsv_schedule.specs.relating.Uses as uses;

use crate::relating::related::{Relation, related};
use bsv_design::{Call, Design, NamedPart};

// Whether the call and one of the others stand in the relation.
fn call_meets(relation: Relation, parts: &[NamedPart], call: &Call, others: &[Call]) -> bool
    requires call { IsTrue (call_named (map (λ p. p.kind) parts.now) call.now) }
    requires others { IsTrue (list_all
        (call_named (map (λ p. p.kind) parts.now)) others.now) }
    ensures { result ≡ list_any (λ other. spec.on_one_part relation
        (map (λ p. p.kind) parts.now) (target call.now) (target other)) others.now }
{
    for other in others {
        if call.part == other.part
            && related(relation, parts, call.part, call.method, other.method)
        {
            return true;
        }
    }
    false
}

// Whether one of the calls and one of the others stand in the relation.
fn calls_meet(relation: Relation, parts: &[NamedPart], calls: &[Call], others: &[Call]) -> bool
    requires calls { IsTrue (list_all
        (call_named (map (λ p. p.kind) parts.now)) calls.now) }
    requires others { IsTrue (list_all
        (call_named (map (λ p. p.kind) parts.now)) others.now) }
    ensures { result ≡ uses.calls_meet relation
        (map (λ p. p.kind) parts.now) calls.now others.now }
{
    for call in calls {
        if call_meets(relation, parts, call, others) {
            return true;
        }
    }
    false
}

// The calls of the element of this position.
fn calls_of(design: &Design, element: u32) -> &[Call]
    ensures calls { map target result.now ≡ (design_scheme (design_data design.now)).uses element }
    ensures named { IsTrue (list_all (call_named
        (map (λ p. p.kind) design.now.parts)) result.now) }
{
    match design.elements.get(element as usize) {
        Some(element) => element.calls.as_slice(),
        None => &[],
    }
}

/// Whether each use of the first element may come before each use of the second on the same part.
pub fn goes(design: &Design, a: u32, b: u32) -> bool
    ensures { result ≡ relations.goes (design_scheme (design_data design.now)) a b }
{
    let parts = design.parts.as_slice();
    !calls_meet(
        Relation::Clashes,
        parts,
        calls_of(design, a),
        calls_of(design, b),
    )
}

/// Whether a use of the first element is seen by a use of the second on the same part.
pub fn feeds(design: &Design, a: u32, b: u32) -> bool
    ensures { result ≡ relations.feeds (design_scheme (design_data design.now)) a b }
{
    let parts = design.parts.as_slice();
    calls_meet(
        Relation::Feeds,
        parts,
        calls_of(design, a),
        calls_of(design, b),
    )
}
