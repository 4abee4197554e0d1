ghost use Rattle.std.specs.Prelude.{◌≡◌, ◌<◌, map, slice_get, IsTrue};
ghost use Rattle.bsv_design.specs.parts.Kinds.{kind_table};
ghost use Rattle.bsv_schedule.specs.relating.Related as spec;
ghost use Rattle.bsv_prim.specs.Table as table;

use bsv_design::{Kind, NamedPart};
use bsv_prim::{Primitive, Rel};

/// How two calls on one part may stand to each other, the first one of the first element.
#[derive(Clone, Copy)]
pub(crate) enum Relation {
    /// The first may not come before the second.
    Clashes,
    /// The second sees the first.
    Feeds,
}

fn goes_before(relation: Rel) -> bool
    ensures { result ≡ table.goes_before relation }
{
    matches!(relation, Rel::Cf | Rel::Sb | Rel::Sbr)
}

/// Whether calls of two methods of a part of this kind stand in the relation.
pub(crate) fn related_by(relation: Relation, kind: &Kind, first: u32, second: u32) -> bool
    requires first { first < (kind_table kind.now).methods }
    requires second { second < (kind_table kind.now).methods }
    ensures { result ≡ spec.related_by relation kind.now first second }
{
    match relation {
        Relation::Clashes => !goes_before(kind.relation(first, second)),
        Relation::Feeds => kind.sees(first, second),
    }
}

/// Whether calls of two methods of a part stand in the relation.
pub(crate) fn related(
    relation: Relation,
    parts: &[NamedPart],
    part: u32,
    first: u32,
    second: u32,
) -> bool
    requires first { IsTrue (spec.names_method (map (λ p. p.kind) parts.now) part first) }
    requires second { IsTrue (spec.names_method (map (λ p. p.kind) parts.now) part second) }
    ensures { result ≡ spec.related relation
        (slice_get (map (λ p. p.kind) parts.now) part) first second }
{
    match parts.get(part as usize) {
        Some(named) => related_by(relation, &named.kind, first, second),
        None => false,
    }
}
