ghost use Rattle.std.specs.Prelude.{◌≡◌};
ghost use Rattle.bsv_statements.specs.SeenBodies.{GivesAt};
ghost use Rattle.bsv_modules.specs.Modules as spec;

use bsv_ast::{Attribute as Written, AttributeGroup, Span};
use bsv_statements::BodyFail;
use bsv_types::{Attribute, Items, Owner, attribute};
use std::alloc::Global;

/// What the attributes of one pair of brackets ask for.
#[tactic(auto, using(bsv_statements::proofs::Fronts::lists))]
fn asked_in_group(
    alloc: Global,
    span: Span,
    owner: Owner,
    attributes: &[Written],
) -> Result<Items<Attribute>, BodyFail>
    ensures { GivesAt (λ xs. xs) result (spec.asked_by span owner attributes.now) }
{
    let mut found = Items::new(alloc);
    let mut rest = attributes;
    while let Some((written, after)) = rest.split_first() {
        let Some(meaning) = attribute(alloc, owner, written)? else {
            return Err(BodyFail::At(span));
        };
        found.push(meaning)?;
        rest = after;
    }
    Ok(found)
}

/// What the attributes of a module or a rule ask for.
#[tactic(auto, using(crate::proofs::Gathered::groups))]
pub fn asked(
    alloc: Global,
    span: Span,
    owner: Owner,
    groups: &[AttributeGroup],
) -> Result<Items<Attribute>, BodyFail>
    ensures { GivesAt (λ xs. xs) result (spec.asked span owner groups.now) }
{
    let mut found = Items::new(alloc);
    let mut rest = groups;
    while let Some((group, after)) = rest.split_first() {
        let more = asked_in_group(alloc, span, owner, group.attributes.as_slice())?;
        found.append(more)?;
        rest = after;
    }
    Ok(found)
}
