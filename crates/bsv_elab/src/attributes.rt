ghost use Rattle.std.specs.Prelude.{◌≡◌, IfOk, OnOk, slice_get};
ghost use Rattle.bsv_fail.specs.Given.{Gives};
ghost use Rattle.bsv_elab.specs.Attributes as spec;

use crate::refused::{Building, Refused};
use crate::state::Marks;
use bsv_bits::Name;
use bsv_design::{Assert, Attribute, Pair};
use bsv_fail::Fail;
use bsv_tree::BuiltRule;
use bsv_types::{Attribute as Asked, Module, Rule};
use sqlite_items::Items;
use std::alloc::{AllocError, Global};

/// Nothing is asked for.
pub(crate) fn no_marks(alloc: Global) -> Marks
    ensures { result ≡ spec.no_marks }
{
    Marks {
        pairs: Items::new(alloc),
        asserts: Items::new(alloc),
    }
}

/// What these ask for, and then the others.
pub(crate) fn add_marks(marks: &mut Marks, others: Marks) -> Result<(), AllocError>
    ensures { OnOk result (marks.new ≡ spec.both marks.old others) }
{
    let Marks { pairs, asserts } = others;
    marks.pairs.append(pairs)?;
    marks.asserts.append(asserts)?;
    Ok(())
}

/// The position of the rule of the name.
fn position_of(
    alloc: Global,
    attribute: Attribute,
    rules: &[BuiltRule],
    name: &Name,
) -> Building<u32>
    ensures { Gives result (spec.position_of attribute rules.now name.now) }
{
    for rule in rules {
        if rule.name.bytes() == name.bytes() {
            return Ok(rule.position);
        }
    }
    let name = Name::new(alloc, name.bytes())?;
    Err(Fail::Fault(Refused::NoSuchRule(attribute, name)))
}

/// The positions of the rules of these names.
#[tactic(auto, unfolding(crate::specs::Attributes::positions))]
fn positions(
    alloc: Global,
    attribute: Attribute,
    rules: &[BuiltRule],
    names: &[Name],
) -> Building<Items<u32>>
    ensures { Gives result (spec.positions attribute rules.now names.now) }
{
    let mut found = Items::new(alloc);
    for name in names {
        found.push(position_of(alloc, attribute, rules, name)?)?;
    }
    Ok(found)
}

/// Pairs of those that stand side by side, the first one after this.
fn side_by_side(
    alloc: Global,
    attribute: Attribute,
    first: u32,
    others: &[u32],
) -> Result<Items<Pair>, AllocError>
    ensures { IfOk result (λ pairs. pairs ≡ spec.side_by_side attribute first others.now) }
{
    let mut pairs = Items::new(alloc);
    let mut before = first;
    for after in others {
        pairs.push(Pair {
            attribute,
            before,
            after: *after,
        })?;
        before = *after;
    }
    Ok(pairs)
}

/// Pairs of those that stand side by side.
fn listed(alloc: Global, attribute: Attribute, positions: &[u32]) -> Result<Items<Pair>, AllocError>
    ensures { IfOk result (λ pairs. pairs ≡ spec.listed attribute positions.now) }
{
    match positions.split_first() {
        Some((first, others)) => side_by_side(alloc, attribute, *first, others),
        None => Ok(Items::new(alloc)),
    }
}

/// Pairs of one on the left with each on the right.
fn with_each(alloc: Global, left: u32, rights: &[u32]) -> Result<Items<Pair>, AllocError>
    ensures { IfOk result (λ pairs. pairs ≡ spec.with_each left rights.now) }
{
    let mut pairs = Items::new(alloc);
    for right in rights {
        pairs.push(Pair {
            attribute: Attribute::Preempts,
            before: left,
            after: *right,
        })?;
    }
    Ok(pairs)
}

/// Pairs of each on the left with each on the right.
fn each_with_each(alloc: Global, lefts: &[u32], rights: &[u32]) -> Result<Items<Pair>, AllocError>
    ensures { IfOk result (λ pairs. pairs ≡ spec.each_with_each lefts.now rights.now) }
{
    let mut pairs = Items::new(alloc);
    for left in lefts {
        pairs.append(with_each(alloc, *left, rights)?)?;
    }
    Ok(pairs)
}

fn with_pairs(marks: Marks, pairs: Items<Pair>) -> Result<Marks, AllocError>
    ensures { IfOk result (λ found. found ≡ spec.with_pairs marks pairs) }
{
    let mut marks = marks;
    marks.pairs.append(pairs)?;
    Ok(marks)
}

fn with_assert(marks: Marks, rule: u32, fires: bool) -> Result<Marks, AllocError>
    ensures { IfOk result (λ found. found ≡ spec.with_assert marks rule fires) }
{
    let mut marks = marks;
    marks.asserts.push(Assert { rule, fires })?;
    Ok(marks)
}

/// What a list of names asks for beside the marks.
fn with_list(
    alloc: Global,
    attribute: Attribute,
    rules: &[BuiltRule],
    marks: Marks,
    names: &[Name],
) -> Building<Marks>
    ensures { Gives result (spec.with_list attribute rules.now marks names.now) }
{
    let positions = positions(alloc, attribute, rules, names)?;
    let pairs = listed(alloc, attribute, positions.as_slice())?;
    Ok(with_pairs(marks, pairs)?)
}

/// What the two sides of `preempts` ask for beside the marks.
fn with_sides(
    alloc: Global,
    rules: &[BuiltRule],
    marks: Marks,
    lefts: &[Name],
    rights: &[Name],
) -> Building<Marks>
    ensures { Gives result (spec.with_sides rules.now marks lefts.now rights.now) }
{
    let lefts = positions(alloc, Attribute::Preempts, rules, lefts)?;
    let rights = positions(alloc, Attribute::Preempts, rules, rights)?;
    let pairs = each_with_each(alloc, lefts.as_slice(), rights.as_slice())?;
    Ok(with_pairs(marks, pairs)?)
}

/// What an attribute asks for beside the marks; it comes before the module, or before the rule of a position.
fn marked(
    alloc: Global,
    rules: &[BuiltRule],
    rule: u32,
    marks: Marks,
    asked: &Asked,
) -> Building<Marks>
    ensures { Gives result (spec.marked rules.now rule marks asked.now) }
{
    match asked {
        Asked::Synthesize => Ok(marks),
        Asked::DescendingUrgency(names) => {
            let attribute = Attribute::DescendingUrgency;
            with_list(alloc, attribute, rules, marks, names.as_slice())
        }
        Asked::ExecutionOrder(names) => {
            let attribute = Attribute::ExecutionOrder;
            with_list(alloc, attribute, rules, marks, names.as_slice())
        }
        Asked::Preempts(lefts, rights) => {
            with_sides(alloc, rules, marks, lefts.as_slice(), rights.as_slice())
        }
        Asked::FireWhenEnabled => Ok(with_assert(marks, rule, true)?),
        Asked::NoImplicitConditions => Ok(with_assert(marks, rule, false)?),
    }
}

#[tactic(auto, unfolding(crate::specs::Attributes::marked_all))]
fn marked_all(
    alloc: Global,
    rules: &[BuiltRule],
    rule: u32,
    marks: Marks,
    attributes: &[Asked],
) -> Building<Marks>
    ensures { Gives result (spec.marked_all rules.now rule marks attributes.now) }
{
    let mut marks = marks;
    for asked in attributes {
        marks = marked(alloc, rules, rule, marks, asked)?;
    }
    Ok(marks)
}

/// The attributes of the rule of a place.
fn attributes_of(sources: &Items<Rule>, rule: u32) -> &[Asked]
    ensures { result.now ≡ spec.attributes_of (slice_get sources.now rule) }
{
    match sources.get(rule as usize) {
        Some(found) => found.attributes.as_slice(),
        None => &[],
    }
}

/// What the attributes of the rules ask for beside the marks.
#[tactic(auto, unfolding(crate::specs::Attributes::marked_rules))]
fn marked_rules(
    alloc: Global,
    sources: &Items<Rule>,
    rules: &[BuiltRule],
    marks: Marks,
) -> Building<Marks>
    ensures { Gives result (spec.marked_rules sources.now rules.now marks rules.now) }
{
    let mut marks = marks;
    for rule in rules {
        let asked = attributes_of(sources, rule.rule);
        marks = marked_all(alloc, rules, rule.position, marks, asked)?;
    }
    Ok(marks)
}

/// What the attributes of a module and of its rules ask for.
#[tactic(auto, unfolding(crate::specs::Attributes::marks_of))]
pub(crate) fn marks_of(alloc: Global, module: &Module, rules: &[BuiltRule]) -> Building<Marks>
    ensures { Gives result (spec.marks_of «module».now rules.now) }
{
    let own = module.attributes.as_slice();
    let marks = marked_all(alloc, rules, 0, no_marks(alloc), own)?;
    marked_rules(alloc, &module.rules, rules, marks)
}
