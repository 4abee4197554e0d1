ghost use Rattle.std.specs.Prelude.{◌≡◌, ◌++◌, List, map, IfOk};
ghost use Rattle.std.specs.List.{flat_map};
ghost use Rattle.bsv_names.specs.Attributes as spec;

use crate::place::Place;
use bsv_ast::{
    Attribute as Written, AttributeGroup, Item, Module, ModuleBranch, ModuleStmt, Package,
};
use bsv_bits::OutOfMemory;
use bsv_types::{Owner, attribute};
use std::alloc::{AllocError, Global};

/// The first of these attributes that is malformed.
fn bad_among(
    alloc: Global,
    number: u32,
    owner: Owner,
    attributes: &[Written],
) -> Result<Option<Place>, AllocError>
    ensures { IfOk result (λ bad. bad ≡ spec.first_malformed
        (map (spec.standing number owner) attributes.now)) }
{
    let mut rest = attributes;
    while let Some((written, after)) = rest.split_first() {
        if attribute(alloc, owner, written)?.is_none() {
            let span = written.span;
            return Ok(Some(Place {
                package: number,
                span,
            }));
        }
        rest = after;
    }
    Ok(None)
}

#[tactic(auto, using(crate::proofs::Malformed::malformed))]
fn bad_of_owner(
    alloc: Global,
    number: u32,
    owner: Owner,
    groups: &[AttributeGroup],
) -> Result<Option<Place>, AllocError>
    ensures { IfOk result (λ bad. bad ≡ spec.first_malformed
        (spec.of_owner number owner groups.now)) }
{
    let mut rest = groups;
    while let Some((group, after)) = rest.split_first() {
        let bad = bad_among(alloc, number, owner, group.attributes.as_slice())?;
        if bad.is_some() {
            return Ok(bad);
        }
        rest = after;
    }
    Ok(None)
}

/// The first attribute of a rule in the statement that is malformed.
#[cycle(walk)]
#[tactic(auto, using(crate::proofs::Malformed::malformed))]
fn bad_in_statement(
    alloc: Global,
    number: u32,
    statement: &ModuleStmt,
) -> Result<Option<Place>, AllocError>
    ensures { IfOk result (λ bad. bad ≡ spec.first_malformed
        (spec.in_statement number statement.now)) }
{
    match statement {
        ModuleStmt::Instance(_, _, _, _)
        | ModuleStmt::Array(_, _, _, _)
        | ModuleStmt::Place(_, _, _, _)
        | ModuleStmt::Declare(_, _)
        | ModuleStmt::Assign(_, _, _)
        | ModuleStmt::Method(_, _) => Ok(None),
        ModuleStmt::Block(_, body) => bad_in_statements(alloc, number, body.as_slice()),
        ModuleStmt::If(_, branches, None) => bad_in_branches(alloc, number, branches.as_slice()),
        ModuleStmt::If(_, branches, Some(otherwise)) => {
            bad_in_arms(alloc, number, branches.as_slice(), otherwise.get())
        }
        ModuleStmt::For(_, _, body) => bad_in_statement(alloc, number, body.get()),
        ModuleStmt::Rule(_, rule) => {
            bad_of_owner(alloc, number, Owner::Rule, rule.attributes.as_slice())
        }
    }
}

#[cycle(walk)]
#[tactic(auto, using(crate::proofs::Malformed::malformed))]
fn bad_in_statements(
    alloc: Global,
    number: u32,
    statements: &[ModuleStmt],
) -> Result<Option<Place>, AllocError>
    ensures { IfOk result (λ bad. bad ≡ spec.first_malformed
        (spec.in_statements number statements.now)) }
{
    let mut rest = statements;
    while let Some((statement, after)) = rest.split_first() {
        let bad = bad_in_statement(alloc, number, statement)?;
        if bad.is_some() {
            return Ok(bad);
        }
        rest = after;
    }
    Ok(None)
}

#[cycle(walk)]
#[tactic(auto, using(crate::proofs::Malformed::malformed))]
fn bad_in_arms(
    alloc: Global,
    number: u32,
    branches: &[ModuleBranch],
    otherwise: &ModuleStmt,
) -> Result<Option<Place>, AllocError>
    ensures { IfOk result (λ bad. bad ≡ spec.first_malformed
        (spec.in_branches number branches.now ++ spec.in_statement number otherwise.now)) }
{
    let bad = bad_in_branches(alloc, number, branches)?;
    if bad.is_some() {
        return Ok(bad);
    }
    bad_in_statement(alloc, number, otherwise)
}

#[cycle(walk)]
fn bad_in_branch(
    alloc: Global,
    number: u32,
    branch: &ModuleBranch,
) -> Result<Option<Place>, AllocError>
    ensures { IfOk result (λ bad. bad ≡ spec.first_malformed (spec.in_branch number branch.now)) }
{
    bad_in_statement(alloc, number, &branch.arm)
}

#[cycle(walk)]
#[tactic(auto, using(crate::proofs::Malformed::malformed))]
fn bad_in_branches(
    alloc: Global,
    number: u32,
    branches: &[ModuleBranch],
) -> Result<Option<Place>, AllocError>
    ensures { IfOk result (λ bad. bad ≡ spec.first_malformed
        (spec.in_branches number branches.now)) }
{
    let mut rest = branches;
    while let Some((branch, after)) = rest.split_first() {
        let bad = bad_in_branch(alloc, number, branch)?;
        if bad.is_some() {
            return Ok(bad);
        }
        rest = after;
    }
    Ok(None)
}

/// A module's own attributes come first, and then those of its rules.
#[tactic(auto, using(crate::proofs::Malformed::malformed))]
fn bad_in_module(
    alloc: Global,
    number: u32,
    definition: &Module,
) -> Result<Option<Place>, AllocError>
    ensures { IfOk result (λ bad. bad ≡ spec.first_malformed
        (spec.in_module number definition.now)) }
{
    let bad = bad_of_owner(
        alloc,
        number,
        Owner::Module,
        definition.attributes.as_slice(),
    )?;
    if bad.is_some() {
        return Ok(bad);
    }
    bad_in_statements(alloc, number, definition.body.as_slice())
}

fn bad_in_item(alloc: Global, number: u32, item: &Item) -> Result<Option<Place>, AllocError>
    ensures { IfOk result (λ bad. bad ≡ spec.first_malformed (spec.in_item number item.now)) }
{
    match item {
        Item::Import(_, _) | Item::Typedef(_, _) | Item::Interface(_, _) | Item::Function(_, _) => {
            Ok(None)
        }
        Item::Module(_, definition) => bad_in_module(alloc, number, definition),
    }
}

#[tactic(auto, using(crate::proofs::Malformed::malformed))]
fn bad_in_items(alloc: Global, number: u32, items: &[Item]) -> Result<Option<Place>, AllocError>
    ensures { IfOk result (λ bad. bad ≡ spec.first_malformed
        (flat_map (spec.in_item number) items.now)) }
{
    let mut rest = items;
    while let Some((item, after)) = rest.split_first() {
        let bad = bad_in_item(alloc, number, item)?;
        if bad.is_some() {
            return Ok(bad);
        }
        rest = after;
    }
    Ok(None)
}

fn bad_in_package(alloc: Global, number: u32, source: &Package) -> Result<Option<Place>, AllocError>
    ensures { IfOk result (λ bad. bad ≡ spec.first_malformed (spec.in_package number source.now)) }
{
    match source {
        Package::Named(_, _, items) | Package::Bare(_, items) => {
            bad_in_items(alloc, number, items.as_slice())
        }
    }
}

/// Where the first malformed attribute stands, in the order in which the packages were loaded, and of
/// their texts.
#[tactic(auto, using(crate::proofs::Malformed::malformed), unfolding(crate::specs::Attributes::first_bad_attribute))]
pub fn bad_attribute(alloc: Global, packages: &[Package]) -> Result<Option<Place>, OutOfMemory>
    ensures { IfOk result (λ bad. bad ≡ spec.first_bad_attribute packages.now) }
{
    let mut rest = packages;
    let mut index = 0usize;
    while let Some((source, after)) = rest.split_first() {
        let Ok(number) = u32::try_from(index) else {
            return Err(OutOfMemory);
        };
        let bad = bad_in_package(alloc, number, source)?;
        if bad.is_some() {
            return Ok(bad);
        }
        index += 1;
        rest = after;
    }
    Ok(None)
}
