ghost use Rattle.std.specs.Prelude.{◌≡◌, IfOk, OnOk};
ghost use Rattle.bsv_scopes.specs.Seen.{entries};
ghost use Rattle.bsv_types.specs.Kinds.{kind};
ghost use Rattle.bsv_statements.specs.SeenBodies.{GivesAt};
ghost use Rattle.bsv_check.specs.Blame as blames;
ghost use Rattle.bsv_check.specs.Headers as spec;
ghost use Rattle.bsv_modules.specs.Programs as programs;
ghost use Rattle.bsv_modules.specs.Seen.{KeptAt, program_of, seen_by, types_of};
ghost use Rattle.bsv_check.specs.Seen.{blame_of};

use crate::blame::Blame;
use bsv_ast::{Item, Package};
use bsv_bits::{Name, OutOfMemory};
use bsv_context::Context;
use bsv_modules::{Program, announce_function, announce_module, define_types};
use bsv_scopes::Scope;
use bsv_statements::BodyFail;
use bsv_types::{Interface, Items, Methods, Ty};
use std::alloc::Global;

/// The types of a program, the headings of its functions and modules, and what is blamed on them.
#[derive(Drop)]
pub(crate) struct Headings {
    pub(crate) program: Program,
    pub(crate) blame: Blame,
}

/// `Empty`, which has no methods.
fn empty_interface(alloc: Global) -> Result<Interface, OutOfMemory>
    ensures { IfOk result (λ i. i ≡ programs.empty_interface) }
{
    let name = Name::new(alloc, b"Empty")?;
    let methods = Methods::new(alloc, Items::new(alloc))?;
    Ok(Interface { name, methods })
}

/// The name `Empty` alone.
#[tactic(auto, unfolding(bsv_modules::specs::Seen::seen_by))]
fn empty_name(alloc: Global) -> Result<Scope<Ty>, OutOfMemory>
    ensures { IfOk result (λ names. seen_by kind (entries names) ≡ programs.empty_name) }
{
    let mut names = Scope::new(alloc);
    let name = Name::new(alloc, b"Empty")?;
    names.define(name, Ty::Interface(0))?;
    Ok(names)
}

/// `Empty` alone.
#[tactic(auto, using(bsv_modules::proofs::Views::nothing))]
fn no_types(alloc: Global, strict: bool) -> Result<Context, OutOfMemory>
    ensures { IfOk result (λ c. types_of c ≡ programs.no_types strict) }
{
    let types = empty_name(alloc)?;
    let empty = empty_interface(alloc)?;
    let mut interfaces = Items::new(alloc);
    interfaces.push(empty)?;
    Ok(Context {
        strict,
        enums: Items::new(alloc),
        structs: Items::new(alloc),
        interfaces,
        functions: Scope::new(alloc),
        callable: 0,
        labels: Scope::new(alloc),
        types,
    })
}

/// The types of an item more, or none where it has a fault, for which it may be blamed.
#[tactic(auto, unfolding(crate::specs::Headers::type_step, crate::specs::Blame::type_blame))]
fn add_type(
    alloc: Global,
    number: u32,
    context: &mut Context,
    blame: &mut Blame,
    item: &Item,
) -> Result<(), OutOfMemory>
    ensures types { OnOk result (types_of context.new
        ≡ spec.type_step item.now (types_of context.old)) }
    ensures blame { OnOk result (blame_of blame.new
        ≡ blames.type_blame number item.now (types_of context.old) (blame_of blame.old)) }
{
    match define_types(alloc, context, item) {
        Ok(()) => Ok(()),
        Err(BodyFail::Memory) => Err(OutOfMemory),
        Err(BodyFail::At(span)) => {
            let leaning = blame.untyped.item_leans(alloc, item)?;
            blame.add(alloc, item, leaning, number, span)
        }
    }
}

/// The types of these items of a package more, but those of items with faults.
fn add_types(
    alloc: Global,
    number: u32,
    context: &mut Context,
    blame: &mut Blame,
    items: &[Item],
) -> Result<(), OutOfMemory>
    ensures types { OnOk result (types_of context.new
        ≡ spec.over_items spec.type_step items.now (types_of context.old)) }
    ensures blame { OnOk result (blame_of blame.new
        ≡ blames.items_blame spec.type_step blames.type_blame number items.now
        (types_of context.old) (blame_of blame.old)) }
{
    let mut rest = items;
    while let Some((item, after)) = rest.split_first() {
        add_type(alloc, number, context, blame, item)?;
        rest = after;
    }
    Ok(())
}

/// The types of all packages more.
fn all_types(
    alloc: Global,
    context: &mut Context,
    blame: &mut Blame,
    packages: &[Package],
) -> Result<(), OutOfMemory>
    ensures types { OnOk result (types_of context.new
        ≡ spec.over_all spec.type_step packages.now (types_of context.old)) }
    ensures blame { OnOk result (blame_of blame.new
        ≡ blames.all_blame spec.type_step blames.type_blame 0 packages.now (types_of context.old)
        (blame_of blame.old)) }
{
    let mut number: u32 = 0;
    let mut rest = packages;
    while let Some((package, after)) = rest.split_first() {
        add_types(alloc, number, context, blame, package.items().as_slice())?;
        number = number.checked_add(1).ok_or(OutOfMemory)?;
        rest = after;
    }
    Ok(())
}

/// The heading of the function or the module that an item defines.
fn announce(alloc: Global, program: &mut Program, item: &Item) -> Result<(), BodyFail>
    ensures given { GivesAt (λ done. program_of program.new) result
        (spec.headers_after item.now (program_of program.old)) }
    ensures kept { KeptAt result (program_of program.new ≡ program_of program.old) }
{
    match item {
        Item::Function(_, written) => announce_function(alloc, program, written),
        Item::Module(_, written) => announce_module(alloc, program, written),
        Item::Import(_, _) | Item::Typedef(_, _) | Item::Interface(_, _) => Ok(()),
    }
}

/// The heading of an item more, or none where it has a fault, for which it may be blamed.
#[tactic(auto, unfolding(crate::specs::Headers::header_step, crate::specs::Blame::header_blame))]
fn add_heading(
    alloc: Global,
    number: u32,
    program: &mut Program,
    blame: &mut Blame,
    item: &Item,
) -> Result<(), OutOfMemory>
    ensures program { OnOk result (program_of program.new
        ≡ spec.header_step item.now (program_of program.old)) }
    ensures blame { OnOk result (blame_of blame.new
        ≡ blames.header_blame number item.now (program_of program.old) (blame_of blame.old)) }
{
    match announce(alloc, program, item) {
        Ok(()) => {}
        Err(BodyFail::Memory) => return Err(OutOfMemory),
        Err(BodyFail::At(span)) => {
            let leaning = blame.untyped.header_leans(alloc, item)?;
            blame.add(alloc, item, leaning, number, span)?;
        }
    }
    blame.add_reach(alloc, item)
}

/// The headings of these items of a package more, but those of items with faults.
fn add_headings(
    alloc: Global,
    number: u32,
    program: &mut Program,
    blame: &mut Blame,
    items: &[Item],
) -> Result<(), OutOfMemory>
    ensures program { OnOk result (program_of program.new
        ≡ spec.over_items spec.header_step items.now (program_of program.old)) }
    ensures blame { OnOk result (blame_of blame.new
        ≡ blames.items_blame spec.header_step blames.header_blame number items.now
        (program_of program.old) (blame_of blame.old)) }
{
    let mut rest = items;
    while let Some((item, after)) = rest.split_first() {
        add_heading(alloc, number, program, blame, item)?;
        rest = after;
    }
    Ok(())
}

/// The headings of all packages more.
fn all_headings(
    alloc: Global,
    program: &mut Program,
    blame: &mut Blame,
    packages: &[Package],
) -> Result<(), OutOfMemory>
    ensures program { OnOk result (program_of program.new
        ≡ spec.over_all spec.header_step packages.now (program_of program.old)) }
    ensures blame { OnOk result (blame_of blame.new
        ≡ blames.all_blame spec.header_step blames.header_blame 0 packages.now
        (program_of program.old) (blame_of blame.old)) }
{
    let mut number: u32 = 0;
    let mut rest = packages;
    while let Some((package, after)) = rest.split_first() {
        add_headings(alloc, number, program, blame, package.items().as_slice())?;
        number = number.checked_add(1).ok_or(OutOfMemory)?;
        rest = after;
    }
    Ok(())
}

/// A program of these types, in which nothing has a heading yet.
#[tactic(auto, using(bsv_modules::proofs::Views::nothing))]
fn no_headings(alloc: Global, types: Context) -> Program
    ensures { program_of result ≡ spec.no_headers (types_of types) }
{
    let mut context = types;
    context.functions = Scope::new(alloc);
    Program {
        context,
        modules: Scope::new(alloc),
    }
}

/// All types of a program, the headings of all its functions and modules, and what is blamed on them.
#[tactic(auto, unfolding(crate::specs::Headers::all_types, crate::specs::Headers::all_headers, crate::specs::Blame::types_blame, crate::specs::Blame::headers_blame))]
pub(crate) fn read_headings(
    alloc: Global,
    strict: bool,
    packages: &[Package],
) -> Result<Headings, OutOfMemory>
    ensures program { IfOk result (λ h. program_of h.program
        ≡ spec.all_headers strict packages.now) }
    ensures blame { IfOk result (λ h. blame_of h.blame ≡ blames.headers_blame strict packages.now) }
{
    let mut blame = Blame::none(alloc);
    let mut types = no_types(alloc, strict)?;
    all_types(alloc, &mut types, &mut blame, packages)?;
    let mut program = no_headings(alloc, types);
    all_headings(alloc, &mut program, &mut blame, packages)?;
    Ok(Headings { program, blame })
}
