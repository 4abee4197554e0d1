ghost use Rattle.std.specs.Prelude.{◌≡◌, Ok, Err, IfOk};
ghost use Rattle.bsv_statements.specs.SeenBodies.{GivesAt};
ghost use Rattle.bsv_check.specs.Blame as blames;
ghost use Rattle.bsv_check.specs.Checked as spec;
ghost use Rattle.bsv_check.specs.declared.checking.PlaceFail.TheVariants as place_fail;
ghost use Rattle.bsv_check.specs.declared.fault.CheckFault.TheVariants as check_fault;
ghost use Rattle.bsv_modules.specs.Seen.{program_of};
ghost use Rattle.bsv_check.specs.Seen.{Answers, GivesPlace, blame_of, Refuses, Stands, done_of, made_by, typed_seen};

use crate::blame::{Blame, earlier};
use crate::counted::is_counted;
use crate::fault::CheckFault;
use crate::headings::{Headings, read_headings};
use crate::judged::judge_packages;
use crate::law::programs_are_right;
use bsv_ast::{Function as WrittenFunction, Item, Module as WrittenModule, Package};
use bsv_bits::OutOfMemory;
use bsv_context::Context;
use bsv_modules::{Program, function, module};
use bsv_names::{Place, bad_attribute, twice, unknown};
use bsv_statements::{BodyFail, at};
use bsv_types::{Function, Items, Module, Typed};
use bsv_typing::place_number;
use std::alloc::Global;

/// Why a program has no typing.
#[derive(Debug, Drop)]
pub(crate) enum PlaceFail {
    /// Memory ran out.
    Memory,
    /// What is at this place has none.
    At(Place),
}

impl From<OutOfMemory> for PlaceFail {
    ghost from_gives = { λ _ e. e ≡ place_fail.Memory };

    fn from(_error: OutOfMemory) -> PlaceFail {
        PlaceFail::Memory
    }
}

/// The functions and modules that were typed so far.
#[derive(Drop)]
pub(crate) struct Done {
    pub(crate) functions: Items<Function>,
    pub(crate) modules: Items<Module>,
}

/// What a program is typed as.
#[derive(Drop)]
pub(crate) struct Parts {
    pub(crate) types: Context,
    pub(crate) done: Done,
}

/// A function, one more that is typed.
#[tactic(auto, unfolding(crate::specs::Checked::function_step))]
fn add_function(
    alloc: Global,
    program: &mut Program,
    functions: &mut Items<Function>,
    written: &WrittenFunction,
) -> Result<(), BodyFail>
    ensures typed { GivesAt (λ u. functions.new) result
        (spec.function_step (program_of program.old) written.now functions.old) }
    ensures kept { program_of program.new ≡ program_of program.old }
{
    let number = at(written.span, place_number(functions.len()))?;
    let typed = function(alloc, program, number, written)?;
    functions.push(typed)?;
    Ok(())
}

/// A module, one more that is typed.
#[tactic(auto, unfolding(crate::specs::Checked::module_step))]
fn add_module(
    alloc: Global,
    program: &mut Program,
    modules: &mut Items<Module>,
    written: &WrittenModule,
) -> Result<(), BodyFail>
    ensures typed { GivesAt (λ u. modules.new) result
        (spec.module_step (program_of program.old) written.now modules.old) }
    ensures kept { program_of program.new ≡ program_of program.old }
{
    let number = at(written.span, place_number(modules.len()))?;
    let typed = module(alloc, program, number, written)?;
    modules.push(typed)?;
    Ok(())
}

/// An item, one more that is typed.
#[tactic(auto, unfolding(crate::specs::Checked::item_step))]
fn add_item(
    alloc: Global,
    program: &mut Program,
    done: &mut Done,
    item: &Item,
) -> Result<(), BodyFail>
    ensures typed { GivesAt (λ u. done_of done.new) result
        (spec.item_step (program_of program.old) item.now (done_of done.old)) }
    ensures kept { program_of program.new ≡ program_of program.old }
{
    match item {
        Item::Function(_, written) => add_function(alloc, program, &mut done.functions, written),
        Item::Module(_, written) => add_module(alloc, program, &mut done.modules, written),
        Item::Import(_, _) | Item::Typedef(_, _) | Item::Interface(_, _) => Ok(()),
    }
}

/// The items of a package, one after the other.
fn add_items(
    alloc: Global,
    program: &mut Program,
    done: &mut Done,
    items: &[Item],
) -> Result<(), BodyFail>
    ensures typed { GivesAt (λ u. done_of done.new) result
        (spec.all_items (program_of program.old) items.now (done_of done.old)) }
    ensures kept { program_of program.new ≡ program_of program.old }
{
    let mut rest = items;
    while let Some((item, after)) = rest.split_first() {
        add_item(alloc, program, done, item)?;
        rest = after;
    }
    Ok(())
}

/// The items of the package of this number.
#[tactic(auto, unfolding(crate::specs::Checked::package_step))]
fn add_package(
    alloc: Global,
    program: &mut Program,
    done: &mut Done,
    number: u32,
    package: &Package,
) -> Result<(), PlaceFail>
    ensures typed { GivesPlace (λ u. done_of done.new) result
        (spec.package_step (program_of program.old) number «package».now (done_of done.old)) }
    ensures kept { program_of program.new ≡ program_of program.old }
{
    match add_items(alloc, program, done, package.items().as_slice()) {
        Ok(()) => Ok(()),
        Err(BodyFail::Memory) => Err(PlaceFail::Memory),
        Err(BodyFail::At(span)) => Err(PlaceFail::At(Place {
            package: number,
            span,
        })),
    }
}

/// The typed items of all packages, or the place of the first fault.
fn add_packages(
    alloc: Global,
    program: &mut Program,
    done: &mut Done,
    packages: &[Package],
) -> Result<(), PlaceFail>
    ensures typed { GivesPlace (λ u. done_of done.new) result
        (spec.all_packages (program_of program.old) 0 packages.now (done_of done.old)) }
    ensures kept { program_of program.new ≡ program_of program.old }
{
    let mut rest = packages;
    let mut number: u32 = 0;
    while let Some((package, after)) = rest.split_first() {
        add_package(alloc, program, done, number, package)?;
        number = number.checked_add(1).ok_or(OutOfMemory)?;
        rest = after;
    }
    Ok(())
}

/// The bodies of a program whose types and headers have a typing, or the place of the first fault.
fn bodies(alloc: Global, program: Program, packages: &[Package]) -> Result<Parts, PlaceFail>
    ensures { GivesPlace made_by result (spec.bodies (program_of program) packages.now) }
{
    let mut program = program;
    let mut done = Done {
        functions: Items::new(alloc),
        modules: Items::new(alloc),
    };
    add_packages(alloc, &mut program, &mut done, packages)?;
    Ok(Parts {
        types: program.context,
        done,
    })
}

/// The place that is told where a type or a header is blamed at the first one.
fn told(
    alloc: Global,
    program: &mut Program,
    blame: &Blame,
    first: Place,
    packages: &[Package],
) -> Result<Parts, PlaceFail>
    ensures { GivesPlace made_by result (Err (blames.told first
        (blames.packages_judged (program_of program.old) (blame_of blame.now) 0 packages.now))) }
{
    match judge_packages(alloc, program, blame, packages) {
        Ok(()) => Err(PlaceFail::At(first)),
        Err(PlaceFail::At(place)) => Err(PlaceFail::At(earlier(Some(first), place))),
        Err(PlaceFail::Memory) => Err(PlaceFail::Memory),
    }
}

/// The typing of a program, or the place of the first fault that is blamed.
#[tactic(auto, unfolding(crate::specs::Checked::typing))]
fn typing(alloc: Global, strict: bool, packages: &[Package]) -> Result<Parts, PlaceFail>
    ensures { GivesPlace made_by result (spec.typing strict packages.now) }
{
    let Headings { program, blame } = read_headings(alloc, strict, packages)?;
    match blame.fault {
        None => bodies(alloc, program, packages),
        Some(first) => {
            let mut program = program;
            told(alloc, &mut program, &blame, first, packages)
        }
    }
}

/// Nothing where no name and no attribute has a fault.
#[tactic(auto, unfolding(crate::specs::Checked::refused_names))]
fn check_names(alloc: Global, packages: &[Package]) -> Result<(), CheckFault>
    ensures { Refuses result (spec.refused_names packages.now) }
{
    if let Some(place) = twice(alloc, packages)? {
        return Err(CheckFault::TwiceDefined(place));
    }
    if let Some(place) = bad_attribute(alloc, packages)? {
        return Err(CheckFault::BadAttribute(place));
    }
    if let Some(place) = unknown(alloc, packages)? {
        return Err(CheckFault::UnknownName(place));
    }
    Ok(())
}

/// The typing of a program, widths and fits left aside.
fn check_loosely(alloc: Global, packages: &[Package]) -> Result<Parts, CheckFault>
    ensures { Answers made_by result (spec.or_type_fault (spec.loosely packages.now)) }
{
    match typing(alloc, false, packages) {
        Ok(done) => Ok(done),
        Err(PlaceFail::Memory) => Err(CheckFault::OutOfMemory),
        Err(PlaceFail::At(place)) => Err(CheckFault::TypeFault(place)),
    }
}

/// The typing of a program with widths and fits.
fn check_strictly(alloc: Global, packages: &[Package]) -> Result<Parts, CheckFault>
    ensures answers { Answers made_by result (spec.or_width_fault (spec.strictly packages.now)) }
    ensures strict { IfOk result (λ d. spec.strictly packages.now ≡ Ok (made_by d)) }
{
    match typing(alloc, true, packages) {
        Ok(done) => Ok(done),
        Err(PlaceFail::Memory) => Err(CheckFault::OutOfMemory),
        Err(PlaceFail::At(place)) => Err(CheckFault::WidthFault(place)),
    }
}

/// The typing of a program that has both typings.
#[tactic(auto, unfolding(crate::specs::Checked::typed))]
fn check_types(alloc: Global, packages: &[Package]) -> Result<Parts, CheckFault>
    ensures answers { Answers made_by result (spec.typed packages.now) }
    ensures strict { IfOk result (λ d. spec.strictly packages.now ≡ Ok (made_by d)) }
{
    let _loosely = check_loosely(alloc, packages)?;
    check_strictly(alloc, packages)
}

/// The typing of a program without a fault, or the first refusal.
#[tactic(auto, unfolding(crate::specs::Checked::checked))]
fn checked_parts(alloc: Global, packages: &[Package]) -> Result<Parts, CheckFault>
    ensures answers { Answers made_by result (spec.checked packages.now) }
    ensures strict { IfOk result (λ d. spec.strictly packages.now ≡ Ok (made_by d)) }
{
    check_names(alloc, packages)?;
    check_types(alloc, packages)
}

/// The typed tree of a program, or the first refusal.
fn check_all(alloc: Global, packages: &[Package]) -> Result<Typed, CheckFault>
    ensures { Answers typed_seen result (spec.checked packages.now) }
{
    let parts = checked_parts(alloc, packages)?;
    if !is_counted(&parts) {
        return Err(CheckFault::OutOfMemory);
    }
    programs_are_right();
    let Parts { types, done } = parts;
    Ok(Typed::new(
        types.enums,
        types.structs,
        types.interfaces,
        done.functions,
        done.modules,
    ))
}

/// The typed tree of a program, or the first refusal: names that are defined twice come first, then bad attributes
/// and unknown names, then faults of types, and of widths.
pub fn check(alloc: Global, packages: &[Package]) -> Result<Typed, CheckFault>
    ensures typed { IfOk result (λ t. spec.checked packages.now ≡ Ok (typed_seen t)) }
    ensures only { Answers typed_seen result (spec.checked packages.now) }
    ensures twice_defined { Stands check_fault.TwiceDefined spec.twice_defined result
        (spec.checked packages.now) }
    ensures bad_attribute { Stands check_fault.BadAttribute spec.bad_attribute result
        (spec.checked packages.now) }
    ensures unknown_name { Stands check_fault.UnknownName spec.unknown_name result
        (spec.checked packages.now) }
    ensures type_fault { Stands check_fault.TypeFault spec.type_fault result
        (spec.checked packages.now) }
    ensures width_fault { Stands check_fault.WidthFault spec.width_fault result
        (spec.checked packages.now) }
{
    check_all(alloc, packages)
}
