ghost use Rattle.std.specs.Prelude.{◌≡◌};
ghost use Rattle.bsv_scopes.specs.Scopes.{found};
ghost use Rattle.bsv_types.specs.Kinds.{kind};
ghost use Rattle.bsv_names.specs.UntypedSeen.{reached, untyped as untyped_of};
ghost use Rattle.bsv_statements.specs.SeenBodies.{GivesAt};
ghost use Rattle.bsv_check.specs.Blame as spec;
ghost use Rattle.bsv_modules.specs.Programs.{site_at};
ghost use Rattle.bsv_modules.specs.Seen.{program_of};
ghost use Rattle.bsv_check.specs.Seen.{GivesPlace, blame_of};

use crate::blame::Blame;
use crate::checking::PlaceFail;
use crate::judged_modules::{ModuleJudge, judge_body};
use bsv_ast::{Function as WrittenFunction, Item, Module as WrittenModule, Package};
use bsv_bits::{Name, OutOfMemory};
use bsv_modules::{
    ModuleContext, Program, State, asked, defines_all, function_heading, module_heading,
    no_methods, param_scopes,
};
use bsv_names::{Place, Reach, Untyped, Variables};
use bsv_scopes::Space;
use bsv_statements::{BodyFail, at};
use bsv_types::{Boxed, Items, MethodResult, Owner, Param, Ty};
use bsv_typing::place_number;
use std::alloc::Global;

/// The number of the function of the name, if it has a header.
#[tactic(auto, using(bsv_modules::proofs::Views::finds), unfolding(bsv_modules::specs::Seen::function_seen))]
fn own_number(program: &Program, name: &Name) -> u32
    ensures { result ≡ spec.own_number (found name.now (program_of program.now).functions) }
{
    match program.context.functions.find(name) {
        Some(header) => header.number,
        None => 0,
    }
}

/// The body of a function, in the scope of its parameters, has no fault of its own.
#[tactic(auto, using(bsv_modules::proofs::Views::bodies), unfolding(crate::specs::Blame::function_body_judged))]
fn judge_function_body(
    alloc: Global,
    program: &Program,
    reach: Reach<'_>,
    written: &WrittenFunction,
    params: &[Param],
    gives: &Ty,
) -> Result<(), BodyFail>
    ensures { GivesAt (λ u. u) result (spec.function_body_judged (program_of program.now)
        program.now.context.callable (reached reach.entry) written.now params.now
        (kind gives.now)) }
{
    let span = written.span;
    let mut scopes = param_scopes(alloc, span, params)?;
    let does = MethodResult::Value(gives.copy(alloc)?);
    let mut names = Variables::new(alloc);
    names.open(alloc)?;
    names.declare_params(alloc, written.params.as_slice(), true)?;
    judge_body(
        alloc,
        reach,
        &program.context,
        &mut names,
        &mut scopes,
        span,
        0,
        &does,
        &written.body,
    )
}

/// A function has no fault of its own after its header.
#[tactic(auto, unfolding(crate::specs::Blame::function_judged))]
fn judge_function(
    alloc: Global,
    program: &mut Program,
    blame: &Blame,
    written: &WrittenFunction,
) -> Result<(), BodyFail>
    ensures judged { GivesAt (λ u. u) result (spec.function_judged (program_of program.old)
        (blame_of blame.now) written.now) }
    ensures kept { program_of program.new ≡ program_of program.old }
{
    let name = &written.name.name;
    if blame.untyped.has(Space::Functions, name) {
        return Ok(());
    }
    let heading = Boxed::new(alloc, function_heading(alloc, program, written)?)?;
    program.context.callable = own_number(program, name);
    let reach = blame.within_reach(name);
    let (params, gives) = heading.get();
    judge_function_body(alloc, program, reach, written, params.as_slice(), gives)
}

/// The body of a module whose header has a typing has no fault of its own.
#[tactic(auto, using(bsv_modules::proofs::Views::sites))]
fn judge_module_body(
    alloc: Global,
    program: &Program,
    untyped: &Untyped,
    written: &WrittenModule,
    params: &[Param],
    interface: &Ty,
) -> Result<(), BodyFail>
    ensures { GivesAt (λ u. u) result (spec.module_body_judged
        (site_at (program_of program.now) program.now.context.callable (kind interface.now))
        (untyped_of untyped.now) written.now params.now) }
{
    let scopes = param_scopes(alloc, written.span, params)?;
    let site = ModuleContext {
        context: &program.context,
        modules: &program.modules,
        interface,
    };
    let stmts = written.body.as_slice();
    if !defines_all(alloc, site.context, site.interface, stmts)? {
        return Err(BodyFail::At(written.span));
    }
    let mut names = Variables::new(alloc);
    names.open(alloc)?;
    names.declare_params(alloc, written.params.as_slice(), true)?;
    let mut state = State {
        scopes,
        rules: Items::new(alloc),
        methods: no_methods(alloc, site.context, site.interface)?,
    };
    let reach = untyped.whole();
    ModuleJudge { alloc, reach, site }.all_direct(&mut names, &mut state, stmts)
}

/// A module has no fault of its own after its header.
#[tactic(auto, using(bsv_modules::proofs::Views::lengths), unfolding(crate::specs::Blame::module_judged))]
fn judge_module(
    alloc: Global,
    program: &mut Program,
    untyped: &Untyped,
    written: &WrittenModule,
) -> Result<(), BodyFail>
    ensures judged { GivesAt (λ u. u) result (spec.module_judged (program_of program.old)
        (untyped_of untyped.now) written.now) }
    ensures kept { program_of program.new ≡ program_of program.old }
{
    let span = written.span;
    if untyped.has(Space::Modules, &written.name.name) {
        return Ok(());
    }
    drop(asked(alloc, span, Owner::Module, written.attributes.as_slice())?);
    let heading = Boxed::new(alloc, module_heading(alloc, program, written)?)?;
    program.context.callable = at(span, place_number(program.context.functions.len()))?;
    let (params, interface) = heading.get();
    judge_module_body(
        alloc,
        program,
        untyped,
        written,
        params.as_slice(),
        interface,
    )
}

/// An item has no fault of its own after its header.
fn judge_item(
    alloc: Global,
    program: &mut Program,
    blame: &Blame,
    item: &Item,
) -> Result<(), BodyFail>
    ensures judged { GivesAt (λ u. u) result (spec.item_judged (program_of program.old)
        (blame_of blame.now) item.now) }
    ensures kept { program_of program.new ≡ program_of program.old }
{
    match item {
        Item::Function(_, written) => judge_function(alloc, program, blame, written),
        Item::Module(_, written) => judge_module(alloc, program, &blame.untyped, written),
        Item::Import(_, _) | Item::Typedef(_, _) | Item::Interface(_, _) => Ok(()),
    }
}

/// The items of a package have no fault of their own after their headers.
fn judge_items(
    alloc: Global,
    program: &mut Program,
    blame: &Blame,
    items: &[Item],
) -> Result<(), BodyFail>
    ensures judged { GivesAt (λ u. u) result (spec.items_judged (program_of program.old)
        (blame_of blame.now) items.now) }
    ensures kept { program_of program.new ≡ program_of program.old }
{
    let mut rest = items;
    while let Some((item, after)) = rest.split_first() {
        judge_item(alloc, program, blame, item)?;
        rest = after;
    }
    Ok(())
}

/// The items of the package of this number have no fault of their own after their headers.
fn judge_package(
    alloc: Global,
    program: &mut Program,
    blame: &Blame,
    number: u32,
    package: &Package,
) -> Result<(), PlaceFail>
    ensures judged { GivesPlace (λ u. u) result
        (spec.package_judged (program_of program.old) (blame_of blame.now) number «package».now) }
    ensures kept { program_of program.new ≡ program_of program.old }
{
    match judge_items(alloc, program, blame, package.items().as_slice()) {
        Ok(()) => Ok(()),
        Err(BodyFail::Memory) => Err(PlaceFail::Memory),
        Err(BodyFail::At(span)) => Err(PlaceFail::At(Place {
            package: number,
            span,
        })),
    }
}

/// No body in the packages has a fault of its own; else the place of the first.
pub(crate) fn judge_packages(
    alloc: Global,
    program: &mut Program,
    blame: &Blame,
    packages: &[Package],
) -> Result<(), PlaceFail>
    ensures { GivesPlace (λ u. u) result (spec.packages_judged (program_of program.old)
        (blame_of blame.now) 0 packages.now) }
{
    let mut rest = packages;
    let mut number: u32 = 0;
    while let Some((package, after)) = rest.split_first() {
        judge_package(alloc, program, blame, number, package)?;
        number = number.checked_add(1).ok_or(OutOfMemory)?;
        rest = after;
    }
    Ok(())
}
