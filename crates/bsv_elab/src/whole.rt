ghost use Rattle.std.specs.Prelude.{◌≡◌, ◌+◌, ◌<◌, Ok, IfOk, IfErr, length, slice_get};
ghost use Rattle.bsv_fail.specs.Given.{Gives};
ghost use Rattle.bsv_tree.specs.tree.Seen.{tree_data};
ghost use Rattle.bsv_tree.specs.tree.Trees.{IsTree};
ghost use Rattle.bsv_elab.specs.AtHand as spec;
ghost use Rattle.bsv_elab.specs.Building as building;
ghost use Rattle.bsv_elab.specs.Elements.{methods_of};
ghost use Rattle.bsv_elab.specs.Told as told;

use crate::attributes::no_marks;
use crate::bodies::MOST_MODULES;
use crate::builder::Builder;
use crate::elements::MOST_ELEMENTS;
use crate::fault::ElabFault;
use crate::law::trees_are_right;
use crate::making::{add_instance, instance, unbuilt};
use crate::names::Names;
use crate::refused::{Building, LimitKind, Refused, from_carry};
use crate::state::{Done, Grown, Scope, State};
use crate::values::countable;
use crate::variables::put_at;
use bsv_bits::{Name, OutOfMemory};
use bsv_carry::Context;
use bsv_fail::Fail;
use bsv_tree::{Fault, Made, Tree, seen};
use bsv_types::{Method, Module, Typed};
use sqlite_items::Items;
use std::alloc::Global;

/// The most methods that come before the most rules, so that each element has a number.
const MOST_METHODS: usize = 4_294_966_783;

fn is_top(name: &Name, module: &Module) -> bool
    ensures { result ≡ building.is_top name.now «module».now }
{
    module.name.bytes() == name.bytes() && module.params.is_empty()
}

/// The place of the module of the name that has no parameters.
fn top_of(name: &Name, modules: &[Module]) -> Building<u32>
    ensures { Gives result (building.top_from 0 name.now modules.now) }
{
    let _length = modules.len();
    let mut number: usize = 0;
    let mut rest = modules;
    while let Some((module, after)) = rest.split_first() {
        if is_top(name, module) {
            return countable(number);
        }
        number += 1;
        rest = after;
    }
    Err(Fail::Fault(Refused::NoSuchModule))
}

/// How many variables the method of a number sees.
fn levels_at(levels: &Items<u32>, number: u32) -> u32
    ensures { result ≡ building.levels_at levels.now number }
{
    match levels.get(number as usize) {
        Some(level) => *level,
        None => 0,
    }
}

fn no_instances(alloc: Global) -> Grown
    ensures { result ≡ building.nothing_grown }
{
    Grown {
        instances: Items::new(alloc),
        primitives: 0,
        rules: 0,
        weight: 0,
    }
}

/// The body around the top, in which nothing stands.
fn no_scope(alloc: Global) -> Scope {
    Scope {
        bindings: Items::new(alloc),
        widths: Items::new(alloc),
        instances: Names::new(alloc),
        elements: Names::new(alloc),
        rules: Items::new(alloc),
        levels: Items::new(alloc),
        marks: no_marks(alloc),
    }
}

/// The tree as it begins, with the top alone, whose body is still to be carried out.
fn top_alone(alloc: Global, top: u32) -> Result<State, OutOfMemory>
    ensures { IfOk result (λ state. state.grown ≡ building.top_alone top) }
{
    let own = instance(alloc, b"", unbuilt(alloc, top))?;
    let mut grown = no_instances(alloc);
    add_instance(own, &mut grown)?;
    Ok(State {
        grown,
        scope: no_scope(alloc),
    })
}

fn grown_of(state: State) -> Grown
    ensures { result ≡ state.grown }
{
    state.grown
}

impl<'a> Builder<'a> {
    /// The weight after a method of the top.
    #[tactic(auto, unfolding(crate::specs::Building::method_at, crate::specs::Elements::most_elements))]
    fn top_method(self, done: &Done, weight: u64, number: u32, method: &Method) -> Building<u64>
        ensures { Gives result
            (building.method_at (spec.here self.entry) done.now weight number method.now) }
    {
        if u64::from(done.grown.rules) + u64::from(number) >= u64::from(MOST_ELEMENTS) {
            let most = u64::from(MOST_ELEMENTS);
            return Err(Fail::Fault(Refused::Limit(LimitKind::Elements, most)));
        }
        let levels = levels_at(&done.built.methods, number);
        let site = Context {
            alloc: self.alloc,
            typed: self.typed,
            instances: done.grown.instances.as_slice(),
            module: self.module,
            bindings: seen(done.built.bindings.as_slice(), levels as usize),
        };
        let (_value, work) = site.top_method(method, weight).map_err(from_carry)?;
        Ok(work.count.weight)
    }

    /// The weight after the methods of the top.
    #[tactic(auto, unfolding(crate::specs::Building::methods_from, crate::specs::Building::method_at, crate::specs::Elements::most_elements))]
    fn top_methods(self, done: &Done, methods: &[Method]) -> Building<u64>
        ensures { Gives result (building.methods_from (spec.here self.entry) done.now
            done.now.grown.weight 0 methods.now) }
    {
        let mut weight = done.grown.weight;
        let mut number: u32 = 0;
        let mut rest = methods;
        while let Some((method, after)) = rest.split_first() {
            weight = self.top_method(done, weight, number, method)?;
            number += 1;
            rest = after;
        }
        Ok(weight)
    }

    fn own_methods(self) -> &'a [Method]
        ensures { result.now ≡ spec.own_methods self.entry }
    {
        match self.here_module() {
            Some(module) => module.methods.as_slice(),
            None => &[],
        }
    }

    /// The top as an instance inside nothing.
    fn top_instance(self) -> Building<Done>
        ensures { Gives result (spec.top_instance self.entry) }
    {
        let mut state = top_alone(self.alloc, self.module)?;
        let none = Items::new(self.alloc);
        let (built, marks) = self.inner_body(self.module, b"", none, &mut state)?;
        Ok(Done {
            built,
            grown: grown_of(state),
            marks,
        })
    }

    /// The top as an instance inside nothing, and the weight after its methods.
    fn top(self) -> Building<(Done, u64)>
        ensures { Gives result (spec.top self.entry) }
    {
        let done = self.top_instance()?;
        let weight = self.top_methods(&done, self.own_methods())?;
        Ok((done, weight))
    }
}

/// The tree of the top as it was carried out.
fn tree(
    alloc: Global,
    typed: Typed,
    number: u32,
    done: Done,
    weight: u64,
) -> Result<Tree, OutOfMemory>
    requires { IsTree (building.tree typed number done weight) }
    ensures { IfOk result (λ t. tree_data t ≡ building.tree typed number done weight) }
{
    let Done {
        built,
        grown,
        marks,
    } = done;
    let own = instance(alloc, b"", Made::Module(built))?;
    let mut instances = grown.instances;
    put_at(0, own, &mut instances);
    Ok(Tree::new(typed, number, instances, marks.pairs, marks.asserts, weight))
}

/// The position of the first rule, after the methods of the top.
#[tactic(auto, unfolding(crate::specs::Building::first_rule, crate::specs::Elements::most_elements))]
fn first_rule(methods: usize) -> Building<u32>
    ensures first { Gives result (building.first_rule methods) }
    ensures few { IfOk result (λ first. first + 512 < 4294967296) }
{
    if methods > MOST_METHODS {
        return Err(Fail::Fault(Refused::Carried(Fault::Weight)));
    }
    Ok(methods as u32)
}

/// How many methods the module of a place has.
fn methods_at(modules: &[Module], number: u32) -> usize
    ensures { result ≡ length (methods_of (slice_get modules.now number)) }
{
    match modules.get(number as usize) {
        Some(module) => module.methods.len(),
        None => 0,
    }
}

/// The tree, or the first refusal.
#[tactic(auto, unfolding(crate::specs::Building::most_modules))]
fn built(alloc: Global, typed: &Typed, top: &Name) -> Building<(u32, Done, u64)>
    ensures { Gives result (building.carried_out typed.now top.now) }
{
    let number = top_of(top, typed.modules.as_slice())?;
    let first = first_rule(methods_at(typed.modules.as_slice(), number))?;
    let outside = Builder {
        alloc,
        typed,
        module: number,
        path: b"",
        around: &[],
        depth: MOST_MODULES,
        first,
    };
    let (done, weight) = outside.top()?;
    Ok((number, done, weight))
}

/// The name of the module of a place.
fn module_name(alloc: Global, modules: &[Module], number: u32) -> Result<Name, OutOfMemory>
    ensures { IfOk result (λ name. name ≡ told.module_name modules.now number) }
{
    match modules.get(number as usize) {
        Some(module) => Name::new(alloc, module.name.bytes()),
        None => Name::new(alloc, b""),
    }
}

/// What carrying out meets, as it is told.
fn carried_as(alloc: Global, modules: &[Module], fault: Fault) -> Result<ElabFault, OutOfMemory>
    ensures { IfOk result (λ e. e ≡ told.carried_as modules.now fault) }
{
    Ok(match fault {
        Fault::Static(number) => ElabFault::StaticFault(module_name(alloc, modules, number)?),
        Fault::Loop(number) => ElabFault::Loop(module_name(alloc, modules, number)?),
        Fault::Calls => ElabFault::Limit(LimitKind::Calls, 64),
        Fault::Weight => ElabFault::Limit(LimitKind::Weight, 2_000_000),
    })
}

/// The first refusal, as it is told.
fn told_as(
    alloc: Global,
    top: &Name,
    modules: &[Module],
    refused: Refused,
) -> Result<ElabFault, OutOfMemory>
    ensures { IfOk result (λ e. e ≡ told.told_as top.now modules.now refused) }
{
    Ok(match refused {
        Refused::NoSuchModule => ElabFault::NoSuchModule(Name::new(alloc, top.bytes())?),
        Refused::Carried(fault) => carried_as(alloc, modules, fault)?,
        Refused::Recursion(number) => ElabFault::Recursion(module_name(alloc, modules, number)?),
        Refused::NameTaken(path) => ElabFault::NameTaken(path),
        Refused::Limit(kind, most) => ElabFault::Limit(kind, most),
        Refused::NoSuchRule(attribute, name) => ElabFault::NoSuchRule(attribute, name),
    })
}

/// Why there is no tree, as it is told.
fn told_fail(alloc: Global, top: &Name, modules: &[Module], fail: Fail<Refused>) -> ElabFault
    ensures { told.TellsFail result top.now modules.now fail }
{
    match fail {
        Fail::Memory => ElabFault::OutOfMemory,
        Fail::Fault(refused) => match told_as(alloc, top, modules, refused) {
            Ok(fault) => fault,
            Err(_) => ElabFault::OutOfMemory,
        },
    }
}

/// The tree of a typed design whose top is the module of the name, or the first refusal that is met.
#[tactic(auto, unfolding(crate::specs::Building::building))]
pub fn build(alloc: Global, typed: Typed, top: &Name) -> Result<Tree, ElabFault>
    ensures built { IfOk result (λ t. told.Builds typed top.now ≡ Ok (tree_data t)) }
    ensures refused { IfErr result (λ e. told.Tells e (told.Builds typed top.now)) }
{
    trees_are_right();
    match built(alloc, &typed, top) {
        Ok((number, done, weight)) => Ok(tree(alloc, typed, number, done, weight)?),
        Err(fail) => Err(told_fail(alloc, top, typed.modules.as_slice(), fail)),
    }
}
