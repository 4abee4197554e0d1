ghost use Rattle.std.specs.Prelude.{◌≡◌, [], IfOk, take};
ghost use Rattle.bsv_fail.specs.Given.{Gives};
ghost use Rattle.bsv_types.specs.Kinds.{kind};
ghost use Rattle.bsv_tree.specs.tree.Contexts as contexts;
ghost use Rattle.bsv_tree.specs.carrying.Carrying as carrying;

use crate::branches::after_arm;
use crate::count::fresh;
use crate::fault::Counted;
use crate::frame::{Locals, variable};
use crate::statics::Binding;
use crate::steps::{Atom, MethodPlace, Step};
use crate::value::{all_static, atom_of, is_true, opened, truth};
use crate::values::{Constant, Count, Local, Value, Work};
use crate::work::{at_count, with_step};
use bsv_types::{Param, Ty};
use sqlite_items::Items;
use std::alloc::{AllocError, Global};

pub fn is_integer(ty: &Ty) -> bool
    ensures { result ≡ contexts.is_integer (kind ty.now) }
{
    matches!(ty, Ty::Integer)
}

/// What a call of a function gives, which is static where the arguments are.
pub fn loosened(arguments: &[Value], value: Value) -> Value
    ensures { result ≡ carrying.loosened arguments.now value }
{
    if all_static(arguments) {
        value
    } else {
        opened(value)
    }
}

/// A condition that has to hold, with its steps.
fn with_need(
    name: Option<MethodPlace>,
    work: Work,
    value: Value,
    asked: Work,
) -> Result<Work, AllocError>
    ensures { IfOk result (λ found. found ≡ carrying.with_need name work (value, asked)) }
{
    let count = asked.count;
    with_step(work, Step::Need(name, atom_of(value), asked.steps), count)
}

/// What is left of a condition that has to hold: one that is static and True leaves no need.
pub fn needed(
    name: Option<MethodPlace>,
    work: Work,
    value: Value,
    asked: Work,
) -> Result<Work, AllocError>
    ensures { IfOk result (λ found. found ≡ carrying.needed name work (value, asked)) }
{
    if is_true(&value) {
        let count = after_arm(work.count, asked.count);
        return Ok(at_count(work, count));
    }
    with_need(name, work, value, asked)
}

fn argument(value: Value) -> Local
    ensures { result ≡ carrying.argument value }
{
    match value {
        Value::Static(Constant::Number(_)) => variable(value, true),
        _ => variable(value, false),
    }
}

/// The variables of a body as it begins: what it returns, and the arguments.
pub fn arguments(alloc: Global, integer: bool, values: &[Value]) -> Result<Locals, AllocError>
    ensures { IfOk result (λ found. found ≡ carrying.arguments integer values.now) }
{
    let mut found = Items::new(alloc);
    found.push(variable(truth(false), integer))?;
    let mut rest = values;
    while let Some((value, after)) = rest.split_first() {
        found.push(argument(*value))?;
        rest = after;
    }
    Ok(found)
}

/// The first values, which are those of parameters.
#[tactic(auto, unfolding(crate::specs::carrying::Carrying::parameters_from))]
pub fn parameters(alloc: Global, params: &[Param], count: Count) -> Counted<Items<Value>>
    ensures { Gives result (carrying.parameters_from [] params.now count) }
{
    // Where a local has the type of what a value may hold, the checker finds its drop.
    let _none = Constant::Number(0);
    let mut found = Items::new(alloc);
    let mut count = count;
    let mut rest = params;
    while let Some((_param, after)) = rest.split_first() {
        let slot = count.slots;
        count = fresh(count, 1)?;
        found.push(Value::Open(Atom::Slot(slot)))?;
        rest = after;
    }
    Ok((found, count))
}

/// The first so many variables of a module.
pub fn seen(bindings: &[Binding], count: usize) -> &[Binding]
    ensures { result.now ≡ take count bindings.now }
{
    if count < bindings.len() {
        &bindings[..count]
    } else {
        bindings
    }
}
