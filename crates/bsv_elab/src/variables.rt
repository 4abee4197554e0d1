ghost use Rattle.std.specs.Prelude.{◌≡◌, IfOk, OnOk, length};
ghost use Rattle.bsv_types.specs.Kinds.{kind};
ghost use Rattle.bsv_elab.specs.Statics as spec;

use crate::state::State;
use bsv_bits::{Name, OutOfMemory};
use bsv_tree::{Binding, Constant, Static, front};
use bsv_types::Ty;
use sqlite_items::Items;
use std::alloc::{AllocError, Global};
use std::mem::replace;

pub(crate) fn held(constant: Constant) -> Static
    ensures { result ≡ spec.held constant }
{
    match constant {
        Constant::Number(number) => Static::Number(number),
        Constant::Bits(word) => Static::Bits(word),
    }
}

fn next_value(old: &Static, constant: Constant) -> Static
    ensures { result ≡ spec.next_value old.now constant }
{
    match (old, constant) {
        (Static::Truth(_), Constant::Bits(word)) => Static::Truth(word.value() == 1),
        (_, constant) => held(constant),
    }
}

pub(crate) fn binding(alloc: Global, name: &[u8], value: Static) -> Result<Binding, OutOfMemory>
    ensures { IfOk result (λ b. b ≡ spec.binding name.now value) }
{
    let name = Name::new(alloc, name)?;
    Ok(Binding { name, value })
}

#[tactic(auto, unfolding(crate::specs::Statics::put_at))]
pub(crate) fn put_at<T: Drop>(at: usize, item: T, items: &mut Items<T>)
    ensures { items.new ≡ spec.put_at at item items.old }
{
    if at < items.len() {
        items.set(at, item);
    }
}

pub(crate) fn bind(variable: Binding, width: u32, state: &mut State) -> Result<(), AllocError>
    ensures { OnOk result (state.new ≡ spec.bind variable.name variable.value width state.old) }
{
    state.scope.bindings.push(variable)?;
    state.scope.widths.push(width)?;
    Ok(())
}

pub(crate) fn with_binding(level: usize, variable: Binding, state: &mut State)
    ensures { state.new ≡ spec.with_binding level variable state.old }
{
    put_at(level, variable, &mut state.scope.bindings);
}

#[tactic(auto, unfolding(crate::specs::Statics::assign))]
pub(crate) fn assign(
    alloc: Global,
    level: u32,
    constant: Constant,
    state: &mut State,
) -> Result<(), OutOfMemory>
    ensures { OnOk result (state.new ≡ spec.assign level constant state.old) }
{
    let level = level as usize;
    let next = match state.scope.bindings.get(level) {
        Some(old) => binding(alloc, old.name.bytes(), next_value(&old.value, constant))?,
        None => return Ok(()),
    };
    with_binding(level, next, state);
    Ok(())
}

/// What a variable of the type holds.
pub(crate) fn held_as(ty: &Ty, constant: Constant) -> Static
    ensures { result ≡ spec.held_as (kind ty.now) constant }
{
    match (ty, constant) {
        (Ty::Bool, Constant::Bits(word)) => Static::Truth(word.value() == 1),
        (_, constant) => held(constant),
    }
}

/// How many variables there are.
pub(crate) fn variables(state: &State) -> usize
    ensures { result ≡ length state.now.scope.bindings }
{
    state.scope.bindings.len()
}

/// What was declared after so many variables has ended.
pub(crate) fn cut(alloc: Global, count: usize, state: &mut State)
    ensures { state.new ≡ spec.cut count state.old }
{
    let bindings = replace(&mut state.scope.bindings, Items::new(alloc));
    state.scope.bindings = front(count, bindings);
    let widths = replace(&mut state.scope.widths, Items::new(alloc));
    state.scope.widths = front(count, widths);
}
