ghost use Rattle.std.specs.Prelude.{◌≡◌, [], ◌∷◌, ◌++◌, IfOk, take};
ghost use Rattle.bsv_tree.specs.carrying.Frames as spec;

use crate::steps::Atom;
use crate::values::{Constant, Local, Value};
use bsv_bits::Word;
use sqlite_items::Items;
use std::alloc::{AllocError, Global};

/// The variables of a body. The first one is what it returns.
pub type Locals = Items<Local>;

/// A variable with its first value.
pub fn variable(value: Value, integer: bool) -> Local
    ensures { result ≡ spec.variable value integer }
{
    Local {
        value,
        integer,
        lost: false,
        touched: false,
    }
}

/// What a body returns, and no variables.
pub fn no_variables(alloc: Global, integer: bool) -> Result<Locals, AllocError>
    ensures { IfOk result (λ locals. locals ≡ spec.no_variables integer) }
{
    let mut locals = Items::new(alloc);
    locals.push(Local {
        value: Value::Static(Constant::Bits(Word::bit(false))),
        integer,
        lost: false,
        touched: false,
    })?;
    Ok(locals)
}

/// One variable more.
pub fn with_variable(locals: Locals, value: Value, integer: bool) -> Result<Locals, AllocError>
    ensures { IfOk result (λ found. found ≡ locals ++ spec.variable value integer ∷ []) }
{
    // Where a local has the type of what a value may hold, the checker finds its drop.
    let _constant = Constant::Number(0);
    let _atom = Atom::Slot(0);
    let mut locals = locals;
    locals.push(variable(value, integer))?;
    Ok(locals)
}

/// The variable with its next value.
#[tactic(auto, unfolding(crate::specs::carrying::Frames::assign))]
pub fn assign(locals: Locals, at: usize, value: Value) -> Locals
    ensures { result ≡ spec.assign locals at value }
{
    let integer = match locals.get(at) {
        Some(old) => old.integer,
        None => return locals,
    };
    let mut locals = locals;
    locals.set(
        at,
        Local {
            value,
            integer,
            lost: false,
            touched: true,
        },
    );
    locals
}

/// The variables as an arm begins with them.
pub fn untouched(alloc: Global, locals: &[Local]) -> Result<Locals, AllocError>
    ensures { IfOk result (λ found. found ≡ spec.untouched locals.now) }
{
    let mut found = Items::new(alloc);
    for old in locals {
        found.push(Local {
            value: old.value,
            integer: old.integer,
            lost: old.lost,
            touched: false,
        })?;
    }
    Ok(found)
}

/// The first so many of a list.
#[tactic(auto, using(crate::proofs::Fronts::fronts))]
pub fn front<T: Drop>(count: usize, items: Items<T>) -> Items<T>
    ensures { result ≡ take count items }
{
    let mut items = items;
    for _more in 0..items.len() {
        if items.len() <= count {
            return items;
        }
        let _last = items.pop();
    }
    items
}
