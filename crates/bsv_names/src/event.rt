ghost use Rattle.std.specs.Prelude.{◌≡◌, ◌++◌, OnOk};
ghost use Rattle.bsv_names.specs.Events as spec;

use bsv_ast::{Ident, Items, Span};
use bsv_bits::{Name, OutOfMemory};
use bsv_scopes::Space;
use std::alloc::Global;

/// What a program says of its names, one after the other in text order.
#[derive(Debug, Drop)]
pub(crate) enum Event {
    /// The name is defined in one of the scopes over all packages. The span is the definition's.
    Define(Space, Name, Span),
    /// The name is defined in the innermost scope of variables. The span is the definition's.
    DefineVariable(Name, Span),
    /// A scope of variables begins.
    Open,
    /// The innermost scope of variables ends.
    Close,
    /// The name is one of a scope over all packages. The span is the name's own.
    Use(Space, Name, Span),
    /// The name is a variable. The span is the name's own.
    UseVariable(Name, Span),
    /// The name is a variable where one is in scope, and else a function. The span is its own.
    UseValue(Name, Span),
}

/// Adds the definition of a name in a scope over all packages.
pub(crate) fn define(
    alloc: Global,
    space: Space,
    name: &Ident,
    span: Span,
    found: &mut Items<Event>,
) -> Result<(), OutOfMemory>
    ensures { OnOk result (found.new ≡ found.old ++ spec.defined space name.now span) }
{
    let copy = Name::new(alloc, name.name.bytes())?;
    found.push(Event::Define(space, copy, span))?;
    Ok(())
}

/// Adds the definition of a variable.
pub(crate) fn define_variable(
    alloc: Global,
    name: &Ident,
    span: Span,
    found: &mut Items<Event>,
) -> Result<(), OutOfMemory>
    ensures { OnOk result (found.new ≡ found.old ++ spec.variable name.now span) }
{
    let copy = Name::new(alloc, name.name.bytes())?;
    found.push(Event::DefineVariable(copy, span))?;
    Ok(())
}

/// Adds the use of a name of a scope over all packages.
pub(crate) fn use_name(
    alloc: Global,
    space: Space,
    name: &Ident,
    found: &mut Items<Event>,
) -> Result<(), OutOfMemory>
    ensures { OnOk result (found.new ≡ found.old ++ spec.used space name.now) }
{
    let copy = Name::new(alloc, name.name.bytes())?;
    found.push(Event::Use(space, copy, name.span))?;
    Ok(())
}

/// Adds the use of a variable.
pub(crate) fn use_variable(
    alloc: Global,
    name: &Ident,
    found: &mut Items<Event>,
) -> Result<(), OutOfMemory>
    ensures { OnOk result (found.new ≡ found.old ++ spec.variable_used name.now) }
{
    let copy = Name::new(alloc, name.name.bytes())?;
    found.push(Event::UseVariable(copy, name.span))?;
    Ok(())
}

/// Adds the use of a variable or a function.
pub(crate) fn use_value(
    alloc: Global,
    name: &Ident,
    found: &mut Items<Event>,
) -> Result<(), OutOfMemory>
    ensures { OnOk result (found.new ≡ found.old ++ spec.value_used name.now) }
{
    let copy = Name::new(alloc, name.name.bytes())?;
    found.push(Event::UseValue(copy, name.span))?;
    Ok(())
}
