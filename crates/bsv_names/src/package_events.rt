ghost use Rattle.std.specs.Prelude.{◌≡◌, ◌++◌, OnOk, IfOk};
ghost use Rattle.bsv_names.specs.PackageEvents as spec;

use crate::event::{Event, define, define_variable};
use crate::expression_events::type_events;
use crate::module_events::{body_events, module_stmts_events, param_types, param_variables};
use bsv_ast::{Field, Function, Ident, Interface, Item, Items, MethodHeader, Module, Typedef};
use bsv_bits::OutOfMemory;
use bsv_scopes::Space;
use std::alloc::Global;

/// Adds the labels of an enum.
fn label_events(
    alloc: Global,
    labels: &[Ident],
    found: &mut Items<Event>,
) -> Result<(), OutOfMemory>
    ensures { OnOk result (found.new ≡ found.old ++ spec.label_events labels.now) }
{
    let mut rest = labels;
    while let Some((label, after)) = rest.split_first() {
        define(alloc, Space::Labels, label, label.span, found)?;
        rest = after;
    }
    Ok(())
}

/// Adds the fields of a struct.
fn fields_events(
    alloc: Global,
    fields: &[Field],
    found: &mut Items<Event>,
) -> Result<(), OutOfMemory>
    ensures { OnOk result (found.new ≡ found.old ++ spec.fields_events fields.now) }
{
    let mut rest = fields;
    while let Some((field, after)) = rest.split_first() {
        type_events(alloc, &field.written, found)?;
        define_variable(alloc, &field.name, field.span, found)?;
        rest = after;
    }
    Ok(())
}

/// Adds the names of the definition of a type.
fn typedef_events(
    alloc: Global,
    typedef: &Typedef,
    found: &mut Items<Event>,
) -> Result<(), OutOfMemory>
    ensures { OnOk result (found.new ≡ found.old ++ spec.typedef_events typedef.now) }
{
    match typedef {
        Typedef::Alias(span, written, name) => {
            define(alloc, Space::Types, name, *span, found)?;
            type_events(alloc, written, found)
        }
        Typedef::Enum(span, labels, name, _) => {
            define(alloc, Space::Types, name, *span, found)?;
            label_events(alloc, labels.as_slice(), found)
        }
        Typedef::Struct(span, fields, name, _) => {
            define(alloc, Space::Types, name, *span, found)?;
            found.push(Event::Open)?;
            fields_events(alloc, fields.as_slice(), found)?;
            Ok(found.push(Event::Close)?)
        }
    }
}

/// Adds the names of a method of an interface.
fn header_events(
    alloc: Global,
    header: &MethodHeader,
    found: &mut Items<Event>,
) -> Result<(), OutOfMemory>
    ensures { OnOk result (found.new ≡ found.old ++ spec.header_events header.now) }
{
    define_variable(alloc, &header.name, header.span, found)?;
    type_events(alloc, &header.result, found)?;
    param_types(alloc, header.params.as_slice(), found)?;
    found.push(Event::Open)?;
    param_variables(alloc, header.params.as_slice(), found)?;
    Ok(found.push(Event::Close)?)
}

/// Adds the names of the methods of an interface.
fn headers_events(
    alloc: Global,
    headers: &[MethodHeader],
    found: &mut Items<Event>,
) -> Result<(), OutOfMemory>
    ensures { OnOk result (found.new ≡ found.old ++ spec.headers_events headers.now) }
{
    let mut rest = headers;
    while let Some((header, after)) = rest.split_first() {
        header_events(alloc, header, found)?;
        rest = after;
    }
    Ok(())
}

/// Adds the names of an interface.
fn interface_events(
    alloc: Global,
    interface: &Interface,
    found: &mut Items<Event>,
) -> Result<(), OutOfMemory>
    ensures { OnOk result (found.new ≡ found.old ++ spec.interface_events interface.now) }
{
    define(alloc, Space::Types, &interface.name, interface.span, found)?;
    found.push(Event::Open)?;
    headers_events(alloc, interface.methods.as_slice(), found)?;
    Ok(found.push(Event::Close)?)
}

/// Adds the names of a function.
fn function_events(
    alloc: Global,
    function: &Function,
    found: &mut Items<Event>,
) -> Result<(), OutOfMemory>
    ensures { OnOk result (found.new ≡ found.old ++ spec.function_events function.now) }
{
    define(
        alloc,
        Space::Functions,
        &function.name,
        function.span,
        found,
    )?;
    type_events(alloc, &function.result, found)?;
    param_types(alloc, function.params.as_slice(), found)?;
    found.push(Event::Open)?;
    param_variables(alloc, function.params.as_slice(), found)?;
    body_events(alloc, &function.body, found)?;
    Ok(found.push(Event::Close)?)
}

/// Adds the names of a module.
fn module_events(
    alloc: Global,
    module: &Module,
    found: &mut Items<Event>,
) -> Result<(), OutOfMemory>
    ensures { OnOk result (found.new ≡ found.old ++ spec.module_events «module».now) }
{
    define(alloc, Space::Modules, &module.name, module.span, found)?;
    param_types(alloc, module.params.as_slice(), found)?;
    type_events(alloc, &module.interface, found)?;
    found.push(Event::Open)?;
    param_variables(alloc, module.params.as_slice(), found)?;
    module_stmts_events(alloc, module.body.as_slice(), found)?;
    Ok(found.push(Event::Close)?)
}

/// The names of a definition.
pub(crate) fn item_events(alloc: Global, item: &Item) -> Result<Items<Event>, OutOfMemory>
    ensures { IfOk result (λ found. found ≡ spec.item_events item.now) }
{
    let mut found = Items::new(alloc);
    match item {
        Item::Import(_, _) => {}
        Item::Typedef(_, typedef) => typedef_events(alloc, typedef, &mut found)?,
        Item::Interface(_, interface) => interface_events(alloc, interface, &mut found)?,
        Item::Function(_, function) => function_events(alloc, function, &mut found)?,
        Item::Module(_, module) => module_events(alloc, module, &mut found)?,
    }
    Ok(found)
}
