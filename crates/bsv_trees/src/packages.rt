use crate::modules::show_module;
use crate::shown::{FUEL, Shown, close, note, open, show_name, show_names};
use crate::statements::show_body;
use crate::types::{show_params, show_type};
use bsv_ast::{Function, Interface, Item, Items, Package, Typedef};
use std::alloc::AllocError;

fn show_typedef(shown: &mut Shown, typedef: &Typedef) -> Result<(), AllocError> {
    match typedef {
        Typedef::Alias(span, written, name) => {
            open(shown, "alias", *span)?;
            show_type(shown, written, FUEL)?;
            show_name(shown, name)?;
        }
        Typedef::Enum(span, labels, name, deriving) => {
            open(shown, "enum", *span)?;
            show_names(shown, labels)?;
            show_name(shown, name)?;
            show_names(shown, deriving)?;
        }
        Typedef::Struct(span, fields, name, deriving) => {
            open(shown, "struct", *span)?;
            for field in fields.as_slice() {
                open(shown, "field", field.span)?;
                show_type(shown, &field.written, FUEL)?;
                show_name(shown, &field.name)?;
                close(shown)?;
            }
            show_name(shown, name)?;
            show_names(shown, deriving)?;
        }
    }
    close(shown)
}

fn show_interface(shown: &mut Shown, interface: &Interface) -> Result<(), AllocError> {
    open(shown, "interface", interface.span)?;
    show_name(shown, &interface.name)?;
    for method in interface.methods.as_slice() {
        open(shown, "header", method.span)?;
        show_type(shown, &method.result, FUEL)?;
        show_name(shown, &method.name)?;
        show_params(shown, &method.params, FUEL)?;
        close(shown)?;
    }
    close(shown)
}

fn show_function(shown: &mut Shown, function: &Function) -> Result<(), AllocError> {
    open(shown, "function", function.span)?;
    show_type(shown, &function.result, FUEL)?;
    show_name(shown, &function.name)?;
    show_params(shown, &function.params, FUEL)?;
    show_body(shown, &function.body, FUEL)?;
    close(shown)
}

fn show_items(shown: &mut Shown, items: &Items<Item>) -> Result<(), AllocError> {
    for item in items.as_slice() {
        note(shown, "item", item.span())?;
        match item {
            Item::Import(_, import) => {
                open(shown, "import", import.span)?;
                show_name(shown, &import.package)?;
                close(shown)?;
            }
            Item::Typedef(_, typedef) => show_typedef(shown, typedef)?,
            Item::Interface(_, interface) => show_interface(shown, interface)?,
            Item::Function(_, function) => show_function(shown, function)?,
            Item::Module(_, module) => show_module(shown, module)?,
        }
    }
    Ok(())
}

pub(crate) fn show_package(shown: &mut Shown, package: &Package) -> Result<(), AllocError> {
    match package {
        Package::Named(span, name, items) => {
            open(shown, "package", *span)?;
            show_name(shown, name)?;
            show_items(shown, items)?;
        }
        Package::Bare(span, items) => {
            open(shown, "bare", *span)?;
            show_items(shown, items)?;
        }
    }
    close(shown)
}
