use crate::signal::Title;
use bsv_bits::Name;
use bsv_io::Sink;
use bsv_page::Page;
use bsv_tree::{Instance, Made, Tree};
use bsv_types::Method;

/// What is in a path after its last dot.
pub(crate) fn last_name(path: &[u8]) -> &[u8] {
    let mut last = path;
    let mut rest = path;
    while let Some((byte, after)) = rest.split_first() {
        if *byte == b'.' {
            last = after;
        }
        rest = after;
    }
    last
}

/// The instance of a place.
fn instance_at(tree: &Tree, place: u32) -> Option<&Instance> {
    tree.instances.get(place as usize)
}

/// The path of the instance of a place.
fn path_of(tree: &Tree, place: u32) -> Option<&Name> {
    Some(&instance_at(tree, place)?.path)
}

/// The name of a rule of an instance.
fn rule_name(tree: &Tree, instance: u32, rule: u32) -> Option<&Name> {
    match &instance_at(tree, instance)?.made {
        Made::Module(built) => Some(&built.rules.get(rule as usize)?.name),
        Made::Primitive(_, _) => None,
    }
}

/// A method of a module.
fn method_at(tree: &Tree, module: u32, method: u32) -> Option<&Method> {
    let module = tree.typed.modules.get(module as usize)?;
    module.methods.get(method as usize)
}

/// The name of a module.
fn module_name(tree: &Tree, module: u32) -> Option<&Name> {
    Some(&tree.typed.modules.get(module as usize)?.name)
}

/// The name of a method of a module.
fn method_name(tree: &Tree, module: u32, method: u32) -> Option<&Name> {
    Some(&method_at(tree, module, method)?.name)
}

/// The name of an argument of a method of a module.
fn argument_name(tree: &Tree, module: u32, method: u32, argument: u32) -> Option<&Name> {
    let method = method_at(tree, module, method)?;
    Some(&method.params.get(argument as usize)?.name)
}

/// The name of a field of a struct.
fn field_name(tree: &Tree, number: u32, field: u32) -> Option<&Name> {
    let definition = tree.typed.structs.get(number as usize)?;
    Some(&definition.fields.get(field as usize)?.name)
}

/// The name in the text that a title is, where it is one.
fn name_of(tree: &Tree, title: Title) -> Option<&Name> {
    match title {
        Title::Top(module) => module_name(tree, module),
        Title::Instance(place) => path_of(tree, place),
        Title::Rule(instance, rule) => rule_name(tree, instance, rule),
        Title::Method(module, method) => method_name(tree, module, method),
        Title::Argument(module, method, argument) => argument_name(tree, module, method, argument),
        Title::Field(number, field) => field_name(tree, number, field),
        _ => None,
    }
}

/// The word that a title is, where it is no name in the text.
fn word_of(title: Title) -> &'static [u8] {
    match title {
        Title::Fired => b"fired",
        Title::Stopped => b"stopped",
        Title::Blocked => b"blocked",
        Title::Result => b"result",
        Title::Count => b"count",
        Title::Item(_) => b"item_",
        Title::Valid => b"valid",
        Title::Value => b"value",
        _ => b"",
    }
}

/// The name or the word of a title: of a path what is after its last dot.
fn text_of(tree: &Tree, title: Title) -> &[u8] {
    match name_of(tree, title) {
        Some(name) => last_name(name.bytes()),
        None => word_of(title),
    }
}

/// Puts the name of a signal or a scope.
pub(crate) fn put_title<O: Sink + Drop>(page: &mut Page<O>, tree: &Tree, title: Title) {
    page.text(text_of(tree, title));
    if let Title::Item(number) = title {
        page.number(u64::from(number));
    }
}
