use crate::statics::Binding;
use bsv_bits::Name;
use bsv_design::Kind;
use bsv_types::PartTy;
use sqlite_items::Items;

/// A rule that was carried out.
#[derive(Drop)]
pub struct BuiltRule {
    pub name: Name,
    /// Its place among the rules of its module.
    pub rule: u32,
    /// Its position among the elements of the design: the methods of the top come first.
    pub position: u32,
    /// The variables of its module that it sees.
    pub bindings: Items<Binding>,
}

/// An instance of a module.
#[derive(Drop)]
pub struct Built {
    /// Its place among the modules.
    pub module: u32,
    /// The variables of its body, with their values at its end.
    pub bindings: Items<Binding>,
    pub rules: Items<BuiltRule>,
    /// Of each method, in the order of the interface, how many of the bindings it sees.
    pub methods: Items<u32>,
}

#[derive(Drop)]
pub enum Made {
    /// A primitive, and the interface that it was made with.
    Primitive(PartTy, Kind),
    Module(Built),
}

/// An instance.
#[derive(Drop)]
pub struct Instance {
    /// The names from the top to it, joined by dots; empty of the top.
    pub path: Name,
    pub made: Made,
}
