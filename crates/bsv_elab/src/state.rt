use crate::names::Names;
use bsv_design::{Assert, Pair};
use bsv_tree::{Binding, Built, BuiltRule, Instance};
use sqlite_items::Items;

/// The tree so far.
#[derive(Drop)]
pub struct Grown {
    /// A module whose body is still carried out is there without its variables.
    pub instances: Items<Instance>,
    /// How many of them are primitives.
    pub primitives: u32,
    /// How many rules there are.
    pub rules: u32,
    pub weight: u64,
}

/// What attributes ask for.
#[derive(Drop)]
pub struct Marks {
    pub pairs: Items<Pair>,
    pub asserts: Items<Assert>,
}

/// What a body of a module has made so far beside the tree.
#[derive(Drop)]
pub struct Scope {
    pub bindings: Items<Binding>,
    /// By binding, of an array: how wide the values are that its instances hold.
    pub widths: Items<u32>,
    pub instances: Names,
    pub elements: Names,
    pub rules: Items<BuiltRule>,
    /// By method of the interface: how many of the bindings it sees.
    pub levels: Items<u32>,
    /// Of the instances that were made in the body.
    pub marks: Marks,
}

/// The body of a module while it is carried out.
#[derive(Drop)]
pub struct State {
    pub grown: Grown,
    pub scope: Scope,
}

/// An instance of a module whose body was carried out.
#[derive(Drop)]
pub struct Done {
    pub built: Built,
    pub grown: Grown,
    /// Its own, and then those of the instances inside it.
    pub marks: Marks,
}
