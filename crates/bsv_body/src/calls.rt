use bsv_design::Branch;
use bsv_tree::MethodPlace;
use sqlite_items::Items;

/// A call of a method of a primitive, at its site.
#[derive(Drop)]
pub struct Call {
    pub method: MethodPlace,
    pub action: bool,
    /// The node that is 1 where the arms are taken in which it stands.
    pub taken: u32,
    /// These arms, from the outside.
    pub branches: Items<Branch>,
    pub arguments: Items<u32>,
}

/// A condition that has to hold: that of a method of a module, or else the element's own.
#[derive(Clone, Copy, Debug, PartialEq, Eq)]
pub struct Condition {
    pub name: Option<MethodPlace>,
    pub truth: u32,
    pub taken: u32,
}
