use bsv_bits::{Name, Word};
use sqlite_items::Items;

/// What a variable of a module is, when its design is built.
#[derive(Drop)]
pub enum Static {
    /// An Integer.
    Number(i64),
    /// A value with bits, but a Bool.
    Bits(Word),
    /// A Bool.
    Truth(bool),
    /// An instance, by its place in the tree.
    Place(u32),
    /// An array of instances; None where no instance was set.
    Places(Items<Option<u32>>),
}

/// A variable of a module, with its value.
#[derive(Drop)]
pub struct Binding {
    pub name: Name,
    pub value: Static,
}
