use crate::steps::{Atom, Step};
use bsv_bits::Name;
use bsv_design::{Port, Role};
use sqlite_items::Items;

/// An element as it was carried out.
#[derive(Drop)]
pub struct Source {
    pub name: Name,
    pub role: Role,
    pub ports: Items<Port>,
    /// Its first values are its arguments.
    pub steps: Items<Step>,
    /// The word that it gives.
    pub gives: Option<Atom>,
}
