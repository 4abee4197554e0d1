use sqlite_items::Items;

/// A guard that has to hold: that of a call, by its place in the element.
#[derive(Clone, Copy, Debug, PartialEq, Eq)]
pub struct Need {
    pub call: u32,
    /// The node that tells whether it is asked; None where it always is.
    pub under: Option<u32>,
}

/// Of each element the guards that have to hold, in the order of its calls.
#[derive(Drop)]
pub struct Guards {
    pub needs: Items<Items<Need>>,
}

/// Both orders of the elements, by their places, and of each element those that it stops, by urgency.
#[derive(Drop)]
pub struct Schedule {
    pub execution: Items<u32>,
    pub urgency: Items<u32>,
    pub stops: Items<Items<u32>>,
}
