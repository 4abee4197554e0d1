/// The attributes that pair rules.
#[derive(Clone, Copy, Debug, PartialEq, Eq)]
pub enum Attribute {
    DescendingUrgency,
    ExecutionOrder,
    Preempts,
}

/// Two elements that an attribute names, by their positions.
#[derive(Clone, Copy, Debug, PartialEq, Eq)]
pub struct Pair {
    pub attribute: Attribute,
    pub before: u32,
    pub after: u32,
}

/// An asserting attribute of a rule: `fire_when_enabled`, or else `no_implicit_conditions`.
#[derive(Clone, Copy, Debug, PartialEq, Eq)]
pub struct Assert {
    pub rule: u32,
    pub fires: bool,
}
