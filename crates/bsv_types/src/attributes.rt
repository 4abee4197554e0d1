use bsv_bits::Name;
use sqlite_items::Items;

/// What an attribute of a module or of a rule asks for.
#[derive(Drop)]
pub enum Attribute {
    /// `synthesize`, of a module
    Synthesize,
    /// `descending_urgency`, with two or more names of rules
    DescendingUrgency(Items<Name>),
    /// `execution_order`, with two or more names of rules
    ExecutionOrder(Items<Name>),
    /// `preempts`, with one or more names of rules on each side
    Preempts(Items<Name>, Items<Name>),
    /// `fire_when_enabled`, of a rule
    FireWhenEnabled,
    /// `no_implicit_conditions`, of a rule
    NoImplicitConditions,
}
