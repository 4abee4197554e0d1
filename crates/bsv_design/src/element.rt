ghost use Rattle.std.specs.Prelude.{◌≡◌};
ghost use Rattle.bsv_design.specs.design.Roles as roles;

use crate::node::{Branch, Node};
use bsv_bits::Name;
use sqlite_items::Items;

/// What an element is: a rule, or a method of the top that gives a value, acts, or does both.
#[derive(Clone, Copy, Debug, PartialEq, Eq)]
pub enum Role {
    Rule,
    Value,
    Action,
    ActionValue,
}

impl Role {
    pub fn is_rule(self) -> bool
        ensures { result ≡ roles.is_rule self }
    {
        matches!(self, Role::Rule)
    }

    /// Whether it is a method that gives a value and does not act.
    pub fn is_value(self) -> bool
        ensures { result ≡ roles.is_value self }
    {
        matches!(self, Role::Value)
    }

    /// Whether it is a method that gives a value.
    pub fn gives_value(self) -> bool
        ensures { result ≡ roles.gives_value self }
    {
        matches!(self, Role::Value | Role::ActionValue)
    }
}

/// An argument of a method, with its width in bits.
#[derive(Drop)]
pub struct Port {
    pub name: Name,
    pub width: u32,
}

/// A condition that has to hold: that of a method of a module, by its path and name, or else the element's
/// own.
#[derive(Drop)]
pub struct Condition {
    /// The node that is 1 where it holds.
    pub truth: u32,
    /// The node that is 1 where the arms are taken in which it stands.
    pub taken: u32,
    pub implicit: Option<Name>,
}

/// A call of a method of a part, at its site.
#[derive(Drop)]
pub struct Call {
    /// The part, by its place among the parts of the design.
    pub part: u32,
    pub method: u32,
    /// The node that is 1 where the arms are taken in which it stands.
    pub taken: u32,
    /// These arms, from the outside.
    pub branches: Items<Branch>,
    /// The nodes of its arguments.
    pub args: Items<u32>,
}

/// A rule, or a method of the top, as a flat body: its nodes, and its conditions and calls in the order of
/// the text.
#[derive(Drop)]
pub struct Element {
    pub name: Name,
    pub role: Role,
    pub arguments: Items<Port>,
    pub nodes: Items<Node>,
    pub conditions: Items<Condition>,
    pub calls: Items<Call>,
    /// The node of what it gives.
    pub result: Option<u32>,
}
