ghost use Rattle.std.specs.Prelude.{◌≡◌};
ghost use Rattle.bsv_design.specs.design.Designs.{IsDesign};

use crate::attributes::{Assert, Pair};
use crate::element::Element;
use crate::kind::Kind;
use bsv_bits::Name;
use sqlite_items::Items;

/// An instance of a primitive.
#[derive(Drop)]
pub struct NamedPart {
    /// The names from the top to it, joined by dots.
    pub path: Name,
    pub kind: Kind,
}

/// A design whose elements are flat bodies. Methods come before rules. Names are in order, each node has
/// the words that it needs, calls in different arms of one choice are never both taken, and a call that is
/// not taken decides nothing.
#[derive(Drop)]
pub struct Design {
    /// The name of the top module.
    pub name: Name,
    /// The methods of the top, in the order of its interface, and then the rules, in building order.
    pub elements: Items<Element>,
    /// In building order.
    pub parts: Items<NamedPart>,
    /// The pairs of attributes, in the order of the text.
    pub pairs: Items<Pair>,
    pub asserts: Items<Assert>,
    ghost right: { ∥ IsDesign (record {
      name = name;
      elements = elements;
      parts = parts;
      pairs = pairs;
      asserts = asserts;
    }) ∥₁ },
}

impl Design {
    /// The design of these elements.
    pub fn new(
        name: Name,
        elements: Items<Element>,
        parts: Items<NamedPart>,
        pairs: Items<Pair>,
        asserts: Items<Assert>,
    ) -> Design
        requires { ∥ IsDesign (record {
          name = name;
          elements = elements;
          parts = parts;
          pairs = pairs;
          asserts = asserts;
        }) ∥₁ }
        ensures name { result.name ≡ name }
        ensures elements { result.elements ≡ elements }
        ensures parts { result.parts ≡ parts }
        ensures pairs { result.pairs ≡ pairs }
        ensures asserts { result.asserts ≡ asserts }
    {
        Design {
            name,
            elements,
            parts,
            pairs,
            asserts,
        }
    }
}
