ghost use Rattle.std.specs.Prelude.{◌≡◌};
ghost use Rattle.bsv_tree.specs.tree.Trees.{IsTree};

use crate::tree::Instance;
use bsv_design::{Assert, Pair};
use bsv_types::Typed;
use sqlite_items::Items;

/// A design with each of its instances. Its variables are what their types say, its names are in order,
/// its attributes name rules, no module is made inside itself, and carrying out the static part of its
/// rules and of the methods of its top meets no refusal.
#[derive(Drop)]
pub struct Tree {
    pub typed: Typed,
    /// The place of the top's module.
    pub top: u32,
    /// In building order, the top first.
    pub instances: Items<Instance>,
    pub pairs: Items<Pair>,
    pub asserts: Items<Assert>,
    pub weight: u64,
    ghost right: { ∥ IsTree (record {
      typed = typed;
      top = top;
      instances = instances;
      pairs = pairs;
      asserts = asserts;
      weight = weight;
    }) ∥₁ },
}

impl Tree {
    /// The tree of these instances.
    pub fn new(
        typed: Typed,
        top: u32,
        instances: Items<Instance>,
        pairs: Items<Pair>,
        asserts: Items<Assert>,
        weight: u64,
    ) -> Tree
        requires { IsTree (record {
          typed = typed;
          top = top;
          instances = instances;
          pairs = pairs;
          asserts = asserts;
          weight = weight;
        }) }
        ensures typed { result.typed ≡ typed }
        ensures top { result.top ≡ top }
        ensures instances { result.instances ≡ instances }
        ensures pairs { result.pairs ≡ pairs }
        ensures asserts { result.asserts ≡ asserts }
        ensures weight { result.weight ≡ weight }
    {
        Tree {
            typed,
            top,
            instances,
            pairs,
            asserts,
            weight,
        }
    }
}
