ghost use Rattle.std.specs.Prelude.{◌≡◌, [], length, not, IfOk, OnOk, OnErr};
ghost use Rattle.std.specs.Option.{option_copied};
ghost use Rattle.bsv_scopes.specs.Scopes as spec;
ghost use Rattle.bsv_scopes.specs.Seen.{entries};

use bsv_bits::Name;
use indexmap::IndexMap;
use std::alloc::{AllocError, Global};

/// The names of one scope, each with what it stands for, numbered from 0 on in the order in which they
/// were defined.
#[derive(Drop)]
pub struct Scope<V> {
    names: IndexMap<Name, V>,
}

impl<V: Drop> Scope<V> {
    /// A scope without names.
    pub fn new(alloc: Global) -> Scope<V>
        ensures { entries result ≡ [] }
    {
        Scope {
            names: IndexMap::new(alloc),
        }
    }

    /// What the name stands for.
    #[tactic(auto, using(crate::proofs::Entries::look_up))]
    pub fn find(&self, name: &Name) -> Option<&V>
        ensures { option_copied result ≡ spec.found name.now (entries self.now) }
    {
        self.names.get(name)
    }

    /// The number of the name.
    #[tactic(auto, using(crate::proofs::Entries::look_up))]
    pub fn number(&self, name: &Name) -> Option<usize>
        ensures { result ≡ spec.number_of name.now (entries self.now) }
    {
        self.names.get_index_of(name)
    }

    /// Whether the name is defined.
    #[tactic(auto, using(crate::proofs::Entries::look_up))]
    pub fn is_defined(&self, name: &Name) -> bool
        ensures { result ≡ spec.is_defined name.now (entries self.now) }
    {
        self.names.contains_key(name)
    }

    /// How many names there are.
    pub fn len(&self) -> usize
        ensures { result ≡ length (entries self.now) }
    {
        self.names.len()
    }

    /// Defines the name, and says whether it was not defined before. Where it was, the first
    /// definition stays.
    #[tactic(auto, using(crate::proofs::Entries::define))]
    pub fn define(&mut self, name: Name, value: V) -> Result<bool, AllocError>
        ensures is_new { IfOk result (λ is_new. is_new
            ≡ not (spec.is_defined name (entries self.old))) }
        ensures defined { OnOk result (entries self.new
            ≡ spec.with_new name value (entries self.old)) }
        ensures kept { OnErr result (entries self.new ≡ entries self.old) }
    {
        if self.is_defined(&name) {
            return Ok(false);
        }
        self.names.insert(name, value)?;
        Ok(true)
    }
}
