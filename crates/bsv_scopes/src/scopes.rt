ghost use Rattle.std.specs.Prelude.{◌≡◌, ◌≤◌, ◌^◌, [], IfOk, OnOk, OnErr, MatchOption};
ghost use Rattle.std.specs.Option.{option_copied};
ghost use Rattle.bsv_scopes.specs.Scopes as spec;
ghost use Rattle.bsv_scopes.specs.Seen.{scopes};

use crate::scope::Scope;
use bsv_bits::Name;
use std::alloc::{AllocError, Global};

/// The scopes that are open, the outermost first.
#[derive(Drop)]
pub struct Scopes<V> {
    scopes: Vec<Scope<V>>,
}

impl<V: Drop> Scopes<V> {
    /// No scope is open.
    pub fn new(alloc: Global) -> Scopes<V>
        ensures { scopes result ≡ [] }
    {
        Scopes {
            scopes: Vec::new(alloc),
        }
    }

    /// Opens a scope inside the others.
    #[tactic(auto, using(crate::proofs::Layers::layers))]
    pub fn open(&mut self, alloc: Global) -> Result<(), AllocError>
        ensures opened { OnOk result (scopes self.new ≡ spec.opened (scopes self.old)) }
        ensures kept { OnErr result (scopes self.new ≡ scopes self.old) }
    {
        self.scopes.push(Scope::new(alloc))?;
        Ok(())
    }

    /// Closes the innermost scope.
    #[tactic(auto, using(crate::proofs::Layers::layers))]
    pub fn close(&mut self)
        ensures { scopes self.new ≡ spec.closed (scopes self.old) }
    {
        let _ = self.scopes.pop();
    }

    /// Defines the name in the innermost scope, and says whether it was new there: where that scope
    /// has it, the first definition stays, and where no scope is open, there is no place for it.
    #[tactic(auto, using(crate::proofs::Layers::layers))]
    pub fn define(&mut self, name: Name, value: V) -> Result<bool, AllocError>
        ensures is_new { IfOk result (λ is_new. is_new ≡ spec.is_new_in name (scopes self.old)) }
        ensures defined { OnOk result (scopes self.new
            ≡ spec.defined_in name value (scopes self.old)) }
        ensures kept { OnErr result (scopes self.new ≡ scopes self.old) }
    {
        let Some(mut innermost) = self.scopes.pop() else {
            return Ok(false);
        };
        let is_new = innermost.define(name, value);
        // The room of the scope that was taken out is still there.
        let _ = self.scopes.push(innermost);
        is_new
    }

    /// How many names the scopes have together, if a `u32` holds that number.
    #[tactic(auto, using(crate::proofs::Layers::layers))]
    pub fn count(&self) -> Option<u32>
        ensures { MatchOption result (2 ^ 32 ≤ spec.in_scope (scopes self.now))
            (λ n. n ≡ spec.in_scope (scopes self.now)) }
    {
        let mut count: u32 = 0;
        let mut rest = self.scopes.as_slice();
        while let Some((innermost, outer)) = rest.split_last() {
            count = count.checked_add(u32::try_from(innermost.len()).ok()?)?;
            rest = outer;
        }
        Some(count)
    }

    /// What the name stands for in the innermost scope that has it.
    #[tactic(auto, using(crate::proofs::Layers::layers))]
    pub fn find(&self, name: &Name) -> Option<&V>
        ensures { option_copied result ≡ spec.find_in name.now (scopes self.now) }
    {
        let mut rest = self.scopes.as_slice();
        while let Some((scope, outer)) = rest.split_last() {
            if let Some(value) = scope.find(name) {
                return Some(value);
            }
            rest = outer;
        }
        None
    }
}
