ghost use Rattle.std.specs.Prelude.{◌≡◌, IfOk};
ghost use Rattle.std.proofs.Common.{rules};
ghost use Rattle.std.specs.Cmp.Rules.{comparing, hashing};
ghost use Rattle.std.specs.Hash as hashed;
ghost use Rattle.std.specs.Str.{bytes_eq};

use crate::memory::OutOfMemory;
use std::alloc::Global;
use std::hash::{Hash, Hasher};
use std::marker::Model;

/// A name, as of a file, a module or a rule: any bytes. Contracts see the list of its bytes.
#[derive(Debug, Drop)]
pub struct Name {
    text: Vec<u8>,
}

impl Model for Name {
    ghost use Rattle.std.specs.Prelude.{List, ℕ};

    ghost Value = { List ℕ };

    ghost view = { λ name. name.text.items };
}

impl Name {
    /// A copy of the text.
    pub fn new(alloc: Global, text: &[u8]) -> Result<Name, OutOfMemory>
        ensures { IfOk result (λ name. name ≡ text.now) }
    {
        Ok(Name {
            text: Vec::from_slice(alloc, text)?,
        })
    }

    /// The bytes of the text.
    pub fn bytes(&self) -> &[u8]
        ensures { result.now ≡ self.now }
    {
        self.text.as_slice()
    }
}

impl PartialEq for Name {
    ghost eq = { bytes_eq };

    ghost laws = { Prim.search (comparing, rules) };

    fn eq(&self, other: &Name) -> bool {
        self.bytes() == other.bytes()
    }
}

impl Eq for Name {
    ghost laws = { Prim.search (comparing, rules) };
}

impl Hash for Name {
    ghost hash_input = { hashed.slice hashed.u8 };

    ghost respects_eq = { Prim.search (hashing, rules) };

    fn hash<H: Hasher>(&self, state: &mut H) {
        self.bytes().hash(state);
    }
}

#[cfg(test)]
mod tests {
    use super::*;
    use std::hash::DefaultHasher;
    use std::test::Fail;

    fn hash_of(name: &Name) -> u64 {
        let mut state = DefaultHasher::new();
        name.hash(&mut state);
        state.finish()
    }

    #[test]
    fn names_are_their_bytes(rt: HostRuntime) -> Result<(), Fail> {
        let first = Name::new(rt.alloc(), b"fifo.first")?;
        let again = Name::new(rt.alloc(), b"fifo.first")?;
        let other = Name::new(rt.alloc(), b"fifo.First")?;
        let empty = Name::new(rt.alloc(), b"")?;
        assert_eq!(rt; first.bytes(), b"fifo.first".as_slice());
        assert_eq!(rt; empty.bytes(), b"".as_slice());
        assert!(rt; first == again && first != other && first != empty);
        assert_eq!(rt; hash_of(&first), hash_of(&again));
        assert!(rt; hash_of(&first) != hash_of(&other));
        Ok(())
    }
}
