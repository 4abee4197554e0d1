ghost use Rattle.std.specs.Prelude.{◌≡◌, IfOk, OnOk};
ghost use Rattle.bsv_elab.specs.Becoming.{GivesInto, Becomes};
ghost use Rattle.bsv_elab.specs.Names as spec;

use crate::refused::{Building, Refused};
use bsv_bits::{Name, OutOfMemory};
use bsv_design::path_of;
use bsv_fail::Fail;
use bsv_tree::Fault;
use indexmap::{IndexMap, IndexSet};
use itoa::Buffer;
use std::alloc::{AllocError, Global};
use std::marker::Model;

/// The greatest number after a name.
const MOST_TIMES: u32 = 4_294_967_295;

/// The names of one module's instances, or of its rules and methods.
#[derive(Drop)]
pub struct Names {
    /// How often each name was given.
    given: IndexMap<Name, u32>,
    /// The names that are taken.
    taken: IndexSet<Name>,
}

impl Model for Names {
    ghost use Rattle.bsv_elab.specs.Names.{Named};

    ghost Value = { Named };

    ghost view = { λ names. record { given = names.given.entries; taken = names.taken.keys } };
}

/// The name, and after all but the first its number.
fn with_number(alloc: Global, name: &[u8], number: u32) -> Result<Name, OutOfMemory>
    ensures { IfOk result (λ own. own ≡ spec.with_number name.now number) }
{
    if number == 0 {
        return Name::new(alloc, name);
    }
    let mut text = Vec::from_slice(alloc, name)?;
    text.extend_from_slice(b"_")?;
    let mut digits = Buffer::new();
    text.extend_from_slice(digits.format(number).as_bytes())?;
    Name::new(alloc, text.as_slice())
}

impl Names {
    /// No names.
    pub(crate) fn new(alloc: Global) -> Names
        ensures { result ≡ spec.no_names }
    {
        Names {
            given: IndexMap::new(alloc),
            taken: IndexSet::new(alloc),
        }
    }

    /// How often the name was given.
    fn times(&self, name: &Name) -> u32
        ensures { result ≡ spec.times self.now name.now }
    {
        match self.given.get(name) {
            Some(times) => *times,
            None => 0,
        }
    }

    /// The name was given so many times.
    fn give(&mut self, name: Name, times: u32) -> Result<(), AllocError>
        ensures { OnOk result (self.new ≡ spec.given_times name times self.old) }
    {
        self.given.insert(name, times)?;
        Ok(())
    }

    /// The next name of those that are made with one name.
    #[tactic(auto, unfolding(crate::specs::Names::numbered))]
    fn numbered(&mut self, alloc: Global, name: &[u8]) -> Building<Name>
        ensures { GivesInto result self.new (spec.numbered name.now self.old) }
    {
        let key = Name::new(alloc, name)?;
        let times = self.times(&key);
        if times >= MOST_TIMES {
            return Err(Fail::Fault(Refused::Carried(Fault::Weight)));
        }
        let own = with_number(alloc, name, times)?;
        self.give(key, times + 1)?;
        Ok(own)
    }

    /// Takes a name, which has to be free.
    #[tactic(auto, unfolding(crate::specs::Names::take_name))]
    pub(crate) fn take(&mut self, alloc: Global, path: &[u8], name: &[u8]) -> Building<()>
        ensures { Becomes result self.new (spec.take_name path.now name.now self.old) }
    {
        let key = Name::new(alloc, name)?;
        if self.taken.contains(&key) {
            return Err(Fail::Fault(Refused::NameTaken(path_of(alloc, path, name)?)));
        }
        self.taken.insert(key)?;
        Ok(())
    }

    /// Takes the next name of those that are made with one name.
    #[tactic(auto, unfolding(crate::specs::Names::new_name))]
    pub(crate) fn next(&mut self, alloc: Global, path: &[u8], name: &[u8]) -> Building<Name>
        ensures { GivesInto result self.new (spec.new_name path.now name.now self.old) }
    {
        let own = self.numbered(alloc, name)?;
        self.take(alloc, path, own.bytes())?;
        Ok(own)
    }
}
