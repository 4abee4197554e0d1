ghost use Rattle.std.specs.Prelude.{◌≡◌, ◌≤◌, [], not, length, replicate, IfOk, OnOk};
ghost use Rattle.std.specs.List.{prefix_len};
ghost use Rattle.bsv_serial.specs.CallsMade as spec;

use bsv_bits::{OutOfMemory, Word};
use sqlite_items::Items;
use std::alloc::Global;
use std::marker::Model;

/// A call of a method that acts, on one part.
#[derive(Drop)]
pub struct MadeCall {
    /// The place in the execution order of the element that makes it.
    pub place: u32,
    /// The rank of the method.
    pub rank: u32,
    pub method: u32,
    pub args: Items<Word>,
}

impl MadeCall {
    ghost use Rattle.bsv_serial.specs.CallsMade as spec;

    /// Whether it takes effect after the other one: its element does, or its rank in the same one is higher.
    fn is_later(&self, other: &MadeCall) -> bool
        ensures { result ≡ spec.is_later self.now other.now }
    {
        other.place < self.place || (other.place == self.place && other.rank < self.rank)
    }
}

/// The calls that are made on a part, in the order in which they take effect. Contracts see their list.
#[derive(Drop)]
pub struct MadeCalls {
    calls: Vec<MadeCall>,
}

impl Model for MadeCalls {
    ghost use Rattle.std.specs.Prelude.{List};
    ghost use Rattle.bsv_serial.specs.declared.calls_made.MadeCall.{MadeCall};

    ghost Value = { List MadeCall };

    ghost view = { λ calls_made. calls_made.calls.items };
}

impl MadeCalls {
    ghost use Rattle.bsv_serial.specs.CallsMade as spec;

    pub fn new(alloc: Global) -> MadeCalls
        ensures { result ≡ [] }
    {
        MadeCalls {
            calls: Vec::new(alloc),
        }
    }

    pub fn as_slice(&self) -> &[MadeCall]
        ensures { result.now ≡ self.now }
    {
        self.calls.as_slice()
    }

    /// The call comes before those that take effect after it.
    pub fn add(&mut self, call: MadeCall) -> Result<(), OutOfMemory>
        ensures { OnOk result (self.new ≡ spec.added call self.old) }
    {
        let at = place_among(self.calls.as_slice(), &call);
        self.calls.insert(at, call)?;
        Ok(())
    }
}

/// How many of the calls, from the first on, do not take effect after this one.
fn place_among(calls: &[MadeCall], call: &MadeCall) -> usize
    ensures value { result ≡ prefix_len (λ d. not (spec.is_later d call.now)) calls.now }
    ensures within { result ≤ length calls.now }
{
    calls
        .iter()
        .take_while(|other| !other.is_later(call))
        .count()
}

/// No calls on each of so many parts.
pub fn none_made(alloc: Global, parts: usize) -> Result<Vec<MadeCalls>, OutOfMemory>
    ensures { IfOk result (λ calls_made. calls_made.items ≡ replicate parts []) }
{
    let mut calls_made = Vec::new(alloc);
    for _ in 0..parts {
        calls_made.push(MadeCalls::new(alloc))?;
    }
    Ok(calls_made)
}
