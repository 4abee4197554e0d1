ghost use Rattle.std.specs.Prelude.{◌≡◌, ◌<◌, [], All, IfOk, length, replicate};
ghost use Rattle.bsv_serial.specs.declared.fates.Fate.TheVariants as fate;

use crate::calls_made::{MadeCalls, none_made};
use bsv_bits::{OutOfMemory, Word};
use std::alloc::Global;

/// What comes of an element in a clock.
#[derive(Clone, Copy, Debug, PartialEq, Eq)]
pub enum Fate {
    /// It is a rule that is not ready, or a method that is not asked.
    Idle,
    /// It is a method that is asked and not ready.
    Blocked,
    /// It is ready, and this one stops it.
    Stopped(u32),
    /// It fires, and gives this word where it gives one.
    Fired(Option<Word>),
}

/// What is decided so far in a clock.
#[derive(Drop)]
pub struct Fates {
    /// The calls that are made on each part.
    pub calls_made: Vec<MadeCalls>,
    /// Of each element the first one that fires and stops it.
    pub stoppers: Vec<Option<u32>>,
    pub fates: Vec<Fate>,
}

impl Fates {
    /// Nothing is decided.
    pub fn new(alloc: Global, parts: usize, elements: usize) -> Result<Fates, OutOfMemory>
        ensures calls_made { IfOk result (λ found. found.calls_made.items ≡ replicate parts []) }
        ensures stoppers { IfOk result (λ found. found.stoppers.items ≡ replicate elements None) }
        ensures fates { IfOk result (λ found. found.fates.items ≡ replicate elements fate.Idle) }
    {
        // Where a local has the type of what a fate may hold, the checker finds its drop.
        let _none: Option<Word> = None;
        Ok(Fates {
            calls_made: none_made(alloc, parts)?,
            stoppers: vec![in alloc; None; elements]?,
            fates: vec![in alloc; Fate::Idle; elements]?,
        })
    }
}
