ghost use Rattle.std.specs.Prelude.{◌≡◌, IfOk};

use crate::queue::Queue;
use bsv_bits::{OutOfMemory, Word};
use std::alloc::Global;

/// The state of a primitive.
#[derive(Drop)]
pub enum Part {
    /// The number of a register.
    Number(Word),
    /// What a wire holds in this clock, if anything.
    Held(Option<Word>),
    /// The items of a queue.
    Queue(Queue),
}

impl Part {
    /// An equal part with the same room.
    pub fn copy(&self, alloc: Global) -> Result<Part, OutOfMemory>
        ensures { IfOk result (λ part. part ≡ self.now) }
    {
        match self {
            Part::Number(word) => Ok(Part::Number(*word)),
            Part::Held(held) => Ok(Part::Held(*held)),
            Part::Queue(queue) => Ok(Part::Queue(queue.copy(alloc)?)),
        }
    }
}
