ghost use Rattle.std.specs.Prelude.{◌≡◌, IfOk, map};
ghost use Rattle.bsv_design.specs.scheme.Schemes.{kinds_of};
ghost use Rattle.bsv_design.specs.scheme.Seen.{design_data};
ghost use Rattle.bsv_design.specs.scheme.States as states;

use crate::design::{Design, NamedPart};
use bsv_bits::OutOfMemory;
use bsv_prim::{Part, Primitive};
use std::alloc::Global;

/// The state of a design: of each part its own, in building order.
#[derive(Drop)]
pub struct State {
    pub parts: Vec<Part>,
}

impl State {
    /// The state before the first clock: start values, empty queues and empty wires.
    pub fn opening(alloc: Global, design: &Design) -> Result<State, OutOfMemory>
        ensures { IfOk result (λ state.
            state.parts.items ≡ states.opening (kinds_of (design_data design.now))) }
    {
        let parts = openings(alloc, design.parts.as_slice())?;
        Ok(State { parts })
    }

    /// An equal state.
    pub fn copy(&self, alloc: Global) -> Result<State, OutOfMemory>
        ensures { IfOk result (λ state. state.parts.items ≡ self.now.parts.items) }
    {
        let mut parts = Vec::new(alloc);
        for part in &self.parts {
            parts.push(part.copy(alloc)?)?;
        }
        Ok(State { parts })
    }
}

/// The parts as they are before the first clock.
fn openings(alloc: Global, named: &[NamedPart]) -> Result<Vec<Part>, OutOfMemory>
    ensures { IfOk result (λ parts. parts.items ≡ states.opening (map (λ p. p.kind) named.now)) }
{
    let mut parts = Vec::new(alloc);
    for part in named {
        parts.push(part.kind.opening(alloc)?)?;
    }
    Ok(parts)
}
