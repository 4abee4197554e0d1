ghost use Rattle.std.specs.Prelude.{◌≡◌, ◌≤◌, [], length, vec_capacity, IfOk};

use crate::design::Design;
use bsv_bits::{OutOfMemory, Word};
use std::alloc::Global;

/// What happened in a clock, with the elements by their places. Each list has room for all of them.
#[derive(Drop)]
pub struct Fired {
    /// The elements that fired, in execution order.
    pub list: Vec<u32>,
    /// Each element that was ready and did not fire, in urgency order, with the one that stopped it.
    pub stopped: Vec<(u32, u32)>,
    /// The methods that were asked and not ready, by position.
    pub blocked: Vec<u32>,
    /// What the methods gave that fired, in execution order.
    pub results: Vec<(u32, Word)>,
}

impl Fired {
    /// Nothing fired, with room for every element of the design in each list.
    pub fn new(alloc: Global, design: &Design) -> Result<Fired, OutOfMemory>
        ensures list { IfOk result (λ fired. fired.list.items ≡ []) }
        ensures stopped { IfOk result (λ fired. fired.stopped.items ≡ []) }
        ensures blocked { IfOk result (λ fired. fired.blocked.items ≡ []) }
        ensures results { IfOk result (λ fired. fired.results.items ≡ []) }
        ensures list_room { IfOk result (λ fired.
            length design.now.elements ≤ vec_capacity fired.list) }
        ensures stopped_room { IfOk result (λ fired.
            length design.now.elements ≤ vec_capacity fired.stopped) }
        ensures blocked_room { IfOk result (λ fired.
            length design.now.elements ≤ vec_capacity fired.blocked) }
        ensures results_room { IfOk result (λ fired.
            length design.now.elements ≤ vec_capacity fired.results) }
    {
        let room = design.elements.len();
        Ok(Fired {
            list: Vec::with_capacity(alloc, room)?,
            stopped: Vec::with_capacity(alloc, room)?,
            blocked: Vec::with_capacity(alloc, room)?,
            results: Vec::with_capacity(alloc, room)?,
        })
    }
}
