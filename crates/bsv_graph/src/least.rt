ghost use Rattle.std.specs.Prelude.{◌≡◌, ◌<◌, ◌≤◌, ◌↔◌, length, IsTrue};
ghost use Rattle.bsv_graph.specs.Growing.{IsClosed};
ghost use Rattle.bsv_graph.specs.Ready.{IsOpen, SomeOpen, IsStrict, IsReady};
ghost use Rattle.bsv_graph.specs.Ready.{IsLeastReady, IsClear, AreClear};
ghost use Rattle.bsv_graph.specs.Table.{side_of, at};

use crate::table::Table;

// The first number from `start` on that is open and leads to `b`, or the side where there is none.
fn first_before(reach: &Table, placed: &[bool], b: usize, start: usize) -> usize
    requires length { length placed.now ≡ side_of reach.now }
    requires element { b < side_of reach.now }
    requires start { start ≤ side_of reach.now }
    requires clear { IsClear reach.now placed.now b start }
    ensures within { result ≤ side_of reach.now }
    ensures clear { IsClear reach.now placed.now b result }
    ensures leads { result < side_of reach.now
        → IsOpen placed.now result × IsTrue (at reach.now result b) }
{
    for a in start..placed.len() {
        if !placed[a] && reach.get(a, b) {
            return a;
        }
    }
    placed.len()
}

// Whether `b` is ready. What it waits for is looked for from where it was last found.
fn is_ready(reach: &Table, placed: &[bool], waits: &mut [usize], b: usize) -> bool
    requires length { length placed.now ≡ side_of reach.now }
    requires element { b < side_of reach.now }
    requires clear { AreClear reach.now placed.now waits.old }
    ensures clear { AreClear reach.now placed.now waits.new }
    ensures ready { IsTrue result ↔ IsReady reach.now placed.now b }
{
    waits[b] = first_before(reach, placed, b, waits[b]);
    !placed[b] && waits[b] == placed.len()
}

/// The least number that is ready.
pub(crate) fn least_ready(reach: &Table, placed: &[bool], waits: &mut [usize]) -> usize
    requires length { length placed.now ≡ side_of reach.now }
    requires strict { IsStrict reach.now }
    requires closed { IsClosed reach.now }
    requires some { SomeOpen (side_of reach.now) placed.now }
    requires clear { AreClear reach.now placed.now waits.old }
    ensures clear { AreClear reach.now placed.now waits.new }
    ensures ready { IsLeastReady reach.now placed.now result }
{
    for b in 0..placed.len() {
        if is_ready(reach, placed, waits, b) {
            return b;
        }
    }
    unreachable!()
}
