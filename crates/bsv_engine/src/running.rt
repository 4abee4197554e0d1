ghost use Rattle.std.specs.Prelude.{◌≡◌, ◌+◌, ◌++◌, ◌<◌, ◌≤◌, length, take, drop, false};
ghost use Rattle.bsv_engine.specs.Running.{HasRoom, Keeps};
ghost use Rattle.bsv_engine.specs.Runs.{AllStand, AllWithin, Stands, Within, is_single, numbers, size};

use crate::cells::{Cells, keep};
use crate::run::Run;
use bsv_bits::Word;
use bsv_net::NetNode;

/// What does not change in a run.
#[derive(Clone, Copy)]
pub struct Given<'a> {
    pub inputs: &'a [Word],
    pub registers: &'a [Word],
    pub nodes: &'a [NetNode],
    pub widths: &'a [u32],
}

/// Keeps the word of the node of this place.
fn single(given: Given<'_>, place: usize, narrow: &mut [u64], wide: &mut [u128])
    requires there { place < length given.nodes.now }
    requires room { HasRoom given narrow.old wide.old }
    ensures { Keeps given.entry place (place + 1) narrow.old wide.old narrow.new wide.new }
{
    let cells = Cells {
        widths: &given.widths[..place],
        narrow: &narrow[..place],
        wide: &wide[..place],
    };
    let word = cells.word(given.inputs, given.registers, given.nodes[place]);
    keep(word, place, narrow, wide);
}

/// Keeps the words of steps, of which the first stands at this place.
fn several(given: Given<'_>, run: &Run, place: usize, narrow: &mut [u64])
    requires within { Within place run.now }
    requires there { place + size run.now ≤ length narrow.old }
    ensures { is_single run.now ≡ false → narrow.new
        ≡ take place narrow.old
        ++ (numbers given.entry.inputs.now given.entry.registers.now (take place narrow.old) run.now
        ++ drop (place + size run.now) narrow.old) }
{
    let (seen, rest) = narrow.split_at_mut(place);
    run.run(given.inputs, given.registers, seen, rest);
}

/// Keeps the words of one run, which begins at this place.
fn advance(given: Given<'_>, run: &Run, place: usize, narrow: &mut [u64], wide: &mut [u128])
    requires within { Within place run.now }
    requires there { place + size run.now ≤ length given.nodes.now }
    requires room { HasRoom given narrow.old wide.old }
    ensures { Stands (take place given.entry.widths.now) (drop place given.entry.widths.now)
        (drop place given.entry.nodes.now) run.now
        → Keeps given.entry place (place + size run.now) narrow.old wide.old narrow.new wide.new }
{
    if run.is_single() {
        single(given, place, narrow, wide);
    } else {
        several(given, run, place, narrow);
    }
}

/// Keeps the words of all runs.
pub fn run_all(given: Given<'_>, runs: &[Run], narrow: &mut [u64], wide: &mut [u128])
    requires within { AllWithin (length given.nodes.now) 0 runs.now }
    requires room { HasRoom given narrow.old wide.old }
    ensures { AllStand given.entry.widths.now given.entry.nodes.now 0
        (length given.entry.nodes.now) runs.now
        → Keeps given.entry 0 (length given.entry.nodes.now) narrow.old wide.old
        narrow.new wide.new }
{
    let mut place = 0;
    for run in runs {
        advance(given, run, place, narrow, wide);
        place += run.len();
    }
}
