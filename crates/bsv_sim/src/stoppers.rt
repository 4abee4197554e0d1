ghost use Rattle.std.specs.Prelude.{◌≡◌, length, slice_get, slice_set};
ghost use Rattle.bsv_clock.specs.Settling.{or_no_numbers};
ghost use Rattle.bsv_sim.specs.Stoppers as spec;

use crate::signals::ElementSignals;
use sqlite_items::Items;

/// Notes that this element stops that one.
fn note(stoppers: &mut [u32], number: u32, by: u32)
    ensures { stoppers.new ≡ slice_set stoppers.old number by }
{
    let at = number as usize;
    if at < stoppers.len() {
        stoppers[at] = by;
    }
}

/// Notes that this element stops each of those.
#[tactic(auto, unfolding(crate::specs::Stoppers::noted))]
fn note_all(stoppers: &mut [u32], stopped: &[u32], by: u32)
    ensures { stoppers.new ≡ spec.noted stoppers.old stopped.now by }
{
    let mut rest = stopped;
    while let Some((number, after)) = rest.split_first() {
        note(stoppers, *number, by);
        rest = after;
    }
}

/// Those that the element of this position stops.
fn stopped_by(stops: &[Items<u32>], number: u32) -> &[u32]
    ensures { result.now ≡ or_no_numbers (slice_get stops.now number) }
{
    match stops.get(number as usize) {
        Some(stopped) => stopped.as_slice(),
        None => &[],
    }
}

impl ElementSignals<'_> {
    ghost use Rattle.bsv_sim.specs.AtHand as hand;

    /// Notes whom the element stops, where it fires.
    fn note_stops(self, stops: &[Items<u32>], number: u32, stoppers: &mut [u32])
        requires { hand.HasNodes self }
        ensures { stoppers.new ≡ spec.noted_by (hand.signals self.entry) stops.now
            stoppers.old number }
    {
        if self.fires(number) {
            note_all(stoppers, stopped_by(stops, number), number);
        }
    }

    /// Notes of each element that is stopped the first one that stops it. The last one that is noted stays, so the more
    /// urgent ones come last.
    #[tactic(auto, unfolding(crate::specs::Stoppers::all_noted), using(crate::proofs::Tables::from_last))]
    pub fn find_stoppers(self, stops: &[Items<u32>], urgency: &[u32], stoppers: &mut [u32])
        requires { hand.HasNodes self }
        ensures { stoppers.new ≡ spec.all_noted (hand.signals self.entry) stops.now
            stoppers.old urgency.now }
    {
        let mut rest = urgency;
        while let Some((number, before)) = rest.split_last() {
            self.note_stops(stops, *number, stoppers);
            rest = before;
        }
    }
}
