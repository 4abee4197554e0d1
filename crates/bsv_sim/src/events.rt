ghost use Rattle.std.specs.Prelude.{◌≡◌, ◌≤◌, ◌<◌, ◌^◌, length, vec_capacity, slice_get};
ghost use Rattle.bsv_design.specs.scheme.Rooms.{HasRoom};
ghost use Rattle.bsv_sim.specs.Events as spec;

use crate::signals::ElementSignals;
use bsv_bits::Word;
use bsv_design::{Fired, Schedule};

impl ElementSignals<'_> {
    ghost use Rattle.bsv_sim.specs.AtHand as hand;

    /// The elements that fire, in the execution order.
    #[tactic(auto, unfolding(crate::specs::Events::all_fired))]
    fn tell_fired(self, execution: &[u32], list: &mut Vec<u32>)
        requires nodes { hand.HasNodes self }
        requires room { length execution.now ≤ vec_capacity list.old }
        ensures list { list.new.items ≡ spec.all_fired (hand.signals self.entry) execution.now }
        ensures capacity { vec_capacity list.old ≤ vec_capacity list.new }
    {
        list.clear();
        let mut rest = execution;
        while let Some((number, after)) = rest.split_first() {
            if self.fires(*number) {
                let _ = list.push(*number);
            }
            rest = after;
        }
    }

    /// What these elements give, in their order.
    #[tactic(auto, unfolding(crate::specs::Events::all_given))]
    fn tell_results(self, list: &[u32], results: &mut Vec<(u32, Word)>)
        requires nodes { hand.HasNodes self }
        requires room { length list.now ≤ vec_capacity results.old }
        ensures results { results.new.items ≡ spec.all_given (hand.signals self.entry) list.now }
        ensures capacity { vec_capacity results.old ≤ vec_capacity results.new }
    {
        results.clear();
        let mut rest = list;
        while let Some((number, after)) = rest.split_first() {
            if let Some(word) = self.word(*number) {
                let _ = results.push((*number, word));
            }
            rest = after;
        }
    }

    /// The one that stops the element, where it is stopped.
    fn stopper(self, asked: &[bool], stoppers: &[u32], number: u32) -> Option<u32>
        requires { hand.HasNodes self }
        ensures { result ≡ spec.stopper (hand.signals self.entry) asked.now stoppers.now number }
    {
        if self.is_stopped(asked, number) {
            stoppers.get(number as usize).copied()
        } else {
            None
        }
    }

    /// The elements that are stopped, each with the one that stops it, by urgency.
    #[tactic(auto, unfolding(crate::specs::Events::all_stopped))]
    fn tell_stopped(
        self,
        asked: &[bool],
        stoppers: &[u32],
        urgency: &[u32],
        stopped: &mut Vec<(u32, u32)>,
    )
        requires nodes { hand.HasNodes self }
        requires room { length urgency.now ≤ vec_capacity stopped.old }
        ensures stopped { stopped.new.items
            ≡ spec.all_stopped (hand.signals self.entry) asked.now stoppers.now urgency.now }
        ensures capacity { vec_capacity stopped.old ≤ vec_capacity stopped.new }
    {
        stopped.clear();
        let mut rest = urgency;
        while let Some((number, after)) = rest.split_first() {
            if let Some(by) = self.stopper(asked, stoppers, *number) {
                let _ = stopped.push((*number, by));
            }
            rest = after;
        }
    }

    /// The methods that are blocked, by position.
    #[tactic(auto, unfolding(crate::specs::Events::all_blocked))]
    fn tell_blocked(self, asked: &[bool], blocked: &mut Vec<u32>)
        requires nodes { hand.HasNodes self }
        requires few { length asked.now < 2 ^ 32 }
        requires room { length asked.now ≤ vec_capacity blocked.old }
        ensures blocked { blocked.new.items
            ≡ spec.all_blocked (hand.signals self.entry) asked.now }
        ensures capacity { vec_capacity blocked.old ≤ vec_capacity blocked.new }
    {
        blocked.clear();
        for number in 0..asked.len() {
            if self.is_blocked(asked, number as u32) {
                let _ = blocked.push(number as u32);
            }
        }
    }

    /// What happens in the clock, where this is asked. The table has room for whom each element is stopped by.
    pub fn tell(self, schedule: &Schedule, asked: &[bool], stoppers: &mut [u32], fired: &mut Fired)
        requires nodes { hand.HasNodes self }
        requires few { length asked.now < 2 ^ 32 }
        requires room { spec.HasRoomFor schedule.now asked.now fired.old }
        ensures told { spec.IsTold (hand.signals self.entry) schedule.now asked.now
            stoppers.old fired.new }
        ensures room { spec.KeepsRoom fired.old fired.new }
    {
        let execution = schedule.execution.as_slice();
        let urgency = schedule.urgency.as_slice();
        self.find_stoppers(schedule.stops.as_slice(), urgency, stoppers);
        self.tell_fired(execution, &mut fired.list);
        self.tell_stopped(asked, stoppers, urgency, &mut fired.stopped);
        self.tell_blocked(asked, &mut fired.blocked);
        self.tell_results(fired.list.as_slice(), &mut fired.results);
    }
}
