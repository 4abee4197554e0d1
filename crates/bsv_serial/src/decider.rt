ghost use Rattle.std.specs.Prelude.{◌≡◌, IfOk, OnOk, Some, None, length, slice_get};
ghost use Rattle.bsv_serial.specs.Decider as spec;
ghost use Rattle.bsv_serial.specs.Sights.{or_none};

use crate::fates::{Fate, Fates};
use crate::setting::{Setting, is_asked};
use crate::stopping::stop_all;
use bsv_bits::{OutOfMemory, Word};
use bsv_design::Schedule;

/// What a clock is decided from.
#[derive(Clone, Copy)]
pub struct Decider<'a> {
    pub setting: Setting<'a>,
    pub schedule: &'a Schedule,
    /// Of each element its place in the execution order.
    pub places: &'a [u32],
}

impl Decider<'_> {
    ghost use Rattle.bsv_serial.specs.AtHand as hand;

    /// Those that the element stops.
    fn stopped_by(&self, number: u32) -> &[u32]
        ensures { result.now ≡ or_none (slice_get (hand.course self.now).stops number) }
    {
        match self.schedule.stops.get(number as usize) {
            Some(stopped) => stopped.as_slice(),
            None => &[],
        }
    }

    /// The element fires. These are the words of its nodes.
    #[tactic(auto, unfolding(crate::specs::Decider::fired))]
    fn fire(self, number: u32, words: &[Word], so_far: &mut Fates) -> Result<(), OutOfMemory>
        requires can { spec.CanDecide (hand.course self) (hand.so_far so_far.old) number }
        requires words { words.now ≡ spec.words (hand.course self) (hand.so_far so_far.old) number }
        ensures { OnOk result (hand.so_far so_far.new ≡ spec.fired (hand.course self.entry)
            (hand.so_far so_far.old) number
            (slice_get (hand.course self.entry).ground.elements number)) }
    {
        let place = self.places[number as usize];
        self.setting
            .make_calls(number, place, words, &mut so_far.calls_made)?;
        stop_all(&mut so_far.stoppers, self.stopped_by(number), number);
        so_far.fates[number as usize] = Fate::Fired(self.setting.value(number, words));
        Ok(())
    }

    /// It is decided what comes of the element.
    #[tactic(auto, unfolding(crate::specs::Decider::decided))]
    fn decide(
        self,
        number: u32,
        words: &mut Vec<Word>,
        so_far: &mut Fates,
    ) -> Result<(), OutOfMemory>
        requires { spec.CanDecide (hand.course self) (hand.so_far so_far.old) number }
        ensures { OnOk result (hand.so_far so_far.new
            ≡ spec.decided (hand.course self.entry) (hand.so_far so_far.old) number) }
    {
        let is_rule = self.setting.element(number).role.is_rule();
        if !is_rule && !is_asked(self.setting.requests, number) {
            return Ok(());
        }
        if !self
            .setting
            .is_ready(number, so_far.calls_made.as_slice(), words)?
        {
            if !is_rule {
                so_far.fates[number as usize] = Fate::Blocked;
            }
            return Ok(());
        }
        if let Some(by) = so_far.stoppers[number as usize] {
            so_far.fates[number as usize] = Fate::Stopped(by);
            return Ok(());
        }
        self.fire(number, words.as_slice(), so_far)
    }

    /// It is decided what comes of each element, the more urgent ones first.
    #[tactic(auto, unfolding(crate::specs::Decider::all_decided))]
    pub fn decide_all(self) -> Result<Fates, OutOfMemory>
        requires { spec.CanDecideAll (hand.course self) (spec.undecided (hand.course self))
            self.schedule.now.urgency }
        ensures { IfOk result
            (λ found. hand.so_far found ≡ spec.all_decided (hand.course self.entry)
            (spec.undecided (hand.course self.entry)) self.entry.schedule.now.urgency) }
    {
        let design = self.setting.design;
        let alloc = self.setting.alloc;
        let mut words = Vec::new(alloc);
        let mut so_far = Fates::new(alloc, design.parts.len(), design.elements.len())?;
        let mut rest = self.schedule.urgency.as_slice();
        while let Some((number, after)) = rest.split_first() {
            self.decide(*number, &mut words, &mut so_far)?;
            rest = after;
        }
        Ok(so_far)
    }
}
