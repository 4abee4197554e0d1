ghost use Rattle.std.specs.Prelude.{◌≡◌, ◌<◌, Some, IsTrue, IfOk, OnOk, length, slice_get};
ghost use Rattle.std.specs.Bool.{OnTrue};
ghost use Rattle.std.specs.List.{list_all};
ghost use Rattle.bsv_clock.specs.Clocks as clocks;
ghost use Rattle.bsv_design.specs.scheme.Schemes.{if_asked};
ghost use Rattle.bsv_design.specs.scheme.Seen.{asking};
ghost use Rattle.bsv_design.specs.design.Widths.{call_named};
ghost use Rattle.bsv_serial.specs.Making.{with_sites};
ghost use Rattle.bsv_serial.specs.Settings as spec;
ghost use Rattle.bsv_serial.specs.Sights.{or_none};

use crate::body::{Body, value_of};
use crate::calls_made::MadeCalls;
use crate::looks::Looks;
use crate::making::make_calls;
use bsv_bits::{OutOfMemory, Word};
use bsv_design::{Design, Element, Guards, Need, Requests};
use bsv_prim::Part;
use std::alloc::Global;

/// What elements are computed from.
#[derive(Clone, Copy)]
pub struct Setting<'a> {
    pub alloc: Global,
    pub design: &'a Design,
    pub guards: &'a Guards,
    pub requests: &'a Requests,
    /// The parts at which methods look, after the calls that they see.
    pub state: &'a [Part],
}

/// Whether the method of this position is asked.
pub fn is_asked(requests: &Requests, number: u32) -> bool
    ensures { result ≡ clocks.is_asked (asking requests.now) number }
{
    match requests.asked.get(number as usize) {
        Some(asked) => *asked,
        None => false,
    }
}

/// The words that the method of this position is asked with.
fn given(requests: &Requests, number: u32) -> &[Word]
    ensures { result.now ≡ if_asked (slice_get (asking requests.now).asked number)
        (slice_get (asking requests.now).args number) }
{
    if !is_asked(requests, number) {
        return &[];
    }
    match requests.args.get(number as usize) {
        Some(args) => args.as_slice(),
        None => &[],
    }
}

impl<'a> Setting<'a> {
    ghost use Rattle.bsv_serial.specs.AtHand as hand;

    pub fn element(self, number: u32) -> &'a Element
        requires { number < length self.design.now.elements }
        ensures { slice_get self.entry.design.now.elements number ≡ Some result.now }
    {
        &self.design.elements.as_slice()[number as usize]
    }

    /// The guards that the element of this position needs.
    fn needs(self, number: u32) -> &'a [Need]
        ensures { result.now ≡ or_none (slice_get self.entry.guards.now.needs number) }
    {
        match self.guards.needs.get(number as usize) {
            Some(needs) => needs.as_slice(),
            None => &[],
        }
    }

    /// Whether the element is ready where these calls are made. Where it is, the words are those of its nodes.
    #[tactic(auto, unfolding(crate::specs::Settings::is_ready, crate::specs::Settings::words_at))]
    pub fn is_ready(
        self,
        number: u32,
        calls_made: &'a [MadeCalls],
        words: &mut Vec<Word>,
    ) -> Result<bool, OutOfMemory>
        requires { spec.CanRun (hand.ground self) calls_made.now number }
        ensures truth { IfOk result (λ truth. truth
            ≡ spec.is_ready (hand.ground self.entry) calls_made.now number) }
        ensures words { IfOk result (λ truth. OnTrue truth
            (words.new.items ≡ spec.words_at (hand.ground self.entry) calls_made.now number)) }
    {
        let body = Body {
            looks: Looks {
                alloc: self.alloc,
                parts: self.design.parts.as_slice(),
                state: self.state,
                calls_made,
            },
            element: self.element(number),
            given: given(self.requests, number),
        };
        body.is_ready(self.needs(number), words)
    }

    /// The element of this place in the execution order makes its calls.
    pub fn make_calls(
        self,
        number: u32,
        place: u32,
        words: &[Word],
        calls_made: &mut Vec<MadeCalls>,
    ) -> Result<(), OutOfMemory>
        requires element { number < length self.design.now.elements }
        requires named { hand.AreNamed self number }
        requires count { length calls_made.old.items ≡ length self.design.now.parts }
        ensures { OnOk result (calls_made.new.items
            ≡ with_sites (hand.ground self.entry).kinds place calls_made.old.items
            (spec.sites_of (hand.ground self.entry).kinds words.now
            (slice_get self.entry.design.now.elements number))) }
    {
        let calls = self.element(number).calls.as_slice();
        make_calls(
            self.alloc,
            self.design.parts.as_slice(),
            calls,
            place,
            words,
            calls_made,
        )
    }

    /// What the element gives.
    pub fn value(self, number: u32, words: &[Word]) -> Option<Word>
        requires { number < length self.design.now.elements }
        ensures { result ≡ spec.value_of words.now
            (slice_get self.entry.design.now.elements number) }
    {
        value_of(self.element(number), words)
    }
}
