use bsv_bits::{OutOfMemory, Word};
use bsv_design::Fired;
use std::alloc::Global;

/// What happened to an element in a clock.
#[derive(Clone, Copy)]
pub(crate) struct Event {
    pub(crate) fired: bool,
    pub(crate) stopped: bool,
    /// A method was asked and was not ready; a rule was not ready.
    pub(crate) blocked: bool,
    pub(crate) result: Option<Word>,
}

impl Event {
    /// No clock.
    const NONE: Event = Event {
        fired: false,
        stopped: false,
        blocked: false,
        result: None,
    };

    /// A rule that is not ready.
    const UNREADY: Event = Event {
        fired: false,
        stopped: false,
        blocked: true,
        result: None,
    };
}

/// What happened in a clock, by the positions of the elements: the methods of the top, and then the rules.
#[derive(Drop)]
pub(crate) struct Happened {
    events: Vec<Event>,
    methods: usize,
}

/// What happened to the element of a position.
fn event_at(events: &mut [Event], number: u32) -> Option<&mut Event> {
    events.get_mut(number as usize)
}

/// Notes that these fired.
fn note_fired(events: &mut [Event], fired: &[u32]) {
    for number in fired {
        if let Some(event) = event_at(events, *number) {
            event.fired = true;
            event.blocked = false;
        }
    }
}

/// Notes that these were stopped.
fn note_stopped(events: &mut [Event], stopped: &[(u32, u32)]) {
    for (number, _by) in stopped {
        if let Some(event) = event_at(events, *number) {
            event.stopped = true;
            event.blocked = false;
        }
    }
}

/// Notes that these were blocked.
fn note_blocked(events: &mut [Event], blocked: &[u32]) {
    for number in blocked {
        if let Some(event) = event_at(events, *number) {
            event.blocked = true;
        }
    }
}

/// Notes what these gave.
fn note_results(events: &mut [Event], results: &[(u32, Word)]) {
    for (number, word) in results {
        if let Some(event) = event_at(events, *number) {
            event.result = Some(*word);
        }
    }
}

impl Happened {
    /// Nothing happened to so many elements, of which so many are methods.
    pub(crate) fn new(
        alloc: Global,
        elements: usize,
        methods: usize,
    ) -> Result<Happened, OutOfMemory> {
        let events = vec![in alloc; Event::NONE; elements]?;
        Ok(Happened { events, methods })
    }

    /// Notes that there is no clock.
    pub(crate) fn clear(&mut self) {
        for event in self.events.iter_mut() {
            *event = Event::NONE;
        }
    }

    /// Notes that nothing fired or was stopped in a clock.
    fn begin(&mut self) {
        let methods = self.methods;
        for (number, event) in self.events.iter_mut().enumerate() {
            *event = if number < methods {
                Event::NONE
            } else {
                Event::UNREADY
            };
        }
    }

    /// Notes what happened in a clock.
    pub(crate) fn note(&mut self, fired: &Fired) {
        self.begin();
        note_fired(&mut self.events, fired.list.as_slice());
        note_stopped(&mut self.events, fired.stopped.as_slice());
        note_blocked(&mut self.events, fired.blocked.as_slice());
        note_results(&mut self.events, fired.results.as_slice());
    }

    /// What happened to the element of a position.
    pub(crate) fn event(&self, number: u32) -> Event {
        match self.events.get(number as usize) {
            Some(event) => *event,
            None => Event::NONE,
        }
    }
}
