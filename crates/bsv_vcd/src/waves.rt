use crate::happened::Happened;
use crate::header::put_header;
use crate::parts::{Part, put_part};
use crate::signal::{Entry, Listing, Shown, Signal, Slot, Source};
use crate::walk::signals_of;
use bsv_bits::{OutOfMemory, Word};
use bsv_design::{Fired, Requests};
use bsv_io::Sink;
use bsv_page::Page;
use bsv_tree::Tree;
use std::alloc::Global;

/// How long a clock is.
const STEP: u64 = 10;

/// A time, and whether its line was put.
#[derive(Clone, Copy)]
struct Time {
    now: u64,
    is_put: bool,
}

impl Time {
    /// Puts the line of the time, where it was not.
    fn put<O: Sink + Drop>(&mut self, page: &mut Page<O>) {
        if !self.is_put {
            page.text(b"#");
            page.number(self.now);
            page.text(b"\n");
            self.is_put = true;
        }
    }

    /// A clock later.
    fn advance(&mut self) {
        self.now = self.now.saturating_add(STEP);
        self.is_put = false;
    }
}

/// A word, where there is one.
fn shown(word: Option<Word>) -> Shown {
    match word {
        Some(word) => Shown::Word(word),
        None => Shown::NoWord,
    }
}

/// The word of a register.
fn register_at(registers: &[Word], number: u32) -> Option<Word> {
    registers.get(number as usize).copied()
}

/// An item of the queue whose count is in a register.
fn item_at(registers: &[Word], count: u32, number: u32) -> Option<Word> {
    if u128::from(number) < register_at(registers, count)?.value() {
        register_at(registers, count.saturating_add(1).saturating_add(number))
    } else {
        None
    }
}

/// What stands in the registers.
fn state_of(registers: &[Word], source: Source) -> Shown {
    match source {
        Source::Register(number) => shown(register_at(registers, number)),
        Source::Item(count, number) => shown(item_at(registers, count, number)),
        _ => Shown::NoWord,
    }
}

/// An argument of a method that is asked.
fn argument_of(requests: &Requests, method: u32, place: u32) -> Option<Word> {
    if *requests.asked.get(method as usize)? {
        let words = requests.args.get(method as usize)?;
        words.get(place as usize).copied()
    } else {
        None
    }
}

/// What a clock tells.
fn event_of(happened: &Happened, requests: Option<&Requests>, source: Source) -> Shown {
    match source {
        Source::Argument(method, place) => match requests {
            Some(requests) => shown(argument_of(requests, method, place)),
            None => Shown::NoWord,
        },
        Source::Result(number) => shown(happened.event(number).result),
        Source::Fired(number) => Shown::Word(Word::bit(happened.event(number).fired)),
        Source::Stopped(number) => Shown::Word(Word::bit(happened.event(number).stopped)),
        Source::Blocked(number) => Shown::Word(Word::bit(happened.event(number).blocked)),
        Source::Register(_) | Source::Item(_, _) => Shown::NoWord,
    }
}

/// The signal that an entry is, where it is one.
fn signal_at(entries: &[Entry], place: usize) -> Option<Signal> {
    match entries.get(place) {
        Some(Entry::Signal(signal)) => Some(*signal),
        _ => None,
    }
}

/// Puts the signal of a place, where there is one and it changes as its word comes to show something else.
fn put_signal<O: Sink + Drop>(
    page: &mut Page<O>,
    tree: &Tree,
    entries: &[Entry],
    place: usize,
    before: &Shown,
    after: &Shown,
) {
    let Some(signal) = signal_at(entries, place) else {
        return;
    };
    let part = Part::of(after, signal);
    if part == Part::of(before, signal) {
        return;
    }
    put_part(page, tree, place, signal, part);
}

/// Puts what changes where a word comes to show this.
fn put_word<O: Sink + Drop>(
    page: &mut Page<O>,
    tree: &Tree,
    entries: &[Entry],
    slot: &Slot,
    after: &Shown,
) {
    for place in slot.start..slot.end {
        put_signal(page, tree, entries, place, &slot.shown, after);
    }
}

/// Notes what a word shows now, and puts what changes.
fn put_slot<O: Sink + Drop>(
    page: &mut Page<O>,
    tree: &Tree,
    entries: &[Entry],
    slot: &mut Slot,
    after: Shown,
    time: &mut Time,
) {
    if slot.shown != after {
        time.put(page);
        put_word(page, tree, entries, slot, &after);
        slot.shown = after;
    }
}

/// Puts what changes of the state.
fn put_states<O: Sink + Drop>(
    page: &mut Page<O>,
    tree: &Tree,
    listing: &mut Listing,
    registers: &[Word],
    time: &mut Time,
) {
    let entries = listing.entries.as_slice();
    for slot in listing.states.iter_mut() {
        let after = state_of(registers, slot.source);
        put_slot(page, tree, entries, slot, after, time);
    }
}

/// Puts what changes of what a clock tells, where this is asked.
fn put_events<O: Sink + Drop>(
    page: &mut Page<O>,
    tree: &Tree,
    listing: &mut Listing,
    happened: &Happened,
    requests: Option<&Requests>,
    time: &mut Time,
) {
    let entries = listing.entries.as_slice();
    for slot in listing.events.iter_mut() {
        let after = event_of(happened, requests, slot.source);
        put_slot(page, tree, entries, slot, after, time);
    }
}

/// The waves of a run, as far as they were put. Each call takes the tree whose signals they are.
#[derive(Drop)]
pub struct Waves {
    listing: Listing,
    happened: Happened,
    time: Time,
    /// Whether the first words are not all put yet.
    is_dumping: bool,
}

/// How many methods the top of a tree has.
fn methods_of(tree: &Tree) -> usize {
    match tree.typed.modules.get(tree.top as usize) {
        Some(module) => module.methods.len(),
        None => 0,
    }
}

impl Waves {
    /// Nothing was put yet of the signals of a tree with so many elements, whose registers have these words at the start.
    pub fn new(
        alloc: Global,
        tree: &Tree,
        elements: usize,
        registers: &[Word],
    ) -> Result<Waves, OutOfMemory> {
        let listing = signals_of(alloc, tree, registers)?;
        let happened = Happened::new(alloc, elements, methods_of(tree))?;
        Ok(Waves {
            listing,
            happened,
            time: Time {
                now: 0,
                is_put: false,
            },
            is_dumping: true,
        })
    }

    /// Puts the declarations, and the state before the first clock.
    pub fn put_start<O: Sink + Drop>(
        &mut self,
        tree: &Tree,
        registers: &[Word],
        page: &mut Page<O>,
    ) {
        put_header(page, tree, self.listing.entries.as_slice());
        self.time.put(page);
        page.text(b"$dumpvars\n");
        put_states(page, tree, &mut self.listing, registers, &mut self.time);
    }

    /// The first words are all put.
    fn end_dump<O: Sink + Drop>(&mut self, page: &mut Page<O>) {
        if self.is_dumping {
            page.text(b"$end\n");
            self.is_dumping = false;
        }
    }

    /// Puts a clock: what is asked and what happened, and the state after it.
    pub fn put_clock<O: Sink + Drop>(
        &mut self,
        tree: &Tree,
        requests: &Requests,
        fired: &Fired,
        registers: &[Word],
        page: &mut Page<O>,
    ) {
        self.happened.note(fired);
        let asked = Some(requests);
        let time = &mut self.time;
        put_events(page, tree, &mut self.listing, &self.happened, asked, time);
        self.end_dump(page);
        self.time.advance();
        put_states(page, tree, &mut self.listing, registers, &mut self.time);
    }

    /// Puts that there is no further clock. The last state stands as long as a clock.
    pub fn put_end<O: Sink + Drop>(&mut self, tree: &Tree, page: &mut Page<O>) {
        self.happened.clear();
        let time = &mut self.time;
        put_events(page, tree, &mut self.listing, &self.happened, None, time);
        self.end_dump(page);
        self.time.advance();
        self.time.put(page);
    }
}
