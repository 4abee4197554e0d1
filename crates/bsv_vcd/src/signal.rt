use bsv_bits::{OutOfMemory, Word};
use std::alloc::Global;

/// The name of a signal or of a scope, by where it stands in the tree.
#[derive(Clone, Copy)]
pub(crate) enum Title {
    /// The top, by the place of its module.
    Top(u32),
    /// An instance, by its place in the tree.
    Instance(u32),
    /// A rule, by the place of its instance in the tree and its own there.
    Rule(u32, u32),
    /// A method of the module of a place.
    Method(u32, u32),
    /// An argument of a method: the place of the module, that of the method, and its own.
    Argument(u32, u32, u32),
    /// A field, by the place of its struct and its own.
    Field(u32, u32),
    Fired,
    Stopped,
    Blocked,
    Result,
    Count,
    /// A place of a queue, from its front.
    Item(u32),
    Valid,
    Value,
}

/// What a scope holds.
#[derive(Clone, Copy)]
pub(crate) enum Scope {
    /// An instance of a module.
    Module,
    /// A rule or a method.
    Element,
    /// The parts of a value, or of a queue.
    Parts,
}

/// How bits are shown.
#[derive(Clone, Copy)]
pub(crate) enum Form {
    Bits,
    /// As the label that they number, of the enum of a place.
    Label(u32),
}

/// Some bits of a word, which are shown as a signal.
#[derive(Clone, Copy)]
pub(crate) struct Signal {
    pub(crate) title: Title,
    /// How many bits of the word are below them.
    pub(crate) low: u32,
    pub(crate) width: u32,
    pub(crate) form: Form,
}

/// A line of the declarations.
#[derive(Clone, Copy)]
pub(crate) enum Entry {
    Open(Scope, Title),
    Signal(Signal),
    /// The innermost scope ends.
    Close,
}

/// Where a word comes from. Registers are numbered as the simulator has them, elements by their positions.
#[derive(Clone, Copy)]
pub(crate) enum Source {
    Register(u32),
    /// An item of a queue: the register of its count, and the place of the item from the front.
    Item(u32, u32),
    /// A method, and the place of the argument.
    Argument(u32, u32),
    Result(u32),
    Fired(u32),
    Stopped(u32),
    Blocked(u32),
}

/// What a place shows.
#[derive(Clone, Copy, PartialEq, Eq)]
pub(crate) enum Shown {
    /// Nothing was put yet.
    Nothing,
    /// There is no word: an item that is not in the queue, an argument that is not asked for.
    NoWord,
    Word(Word),
}

/// A word that is shown by signals: those among the entries from `start` up to `end`.
#[derive(Clone, Copy)]
pub(crate) struct Slot {
    pub(crate) source: Source,
    pub(crate) start: usize,
    pub(crate) end: usize,
    /// What was put last.
    pub(crate) shown: Shown,
}

/// The signals of a design: the lines of their declarations, and the words that they show.
#[derive(Drop)]
pub(crate) struct Listing {
    pub(crate) entries: Vec<Entry>,
    /// Words that stand between two clocks.
    pub(crate) states: Vec<Slot>,
    /// Words that tell of a clock.
    pub(crate) events: Vec<Slot>,
}

impl Listing {
    /// No signal yet.
    pub(crate) fn new(alloc: Global) -> Listing {
        Listing {
            entries: Vec::new(alloc),
            states: Vec::new(alloc),
            events: Vec::new(alloc),
        }
    }

    /// Adds a line of the declarations.
    fn add(&mut self, entry: Entry) -> Result<(), OutOfMemory> {
        self.entries.push(entry)?;
        Ok(())
    }

    /// Opens a scope.
    pub(crate) fn open(&mut self, scope: Scope, title: Title) -> Result<(), OutOfMemory> {
        self.add(Entry::Open(scope, title))
    }

    /// Closes the innermost scope.
    pub(crate) fn close(&mut self) -> Result<(), OutOfMemory> {
        self.add(Entry::Close)
    }

    /// Adds a signal.
    pub(crate) fn signal(&mut self, signal: Signal) -> Result<(), OutOfMemory> {
        self.add(Entry::Signal(signal))
    }

    /// Adds a word that is shown by the signals from a place on.
    pub(crate) fn slot(&mut self, source: Source, start: usize) -> Result<(), OutOfMemory> {
        let slot = Slot {
            source,
            start,
            end: self.entries.len(),
            shown: Shown::Nothing,
        };
        match source {
            Source::Register(_) | Source::Item(_, _) => self.states.push(slot)?,
            _ => self.events.push(slot)?,
        }
        Ok(())
    }
}
