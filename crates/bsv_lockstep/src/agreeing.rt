use bsv_bits::Word;
use bsv_design::{Design, Element, Fired};
use bsv_net::{Net, NetNode};
use sqlite_items::at;

/// What became of an element in a clock.
#[derive(Clone, Copy)]
enum Fate {
    Fired,
    /// It was ready, and did not fire.
    Stopped,
    /// It was asked, and not ready.
    Blocked,
    /// It was a rule that was not ready, or a method that was not asked.
    Quiet,
}

/// What the serial engine tells of an element.
fn fate_of(fired: &Fired, number: usize) -> Fate {
    if fired.list.iter().any(|place| *place as usize == number) {
        return Fate::Fired;
    }
    if fired
        .stopped
        .iter()
        .any(|(place, _)| *place as usize == number)
    {
        return Fate::Stopped;
    }
    if fired.blocked.iter().any(|place| *place as usize == number) {
        return Fate::Blocked;
    }
    Fate::Quiet
}

/// The word of the node that is at a place of a list.
fn word_of(values: &[Word], nodes: &[u32], place: usize) -> Option<Word> {
    let node = at(nodes, place)?;
    at(values, *node as usize).copied()
}

/// Whether the node is 1 that is at a place of a list.
fn is_one(values: &[Word], nodes: &[u32], place: usize) -> bool {
    match word_of(values, nodes, place) {
        Some(word) => word.value() == 1,
        None => false,
    }
}

/// Whether an element of this fate fires, and is ready. A method that was not asked may be ready or not.
fn is_fate(fate: Fate, element: &Element, fires: bool, ready: bool) -> bool {
    match fate {
        Fate::Fired => fires && ready,
        Fate::Stopped => !fires && ready,
        Fate::Blocked => !fires && !ready,
        Fate::Quiet => !fires && !(ready && element.role.is_rule()),
    }
}

/// Whether the same elements fire, and the same ones are ready.
fn fates_agree(design: &Design, net: &Net, values: &[Word], fired: &Fired) -> bool {
    for (number, element) in design.elements.as_slice().iter().enumerate() {
        let fires = is_one(values, net.fires.as_slice(), number);
        let ready = is_one(values, net.readies.as_slice(), number);
        if !is_fate(fate_of(fired, number), element, fires, ready) {
            return false;
        }
    }
    true
}

/// Whether the methods that fire give the same.
fn results_agree(net: &Net, values: &[Word], fired: &Fired) -> bool {
    for (number, word) in fired.results.as_slice() {
        if word_of(values, net.results.as_slice(), *number as usize) != Some(*word) {
            return false;
        }
    }
    true
}

/// Whether the registers take over the words that show the state after the clock.
fn nexts_agree(net: &Net, values: &[Word], shown: &[Option<Word>]) -> bool {
    for (place, word) in shown.iter().enumerate() {
        if word.is_some() && word_of(values, net.nexts.as_slice(), place) != *word {
            return false;
        }
    }
    true
}

/// Whether a net whose nodes have these words tells what the serial engine did in a clock.
pub(crate) fn agrees(
    design: &Design,
    net: &Net,
    values: &[Word],
    fired: &Fired,
    shown: &[Option<Word>],
) -> bool {
    fates_agree(design, net, values, fired)
        && results_agree(net, values, fired)
        && nexts_agree(net, values, shown)
}

/// Whether registers hold the words that show a state.
fn registers_agree(registers: &[Word], shown: &[Option<Word>]) -> bool {
    for (place, word) in shown.iter().enumerate() {
        if word.is_some() && registers.get(place).copied() != *word {
            return false;
        }
    }
    true
}

/// Whether the simulator, whose registers hold these words, told in a clock what the serial engine did.
pub(crate) fn simulator_agrees(
    registers: &[Word],
    told: &Fired,
    fired: &Fired,
    shown: &[Option<Word>],
) -> bool {
    told.list == fired.list
        && told.stopped == fired.stopped
        && told.blocked == fired.blocked
        && told.results == fired.results
        && registers_agree(registers, shown)
}

/// Whether two nodes of a net are equal.
pub(crate) fn has_repeat(nodes: &[NetNode]) -> bool {
    let mut rest = nodes;
    while let Some((node, after)) = rest.split_first() {
        if after.contains(node) {
            return true;
        }
        rest = after;
    }
    false
}
