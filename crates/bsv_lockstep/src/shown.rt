use bsv_bits::{OutOfMemory, Word};
use bsv_design::{Design, Kind, State};
use bsv_prim::{Part, Primitive, Queue, RegisterInfo};
use std::alloc::Global;

/// The word of a register of a queue: how many items there are, and after that the items. A place without an item
/// has no word.
fn queue_word(queue: &Queue, number: u32, width: u32) -> Option<Word> {
    let count = queue.len();
    match number.checked_sub(1) {
        None => Word::new(width, u128::from(count)),
        Some(place) => {
            if place < count {
                Some(queue.item(place))
            } else {
                None
            }
        }
    }
}

/// The word of a register of a part. A wire has no register.
fn register_word(part: &Part, number: u32, width: u32) -> Option<Word> {
    match part {
        Part::Number(word) => Some(*word),
        Part::Held(_) => None,
        Part::Queue(queue) => queue_word(queue, number, width),
    }
}

/// Adds the words of the registers of a part.
fn push_words(words: &mut Vec<Option<Word>>, kind: &Kind, part: &Part) -> Result<(), OutOfMemory> {
    for number in 0..kind.registers() {
        let width = kind.register(number).width;
        words.push(register_word(part, number, width))?;
    }
    Ok(())
}

/// The words of all registers that show a state. A register that may hold any word has none.
pub(crate) fn shown(
    alloc: Global,
    design: &Design,
    state: &State,
) -> Result<Vec<Option<Word>>, OutOfMemory> {
    let mut words = Vec::new(alloc);
    for (number, named) in design.parts.as_slice().iter().enumerate() {
        if let Some(part) = state.parts.get(number) {
            push_words(&mut words, &named.kind, part)?;
        }
    }
    Ok(words)
}

/// The word of so many bits whose bits are all 1.
fn ones(width: u32) -> Word {
    match Word::new(width, 0) {
        Some(word) => word.not(),
        None => Word::bit(true),
    }
}

/// The words of registers, of which one that may hold any word holds the one whose bits are all 1.
pub(crate) fn filled(
    alloc: Global,
    registers: &[RegisterInfo],
    shown: &[Option<Word>],
) -> Result<Vec<Word>, OutOfMemory> {
    let mut words = Vec::new(alloc);
    for (register, word) in registers.iter().zip(shown) {
        words.push(word.unwrap_or(ones(register.width)))?;
    }
    Ok(words)
}
