use bsv_bits::{OutOfMemory, Word};
use bsv_design::{Design, Element, Port, Requests};
use sqlite_items::at;
use std::alloc::Global;

/// The word of an argument that nothing gives: of a method that acts its bits are all 1 in each second clock, since
/// whoever drives it may change it while the method is not asked; else it is 0.
fn idle(method: &Element, port: &Port, clock: u64) -> Word {
    let Some(zero) = Word::new(port.width, 0) else {
        return Word::bit(false);
    };
    if !method.role.is_value() && clock % 2 == 1 {
        zero.not()
    } else {
        zero
    }
}

/// Adds the arguments of a method, and whether it is asked.
fn push_inputs(
    words: &mut Vec<Word>,
    method: &Element,
    asked: bool,
    given: &[Word],
    clock: u64,
) -> Result<(), OutOfMemory> {
    for (place, port) in method.arguments.as_slice().iter().enumerate() {
        words.push(
            at(given, place)
                .copied()
                .unwrap_or(idle(method, port, clock)),
        )?;
    }
    words.push(Word::bit(asked))?;
    Ok(())
}

/// The arguments that are given to a method, if it is asked.
fn given_to(requests: &Requests, number: usize, asked: bool) -> &[Word] {
    if !asked {
        return &[];
    }
    match requests.args.get(number) {
        Some(given) => given.as_slice(),
        None => &[],
    }
}

/// The words of all inputs in a clock, counted from 1: of each method of the top its arguments, and whether it is asked.
pub(crate) fn inputs(
    alloc: Global,
    design: &Design,
    requests: &Requests,
    clock: u64,
) -> Result<Vec<Word>, OutOfMemory> {
    let mut words = Vec::new(alloc);
    for (number, asked) in requests.asked.as_slice().iter().enumerate() {
        if let Some(method) = at(design.elements.as_slice(), number) {
            let given = given_to(requests, number, *asked);
            push_inputs(&mut words, method, *asked, given, clock)?;
        }
    }
    Ok(words)
}
