use crate::header::put_code;
use crate::signal::{Form, Shown, Signal};
use bsv_io::Sink;
use bsv_page::Page;
use bsv_tree::Tree;

/// What a signal shows.
#[derive(Clone, Copy, PartialEq, Eq)]
pub(crate) enum Part {
    Nothing,
    NoWord,
    Bits(u128),
}

/// So many bits of a number, with so many below them.
fn bits_of(number: u128, low: u32, width: u32) -> u128 {
    let shifted = if low < 128 { number >> low } else { 0 };
    if width < 128 {
        shifted & !(u128::MAX << width)
    } else {
        shifted
    }
}

impl Part {
    /// What a signal shows of a word.
    pub(crate) fn of(shown: &Shown, signal: Signal) -> Part {
        match shown {
            Shown::Nothing => Part::Nothing,
            Shown::NoWord => Part::NoWord,
            Shown::Word(word) => Part::Bits(bits_of(word.value(), signal.low, signal.width)),
        }
    }
}

/// Puts the binary digits of a number.
fn put_digits<O: Sink + Drop>(page: &mut Page<O>, number: u128) {
    let mut digits = [b'0'; 128];
    let mut rest = number;
    let mut front = 128usize;
    for digit in digits.iter_mut().rev() {
        if rest % 2 == 1 {
            *digit = b'1';
        }
        rest /= 2;
        front = front.saturating_sub(1);
        if rest == 0 {
            break;
        }
    }
    if let Some((_, shown)) = digits.split_at_checked(front) {
        page.text(shown);
    }
}

/// Puts the value of bits.
fn put_bits<O: Sink + Drop>(page: &mut Page<O>, part: Part, width: u32) {
    match part {
        Part::Bits(number) if width == 1 => {
            page.text(if number == 0 { b"0" } else { b"1" });
        }
        Part::Bits(number) => {
            page.text(b"b");
            put_digits(page, number);
            page.text(b" ");
        }
        Part::Nothing | Part::NoWord => page.text(if width == 1 {
            b"x".as_slice()
        } else {
            b"bx "
        }),
    }
}

/// The label of a number in the enum of a place: `?` where it is that of no label.
fn label_of(tree: &Tree, number: u32, place: u128) -> Option<&[u8]> {
    let definition = tree.typed.enums.get(number as usize)?;
    let place = usize::try_from(place).ok()?;
    Some(definition.labels.get(place)?.bytes())
}

/// Puts the label of bits: `-` where there are none, and `?` where they are that of no label.
fn put_label<O: Sink + Drop>(page: &mut Page<O>, tree: &Tree, number: u32, part: Part) {
    page.text(b"s");
    page.text(match part {
        Part::Bits(place) => label_of(tree, number, place).unwrap_or(b"?"),
        Part::Nothing | Part::NoWord => b"-",
    });
    page.text(b" ");
}

/// Puts what a signal shows, that of the entry of a place.
pub(crate) fn put_part<O: Sink + Drop>(
    page: &mut Page<O>,
    tree: &Tree,
    place: usize,
    signal: Signal,
    part: Part,
) {
    match signal.form {
        Form::Bits => put_bits(page, part, signal.width),
        Form::Label(number) => put_label(page, tree, number, part),
    }
    put_code(page, place);
    page.text(b"\n");
}
