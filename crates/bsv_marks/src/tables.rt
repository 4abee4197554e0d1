use crate::lines::put_marked;
use crate::text::{Extent, Text, piece};
use bsv_io::Sink;
use bsv_page::Page;

/// How many places are shown at most of each line of a table.
const SHOWN: u32 = 6;

/// What comes before the first such byte, and what comes after it.
pub(crate) fn cut(text: &[u8], byte: u8) -> (&[u8], &[u8]) {
    for (at, other) in text.iter().enumerate() {
        if *other == byte {
            return (
                piece(text, 0, at),
                piece(text, at.wrapping_add(1), text.len()),
            );
        }
    }
    (text, b"")
}

/// Whether the token at a place is as a word of a table says: any (`_`), the token itself, or its class.
fn fits_word(text: Text, at: usize, word: &[u8]) -> bool {
    match word {
        b"_" => true,
        b"END" => text.word(at).starts_with(b"end"),
        _ => word == text.word(at) || word == text.class(at),
    }
}

/// Whether the tokens from a place on are as the words say.
pub(crate) fn fits(text: Text, at: usize, words: &[u8]) -> bool {
    let mut rest = words;
    for place in 0..words.len() {
        if rest.is_empty() {
            return true;
        }
        let (word, after) = cut(rest, b' ');
        if !fits_word(text, at.wrapping_add(place), word) {
            return false;
        }
        rest = after;
    }
    true
}

/// Whether the tokens from a place on are as a line says.
pub(crate) fn fits_some(text: Text, at: usize, lines: &[u8]) -> bool {
    let mut rest = lines;
    for _ in 0..lines.len() {
        let (line, after) = cut(rest, b'\n');
        if !line.is_empty() && fits(text, at, line) {
            return true;
        }
        rest = after;
    }
    false
}

/// The first of some tokens from which on they are as the words say.
pub(crate) fn first_fit(text: Text, extent: Extent, words: &[u8]) -> Option<usize> {
    for at in extent.from..extent.to {
        if fits(text, at, words) {
            return Some(at);
        }
    }
    None
}

/// Whether a line of a table holds of some tokens: its words in front of its first token and at it (`<`), from it on
/// (`>`), or somewhere (`*`).
fn holds(text: Text, extent: Extent, mode: u8, words: &[u8]) -> bool {
    match mode {
        b'<' => fits(text, extent.from.wrapping_sub(2), words),
        b'>' => fits(text, extent.from, words),
        _ => first_fit(text, extent, words).is_some(),
    }
}

/// Puts the usual causes of a table: of each of its ways to look the first line that holds, or else its last line.
pub(crate) fn put_usual<O: Sink + Drop>(
    page: &mut Page<O>,
    text: Text,
    extent: Extent,
    table: &[u8],
) {
    let mut said = 0u8;
    let mut rest = table;
    for _ in 0..table.len() {
        let (line, after) = cut(rest, b'\n');
        let (words, cause) = cut(line, b'|');
        rest = after;
        let [mode, _, words @ ..] = words else {
            return;
        };
        let (told, tells) = match *mode {
            b'-' => (words, said == 0),
            b'?' => (cause, said == 0 && holds(text, extent, *mode, words)),
            _ => (cause, said != *mode && holds(text, extent, *mode, words)),
        };
        if tells {
            page.texts(&[b"- ", told, b"\n"]);
            said = *mode;
        }
    }
}

/// Puts the first places among some tokens that are as the words say.
pub(crate) fn put_places<O: Sink + Drop>(
    page: &mut Page<O>,
    text: Text,
    extent: Extent,
    words: &[u8],
) {
    let mut shown = 0u32;
    for at in extent.from..extent.to {
        if shown < SHOWN && fits(text, at, words) {
            put_marked(page, text, text.start(at));
            shown = shown.wrapping_add(1);
        }
    }
}

/// Puts what among some tokens may be the cause, a line of the table after the other: the cause, and the places.
pub fn put_suspects<O: Sink + Drop>(page: &mut Page<O>, text: Text, extent: Extent, table: &[u8]) {
    let mut rest = table;
    for _ in 0..table.len() {
        let (line, after) = cut(rest, b'\n');
        let (words, cause) = cut(line, b'|');
        rest = after;
        if !words.is_empty() && first_fit(text, extent, words).is_some() {
            page.texts(&[b"- ", cause, b"\n"]);
            put_places(page, text, extent, words);
        }
    }
}
