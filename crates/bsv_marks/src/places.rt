use crate::lines::{byte_of, put_marked};
use crate::statements::deeper;
use crate::tables::{cut, fits_some, put_usual};
use crate::text::{Extent, Text, piece};
use crate::usual;
use bsv_io::Sink;
use bsv_page::Page;

/// The usual causes of a refusal of this number.
fn table_of(number: u32) -> &'static [u8] {
    match number {
        1 => usual::BYTE,
        2 => usual::COMMENT,
        3 => usual::LITERAL,
        4 => usual::LONG,
        5 => usual::SYNTAX,
        6 => usual::DEEP,
        7 => usual::UNKNOWN,
        8 => usual::TWICE,
        9 => usual::TYPES,
        10 => usual::WIDTHS,
        _ => usual::ATTRIBUTES,
    }
}

/// The tokens of the statement that begins at a byte, or at the next token, at most 200 of them.
fn statement_at(text: Text, byte: usize) -> Extent {
    let mut from = text.tokens.len();
    for (at, token) in text.tokens.iter().enumerate() {
        if token.start as usize >= byte {
            from = at;
            break;
        }
    }
    let to = from.saturating_add(200).min(text.tokens.len());
    Extent {
        from,
        to: text.find(Extent { from, to }, b";"),
    }
}

/// Puts what is usual of a byte that begins no token. The answer is whether there is something.
fn put_byte<O: Sink + Drop>(page: &mut Page<O>, byte: &[u8], table: &[u8]) -> bool {
    let mut rest = table;
    for _ in 0..table.len() {
        let (line, after) = cut(rest, b'\n');
        let (other, cause) = cut(line, b'|');
        if other == byte {
            page.texts(&[b"- ", cause, b"\n"]);
            return true;
        }
        rest = after;
    }
    false
}

/// What a name that is defined has after it.
const DEFINED: &[u8] =
    b"NAME <-\nNAME =\nNAME ;\nNAME ,\nNAME }\nNAME (\nNAME [\nTYPE ;\nTYPE ,\nTYPE }\nTYPE =";

/// The name that is defined from a place on, outside of brackets.
fn defined_at(text: Text, extent: Extent) -> usize {
    let mut depth = 0i64;
    for at in extent.from..extent.to {
        depth = depth.wrapping_add(deeper(text.word(at)));
        if depth == 0 && fits_some(text, at, DEFINED) {
            return at;
        }
    }
    extent.to.wrapping_sub(1)
}

/// Puts where a name that is defined again stands first.
fn put_first<O: Sink + Drop>(page: &mut Page<O>, text: Text, extent: Extent) {
    let at = defined_at(text, extent);
    let name = text.word(at);
    let first = text.find(Extent { from: 0, to: at }, name);
    if first < at {
        page.texts(&[b"The name ", name, b" stands in front of it already:\n"]);
        put_marked(page, text, text.start(first));
    }
}

/// The byte at a place, as a text.
fn byte_at(bytes: &[u8], at: usize) -> &[u8] {
    piece(bytes, at, at.saturating_add(1))
}

/// Puts the line of a place with a mark under it, and the usual causes of the refusal of this number, 1 to 11.
pub fn put_place<O: Sink + Drop>(
    page: &mut Page<O>,
    text: Text,
    number: u32,
    line: u64,
    column: u64,
) {
    let byte = byte_of(text.bytes, line, column);
    let extent = statement_at(text, byte);
    put_marked(page, text, byte);
    if number == 1 && put_byte(page, byte_at(text.bytes, byte), usual::BYTES) {
        return;
    }
    if number == 8 {
        put_first(page, text, extent);
    }
    put_usual(page, text, extent, table_of(number));
}
