use crate::text::{Text, piece};
use bsv_io::Sink;
use bsv_page::Page;

/// How many bytes of a line are shown at most on each side of the mark.
const SHOWN: usize = 160;

/// The byte that a line and a column are, counted from 1; the end where there is none.
pub(crate) fn byte_of(bytes: &[u8], line: u64, column: u64) -> usize {
    let mut at_line = 1u64;
    let mut at_column = 1u64;
    for (at, byte) in bytes.iter().enumerate() {
        if at_line == line && at_column == column {
            return at;
        }
        at_column = at_column.wrapping_add(1);
        if *byte == b'\n' {
            at_line = at_line.wrapping_add(1);
            at_column = 1;
        }
    }
    bytes.len()
}

/// The line of a byte, counted from 1, and where it begins.
pub(crate) fn line_of(bytes: &[u8], at: usize) -> (u64, usize) {
    let mut line = 1u64;
    let mut start = 0;
    for (place, byte) in piece(bytes, 0, at).iter().enumerate() {
        if *byte == b'\n' {
            line = line.wrapping_add(1);
            start = place.wrapping_add(1);
        }
    }
    (line, start)
}

/// How many bytes come before the end of a line.
fn line_len(bytes: &[u8]) -> usize {
    for (place, byte) in bytes.iter().enumerate() {
        if *byte == b'\n' || *byte == b'\r' {
            return place;
        }
    }
    bytes.len()
}

/// What stands under a text, so that what comes next is under what comes next: blanks, and its tabs.
fn put_under<O: Sink + Drop>(page: &mut Page<O>, text: &[u8]) {
    for byte in text {
        match *byte {
            b'\t' => page.text(b"\t"),
            0x80..=0xbf => {}
            _ => page.text(b" "),
        }
    }
}

/// The line of a byte of a source, with its number, and a mark under the byte.
pub fn put_marked<O: Sink + Drop>(page: &mut Page<O>, text: Text, at: usize) {
    let bytes = text.bytes;
    let (line, start) = line_of(bytes, at);
    let front = piece(bytes, start.max(at.saturating_sub(SHOWN)), at);
    let after = piece(bytes, at, at.saturating_add(SHOWN));
    page.texts(&[text.file, b", line "]);
    page.number(line);
    page.texts(&[b":\n  ", front, piece(after, 0, line_len(after)), b"\n  "]);
    put_under(page, front);
    page.text(b"^\n");
}
