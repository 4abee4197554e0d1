use crate::signal::{Entry, Form, Scope, Signal, Title};
use crate::titles::put_title;
use bsv_io::Sink;
use bsv_page::Page;
use bsv_tree::Tree;

/// What stands before the declarations.
const HEAD: &[u8] = b"$comment
  What happens in clock N stands from time 10 * (N - 1), and the state after it from time 10 * N.
  A word is x where there is none: a place of a queue after its items, an argument that is not asked for,
  the result of a method that did not fire. A rule is blocked where it neither fired nor was stopped.
$end
$version bsvview $end
$timescale 1ns $end
";

/// The first byte of an identifier code, and how many there are.
const FIRST: u8 = b'!';

const CODES: usize = 94;

/// Puts the identifier code of an entry, by its place.
pub(crate) fn put_code<O: Sink + Drop>(page: &mut Page<O>, place: usize) {
    let mut rest = place;
    for _digit in 0..16 {
        page.text(&[FIRST + (rest % CODES) as u8]);
        rest /= CODES;
        if rest == 0 {
            return;
        }
    }
}

/// Puts the line that opens a scope.
fn put_scope<O: Sink + Drop>(page: &mut Page<O>, tree: &Tree, scope: Scope, title: Title) {
    page.text(match scope {
        Scope::Module => b"$scope module ".as_slice(),
        Scope::Element => b"$scope task ".as_slice(),
        Scope::Parts => b"$scope begin ".as_slice(),
    });
    put_title(page, tree, title);
    page.text(b" $end\n");
}

/// Puts the bounds of a word that has more bits than one.
fn put_bounds<O: Sink + Drop>(page: &mut Page<O>, width: u32) {
    if width > 1 {
        page.text(b" [");
        page.number(u64::from(width - 1));
        page.text(b":0]");
    }
}

/// Puts the declaration of bits.
fn put_bits_line<O: Sink + Drop>(page: &mut Page<O>, tree: &Tree, place: usize, signal: Signal) {
    page.text(b"$var wire ");
    page.number(u64::from(signal.width));
    page.text(b" ");
    put_code(page, place);
    page.text(b" ");
    put_title(page, tree, signal.title);
    put_bounds(page, signal.width);
    page.text(b" $end\n");
}

/// Puts the declaration of a label.
fn put_label_line<O: Sink + Drop>(page: &mut Page<O>, tree: &Tree, place: usize, title: Title) {
    page.text(b"$var string 1 ");
    put_code(page, place);
    page.text(b" ");
    put_title(page, tree, title);
    page.text(b"$label $end\n");
}

/// Puts a line of the declarations, that of the entry of a place.
fn put_entry<O: Sink + Drop>(page: &mut Page<O>, tree: &Tree, place: usize, entry: Entry) {
    match entry {
        Entry::Open(scope, title) => put_scope(page, tree, scope, title),
        Entry::Close => page.text(b"$upscope $end\n"),
        Entry::Signal(signal) => match signal.form {
            Form::Bits => put_bits_line(page, tree, place, signal),
            Form::Label(_) => put_label_line(page, tree, place, signal.title),
        },
    }
}

/// Puts all that stands before the changes.
pub(crate) fn put_header<O: Sink + Drop>(page: &mut Page<O>, tree: &Tree, entries: &[Entry]) {
    page.text(HEAD);
    for (place, entry) in entries.iter().enumerate() {
        put_entry(page, tree, place, *entry);
    }
    page.text(b"$enddefinitions $end\n");
}
