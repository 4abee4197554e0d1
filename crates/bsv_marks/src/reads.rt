use crate::lines::put_marked;
use crate::makes::Make;
use crate::statements::{ModulePlace, body_at};
use crate::text::{Extent, Text};
use bsv_io::Sink;
use bsv_page::Page;

/// Whether an instance of the module has the name.
fn is_instance(makes: &[Make], module: &[u8], name: &[u8]) -> bool {
    for make in makes {
        if make.parent == module && make.name == name {
            return true;
        }
    }
    false
}

/// The place after the brackets that begin at a place, or the place itself where none do.
fn after_brackets(text: Text, from: usize) -> usize {
    let mut depth = 0i64;
    for at in from..text.tokens.len() {
        match text.word(at) {
            b"[" => depth = depth.wrapping_add(1),
            b"]" => depth = depth.wrapping_sub(1),
            _ => {
                if depth == 0 {
                    return at;
                }
            }
        }
    }
    text.tokens.len()
}

/// Whether the instance of which a name stands at a place is made or declared there, or handed on by its name.
fn is_only_named(text: Text, at: usize) -> bool {
    let before = at.wrapping_sub(1);
    let after = text.word(after_brackets(text, at.wrapping_add(1)));
    let is_made = matches!(after, b"<-" | b";") && !text.is(before, b"=");
    let is_argument = matches!(text.word(before), b"(" | b",") && matches!(after, b")" | b",");
    let taker = text.word(at.wrapping_sub(2));
    let takes_value = matches!(
        taker,
        b"mkReg" | b"mkDWire" | b"mkSizedFIFO" | b"mkSizedFIFOF" | b"if"
    );
    is_made || is_argument && !takes_value
}

/// Puts the reads and calls of instances in the body of a module, outside of its rules and methods. The answer is whether
/// there are some.
pub fn put_reads<O: Sink + Drop>(page: &mut Page<O>, place: ModulePlace, makes: &[Make]) -> bool {
    let text = place.text;
    let Extent { from, to } = place.extent;
    let mut some = false;
    let mut free = text.find(place.extent, b";");
    for at in from..to {
        if let Some(body) = body_at(text, at, to) {
            free = body.to.max(free);
        }
        let named = at >= free && is_instance(makes, text.word(from), text.word(at));
        if named && !is_only_named(text, at) {
            page.text(
                b"- in the module's body, which is carried out before any clock, this reads or calls an instance:\n",
            );
            put_marked(page, text, text.start(at));
            some = true;
        }
    }
    some
}
