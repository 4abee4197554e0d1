use crate::lines::put_marked;
use crate::statements::module_in;
use crate::tables::{cut, fits_some, put_places};
use crate::text::{Source, Text, piece};
use crate::usual::LIMITS;
use bsv_ast::is_word;
use bsv_io::Sink;
use bsv_page::Page;

/// A name without the number that tells it from others of its name, as `step` of `step_1`.
fn base_of(name: &[u8]) -> &[u8] {
    for (at, byte) in name.iter().enumerate() {
        let digits = piece(name, at.wrapping_add(1), name.len());
        if *byte == b'_' && !digits.is_empty() && digits.iter().all(|b| b.is_ascii_digit()) {
            return piece(name, 0, at);
        }
    }
    name
}

/// What stands around a name that is given to a rule, an instance or a method.
const GIVEN: &[u8] = b"rule NAME\n_ NAME <-\n_ NAME [\n) NAME (\nTYPE NAME (";

/// Puts where a source gives a name to a rule, a method or an instance.
fn put_givers<O: Sink + Drop>(page: &mut Page<O>, text: Text, name: &[u8]) {
    let base = base_of(name);
    for at in 1..text.tokens.len() {
        let word = text.word(at);
        if (word == name || word == base) && fits_some(text, at.wrapping_sub(1), GIVEN) {
            put_marked(page, text, text.start(at));
        }
    }
}

/// The last name of a path.
fn last_of(path: &[u8]) -> &[u8] {
    let mut rest = path;
    for _ in 0..path.len() {
        let (_, after) = cut(rest, b'.');
        if after.is_empty() {
            return rest;
        }
        rest = after;
    }
    rest
}

/// Puts where the name of a path is given that is taken.
pub fn put_name_taken<O: Sink + Drop>(page: &mut Page<O>, sources: &[Source], path: &[u8]) {
    let name = last_of(path);
    page.texts(&[
        b"Of several of one name the k-th after the first gets the name, `_` and k. The name ",
        name,
    ]);
    page.text(b" is given here:\n");
    for source in sources {
        put_givers(page, source.text(), name);
    }
    page.text(b"- another name; best none that ends in `_` and a number\n");
}

/// Whether the text has the name as a whole word.
fn has_word(text: &[u8], name: &[u8]) -> bool {
    for at in 0..text.len() {
        let end = at.wrapping_add(name.len());
        let around = (text.get(at.wrapping_sub(1)), text.get(end));
        let is_whole = !matches!(around, (Some(b), _) if is_word(*b))
            && !matches!(around, (_, Some(b)) if is_word(*b));
        if is_whole && piece(text, at, end) == name {
            return true;
        }
    }
    false
}

/// Puts the attributes of a source that name the name, and the rules of its modules.
fn put_asked<O: Sink + Drop>(page: &mut Page<O>, text: Text, attribute: &[u8], name: &[u8]) {
    let mut module: &[u8] = b"";
    for at in 1..text.tokens.len() {
        if text.is(at.wrapping_sub(2), attribute) && has_word(text.word(at), name) {
            put_marked(page, text, text.start(at));
        }
        if text.is(at.wrapping_sub(1), b"module") {
            module = text.word(at);
        }
        if text.is(at.wrapping_sub(1), b"rule") {
            page.texts(&[b"  ", module, b" has the rule ", text.word(at), b"\n"]);
        }
    }
}

/// Puts where an attribute names what is no rule of its module.
pub fn put_no_rule<O: Sink + Drop>(
    page: &mut Page<O>,
    sources: &[Source],
    attribute: &[u8],
    name: &[u8],
) {
    for source in sources {
        put_asked(page, source.text(), attribute, name);
    }
    page.texts(&[
        b"- ",
        name,
        b" is no rule of this module instance: rules of other instances, methods, and rules in an arm that is not carried out are not named; the second rule r is r_1\n",
    ]);
}

/// Puts why no module of a name may be the top.
pub fn put_no_module<O: Sink + Drop>(page: &mut Page<O>, sources: &[Source], top: &[u8]) {
    match module_in(sources, top) {
        Some(place) => {
            page.texts(&[top, b" has parameters, and a top has none:\n"]);
            put_marked(page, place.text, place.text.start(place.extent.from));
            page.text(b"- wrap it: a module without parameters that makes it\n");
        }
        None => {
            page.text(
                b"- no file that is loaded has a module of this name: mind its case, or import its file. There are\n",
            );
            for source in sources {
                let text = source.text();
                put_places(page, text, text.whole(), b"module NAME");
            }
        }
    }
}

/// Puts what a table of limits has of what is counted.
fn put_limits<O: Sink + Drop>(page: &mut Page<O>, sources: &[Source], kind: &[u8], table: &[u8]) {
    let mut rest = table;
    for _ in 0..table.len() {
        let (line, after) = cut(rest, b'\n');
        let (word, more) = cut(line, b'|');
        let (words, cause) = cut(more, b'|');
        rest = after;
        if word == kind {
            put_counted(page, sources, words, cause);
        }
    }
}

/// Puts what passes a limit, and what in the sources may be its cause.
pub fn put_limit<O: Sink + Drop>(page: &mut Page<O>, sources: &[Source], kind: &[u8]) {
    put_limits(page, sources, kind, LIMITS);
}

/// Puts what passes a limit, and the places that have the words.
fn put_counted<O: Sink + Drop>(page: &mut Page<O>, sources: &[Source], words: &[u8], cause: &[u8]) {
    if !cause.is_empty() {
        page.texts(&[b"- ", cause, b"\n"]);
    }
    for source in sources {
        let text = source.text();
        if words != b"_".as_slice() {
            put_places(page, text, text.whole(), words);
        }
    }
}
