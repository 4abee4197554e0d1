use crate::text::{Extent, Source, Text};
use bsv_bits::OutOfMemory;
use std::alloc::Global;

/// Where a module stands: the number of its source, the source, and its tokens from its name to its end.
#[derive(Clone, Copy)]
pub struct ModulePlace<'a> {
    pub number: usize,
    pub text: Text<'a>,
    pub extent: Extent,
}

/// The tokens of the module of a name, from its name on.
fn module_at(text: Text, name: &[u8]) -> Option<Extent> {
    for at in 1..text.tokens.len() {
        if text.is(at, name) && text.is(at.wrapping_sub(1), b"module") {
            let to = text.tokens.len();
            let to = text.find(Extent { from: at, to }, b"endmodule");
            return Some(Extent { from: at, to });
        }
    }
    None
}

/// Where the module of a name stands.
pub fn module_in<'a>(sources: &'a [Source<'_>], name: &[u8]) -> Option<ModulePlace<'a>> {
    for (number, source) in sources.iter().enumerate() {
        let text = source.text();
        if let Some(extent) = module_at(text, name) {
            return Some(ModulePlace {
                number,
                text,
                extent,
            });
        }
    }
    None
}

/// What a token adds to how deep what comes after it is.
pub(crate) fn deeper(word: &[u8]) -> i64 {
    match word {
        b"(" | b"[" | b"{" | b"(*" | b"begin" | b"case" => 1,
        b")" | b"]" | b"}" | b"*)" | b"end" | b"endcase" => -1,
        _ => 0,
    }
}

/// The first token with the end of a head after it, a `;` or a `=` outside of brackets.
fn head_end(text: Text, extent: Extent) -> usize {
    let mut depth = 0i64;
    for at in extent.from..extent.to {
        depth = depth.wrapping_add(deeper(text.word(at)));
        if depth == 0 && matches!(text.word(at), b";" | b"=") {
            return at;
        }
    }
    extent.to
}

/// The statements of the rule or the method that begins at a place, if one does; of a method with a value what comes up to
/// its `;`.
pub(crate) fn body_at(text: Text, at: usize, to: usize) -> Option<Extent> {
    let end: &[u8] = match text.word(at) {
        b"rule" => b"endrule",
        b"method" => b"endmethod",
        _ => return None,
    };
    let head = head_end(text, Extent { from: at, to });
    let from = head.wrapping_add(1);
    let end: &[u8] = if text.is(head, b"=") { b";" } else { end };
    Some(Extent {
        from,
        to: text.find(Extent { from, to }, end),
    })
}

/// The statements of each rule and method of a module, in the order of the text.
pub fn bodies_of(alloc: Global, place: ModulePlace) -> Result<Vec<Extent>, OutOfMemory> {
    let mut bodies = Vec::new(alloc);
    for at in place.extent.from..place.extent.to {
        if let Some(body) = body_at(place.text, at, place.extent.to) {
            bodies.push(body)?;
        }
    }
    Ok(bodies)
}

/// The statements of a body, one by one.
pub fn statements_of(alloc: Global, text: Text, body: Extent) -> Result<Vec<Extent>, OutOfMemory> {
    let mut statements = Vec::new(alloc);
    let mut depth = 0i64;
    let mut from = body.from;
    for at in body.from..body.to {
        let to = at.wrapping_add(1);
        let word = text.word(at);
        depth = depth.wrapping_add(deeper(word));
        if depth == 0 && matches!(word, b";" | b"end" | b"endcase") && !text.is(to, b"else") {
            statements.push(Extent { from, to })?;
            from = to;
        }
    }
    Ok(statements)
}

/// Puts a blank in the place of each byte from the first place up to the second, but for line ends.
fn blank(bytes: &mut [u8], from: usize, to: usize) {
    for at in from..to {
        if let Some(byte) = bytes.get_mut(at) {
            if *byte != b'\n' {
                *byte = b' ';
            }
        }
    }
}

/// The bytes of a source with blanks in place of these tokens.
pub fn blanked(alloc: Global, text: Text, extents: &[Extent]) -> Result<Vec<u8>, OutOfMemory> {
    let mut bytes = Vec::from_slice(alloc, text.bytes)?;
    for extent in extents {
        blank(&mut bytes, text.start(extent.from), text.start(extent.to));
    }
    Ok(bytes)
}
