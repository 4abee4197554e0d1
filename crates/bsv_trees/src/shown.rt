use bsv_ast::{Ident, Items, Span};
use std::alloc::AllocError;

/// A tree as a text without places; and the place of each of its nodes, with what it is, in the
/// order of the text.
#[derive(Drop)]
pub(crate) struct Shown {
    pub(crate) text: Vec<u8>,
    pub(crate) spans: Vec<(&'static str, Span)>,
}

/// No tree of a text is deeper: where one was, a question mark would stand.
pub(crate) const FUEL: usize = 100;

pub(crate) fn put(shown: &mut Shown, text: &[u8]) -> Result<(), AllocError> {
    shown.text.extend_from_slice(text)
}

/// Says that a node is in this place.
pub(crate) fn note(shown: &mut Shown, kind: &'static str, span: Span) -> Result<(), AllocError> {
    shown.spans.push((kind, span))?;
    Ok(())
}

/// Begins a node: a blank, a bracket and what it is.
pub(crate) fn open(shown: &mut Shown, kind: &'static str, span: Span) -> Result<(), AllocError> {
    note(shown, kind, span)?;
    put(shown, b" (")?;
    put(shown, kind.as_bytes())
}

pub(crate) fn close(shown: &mut Shown) -> Result<(), AllocError> {
    put(shown, b")")
}

pub(crate) fn show_name(shown: &mut Shown, name: &Ident) -> Result<(), AllocError> {
    note(shown, "name", name.span)?;
    put(shown, b" ")?;
    put(shown, name.name.bytes())
}

pub(crate) fn show_names(shown: &mut Shown, names: &Items<Ident>) -> Result<(), AllocError> {
    put(shown, b" (of")?;
    for name in names.as_slice() {
        show_name(shown, name)?;
    }
    close(shown)
}
