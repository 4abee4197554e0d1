use crate::packages::show_package;
use crate::shown::Shown;
use anyhow::{Result, bail};
use bsv_lex::tokens;
use bsv_parse::package;
use std::alloc::Global;

/// What is printed of a tree.
#[derive(Clone, Copy)]
pub(crate) enum Form {
    Trees,
    Places,
}

/// Texts of a program have at most so many bytes.
const MAX_BYTES: usize = 1_048_576;

/// The tree of a source, or why it has none.
fn shown_of(alloc: Global, source: &[u8]) -> Result<Shown> {
    if source.len() > MAX_BYTES {
        bail!("a text has too many bytes");
    }
    let Ok(tokens) = tokens(alloc, source) else {
        bail!("a text is no tokens");
    };
    let Ok(found) = package(alloc, source, tokens.as_slice()) else {
        bail!("a text is no package");
    };
    let mut shown = Shown {
        text: Vec::new(alloc),
        spans: Vec::new(alloc),
    };
    show_package(&mut shown, &found)?;
    Ok(shown)
}

/// Prints each node of a tree, in the order of the text: what it is, the byte where it begins, and
/// the one after it.
fn print_places(rt: &impl Print, shown: &Shown) -> Result<()> {
    for (kind, span) in shown.spans.as_slice() {
        let start = span.start;
        let end = span.end;
        println!(rt; "{kind} {start} {end}")?;
    }
    Ok(())
}

/// Prints a text, and its tree below it.
fn print_tree(rt: &impl Print, text: &str, shown: &Shown) -> Result<()> {
    let tree = str::from_utf8(shown.text.as_slice()).unwrap_or(" bytes that are no text");
    println!(rt; "{text}\n   {tree}")?;
    Ok(())
}

/// Prints the texts of a file.
pub(crate) fn print_file<R: Print + AllocGlobal>(rt: &R, form: Form, file: &str) -> Result<()> {
    let mut texts = file.strip_suffix('\n').unwrap_or(file).split("\n--\n");
    let Some((front, back)) = texts.next().unwrap_or("").split_once('@') else {
        bail!("a file has no frame");
    };
    for text in texts {
        let source = format!(in rt.alloc(); "{front}{text}{back}")?;
        let shown = shown_of(rt.alloc(), source.as_bytes())?;
        match form {
            Form::Trees => print_tree(rt, text, &shown)?,
            Form::Places => print_places(rt, &shown)?,
        }
    }
    Ok(())
}
