use anyhow::{Result, bail};
use std::alloc::Global;

/// A design with a trace.
#[derive(Drop)]
pub(crate) struct Case {
    /// The name of the top module.
    pub(crate) top: String,
    /// The lines of the trace.
    pub(crate) trace: String,
    /// The names and the texts of the files, from the first one on.
    pub(crate) files: Vec<(String, String)>,
}

/// The name and the text of a file, which come after each other in these lines.
fn file_of(alloc: Global, lines: &str) -> Result<(String, String)> {
    let Some((name, text)) = lines.split_once('\n') else {
        bail!("a file has no text");
    };
    let name = String::from_str(alloc, name)?;
    let text = String::from_str(alloc, text)?;
    Ok((name, text))
}

/// The case of a text. Its pieces are between lines `--`: the top, the trace, and the files.
pub(crate) fn case_of(alloc: Global, text: &str) -> Result<Case> {
    let mut pieces = text.split("\n--\n");
    let top = String::from_str(alloc, pieces.next().unwrap_or(""))?;
    let Some(trace) = pieces.next() else {
        bail!("a case has no trace");
    };
    let trace = String::from_str(alloc, trace)?;
    let mut files = Vec::new(alloc);
    for lines in pieces {
        files.push(file_of(alloc, lines)?)?;
    }
    Ok(Case { top, trace, files })
}
