use bsv_bits::{Name, OutOfMemory};
use bsv_flow::{CompileFault, Refusal};
use bsv_io::{Files, Sink};
use bsv_marks::{Source, put_place, read_source};
use bsv_page::Page;
use std::alloc::Global;

/// A refusal with a place: its number, the file, the line and the column.
#[derive(Clone, Copy)]
pub(crate) struct Placed<'a> {
    number: u32,
    file: &'a Name,
    line: u64,
    column: u64,
}

fn at_place(number: u32, file: &Name, line: u64, column: u64) -> Option<Placed<'_>> {
    Some(Placed {
        number,
        file,
        line,
        column,
    })
}

/// The place of a refusal of the text, if it is one.
fn of_text(refusal: &Refusal) -> Option<Placed<'_>> {
    match refusal {
        Refusal::BadByte(file, line, column) => at_place(1, file, *line, *column),
        Refusal::OpenComment(file, line, column) => { at_place(2, file, *line, *column) }
        Refusal::BadLiteral(file, line, column) => { at_place(3, file, *line, *column) }
        Refusal::TooLong(file, line, column) => at_place(4, file, *line, *column),
        Refusal::Syntax(file, line, column) => at_place(5, file, *line, *column),
        Refusal::TooDeep(file, line, column) => at_place(6, file, *line, *column),
        _ => None,
    }
}

/// The place of a refusal of names and types, if it is one.
fn of_types(refusal: &Refusal) -> Option<Placed<'_>> {
    match refusal {
        Refusal::UnknownName(file, line, column) => { at_place(7, file, *line, *column) }
        Refusal::TwiceDefined(file, line, column) => { at_place(8, file, *line, *column) }
        Refusal::TypeFault(file, line, column) => { at_place(9, file, *line, *column) }
        Refusal::WidthFault(file, line, column) => { at_place(10, file, *line, *column) }
        Refusal::BadAttribute(file, line, column) => { at_place(11, file, *line, *column) }
        _ => None,
    }
}

/// The place of a refusal, where it has one.
pub(crate) fn place_of(refusal: &Refusal) -> Option<Placed<'_>> {
    match of_text(refusal) {
        Some(placed) => Some(placed),
        None => of_types(refusal),
    }
}

/// Tells of a place in a source.
fn put_source<O: Sink + Drop>(
    alloc: Global,
    page: &mut Page<O>,
    bytes: &[u8],
    placed: Placed,
) -> Result<(), OutOfMemory> {
    let source = Source::new(alloc, placed.file.bytes(), bytes)?;
    put_place(
        page,
        source.text(),
        placed.number,
        placed.line,
        placed.column,
    );
    Ok(())
}

/// Tells the cause of a refusal of 1 to 11.
pub(crate) fn put_place_cause<F: Files, O: Sink + Drop>(
    alloc: Global,
    files: &mut F,
    placed: Placed,
    page: &mut Page<O>,
) -> Result<(), CompileFault> {
    let bytes = read_source(alloc, files, placed.file.bytes())?;
    put_source(alloc, page, bytes.as_slice(), placed)?;
    Ok(())
}
