ghost use Rattle.std.specs.Prelude.{◌≡◌, ◌++◌, codes};
ghost use Rattle.bsv_io.specs.Adding.{Adds};
ghost use Rattle.bsv_trace.specs.Texts as texts;

use bsv_design::Element;
use bsv_io::{Failed, PutBuffer, Sink, add};

/// The name of the element at a place; nothing where there is none.
pub(crate) fn name_at(elements: &[Element], place: u32) -> &[u8]
    ensures { result.now ≡ texts.name_at elements.now place }
{
    match elements.get(place as usize) {
        Some(element) => element.name.bytes(),
        None => b"",
    }
}

/// Adds a text, and the name of the element at a place.
pub(crate) fn add_name<S: Sink>(
    buffer: &mut PutBuffer,
    sink: &mut S,
    elements: &[Element],
    before: &[u8],
    place: u32,
) -> Result<(), Failed>
    ensures { Adds (before.now ++ texts.name_at elements.now place) result buffer.old buffer.new
        (S.writing sink.old) (S.writing sink.new) }
{
    add(buffer, sink, before)?;
    add(buffer, sink, name_at(elements, place))
}

/// Adds the names of elements, each after a blank.
pub(crate) fn add_names<S: Sink>(
    buffer: &mut PutBuffer,
    sink: &mut S,
    elements: &[Element],
    places: &[u32],
) -> Result<(), Failed>
    ensures { Adds (texts.names (texts.name_at elements.now) places.now) result
        buffer.old buffer.new (S.writing sink.old) (S.writing sink.new) }
{
    let mut left = places;
    while let Some((place, others)) = left.split_first() {
        add_name(buffer, sink, elements, b" ", *place)?;
        left = others;
    }
    Ok(())
}

/// Adds a line of a word and of names, each after a blank.
pub(crate) fn add_list<S: Sink>(
    buffer: &mut PutBuffer,
    sink: &mut S,
    elements: &[Element],
    head: &[u8],
    places: &[u32],
) -> Result<(), Failed>
    ensures { Adds (texts.list_line head.now (texts.name_at elements.now) places.now) result
        buffer.old buffer.new (S.writing sink.old) (S.writing sink.new) }
{
    add(buffer, sink, head)?;
    add_names(buffer, sink, elements, places)?;
    add(buffer, sink, b"\n")
}
