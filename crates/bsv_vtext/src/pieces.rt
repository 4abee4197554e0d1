ghost use Rattle.std.specs.Prelude.{◌≡◌, ◌++◌};
ghost use Rattle.bsv_io.specs.Adding.{Adds};
ghost use Rattle.bsv_io.specs.Writing.{joined};
ghost use Rattle.bsv_vtext.specs.AtHand as hand;
ghost use Rattle.bsv_vtext.specs.VText as spec;

use bsv_io::{Failed, PutBuffer, Sink};
use itoa::Buffer;

/// Three texts that stand one after the other.
#[derive(Clone, Copy)]
pub(crate) struct Texts<'a> {
    pub front: &'a [u8],
    pub middle: &'a [u8],
    pub back: &'a [u8],
}

/// Adds texts one after the other.
pub(crate) fn add_all<S: Sink>(
    buffer: &mut PutBuffer,
    sink: &mut S,
    pieces: &[&[u8]],
) -> Result<(), Failed>
    ensures { Adds (joined pieces.now) result buffer.old buffer.new
        (S.writing sink.old) (S.writing sink.new) }
{
    buffer.add_all(sink, pieces)
}

/// Adds three texts.
pub(crate) fn add_texts<S: Sink>(
    buffer: &mut PutBuffer,
    sink: &mut S,
    texts: Texts,
) -> Result<(), Failed>
    ensures { Adds (hand.texts texts.entry) result buffer.old buffer.new
        (S.writing sink.old) (S.writing sink.new) }
{
    add_all(buffer, sink, &[texts.front, texts.middle, texts.back])
}

/// Adds the declaration of a signal of so many bits, as `  input [7:0] a;`.
pub(crate) fn add_declaration<S: Sink>(
    buffer: &mut PutBuffer,
    sink: &mut S,
    word: &[u8],
    width: u32,
    name: Texts,
) -> Result<(), Failed>
    ensures { Adds (spec.declaration word.now width (hand.texts name.entry)) result
        buffer.old buffer.new (S.writing sink.old) (S.writing sink.new) }
{
    let mut digits = Buffer::new();
    let last = digits.format(width.saturating_sub(1)).as_bytes();
    add_all(
        buffer,
        sink,
        &[
            word,
            b" [",
            last,
            b":0] ",
            name.front,
            name.middle,
            name.back,
            b";\n",
        ],
    )
}
