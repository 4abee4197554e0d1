ghost use Rattle.std.specs.Prelude.{◌≡◌, ◌++◌, if◌then◌else◌, [], codes};
ghost use Rattle.bsv_bits.specs.Constants.{constant_text};
ghost use Rattle.bsv_io.specs.Adding.{Adds};
ghost use Rattle.bsv_trace.specs.Texts as texts;

use bsv_bits::Word;
use bsv_design::{Kind, NamedPart};
use bsv_io::{Failed, PutBuffer, Sink, add, add_constant};
use bsv_prim::{Part, Queue};

/// Whether the state of an instance of the kind has a line: registers and queues have one, wires have none.
pub(crate) fn has_line(kind: Kind) -> bool
    ensures { result ≡ texts.has_line kind }
{
    match kind {
        Kind::Reg(_) | Kind::RegU(_) | Kind::Plain(_) | Kind::Pipeline(_) | Kind::Bypass(_) => true,
        Kind::Wire(_) | Kind::DWire(_) | Kind::RWire(_) | Kind::Pulse(_) => false,
    }
}

/// Adds a blank and a word.
fn add_next_word<S: Sink>(buffer: &mut PutBuffer, sink: &mut S, word: Word) -> Result<(), Failed>
    ensures { Adds (codes " " ++ constant_text word) result buffer.old buffer.new
        (S.writing sink.old) (S.writing sink.new) }
{
    add(buffer, sink, b" ")?;
    add_constant(buffer, sink, word)
}

/// Adds a word of a queue, with a blank before it where others come before it.
pub(crate) fn add_word<S: Sink>(
    buffer: &mut PutBuffer,
    sink: &mut S,
    number: u32,
    word: Word,
) -> Result<(), Failed>
    ensures { Adds (texts.word_text number word) result buffer.old buffer.new
        (S.writing sink.old) (S.writing sink.new) }
{
    if number == 0 {
        add_constant(buffer, sink, word)
    } else {
        add_next_word(buffer, sink, word)
    }
}

/// Adds the words of a queue from its front.
fn add_words<S: Sink>(buffer: &mut PutBuffer, sink: &mut S, queue: &Queue) -> Result<(), Failed>
    ensures { Adds (texts.words_from 0 queue.now.items) result buffer.old buffer.new
        (S.writing sink.old) (S.writing sink.new) }
{
    for number in 0..queue.len() {
        add_word(buffer, sink, number, queue.item(number))?;
    }
    Ok(())
}

/// Adds a queue, as `[8'h05 8'h06]`.
#[tactic(auto, unfolding(crate::specs::Texts::queue_text))]
pub(crate) fn add_queue<S: Sink>(
    buffer: &mut PutBuffer,
    sink: &mut S,
    queue: &Queue,
) -> Result<(), Failed>
    ensures { Adds (texts.queue_text queue.now.items) result buffer.old buffer.new
        (S.writing sink.old) (S.writing sink.new) }
{
    add(buffer, sink, b"[")?;
    add_words(buffer, sink, queue)?;
    add(buffer, sink, b"]")
}

/// Adds what a register or a queue holds.
fn add_part<S: Sink>(buffer: &mut PutBuffer, sink: &mut S, part: &Part) -> Result<(), Failed>
    ensures { Adds (texts.part_text part.now) result buffer.old buffer.new
        (S.writing sink.old) (S.writing sink.new) }
{
    match part {
        Part::Number(word) => add_constant(buffer, sink, *word),
        Part::Queue(queue) => add_queue(buffer, sink, queue),
        Part::Held(_) => add(buffer, sink, b""),
    }
}

/// Adds the line of an instance, as `c.x = 4'h1`.
fn add_line<S: Sink>(
    buffer: &mut PutBuffer,
    sink: &mut S,
    path: &[u8],
    part: &Part,
) -> Result<(), Failed>
    ensures { Adds (path.now ++ codes " = " ++ texts.part_text part.now ++ texts.line_feed) result
        buffer.old buffer.new (S.writing sink.old) (S.writing sink.new) }
{
    add(buffer, sink, path)?;
    add(buffer, sink, b" = ")?;
    add_part(buffer, sink, part)?;
    add(buffer, sink, b"\n")
}

/// Adds the line of an instance, if it has one.
fn add_instance<S: Sink>(
    buffer: &mut PutBuffer,
    sink: &mut S,
    instance: &NamedPart,
    part: &Part,
) -> Result<(), Failed>
    ensures { Adds (texts.state_line instance.now part.now) result buffer.old buffer.new
        (S.writing sink.old) (S.writing sink.new) }
{
    if has_line(instance.kind) {
        add_line(buffer, sink, instance.path.bytes(), part)
    } else {
        add(buffer, sink, b"")
    }
}

/// Adds the lines of a state.
pub(crate) fn add_state<S: Sink>(
    buffer: &mut PutBuffer,
    sink: &mut S,
    instances: &[NamedPart],
    parts: &[Part],
) -> Result<(), Failed>
    ensures { Adds (texts.state_lines instances.now parts.now) result buffer.old buffer.new
        (S.writing sink.old) (S.writing sink.new) }
{
    let mut left = instances;
    let mut held = parts;
    while let Some((instance, others)) = left.split_first() {
        let Some((part, more)) = held.split_first() else {
            return Ok(());
        };
        add_instance(buffer, sink, instance, part)?;
        left = others;
        held = more;
    }
    Ok(())
}
