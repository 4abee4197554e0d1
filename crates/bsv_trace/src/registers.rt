ghost use Rattle.std.specs.Prelude.{◌≡◌, ◌++◌, List, IsTrue, codes, drop, length};
ghost use Rattle.bsv_io.specs.Adding.{Adds};
ghost use Rattle.bsv_prim.specs.QueueState.{QueueState};
ghost use Rattle.bsv_prim.specs.declared.part.Part.{Part as ThePart};
ghost use Rattle.bsv_prim.specs.declared.part.Part.TheVariants as part;
ghost use Rattle.bsv_design.specs.parts.Printed.{ShowPart};
ghost use Rattle.bsv_trace.specs.Shown.{ShowParts};
ghost use Rattle.bsv_trace.specs.Texts as texts;

use crate::state::{add_word, has_line};
use bsv_bits::Word;
use bsv_design::{Kind, NamedPart};
use bsv_io::{Failed, PutBuffer, Sink, add, add_constant};
use bsv_prim::Primitive;

/// Adds so many items of a queue, from its front.
fn add_items<S: Sink>(
    buffer: &mut PutBuffer,
    sink: &mut S,
    kind: Kind,
    registers: &[Word],
    count: u32,
) -> Result<(), Failed>
    ensures { (q : QueueState) → ShowPart kind registers.now (part.Queue q) → count ≡ length q.items
        → Adds (texts.words_from 0 q.items) result buffer.old buffer.new
        (S.writing sink.old) (S.writing sink.new) }
{
    for number in 0..count {
        add_word(buffer, sink, number, kind.item(registers, number))?;
    }
    Ok(())
}

/// Adds the items of a queue, as `[8'h05 8'h06]`.
#[tactic(auto, unfolding(crate::specs::Texts::queue_text))]
fn add_queue<S: Sink>(
    buffer: &mut PutBuffer,
    sink: &mut S,
    kind: Kind,
    registers: &[Word],
    count: u32,
) -> Result<(), Failed>
    ensures { (q : QueueState) → ShowPart kind registers.now (part.Queue q) → count ≡ length q.items
        → Adds (texts.queue_text q.items) result buffer.old buffer.new
        (S.writing sink.old) (S.writing sink.new) }
{
    add(buffer, sink, b"[")?;
    add_items(buffer, sink, kind, registers, count)?;
    add(buffer, sink, b"]")
}

/// Adds what an instance holds that has a line, by the words of its registers.
fn add_shown<S: Sink>(
    buffer: &mut PutBuffer,
    sink: &mut S,
    kind: Kind,
    registers: &[Word],
) -> Result<(), Failed>
    requires { IsTrue (texts.has_line kind) }
    ensures { (p : ThePart) → ShowPart kind registers.now p
        → Adds (texts.part_text p) result buffer.old buffer.new
        (S.writing sink.old) (S.writing sink.new) }
{
    match kind.items(registers) {
        None => add_constant(buffer, sink, kind.item(registers, 0)),
        Some(count) => add_queue(buffer, sink, kind, registers, count),
    }
}

/// Adds the line of an instance that has one, as `c.x = 4'h1`.
fn add_line<S: Sink>(
    buffer: &mut PutBuffer,
    sink: &mut S,
    path: &[u8],
    kind: Kind,
    registers: &[Word],
) -> Result<(), Failed>
    requires { IsTrue (texts.has_line kind) }
    ensures { (p : ThePart) → ShowPart kind registers.now p
        → Adds (path.now ++ codes " = " ++ texts.part_text p ++ texts.line_feed) result
        buffer.old buffer.new (S.writing sink.old) (S.writing sink.new) }
{
    add(buffer, sink, path)?;
    add(buffer, sink, b" = ")?;
    add_shown(buffer, sink, kind, registers)?;
    add(buffer, sink, b"\n")
}

/// Adds the line of an instance, if it has one.
fn add_instance<S: Sink>(
    buffer: &mut PutBuffer,
    sink: &mut S,
    instance: &NamedPart,
    registers: &[Word],
) -> Result<(), Failed>
    ensures { (p : ThePart) → ShowPart instance.now.kind registers.now p
        → Adds (texts.state_line instance.now p) result buffer.old buffer.new
        (S.writing sink.old) (S.writing sink.new) }
{
    if has_line(instance.kind) {
        add_line(
            buffer,
            sink,
            instance.path.bytes(),
            instance.kind,
            registers,
        )
    } else {
        add(buffer, sink, b"")
    }
}

/// The registers after the first so many.
pub fn registers_after(registers: &[Word], count: u32) -> &[Word]
    ensures { result.now ≡ drop count registers.now }
{
    match registers.split_at_checked(count as usize) {
        Some((_, rest)) => rest,
        None => &[],
    }
}

/// Adds the lines of the state that the registers show, which are those of the instances in building order.
pub(crate) fn add_registers<S: Sink>(
    buffer: &mut PutBuffer,
    sink: &mut S,
    instances: &[NamedPart],
    registers: &[Word],
) -> Result<(), Failed>
    ensures { (ps : List ThePart) → ShowParts instances.now registers.now ps
        → Adds (texts.state_lines instances.now ps) result buffer.old buffer.new
        (S.writing sink.old) (S.writing sink.new) }
{
    let mut left = instances;
    let mut held = registers;
    while let Some((instance, others)) = left.split_first() {
        add_instance(buffer, sink, instance, held)?;
        left = others;
        held = registers_after(held, instance.kind.registers());
    }
    Ok(())
}
