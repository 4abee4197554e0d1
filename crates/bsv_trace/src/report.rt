ghost use Rattle.std.specs.Prelude.{◌≡◌, ◌≤◌, ◌++◌, List, [], OnOk, OnErr};
ghost use Rattle.std.specs.List.{flat_map};
ghost use Rattle.bsv_io.specs.Faults.{MayFault};
ghost use Rattle.bsv_io.specs.Writing.{appended, AppendsPrefix};
ghost use Rattle.bsv_io.specs.Adding.{Adds};
ghost use Rattle.bsv_prim.specs.declared.part.Part.{Part as ThePart};
ghost use Rattle.bsv_trace.specs.Shown.{ShowParts, ShowSome};
ghost use Rattle.bsv_trace.specs.Texts as texts;

use crate::registers::add_registers;
use crate::state::add_state;
use crate::text::{add_list, add_name};
use bsv_bits::Word;
use bsv_design::{Design, Element, Fired, NamedPart, State};
use bsv_io::{Failed, PutBuffer, Sink, add, add_constant, add_decimal};
use bsv_prim::Part;

/// Adds the line of the number of a clock.
fn add_number<S: Sink>(buffer: &mut PutBuffer, sink: &mut S, number: u64) -> Result<(), Failed>
    ensures { Adds (texts.number_line number) result buffer.old buffer.new
        (S.writing sink.old) (S.writing sink.new) }
{
    add(buffer, sink, b"clock ")?;
    add_decimal(buffer, sink, number)?;
    add(buffer, sink, b"\n")
}

/// Adds the line of an element that was stopped, with the one that stopped it.
fn add_stopped_line<S: Sink>(
    buffer: &mut PutBuffer,
    sink: &mut S,
    elements: &[Element],
    stopped: (u32, u32),
) -> Result<(), Failed>
    ensures { Adds (texts.stopped_line (texts.name_at elements.now) stopped) result
        buffer.old buffer.new (S.writing sink.old) (S.writing sink.new) }
{
    add_name(buffer, sink, elements, b"stopped ", stopped.0)?;
    add_name(buffer, sink, elements, b" by ", stopped.1)?;
    add(buffer, sink, b"\n")
}

/// Adds a line for each element that was stopped.
fn add_stopped<S: Sink>(
    buffer: &mut PutBuffer,
    sink: &mut S,
    elements: &[Element],
    stopped: &[(u32, u32)],
) -> Result<(), Failed>
    ensures { Adds (flat_map (texts.stopped_line (texts.name_at elements.now)) stopped.now) result
        buffer.old buffer.new (S.writing sink.old) (S.writing sink.new) }
{
    let mut left = stopped;
    while let Some((pair, others)) = left.split_first() {
        add_stopped_line(buffer, sink, elements, *pair)?;
        left = others;
    }
    Ok(())
}

/// Adds the line of a method that was asked and not ready.
fn add_blocked_line<S: Sink>(
    buffer: &mut PutBuffer,
    sink: &mut S,
    elements: &[Element],
    place: u32,
) -> Result<(), Failed>
    ensures { Adds (texts.blocked_line (texts.name_at elements.now) place) result
        buffer.old buffer.new (S.writing sink.old) (S.writing sink.new) }
{
    add_name(buffer, sink, elements, b"blocked ", place)?;
    add(buffer, sink, b"\n")
}

/// Adds a line for each method that was asked and not ready.
fn add_blocked<S: Sink>(
    buffer: &mut PutBuffer,
    sink: &mut S,
    elements: &[Element],
    blocked: &[u32],
) -> Result<(), Failed>
    ensures { Adds (flat_map (texts.blocked_line (texts.name_at elements.now)) blocked.now) result
        buffer.old buffer.new (S.writing sink.old) (S.writing sink.new) }
{
    let mut left = blocked;
    while let Some((place, others)) = left.split_first() {
        add_blocked_line(buffer, sink, elements, *place)?;
        left = others;
    }
    Ok(())
}

/// Adds the line of what a method gave.
fn add_result_line<S: Sink>(
    buffer: &mut PutBuffer,
    sink: &mut S,
    elements: &[Element],
    gave: (u32, Word),
) -> Result<(), Failed>
    ensures { Adds (texts.result_line (texts.name_at elements.now) gave) result
        buffer.old buffer.new (S.writing sink.old) (S.writing sink.new) }
{
    add_name(buffer, sink, elements, b"", gave.0)?;
    add(buffer, sink, b" -> ")?;
    add_constant(buffer, sink, gave.1)?;
    add(buffer, sink, b"\n")
}

/// Adds a line for each method that gave something.
fn add_results<S: Sink>(
    buffer: &mut PutBuffer,
    sink: &mut S,
    elements: &[Element],
    results: &[(u32, Word)],
) -> Result<(), Failed>
    ensures { Adds (flat_map (texts.result_line (texts.name_at elements.now)) results.now) result
        buffer.old buffer.new (S.writing sink.old) (S.writing sink.new) }
{
    let mut left = results;
    while let Some((gave, others)) = left.split_first() {
        add_result_line(buffer, sink, elements, *gave)?;
        left = others;
    }
    Ok(())
}

/// Adds the lines of what happened in a clock.
#[tactic(auto, unfolding(crate::specs::Texts::event_lines))]
fn add_events<S: Sink>(
    buffer: &mut PutBuffer,
    sink: &mut S,
    elements: &[Element],
    fired: &Fired,
) -> Result<(), Failed>
    ensures { Adds (texts.event_lines (texts.name_at elements.now) fired.now) result
        buffer.old buffer.new (S.writing sink.old) (S.writing sink.new) }
{
    add_list(buffer, sink, elements, b"fired", fired.list.as_slice())?;
    add_stopped(buffer, sink, elements, fired.stopped.as_slice())?;
    add_blocked(buffer, sink, elements, fired.blocked.as_slice())?;
    add_results(buffer, sink, elements, fired.results.as_slice())
}

/// Adds the lines of a clock.
#[tactic(auto, unfolding(crate::specs::Texts::clock_text))]
fn add_clock<S: Sink>(
    buffer: &mut PutBuffer,
    sink: &mut S,
    elements: &[Element],
    number: u64,
    fired: &Fired,
    instances: &[NamedPart],
    parts: &[Part],
) -> Result<(), Failed>
    ensures { Adds (texts.clock_text (texts.name_at elements.now) number fired.now
        instances.now parts.now)
        result buffer.old buffer.new (S.writing sink.old) (S.writing sink.new) }
{
    add_number(buffer, sink, number)?;
    add_events(buffer, sink, elements, fired)?;
    add_state(buffer, sink, instances, parts)
}

/// Adds the opening of a report.
#[tactic(auto, unfolding(crate::specs::Texts::opening_text))]
fn add_opening<S: Sink>(
    buffer: &mut PutBuffer,
    sink: &mut S,
    instances: &[NamedPart],
    parts: &[Part],
) -> Result<(), Failed>
    ensures { Adds (texts.opening_text instances.now parts.now) result buffer.old buffer.new
        (S.writing sink.old) (S.writing sink.new) }
{
    add(buffer, sink, b"opening\n")?;
    add_state(buffer, sink, instances, parts)
}

/// Puts the opening of a report: the state before the first clock.
pub fn write_opening<S: Sink>(design: &Design, state: &State, sink: &mut S) -> Result<(), Failed>
    ensures ok { OnOk result (S.writing sink.new ≡ appended
        (texts.opening_text design.now.parts state.now.parts.items) (S.writing sink.old)) }
    ensures prefix { AppendsPrefix (texts.opening_text design.now.parts state.now.parts.items)
        (S.writing sink.old) (S.writing sink.new) }
    ensures count { (S.writing sink.old).faults ≤ (S.writing sink.new).faults }
    ensures counted { OnErr result (MayFault (S.writing sink.old).faults
        (S.writing sink.new).faults) }
{
    let mut buffer = PutBuffer::new();
    add_opening(
        &mut buffer,
        sink,
        design.parts.as_slice(),
        state.parts.as_slice(),
    )?;
    buffer.flush(sink)
}

/// Puts the lines of the clock of a number: what happened in it, and the state after it.
pub fn write_clock<S: Sink>(
    design: &Design,
    number: u64,
    fired: &Fired,
    state: &State,
    sink: &mut S,
) -> Result<(), Failed>
    ensures ok { OnOk result (S.writing sink.new ≡ appended
        (texts.clock_text (texts.name_at design.now.elements) number fired.now
        design.now.parts state.now.parts.items)
        (S.writing sink.old)) }
    ensures prefix { AppendsPrefix
        (texts.clock_text (texts.name_at design.now.elements) number fired.now
        design.now.parts state.now.parts.items)
        (S.writing sink.old) (S.writing sink.new) }
    ensures count { (S.writing sink.old).faults ≤ (S.writing sink.new).faults }
    ensures counted { OnErr result (MayFault (S.writing sink.old).faults
        (S.writing sink.new).faults) }
{
    let mut buffer = PutBuffer::new();
    add_clock(
        &mut buffer,
        sink,
        design.elements.as_slice(),
        number,
        fired,
        design.parts.as_slice(),
        state.parts.as_slice(),
    )?;
    buffer.flush(sink)
}

/// Adds the lines of a clock, with the state that the registers show.
#[tactic(auto, unfolding(crate::specs::Texts::clock_text))]
fn add_clock_registers<S: Sink>(
    buffer: &mut PutBuffer,
    sink: &mut S,
    elements: &[Element],
    number: u64,
    fired: &Fired,
    instances: &[NamedPart],
    registers: &[Word],
) -> Result<(), Failed>
    ensures { (ps : List ThePart) → ShowParts instances.now registers.now ps
        → Adds (texts.clock_text (texts.name_at elements.now) number fired.now instances.now ps)
        result buffer.old buffer.new (S.writing sink.old) (S.writing sink.new) }
{
    add_number(buffer, sink, number)?;
    add_events(buffer, sink, elements, fired)?;
    add_registers(buffer, sink, instances, registers)
}

/// Adds the opening of a report, with the state that the registers show.
#[tactic(auto, unfolding(crate::specs::Texts::opening_text))]
fn add_opening_registers<S: Sink>(
    buffer: &mut PutBuffer,
    sink: &mut S,
    instances: &[NamedPart],
    registers: &[Word],
) -> Result<(), Failed>
    ensures { (ps : List ThePart) → ShowParts instances.now registers.now ps
        → Adds (texts.opening_text instances.now ps) result buffer.old buffer.new
        (S.writing sink.old) (S.writing sink.new) }
{
    add(buffer, sink, b"opening\n")?;
    add_registers(buffer, sink, instances, registers)
}

/// Puts what `write_opening` puts of the state that the registers show.
pub fn write_opening_registers<S: Sink>(
    design: &Design,
    registers: &[Word],
    sink: &mut S,
) -> Result<(), Failed>
    requires { ShowSome design.now.parts registers.now }
    ensures ok { (ps : List ThePart) → ShowParts design.now.parts registers.now ps
        → OnOk result (S.writing sink.new ≡ appended
        (texts.opening_text design.now.parts ps) (S.writing sink.old)) }
    ensures prefix { (ps : List ThePart) → ShowParts design.now.parts registers.now ps
        → AppendsPrefix (texts.opening_text design.now.parts ps)
        (S.writing sink.old) (S.writing sink.new) }
    ensures count { (S.writing sink.old).faults ≤ (S.writing sink.new).faults }
    ensures counted { OnErr result (MayFault (S.writing sink.old).faults
        (S.writing sink.new).faults) }
{
    let mut buffer = PutBuffer::new();
    add_opening_registers(&mut buffer, sink, design.parts.as_slice(), registers)?;
    buffer.flush(sink)
}

/// The writer of one clock after the other. It has room for bytes that wait to be put, so that no clock makes that room
/// anew. Nothing waits between its calls: what a failed one did not put is given up.
#[derive(Drop)]
pub struct ClockWriter {
    buffer: PutBuffer,
    ghost empty: { buffer ≡ [] },
}

impl ClockWriter {
    /// Nothing is put yet.
    pub fn new() -> ClockWriter {
        ClockWriter {
            buffer: PutBuffer::new(),
        }
    }

    /// Puts what `write_clock` puts of the clock of a number and of the state that the registers show.
    pub fn put<S: Sink>(
        &mut self,
        design: &Design,
        number: u64,
        fired: &Fired,
        registers: &[Word],
        sink: &mut S,
    ) -> Result<(), Failed>
        requires { ShowSome design.now.parts registers.now }
        ensures ok { (ps : List ThePart) → ShowParts design.now.parts registers.now ps
            → OnOk result (S.writing sink.new ≡ appended
            (texts.clock_text (texts.name_at design.now.elements) number fired.now
            design.now.parts ps)
            (S.writing sink.old)) }
        ensures prefix { (ps : List ThePart) → ShowParts design.now.parts registers.now ps
            → AppendsPrefix
            (texts.clock_text (texts.name_at design.now.elements) number fired.now
            design.now.parts ps)
            (S.writing sink.old) (S.writing sink.new) }
        ensures count { (S.writing sink.old).faults ≤ (S.writing sink.new).faults }
        ensures counted { OnErr result (MayFault (S.writing sink.old).faults
            (S.writing sink.new).faults) }
    {
        let added = add_clock_registers(
            &mut self.buffer,
            sink,
            design.elements.as_slice(),
            number,
            fired,
            design.parts.as_slice(),
            registers,
        );
        if let Err(Failed) = added {
            self.buffer = PutBuffer::new();
            return Err(Failed);
        }
        self.buffer.flush(sink)
    }
}

/// Puts what `write_clock` puts of the clock of a number and of the state that the registers show.
pub fn write_clock_registers<S: Sink>(
    design: &Design,
    number: u64,
    fired: &Fired,
    registers: &[Word],
    sink: &mut S,
) -> Result<(), Failed>
    requires { ShowSome design.now.parts registers.now }
    ensures ok { (ps : List ThePart) → ShowParts design.now.parts registers.now ps
        → OnOk result (S.writing sink.new ≡ appended
        (texts.clock_text (texts.name_at design.now.elements) number fired.now
        design.now.parts ps)
        (S.writing sink.old)) }
    ensures prefix { (ps : List ThePart) → ShowParts design.now.parts registers.now ps
        → AppendsPrefix
        (texts.clock_text (texts.name_at design.now.elements) number fired.now
        design.now.parts ps)
        (S.writing sink.old) (S.writing sink.new) }
    ensures count { (S.writing sink.old).faults ≤ (S.writing sink.new).faults }
    ensures counted { OnErr result (MayFault (S.writing sink.old).faults
        (S.writing sink.new).faults) }
{
    ClockWriter::new().put(design, number, fired, registers, sink)
}
