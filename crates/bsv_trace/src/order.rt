ghost use Rattle.std.specs.Prelude.{◌≡◌, ◌≤◌, OnOk, OnErr};
ghost use Rattle.std.specs.List.{flat_map};
ghost use Rattle.bsv_io.specs.Faults.{MayFault};
ghost use Rattle.bsv_io.specs.Writing.{appended, AppendsPrefix};
ghost use Rattle.bsv_io.specs.Adding.{Adds};
ghost use Rattle.bsv_trace.specs.Texts as texts;

use crate::text::{add_list, add_name, add_names};
use bsv_design::{Design, Element, Schedule};
use bsv_io::{Failed, PutBuffer, Sink, add};
use sqlite_items::Items;

/// The elements that the one at a place stops.
fn stopped_by(stops: &[Items<u32>], place: u32) -> &[u32]
    ensures { result.now ≡ texts.stopped_by stops.now place }
{
    match stops.get(place as usize) {
        Some(list) => list.as_slice(),
        None => &[],
    }
}

/// Adds the line of an element that stops others.
fn add_some_stops<S: Sink>(
    buffer: &mut PutBuffer,
    sink: &mut S,
    elements: &[Element],
    place: u32,
    stopped: &[u32],
) -> Result<(), Failed>
    ensures { Adds (texts.some_stops (texts.name_at elements.now) place stopped.now) result
        buffer.old buffer.new (S.writing sink.old) (S.writing sink.new) }
{
    add_name(buffer, sink, elements, b"stops ", place)?;
    add(buffer, sink, b":")?;
    add_names(buffer, sink, elements, stopped)?;
    add(buffer, sink, b"\n")
}

/// Adds the line of an element that stops others; nothing where there are none.
fn add_stops_text<S: Sink>(
    buffer: &mut PutBuffer,
    sink: &mut S,
    elements: &[Element],
    place: u32,
    stopped: &[u32],
) -> Result<(), Failed>
    ensures { Adds (texts.stops_text (texts.name_at elements.now) place stopped.now) result
        buffer.old buffer.new (S.writing sink.old) (S.writing sink.new) }
{
    match stopped {
        [] => add(buffer, sink, b""),
        [_, ..] => add_some_stops(buffer, sink, elements, place, stopped),
    }
}

/// Adds the lines of the elements that stop others.
fn add_stops<S: Sink>(
    buffer: &mut PutBuffer,
    sink: &mut S,
    elements: &[Element],
    urgency: &[u32],
    stops: &[Items<u32>],
) -> Result<(), Failed>
    ensures { Adds (flat_map (texts.stops_line (texts.name_at elements.now) stops.now) urgency.now)
        result buffer.old buffer.new (S.writing sink.old) (S.writing sink.new) }
{
    let mut left = urgency;
    while let Some((place, others)) = left.split_first() {
        add_stops_text(buffer, sink, elements, *place, stopped_by(stops, *place))?;
        left = others;
    }
    Ok(())
}

/// Adds the lines of a schedule.
#[tactic(auto, unfolding(crate::specs::Texts::schedule_text))]
fn add_schedule<S: Sink>(
    buffer: &mut PutBuffer,
    sink: &mut S,
    elements: &[Element],
    schedule: &Schedule,
) -> Result<(), Failed>
    ensures { Adds (texts.schedule_text (texts.name_at elements.now) schedule.now) result
        buffer.old buffer.new (S.writing sink.old) (S.writing sink.new) }
{
    let urgency = schedule.urgency.as_slice();
    let execution = schedule.execution.as_slice();
    add_list(buffer, sink, elements, b"execution", execution)?;
    add_list(buffer, sink, elements, b"urgency", urgency)?;
    add_stops(buffer, sink, elements, urgency, schedule.stops.as_slice())
}

/// Puts the text of a schedule: both orders, and which elements stop which.
pub fn write_schedule<S: Sink>(
    design: &Design,
    schedule: &Schedule,
    sink: &mut S,
) -> Result<(), Failed>
    ensures ok { OnOk result (S.writing sink.new ≡ appended
        (texts.schedule_text (texts.name_at design.now.elements) schedule.now)
        (S.writing sink.old)) }
    ensures prefix { AppendsPrefix
        (texts.schedule_text (texts.name_at design.now.elements) schedule.now)
        (S.writing sink.old) (S.writing sink.new) }
    ensures count { (S.writing sink.old).faults ≤ (S.writing sink.new).faults }
    ensures counted { OnErr result (MayFault (S.writing sink.old).faults
        (S.writing sink.new).faults) }
{
    let mut buffer = PutBuffer::new();
    add_schedule(&mut buffer, sink, design.elements.as_slice(), schedule)?;
    buffer.flush(sink)
}
