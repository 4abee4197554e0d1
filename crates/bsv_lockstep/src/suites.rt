ghost use Rattle.bsv_flow.specs.Running.{BelongTogether};

use anyhow::{Result, bail};
use bsv_bits::Name;
use bsv_flow::Compiled;
use bsv_io::{Failed, GrowSink, NoGate};
use bsv_suite::{Section, Trace, put_section, reports};
use std::alloc::Global;
use std::thread::Threads;

/// Three traces, of which the first and the last are one, and the line of the other is bad.
const TRACES: [(&[u8], &[u8]); 3] = [(b"a", b"p(3)\n"), (b"b", b"p(256)\n"), (b"a", b"p(3)\n")];

/// The traces, with their names.
fn traces_of(alloc: Global) -> Result<Vec<Trace>> {
    let mut traces = Vec::new(alloc);
    for (name, bytes) in TRACES {
        traces.push(Trace {
            name: Name::new(alloc, name)?,
            bytes: Vec::from_slice(alloc, bytes)?,
        })?;
    }
    Ok(traces)
}

/// The text of sections.
fn text_of(alloc: Global, sections: &[Section]) -> Result<String> {
    let mut sink = GrowSink::new(alloc);
    for section in sections {
        if let Err(Failed) = put_section(section, &mut sink) {
            bail!("out of memory");
        }
    }
    let Ok(text) = String::from_utf8(sink.bytes()) else {
        bail!("a report is no text");
    };
    Ok(text)
}

/// The text of a suite of the three traces.
pub(crate) fn suite_text<R: AllocGlobal + Threads + Sync>(
    rt: &R,
    compiled: &Compiled,
) -> Result<String>
    requires { BelongTogether compiled.now }
{
    let (design, schedule) = (&compiled.design, &compiled.schedule);
    let traces = traces_of(rt.alloc())?;
    let alloc = rt.alloc();
    let sections = reports(rt, alloc, design, schedule, &compiled.net, traces, &NoGate)?;
    text_of(alloc, sections.as_slice())
}
