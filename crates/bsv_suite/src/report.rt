ghost use Rattle.std.specs.Prelude.{◌≡◌, ◌+◌, Err, IfOk, OnOk};
ghost use Rattle.bsv_clock.specs.Subjects.{design_subject};
ghost use Rattle.bsv_run.specs.Gathered.{limit_of, lines_ended};
ghost use Rattle.bsv_run.specs.Running.{IsDoneOf, IsFaultyOf, IsStart};
ghost use Rattle.bsv_sim.specs.Simulation.{IsSimulated};
ghost use Rattle.bsv_suite.specs.Sections.{IsReported, section_limit};

use bsv_bits::OutOfMemory;
use bsv_design::{Design, Schedule};
use bsv_io::{GrowSink, Sink};
use bsv_net::Net;
use bsv_run::{Halt, Run};
use bsv_trace::write_opening_registers;
use std::alloc::Global;

/// How many bytes a trace of a suite may have.
const SECTION_LIMIT: u64 = 1_048_576;

/// The report of a trace, and the number of its first bad line, or 0 where there is none.
#[derive(Drop)]
pub(crate) struct Report {
    pub(crate) text: Vec<u8>,
    pub(crate) bad: u64,
}

/// Puts the report of a trace; the run is at its start.
fn put_report<O: Sink>(
    design: &Design,
    schedule: &Schedule,
    run: &mut Run,
    trace: &[u8],
    out: &mut O,
) -> Result<(), Halt>
    requires start { IsStart section_limit design.now schedule.now run.old }
    ensures done { OnOk result (IsDoneOf section_limit design.now schedule.now
        (O.writing out.old) trace.now (O.writing out.new)) }
    ensures bad { result ≡ Err Halt.BadLine → IsFaultyOf section_limit design.now schedule.now
        (O.writing out.old) trace.now (O.writing out.new) (lines_ended run.new.lines + 1) }
    ensures limit { limit_of run.new.lines ≡ section_limit }
{
    write_opening_registers(design, run.registers(), out)?;
    run.run_piece(design, schedule, trace, out)?;
    run.run_last(design, schedule, out)
}

/// The report of a trace that a design is run over, on its net. A sink that found no memory is want of memory.
pub(crate) fn report_of(
    alloc: Global,
    design: &Design,
    schedule: &Schedule,
    net: Net,
    trace: &[u8],
) -> Result<Report, OutOfMemory>
    requires { IsSimulated design.now schedule.now net }
    ensures { IfOk result (λ report. IsReported
        (design_subject design.now) schedule.now trace.now report.text.items report.bad) }
{
    let mut run = Run::start(alloc, design, net, SECTION_LIMIT)?;
    let mut sink = GrowSink::new(alloc);
    let ended = put_report(design, schedule, &mut run, trace, &mut sink);
    let Err(halt) = ended else {
        return Ok(Report {
            text: sink.bytes(),
            bad: 0,
        });
    };
    match halt {
        Halt::BadLine => Ok(Report {
            text: sink.bytes(),
            bad: run.lines_done() + 1,
        }),
        Halt::Unreadable | Halt::Unwritable => Err(OutOfMemory),
    }
}
