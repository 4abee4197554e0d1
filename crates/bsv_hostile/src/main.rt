//! Runs each command where one call after the other fails outside, and over a source that is cut after each of its
//! bytes, and tells which runs do not end as they should. The words are none; the source is `Gcd.bsv`, which is run
//! with `trace.txt`, and over a list of nine times `trace.txt`, and prints `report.txt`.
//!
//! Modules in reading order: `counted` (files and sinks that count their calls), `running` (words and contents to an
//! answer), `failing` (calls that fail), `cutting` (cut sources).
#![tactic(auto)]

mod counted;
mod cutting;
mod failing;
mod running;

use crate::cutting::cut_each;
use crate::failing::{fail_each, fail_texts};
use crate::running::{Contents, Failing, SOURCE, TRACE, answer_to};
use anyhow::Result;
use std::fs;
use std::process::ExitCode;
use std::rt::Files;
use std::thread::Threads;

/// The words of a run that prints the report.
const RUN: &str = "sim Gcd.bsv mkGcd trace.txt";

/// The words of the runs over the source that are done.
const LINES: [&str; 3] = [RUN, "schedule Gcd.bsv mkGcd", "verilog Gcd.bsv mkGcd"];

/// The words of a run that is done without a file.
const MADE: &str = "made 2";

/// The words of a run over a list of traces.
const SUITE: &str = "suite Gcd.bsv mkGcd list.txt";

/// The words of runs that have a fault text: no form, no file, no module, and a bad trace.
const TEXTS: [&str; 13] = [
    "",
    "sim",
    "made 0",
    "sim Gcd.bsv mkGcd",
    "schedule Gcd.bsv mkGcd trace.txt",
    "verilog none.bsv mkGcd",
    "sim Gcd.bsv mkGcd none.txt",
    "schedule Gcd.bsv mkNone",
    "verilog trace.txt mkGcd",
    "sim Gcd.bsv mkGcd Gcd.bsv",
    "suite Gcd.bsv mkGcd",
    "suite Gcd.bsv mkGcd none.txt",
    "suite Gcd.bsv mkGcd trace.txt",
];

/// Runs all, and gives how many runs did not end as they should.
fn run_all<R: Files + AllocGlobal + Print + Threads + Sync>(rt: &R) -> Result<u64> {
    let source = fs::read(rt, SOURCE)?;
    let trace = fs::read(rt, TRACE)?;
    let report = fs::read(rt, "report.txt")?;
    let contents = Contents {
        source: source.as_slice(),
        trace: trace.as_slice(),
    };
    let answer = answer_to(rt, RUN, contents, Failing::Nothing)?;
    let mut faults = u64::from(answer.out.bytes() != report.as_slice());
    for line in LINES {
        faults = faults.saturating_add(fail_each(rt, line, contents)?);
    }
    faults = faults.saturating_add(fail_each(rt, SUITE, contents)?);
    faults = faults.saturating_add(fail_each(rt, MADE, contents)?);
    faults = faults.saturating_add(fail_texts(rt, &TEXTS, contents)?);
    for line in LINES {
        faults = faults.saturating_add(cut_each(rt, line, contents)?);
    }
    println!(rt; "{faults} faults")?;
    Ok(faults)
}

fn main(rt: HostRuntime) -> Result<ExitCode> {
    let faults = run_all(&rt)?;
    Ok(ExitCode::from(if faults == 0 { 0 } else { 1 }))
}
