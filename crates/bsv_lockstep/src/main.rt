//! Runs designs clock by clock by four engines, and tells whether they agree: the serial engine, which runs one
//! element after the other; the net of the design, each of whose words is computed once a clock; that net without
//! repeats; and the simulator, which keeps its registers from clock to clock. It looks, too, whether a net without
//! repeats has two equal nodes, whether two workers stand side by side where work goes by workers, and what a suite of
//! traces is reported as. The words are the names of case files: of the first one the workers are looked at, and of the
//! second one a suite.
//!
//! Modules in reading order: `case` (a case file), `compiling` (its design, which can be run, and its net), `shown`
//! (the words of registers that show a state), `asked` (the words of inputs that a line of a trace asks for),
//! `evaluating` (the words of a net), `agreeing` (whether a net and the simulator tell what the serial engine did),
//! `clocks` (a design that is run by all), `gates` (whether two workers stand side by side), `suites` (a suite of
//! traces). What a run keeps from clock to clock is in `specs/Running.antt`.
#![tactic(auto)]

ghost use Rattle.bsv_flow.specs.Running.{BelongTogether};

mod agreeing;
mod asked;
mod case;
mod clocks;
mod compiling;
mod evaluating;
mod gates;
mod shown;
mod suites;

use crate::agreeing::has_repeat;
use crate::case::{Case, case_of};
use crate::clocks::{Engine, Outcome, outcome_of};
use crate::compiling::{compiled_of, net_of};
use crate::gates::workers_meet;
use crate::suites::suite_text;
use anyhow::{Context, Result, bail};
use bsv_flow::Compiled;
use bsv_io::NoGate;
use std::fs;
use std::rt::Files;
use std::thread::Threads;

/// What an engine is called.
fn name_of(engine: Engine) -> &'static str {
    match engine {
        Engine::Net => "the net",
        Engine::SharedNet => "the net without repeats",
        Engine::Simulator => "the simulator",
    }
}

/// Tells whether all engines agree on what was compiled: in how many clocks they do, or in which first one they do not.
fn compare<R: AllocGlobal + Print>(
    rt: &R,
    compiled: &Compiled,
    name: &str,
    trace: &str,
) -> Result<()>
    requires { BelongTogether compiled.now }
{
    if has_repeat(compiled.net.nodes.as_slice()) {
        bail!("{name}: two nodes of the net without repeats are equal");
    }
    let net = net_of(rt.alloc(), compiled)?;
    match outcome_of(rt.alloc(), compiled, &net, trace)? {
        Outcome::Agree(clocks) => println!(rt; "{name}: {clocks} clocks agree")?,
        Outcome::Differ(clock, engine) => {
            let engine = name_of(engine);
            bail!("{name}: {engine} differs at clock {clock}")
        }
    }
    Ok(())
}

/// The case of a file.
fn read_case<R: Files + AllocGlobal>(rt: &R, file: &str) -> Result<Case> {
    let text = fs::read_to_string(rt, file)?;
    case_of(rt.alloc(), text.as_str())
}

/// Tells that two workers stand side by side where work on this case goes by workers.
fn show_workers<R: Files + AllocGlobal + Print + Threads + Sync>(rt: &R, file: &str) -> Result<()> {
    let case = read_case(rt, file)?;
    if !workers_meet(rt, &case)? {
        bail!("a worker met no other one");
    }
    println!(rt; "workers stand side by side")?;
    Ok(())
}

/// Shows what a suite of traces is reported as.
fn show_suite<R: Files + AllocGlobal + Print + Threads + Sync>(rt: &R, file: &str) -> Result<()> {
    let case = read_case(rt, file)?;
    let compiled = compiled_of(rt, &case, &NoGate)?;
    let text = suite_text(rt, &compiled)?;
    print!(rt; "{text}")?;
    Ok(())
}

/// Runs a case by all engines, and tells whether they agree.
fn run_case<R: Files + AllocGlobal + Print + Threads + Sync>(rt: &R, file: &str) -> Result<()> {
    let case = read_case(rt, file)?;
    let compiled = compiled_of(rt, &case, &NoGate)?;
    let name = file.strip_suffix(".case").unwrap_or(file);
    compare(rt, &compiled, name, case.trace.as_str())
}

fn main(rt: HostRuntime) -> Result<()> {
    let files: Vec<String> = std::env::args(&rt)?.skip(1).collect(rt.alloc())?;
    if let [workers, suite, ..] = files.as_slice() {
        show_workers(&rt, workers.as_str()).context(format_args!("running {workers}"))?;
        show_suite(&rt, suite.as_str()).context(format_args!("running {suite}"))?;
    }
    for file in files.as_slice() {
        let file = file.as_str();
        run_case(&rt, file).context(format_args!("running {file}"))?;
    }
    Ok(())
}
