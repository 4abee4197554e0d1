//! Runs the program on cases, and tells which do not answer as they say. The words are the names of
//! the case files.
//!
//! Modules in reading order: `running` (a case to an answer), `comparing` (whether an answer is as it is wanted),
//! `telling` (where it is not).
#![tactic(auto)]

mod comparing;
mod running;
mod telling;

use crate::comparing::agrees;
use crate::running::{answer_to, is_alike, is_sure};
use crate::telling::tell;
use anyhow::{Result, bail};
use bsv_case_files::{Case, Unread, cases_of};
use bsv_top::Status;
use std::fs;
use std::process::ExitCode;
use std::rt::{Env, Files};
use std::thread::Threads;

/// How many cases there are, and how many do not answer as they say.
#[derive(Clone, Copy)]
struct Count {
    cases: u64,
    differ: u64,
}

impl Count {
    const NONE: Count = Count {
        cases: 0,
        differ: 0,
    };

    /// One case, which does not answer as it says.
    const DIFFERS: Count = Count {
        cases: 1,
        differ: 1,
    };

    /// One case, which answers as it says.
    const AGREES: Count = Count {
        cases: 1,
        differ: 0,
    };

    fn plus(self, other: Count) -> Count {
        Count {
            cases: self.cases.saturating_add(other.cases),
            differ: self.differ.saturating_add(other.differ),
        }
    }
}

/// The file whose sources weigh up to what a design may weigh: each is run by its own command alone.
const HEAVY: &str = "building.cases";

/// Runs a case, and tells where it does not answer as it says.
fn run_case<R: Files + AllocGlobal + Print + Threads + Sync>(
    rt: &R,
    file: &str,
    case: &Case,
) -> Result<Count> {
    let answer = answer_to(rt, case)?;
    if !agrees(rt, &answer, &case.want)? {
        tell(rt, file, case, &answer)?;
        return Ok(Count::DIFFERS);
    }
    if answer.status == Status::Done && !is_sure(rt, case, &answer)? {
        let line = case.line;
        println!(rt; "{file}:{line}: over files and sinks that never fail the answer is another")?;
        return Ok(Count::DIFFERS);
    }
    if file != HEAVY && !is_alike(rt, case, &answer)? {
        let line = case.line;
        println!(rt; "{file}:{line}: another command answers to the source in another way")?;
        return Ok(Count::DIFFERS);
    }
    Ok(Count::AGREES)
}

/// Runs cases one after the other.
fn run_cases<R: Files + AllocGlobal + Print + Threads + Sync>(
    rt: &R,
    file: &str,
    cases: &[Case],
) -> Result<Count> {
    let mut count = Count::NONE;
    for case in cases {
        count = count.plus(run_case(rt, file, case)?);
    }
    Ok(count)
}

/// Runs the cases of a file. A fault of the file is told, and counts as a case that differs.
fn run_file<R: Files + AllocGlobal + Print + Threads + Sync>(rt: &R, file: &str) -> Result<Count> {
    let Ok(text) = fs::read_to_string(rt, file) else {
        println!(rt; "{file}: cannot be read")?;
        return Ok(Count::DIFFERS);
    };
    match cases_of(rt.alloc(), text.as_str()) {
        Ok(cases) => run_cases(rt, file, cases.as_slice()),
        Err(Unread::OutOfMemory) => bail!("out of memory"),
        Err(Unread::Fault(line, what)) => {
            println!(rt; "{file}:{line}: {what}")?;
            Ok(Count::DIFFERS)
        }
    }
}

/// Runs the cases of all files, and tells how many there are.
fn run_all<R: Env + Files + AllocGlobal + Print + Threads + Sync>(rt: &R) -> Result<Count> {
    let files: Vec<String> = std::env::args(rt)?.skip(1).collect(rt.alloc())?;
    let mut count = Count::NONE;
    for file in files.as_slice() {
        count = count.plus(run_file(rt, file.as_str())?);
    }
    let cases = count.cases;
    let differ = count.differ;
    println!(rt; "{cases} cases, {differ} differ")?;
    Ok(count)
}

fn main(rt: HostRuntime) -> Result<ExitCode> {
    let count = run_all(&rt)?;
    Ok(ExitCode::from(if count.differ == 0 { 0 } else { 1 }))
}
