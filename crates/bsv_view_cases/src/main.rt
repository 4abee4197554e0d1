//! Runs `bsvview` on cases, and tells which do not answer as they say. The words are the names of the case files, which
//! have the form of those of `bsv_cases`.
//!
//! Modules in reading order: `running` (a case to an answer), `telling` (where it is not as it is wanted).
#![tactic(auto)]

mod running;
mod telling;

use crate::running::{answer_to, wanted};
use crate::telling::tell;
use anyhow::{Result, bail};
use bsv_case_files::{Case, Unread, cases_of};
use std::fs;
use std::process::ExitCode;
use std::rt::{Env, Files};
use std::thread::Threads;

/// How many cases there are, and how many do not answer as they say.
#[derive(Clone, Copy)]
struct Count {
    cases: u64,
    differ: u64,
}

impl Count {
    const NONE: Count = Count {
        cases: 0,
        differ: 0,
    };

    /// With one case more, which answers as it says or not.
    fn with(self, agrees: bool) -> Count {
        Count {
            cases: self.cases.saturating_add(1),
            differ: self.differ.saturating_add(if agrees { 0 } else { 1 }),
        }
    }
}

/// Runs a case, and tells where it does not answer as it says. Whether it does.
fn run_case<R: Files + AllocGlobal + Print + Threads + Sync>(
    rt: &R,
    file: &str,
    case: &Case,
) -> Result<bool> {
    let Some(wanted) = wanted(rt, case)? else {
        let line = case.line;
        println!(rt; "{file}:{line}: a case here has the whole answer")?;
        return Ok(false);
    };
    let answer = answer_to(rt, case)?;
    if answer.is(&wanted) {
        return Ok(true);
    }
    tell(rt, file, case.line, &answer, &wanted)?;
    Ok(false)
}

/// Runs cases one after the other, after so many others.
fn run_cases<R: Files + AllocGlobal + Print + Threads + Sync>(
    rt: &R,
    file: &str,
    cases: &[Case],
    count: Count,
) -> Result<Count> {
    let mut count = count;
    for case in cases {
        count = count.with(run_case(rt, file, case)?);
    }
    Ok(count)
}

/// Runs the cases of a file, after so many others. A fault of the file is told, and counts as a case that differs.
fn run_file<R: Files + AllocGlobal + Print + Threads + Sync>(
    rt: &R,
    file: &str,
    count: Count,
) -> Result<Count> {
    let Ok(text) = fs::read_to_string(rt, file) else {
        println!(rt; "{file}: cannot be read")?;
        return Ok(count.with(false));
    };
    match cases_of(rt.alloc(), text.as_str()) {
        Ok(cases) => run_cases(rt, file, cases.as_slice(), count),
        Err(Unread::OutOfMemory) => bail!("out of memory"),
        Err(Unread::Fault(line, what)) => {
            println!(rt; "{file}:{line}: {what}")?;
            Ok(count.with(false))
        }
    }
}

/// Runs the cases of all files, and tells how many there are.
fn run_all<R: Env + Files + AllocGlobal + Print + Threads + Sync>(rt: &R) -> Result<Count> {
    let files: Vec<String> = std::env::args(rt)?.skip(1).collect(rt.alloc())?;
    let mut count = Count::NONE;
    for file in files.as_slice() {
        count = run_file(rt, file.as_str(), count)?;
    }
    let cases = count.cases;
    let differ = count.differ;
    println!(rt; "{cases} cases, {differ} differ")?;
    Ok(count)
}

fn main(rt: HostRuntime) -> Result<ExitCode> {
    let count = run_all(&rt)?;
    Ok(ExitCode::from(if count.differ == 0 { 0 } else { 1 }))
}
