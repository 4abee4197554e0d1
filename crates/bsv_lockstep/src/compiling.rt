ghost use Rattle.std.specs.Prelude.{IfOk};
ghost use Rattle.bsv_flow.specs.Running.{BelongTogether};
ghost use Rattle.bsv_lockstep.specs.Running.{CarriesDesign};

use crate::case::Case;
use anyhow::{Result, bail};
use bsv_bits::{Name, OutOfMemory};
use bsv_fire::add_fire;
use bsv_flow::{Compiled, compile};
use bsv_io::{Gate, MemFiles};
use bsv_mux::add_next;
use bsv_net::Net;
use std::alloc::Global;
use std::thread::Threads;

/// The files of a case, with their bytes.
fn files_of(alloc: Global, case: &Case) -> Result<MemFiles> {
    let mut files = Vec::new(alloc);
    for (name, text) in case.files.as_slice() {
        let name = Name::new(alloc, name.as_bytes())?;
        files.push((name, Vec::from_slice(alloc, text.as_bytes())?))?;
    }
    Ok(MemFiles::new(alloc, files, Vec::new(alloc))?)
}

/// The design of a case, with its guards, its schedule and its net. The workers pass the gate.
pub(crate) fn compiled_of<R: AllocGlobal + Threads + Sync, G: Gate + Sync>(
    rt: &R,
    case: &Case,
    gate: &G,
) -> Result<Compiled>
    ensures { IfOk result BelongTogether }
{
    let Some((first, _)) = case.files.first() else {
        bail!("a case has no file");
    };
    let mut files = files_of(rt.alloc(), case)?;
    match compile(
        rt,
        rt.alloc(),
        &mut files,
        first.as_str(),
        case.top.as_str(),
        gate,
    ) {
        Ok(found) => Ok(found),
        Err(_) => bail!("a design is refused"),
    }
}

/// The net of what was compiled, before repeats are taken out of it.
pub(crate) fn net_of(alloc: Global, compiled: &Compiled) -> Result<Net, OutOfMemory>
    requires { BelongTogether compiled.now }
    ensures { IfOk result (CarriesDesign compiled.now) }
{
    let (design, schedule) = (&compiled.design, &compiled.schedule);
    let net = add_fire(alloc, design, &compiled.guards, schedule)?;
    add_next(alloc, design, schedule, net)
}
