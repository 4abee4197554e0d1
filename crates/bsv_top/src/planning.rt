ghost use Rattle.std.specs.Prelude.{◌≡◌, ℕ, ◌<◌, ◌≤◌, List, Some, Err, OnOk, OnErr};
ghost use Rattle.bsv_io.specs.Faults.{MayFault};
ghost use Rattle.bsv_io.specs.Reading.{bytes_given};
ghost use Rattle.bsv_io.specs.Writing.{appended, AppendsPrefix};
ghost use Rattle.bsv_flow.specs.Sources.{read_limit};
ghost use Rattle.bsv_flow.specs.declared.refusal.Refusal.{Refusal as TheRefusal};
ghost use Rattle.bsv_top.specs.Forms.{planning_words};
ghost use Rattle.bsv_top.specs.Outcomes.{IsDoneBy, IsUnread, OutputStarted};
ghost use Rattle.bsv_top.specs.Products.{product_text};
ghost use Rattle.bsv_top.specs.Stops.{IsStopOf};
ghost use Rattle.bsv_top.specs.declared.stop.Stop.{Stop as TheStop};

use crate::form::{Planning, Product};
use crate::stop::Stop;
use bsv_flow::{Compiled, compile};
use bsv_io::{Failed, Files, NoGate, Sink};
use bsv_trace::write_schedule;
use bsv_vtext::write;
use std::alloc::Global;
use std::thread::Threads;

/// Puts the schedule or the Verilog of what was compiled.
fn put_product<O: Sink>(product: Product, compiled: &Compiled, out: &mut O) -> Result<(), Failed>
    ensures ok { OnOk result (O.writing out.new
        ≡ appended (product_text product compiled.now) (O.writing out.old)) }
    ensures prefix { AppendsPrefix (product_text product compiled.now) (O.writing out.old)
        (O.writing out.new) }
    ensures count { (O.writing out.old).faults ≤ (O.writing out.new).faults }
    ensures counted { OnErr result (MayFault (O.writing out.old).faults
        (O.writing out.new).faults) }
{
    match product {
        Product::Schedule => write_schedule(&compiled.design, &compiled.schedule, out),
        Product::Verilog => write(&compiled.verilog, out),
    }
}

/// Compiles the file and what it imports, and puts its schedule or its Verilog.
pub(crate) fn plan<R: Threads + Sync, F: Files, O: Sink>(
    rt: &R,
    alloc: Global,
    form: Planning<'_>,
    files: &mut F,
    out: &mut O,
) -> Result<(), Stop>
    ensures done { OnOk result ((contents : List ℕ → List ℕ)
        → (F.reading files.old).contents ≡ Some contents
        → IsDoneBy (planning_words form.entry) contents
        (O.writing out.old) (O.writing out.new)) }
    ensures stopped { (s : TheStop) → result ≡ Err s → (contents : List ℕ → List ℕ)
        → (F.reading files.old).contents ≡ Some contents
        → IsStopOf (planning_words form.entry) contents
        (O.writing out.old) (O.writing out.new) s }
    ensures started { (contents : List ℕ → List ℕ)
        → (F.reading files.old).contents ≡ Some contents
        → OutputStarted (planning_words form.entry) contents
        (O.writing out.old) (O.writing out.new) }
    ensures refused { (r : TheRefusal) → result ≡ Err (Stop.Refused r)
        → O.writing out.new ≡ O.writing out.old }
    ensures unread { (name : List ℕ) → result ≡ Err (Stop.Unread name)
        → IsUnread (planning_words form.entry) name
        (F.reading files.old) (F.reading files.new) (O.writing out.old) (O.writing out.new) }
    ensures unwritable { result ≡ Err Stop.Unwritable
        → MayFault (O.writing out.old).faults (O.writing out.new).faults }
    ensures own { (number : ℕ) → result ≡ Err (Stop.BadLine number) → ⊥ }
    ensures no_memory { result ≡ Err Stop.OutOfMemory → O.writing out.new ≡ O.writing out.old }
    ensures within { read_limit < bytes_given (F.reading files.new)
        → (F.reading files.new).current ≡ (F.reading files.old).current }
    ensures files_count { (F.reading files.old).faults ≤ (F.reading files.new).faults }
    ensures files_kept { ((name : List ℕ) → result ≡ Err (Stop.Unread name) → ⊥)
        → (F.reading files.new).faults ≡ (F.reading files.old).faults }
    ensures out_count { (O.writing out.old).faults ≤ (O.writing out.new).faults }
    ensures out_kept { (result ≡ Err Stop.Unwritable → ⊥)
        → (O.writing out.new).faults ≡ (O.writing out.old).faults }
{
    let compiled = compile(rt, alloc, files, form.file, form.top, &NoGate)?;
    match put_product(form.product, &compiled, out) {
        Ok(()) => Ok(()),
        Err(Failed) => Err(Stop::Unwritable),
    }
}
