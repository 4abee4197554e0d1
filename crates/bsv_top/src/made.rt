ghost use Rattle.std.specs.Prelude.{◌≡◌, ◌≤◌, ◌+◌, ℕ, List, [], ◌∷◌, codes, length};
ghost use Rattle.std.specs.Prelude.{None, Err, IfOk, IfErr, OnOk};
ghost use Rattle.bsv_prim.specs.declared.part.Part.{Part as ThePart};
ghost use Rattle.bsv_design.specs.parts.Printed.{ShowPart};
ghost use Rattle.bsv_trace.specs.Shown.{ShowParts};
ghost use Rattle.bsv_flow.specs.Running.{BelongTogether};
ghost use Rattle.bsv_flow.specs.declared.refusal.Refusal.{Refusal as TheRefusal};
ghost use Rattle.bsv_io.specs.Faults.{MayFault};
ghost use Rattle.bsv_io.specs.Writing.{joined};
ghost use Rattle.bsv_top.specs.Answers.{MadeAnswer};
ghost use Rattle.bsv_top.specs.Made as spec;
ghost use Rattle.bsv_top.specs.Made.{made_file, made_text, made_words, summary_of};
ghost use Rattle.bsv_top.specs.MadeRuns.{HasFired, IsMadeStop, IsSummary};
ghost use Rattle.bsv_top.specs.Outcomes.{IsDoneBy, OutputStarted};
ghost use Rattle.bsv_top.specs.Running.{IsStart, scheduled_of};
ghost use Rattle.bsv_top.specs.Stops.{IsStopOf};
ghost use Rattle.bsv_top.specs.declared.status.Status.TheVariants as status;
ghost use Rattle.bsv_top.specs.declared.stop.Stop.{Stop as TheStop};

use crate::scheduled::ScheduledDesign;
use crate::simulation::start;
use crate::stop::Stop;
use bsv_bits::{Name, OutOfMemory, Word};
use bsv_design::{Design, Kind, NamedPart};
use bsv_flow::{Compiled, compile};
use bsv_io::{Failed, NoGate, Sink, SureFiles};
use bsv_prim::Primitive;
use bsv_run::Run;
use bsv_trace::registers_after;
use itoa::Buffer;
use std::alloc::Global;
use std::thread::Threads;

/// The pieces of a text, one after the other.
fn join(alloc: Global, pieces: &[&[u8]]) -> Result<Vec<u8>, OutOfMemory>
    ensures { IfOk result (λ text. text.items ≡ joined pieces.now) }
{
    let mut text = Vec::new(alloc);
    for piece in pieces {
        text.extend_from_slice(piece)?;
    }
    Ok(text)
}

/// The text of the made design of the size `n`: so many queues in a row, with a rule between each two.
pub fn made_source(alloc: Global, n: u32) -> Result<Vec<u8>, OutOfMemory>
    ensures { IfOk result (λ source. source.items ≡ made_text n) }
{
    let mut digits = Buffer::new();
    let size = digits.format(n).as_bytes();
    let head = b"import FIFO::*;\nmodule mkMade(Empty);\nReg#(Bit#(32)) c <- mkReg(0);\n";
    let sum = b"Reg#(Bit#(32)) s <- mkReg(0);\nFIFO#(Bit#(32)) f[";
    let queues = b"];\nfor (Integer i = 0; i < ";
    let feed = b"; i = i + 1) f[i] <- mkFIFO;\nrule feed; f[0].enq(c); c <= c + 1; endrule\n";
    let more = b"for (Integer i = 1; i < ";
    let begin = b"; i = i + 1) begin\nrule move; f[i].enq(f[i - 1].first + fromInteger(i)); ";
    let drain = b"f[i - 1].deq; endrule\nend\nrule drain; s <= s + f[";
    let last = b" - 1].first; f[";
    let end = b" - 1].deq; endrule\nendmodule\n";
    join(
        alloc,
        &[
            head, sum, size, queues, size, feed, more, size, begin, drain, size, last, size, end,
        ],
    )
}

/// The one file that there is: the text of the made design.
#[tactic(auto, unfolding(crate::specs::Made::made_file))]
fn made_files(alloc: Global, size: u32) -> Result<SureFiles, OutOfMemory>
    ensures { IfOk result (λ files. files
        ≡ record { files = (made_file, made_text size) ∷ []; current = None }) }
{
    let name = Name::new(alloc, b"made.bsv")?;
    let source = made_source(alloc, size)?;
    let mut files = Vec::new(alloc);
    files.push((name, source))?;
    Ok(SureFiles::new(files))
}

/// The sum of two counts, where there is a number for it.
fn sum_of(count: u64, more: usize) -> Result<u64, OutOfMemory>
    ensures { IfOk result (λ sum. sum ≡ count + more) }
{
    count.checked_add(more as u64).ok_or(OutOfMemory)
}

/// Runs 100 clocks without requests from the start, and counts the elements that fire.
fn run_clocks(scheduled: &ScheduledDesign, run: &mut Run) -> Result<u64, OutOfMemory>
    requires start { IsStart scheduled.now run.old }
    ensures { IfOk result (λ count. HasFired scheduled.now 100 count run.new) }
{
    let mut count = 0u64;
    for _clock in 0..100u32 {
        run.sim
            .clock(&scheduled.schedule, &run.requests, &mut run.fired);
        count = sum_of(count, run.fired.list.as_slice().len())?;
    }
    Ok(count)
}

/// The number that an instance holds whose registers these are.
fn number_of(kind: Kind, registers: &[Word]) -> Option<Word>
    ensures { (p : ThePart) → ShowPart kind registers.now p → result ≡ spec.number_of p }
{
    match kind {
        Kind::Reg(_) | Kind::RegU(_) => Some(kind.item(registers, 0)),
        Kind::Plain(_) | Kind::Pipeline(_) | Kind::Bypass(_) => None,
        Kind::Wire(_) | Kind::DWire(_) | Kind::RWire(_) | Kind::Pulse(_) => None,
    }
}

/// What the first instance of a path holds, where that is a number.
fn held_at(path: &[u8], instances: &[NamedPart], registers: &[Word]) -> Option<Word>
    ensures { (ps : List ThePart) → ShowParts instances.now registers.now ps
        → result ≡ spec.held_at path.now instances.now ps }
{
    let mut left = instances;
    let mut held = registers;
    while let Some((instance, others)) = left.split_first() {
        if instance.path.bytes() == path {
            return number_of(instance.kind, held);
        }
        left = others;
        held = registers_after(held, instance.kind.registers());
    }
    None
}

/// The line of the state of `s`.
fn sum_line(alloc: Global, sum: Option<Word>) -> Result<Vec<u8>, OutOfMemory>
    ensures { IfOk result (λ line. line.items ≡ spec.sum_line sum) }
{
    let Some(word) = sum else {
        return Ok(Vec::new(alloc));
    };
    let mut constant = [0u8; 40];
    let len = word.write_hex(&mut constant);
    join(alloc, &[b"s = ", &constant[..len], b"\n"])
}

/// The lines of a summary.
fn summary(
    alloc: Global,
    size: u32,
    design: &Design,
    fired: u64,
    registers: &[Word],
) -> Result<Vec<u8>, OutOfMemory>
    ensures { IfOk result (λ text. (ps : List ThePart)
        → ShowParts design.now.parts registers.now ps
        → text.items ≡ summary_of size (length design.now.elements) (length design.now.parts)
        fired (spec.held_at (codes "s") design.now.parts ps)) }
{
    let sum = held_at(b"s", design.parts.as_slice(), registers);
    let line = sum_line(alloc, sum)?;
    let (mut size_text, mut elements_text) = (Buffer::new(), Buffer::new());
    let (mut instances_text, mut fired_text) = (Buffer::new(), Buffer::new());
    join(
        alloc,
        &[
            b"made ",
            size_text.format(size).as_bytes(),
            b"\nelements ",
            elements_text.format(design.elements.len()).as_bytes(),
            b"\ninstances ",
            instances_text.format(design.parts.len()).as_bytes(),
            b"\nclocks 100\nfired ",
            fired_text.format(fired).as_bytes(),
            b"\n",
            line.as_slice(),
        ],
    )
}

/// Runs the made design that was compiled, and tells the summary.
fn sum_up(alloc: Global, size: u32, compiled: Compiled) -> Result<Vec<u8>, OutOfMemory>
    requires { BelongTogether compiled }
    ensures { IfOk result (λ text. IsSummary (scheduled_of compiled) size text.items) }
{
    let mut started = start(alloc, compiled)?;
    let fired = run_clocks(&started.scheduled, &mut started.run)?;
    let registers = started.run.registers();
    summary(alloc, size, &started.scheduled.design, fired, registers)
}

/// Compiles the made design of a size, runs it, and tells the summary.
fn made_summary<R: Threads + Sync>(rt: &R, alloc: Global, size: u32) -> Result<Vec<u8>, Stop>
    ensures done { IfOk result (λ text. MadeAnswer size status.Done text.items []) }
    ensures stopped { IfErr result (λ s. IsMadeStop size s) }
{
    let mut files = made_files(alloc, size)?;
    let compiled = compile(rt, alloc, &mut files, "made.bsv", "mkMade", &NoGate)?;
    let text = sum_up(alloc, size, compiled)?;
    Ok(text)
}

/// Puts the summary of the made design of a size. Nothing is put before all of it is known.
pub(crate) fn make<R: Threads + Sync, O: Sink>(
    rt: &R,
    alloc: Global,
    size: u32,
    out: &mut O,
) -> Result<(), Stop>
    requires least { 1 ≤ size }
    requires most { size ≤ 400 }
    ensures done { OnOk result ((contents : List ℕ → List ℕ) → IsDoneBy (made_words size) contents
        (O.writing out.old) (O.writing out.new)) }
    ensures stopped { (s : TheStop) → result ≡ Err s → (contents : List ℕ → List ℕ)
        → IsStopOf (made_words size) contents (O.writing out.old) (O.writing out.new) s }
    ensures started { (contents : List ℕ → List ℕ) → OutputStarted (made_words size) contents
        (O.writing out.old) (O.writing out.new) }
    ensures refused { (r : TheRefusal) → result ≡ Err (Stop.Refused r)
        → O.writing out.new ≡ O.writing out.old }
    ensures unread { (name : List ℕ) → result ≡ Err (Stop.Unread name) → ⊥ }
    ensures own { (number : ℕ) → result ≡ Err (Stop.BadLine number) → ⊥ }
    ensures unwritable { result ≡ Err Stop.Unwritable
        → MayFault (O.writing out.old).faults (O.writing out.new).faults }
    ensures no_memory { result ≡ Err Stop.OutOfMemory → O.writing out.new ≡ O.writing out.old }
    ensures out_count { (O.writing out.old).faults ≤ (O.writing out.new).faults }
    ensures out_kept { (result ≡ Err Stop.Unwritable → ⊥)
        → (O.writing out.new).faults ≡ (O.writing out.old).faults }
{
    let text = made_summary(rt, alloc, size)?;
    match out.put(text.as_slice()) {
        Ok(()) => Ok(()),
        Err(Failed) => Err(Stop::Unwritable),
    }
}
