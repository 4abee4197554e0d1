ghost use Rattle.std.specs.Prelude.{◌≡◌, ℕ, ◌<◌, ◌≤◌, List, Some, Err, OnOk};
ghost use Rattle.bsv_io.specs.Faults.{MayFault};
ghost use Rattle.bsv_io.specs.Reading.{bytes_given};
ghost use Rattle.bsv_flow.specs.Sources.{read_limit};
ghost use Rattle.bsv_flow.specs.declared.refusal.Refusal.{Refusal as TheRefusal};
ghost use Rattle.bsv_top.specs.Answers.{sim_words};
ghost use Rattle.bsv_top.specs.Forms.{words_of};
ghost use Rattle.bsv_top.specs.Outcomes.{AsksNoRun, AsksNoSuite, IsDoneBy, IsUnread};
ghost use Rattle.bsv_top.specs.Outcomes.{OutputStarted};
ghost use Rattle.bsv_top.specs.Places.{IsTraceWithin, ReadsWithin};
ghost use Rattle.bsv_top.specs.Stops.{IsStopOf};
ghost use Rattle.bsv_top.specs.declared.stop.Stop.{Stop as TheStop};

use crate::form::Form;
use crate::made::make;
use crate::planning::plan;
use crate::simulation::simulate;
use crate::stop::Stop;
use crate::suite::tell_suite;
use bsv_io::{Files, Sink};
use std::alloc::Global;
use std::thread::Threads;

/// Does what a form asks for.
pub(crate) fn answer<R: Threads + Sync, F: Files, O: Sink>(
    rt: &R,
    alloc: Global,
    form: Form<'_>,
    files: &mut F,
    out: &mut O,
) -> Result<(), Stop>
    requires { (n : ℕ) → form ≡ Form.Made n → (1 ≤ n) × (n ≤ 400) }
    ensures done { OnOk result ((contents : List ℕ → List ℕ)
        → (F.reading files.old).contents ≡ Some contents
        → IsDoneBy (words_of form.entry) contents
        (O.writing out.old) (O.writing out.new)) }
    ensures stopped { (s : TheStop) → result ≡ Err s → (contents : List ℕ → List ℕ)
        → (F.reading files.old).contents ≡ Some contents
        → IsStopOf (words_of form.entry) contents
        (O.writing out.old) (O.writing out.new) s }
    ensures started { (contents : List ℕ → List ℕ)
        → (F.reading files.old).contents ≡ Some contents
        → OutputStarted (words_of form.entry) contents
        (O.writing out.old) (O.writing out.new) }
    ensures refused { (r : TheRefusal) → result ≡ Err (Stop.Refused r)
        → O.writing out.new ≡ O.writing out.old }
    ensures unread { (name : List ℕ) → result ≡ Err (Stop.Unread name)
        → IsUnread (words_of form.entry) name
        (F.reading files.old) (F.reading files.new) (O.writing out.old) (O.writing out.new) }
    ensures unwritable { result ≡ Err Stop.Unwritable
        → MayFault (O.writing out.old).faults (O.writing out.new).faults }
    ensures unchosen { (n : ℕ) → form.entry ≡ Form.Made n
        → F.reading files.new ≡ F.reading files.old }
    ensures no_output { AsksNoSuite (words_of form.entry) → result ≡ Err Stop.OutOfMemory
        → O.writing out.new ≡ O.writing out.old }
    ensures sources_within { AsksNoRun (words_of form.entry)
        → read_limit < bytes_given (F.reading files.new)
        → (F.reading files.new).current ≡ (F.reading files.old).current }
    ensures within { (contents : List ℕ → List ℕ)
        → (F.reading files.old).contents ≡ Some contents
        → (file top trace : List ℕ) → words_of form.entry ≡ sim_words file top trace
        → ReadsWithin file top trace contents (F.reading files.old) (F.reading files.new) }
    ensures done_within { OnOk result ((contents : List ℕ → List ℕ)
        → (F.reading files.old).contents ≡ Some contents
        → (file top trace : List ℕ) → words_of form.entry ≡ sim_words file top trace
        → IsTraceWithin file top trace contents (F.reading files.new)) }
    ensures bad_within { (number : ℕ) → result ≡ Err (Stop.BadLine number)
        → (contents : List ℕ → List ℕ) → (F.reading files.old).contents ≡ Some contents
        → (file top trace : List ℕ) → words_of form.entry ≡ sim_words file top trace
        → IsTraceWithin file top trace contents (F.reading files.new) }
    ensures no_list_line { (number : ℕ) → result ≡ Err (Stop.BadListLine number)
        → (file top trace : List ℕ) → words_of form.entry ≡ sim_words file top trace → ⊥ }
    ensures no_traces { (count : ℕ) → result ≡ Err (Stop.BadTraces count)
        → (file top trace : List ℕ) → words_of form.entry ≡ sim_words file top trace → ⊥ }
    ensures files_count { (F.reading files.old).faults ≤ (F.reading files.new).faults }
    ensures files_kept { ((name : List ℕ) → result ≡ Err (Stop.Unread name) → ⊥)
        → (F.reading files.new).faults ≡ (F.reading files.old).faults }
    ensures out_count { (O.writing out.old).faults ≤ (O.writing out.new).faults }
    ensures out_kept { (result ≡ Err Stop.Unwritable → ⊥)
        → (O.writing out.new).faults ≡ (O.writing out.old).faults }
{
    match form {
        Form::Plan(form) => plan(rt, alloc, form, files, out),
        Form::Sim(form) => simulate(rt, alloc, form, files, out),
        Form::Made(size) => make(rt, alloc, size, out),
        Form::Suite(form) => tell_suite(rt, alloc, form, files, out),
    }
}
