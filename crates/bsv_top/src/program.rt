ghost use Rattle.std.specs.Prelude.{◌≡◌, ℕ, ◌<◌, ◌≤◌, ◌⊎◌, List, [], Some, map, string_bytes};
ghost use Rattle.bsv_io.specs.Faults.{MayFault};
ghost use Rattle.bsv_io.specs.InMemory.{contents_of};
ghost use Rattle.bsv_io.specs.Reading.{bytes_given};
ghost use Rattle.bsv_io.specs.Sure.{NoFault};
ghost use Rattle.bsv_io.specs.Writing.{appended, count_after};
ghost use Rattle.bsv_top.specs.Answers.{Answer, Asks, HasAnswer, HasNoForm};
ghost use Rattle.bsv_top.specs.Answers.{no_memory_line, printed};
ghost use Rattle.bsv_top.specs.Answers.{schedule_words, sim_words, suite_words, verilog_words};
ghost use Rattle.bsv_design.specs.scheme.Schemes.{Asking};
ghost use Rattle.bsv_tree.specs.meaning.Schemes.{tree_scheme};
ghost use Rattle.bsv_tree.specs.tree.Trees.{TreeData};
ghost use Rattle.bsv_design.specs.declared.schedule.Schedule.{Schedule as TheSchedule};
ghost use Rattle.bsv_flow.specs.Compilings.{IsPlanned};
ghost use Rattle.bsv_flow.specs.Schedulings.{IsVerilogOf, subject};
ghost use Rattle.bsv_suite.specs.Lists.{NamesTraces};
ghost use Rattle.bsv_suite.specs.Suites.{AreTold, bad_traces, suite_text};
ghost use Rattle.bsv_suite.specs.Texts.{Told};
ghost use Rattle.bsv_flow.specs.Sources.{read_limit};
ghost use Rattle.bsv_vtext.specs.Signals.{VModuleData};
ghost use Rattle.bsv_vtext.specs.VText.{vtext};
ghost use Rattle.bsv_top.specs.OneAnswer.{AsksNoVerilog, HaveModules, IsSameText, LayOut};
ghost use Rattle.bsv_top.specs.Counts.{CountsAnswer};
ghost use Rattle.bsv_top.specs.Headline.{Headline};
ghost use Rattle.bsv_top.specs.Made.{IsMade, made_contents, made_file, made_top, made_words};
ghost use Rattle.bsv_top.specs.Outcomes.{Accepts, Answered, AsksNoRun, AsksNoSuite, IsDecided};
ghost use Rattle.bsv_top.specs.Outcomes.{IsFault, OutputStarted, TextStarted, Unreadable};
ghost use Rattle.bsv_top.specs.Places.{IsTraceWithin, ReadsWithin};
ghost use Rattle.bsv_top.specs.LaidOut.{IsLaidOut};
ghost use Rattle.bsv_top.specs.Traces.{IsClean};
ghost use Rattle.bsv_top.specs.declared.status.Status.{Status as TheStatus};

use crate::answer::answer;
use crate::faults::{tell_stop, tell_usage};
use crate::form::form_of;
use crate::status::Status;
use bsv_io::{Files, Sink, SureFiles, SureSink};
use std::alloc::Global;
use std::thread::Threads;

/// Does all that the program does. `words` are those after the program's name, `files` are read,
/// the output goes to `out`, and a fault text of one line to `err`. The answer is the exit status.
///
/// The clauses that begin with `contents` speak of a source of files that tells its contents.
/// Want of memory may come as long as nothing is put to the output, and for a suite between its groups of traces.
pub fn run<R: Threads + Sync, F: Files, O: Sink, E: Sink>(
    rt: &R,
    alloc: Global,
    words: &[String],
    files: &mut F,
    out: &mut O,
    err: &mut E,
) -> Status
    // Words without a form: nothing is read and nothing is put to the output.
    ensures usage { result ≡ Status.Usage → HasNoForm (map string_bytes words.now) }
    ensures no_form { HasNoForm (map string_bytes words.now)
        → (result ≡ Status.Usage ⊎ result ≡ Status.WriteFault)
        × (F.reading files.new ≡ F.reading files.old) × (O.writing out.new ≡ O.writing out.old) }

    // Of a made design no file tells anything: nothing is read.
    ensures unread { (n : ℕ) → IsMade (map string_bytes words.now) n
        → F.reading files.new ≡ F.reading files.old }

    // What the words and the contents decide: the status, the whole output, the whole fault text.
    ensures answer { (contents : List ℕ → List ℕ) → (F.reading files.old).contents ≡ Some contents
        → IsDecided result → Answered (map string_bytes words.now) contents result
        (O.writing out.old) (O.writing out.new) (E.writing err.old) (E.writing err.new) }

    // What is accepted keeps the headline: it obeys its attributes, and each trace without a bad
    // line has one run, which `sim` prints and each written module shows.
    ensures headline { (contents : List ℕ → List ℕ) → (F.reading files.old).contents ≡ Some contents
        → Accepts result → (file top : List ℕ) (tree : TreeData) (made : TheSchedule)
        → Asks (map string_bytes words.now) file top → IsPlanned file contents top tree made
        → Headline contents file top tree made }

    // At every status a prefix of an answer's output and of a fault text is put.
    ensures output { (contents : List ℕ → List ℕ) → (F.reading files.old).contents ≡ Some contents
        → OutputStarted (map string_bytes words.now) contents (O.writing out.old)
        (O.writing out.new) }
    ensures text { (contents : List ℕ → List ℕ) → (F.reading files.old).contents ≡ Some contents
        → TextStarted (map string_bytes words.now) contents (E.writing err.old)
        (E.writing err.new) }

    // Nothing at all is put to the output where a file is refused, and nothing where memory is
    // wanting, but for a suite: a run over a trace takes all its memory before it puts the first byte,
    // and a suite takes some for each group of its traces.
    ensures refused { result ≡ Status.Refused → O.writing out.new ≡ O.writing out.old }
    ensures no_memory { result ≡ Status.OutOfMemory
        → (E.writing err.new ≡ appended no_memory_line (E.writing err.old))
        × ((O.writing out.new).faults ≡ (O.writing out.old).faults) }
    ensures no_output { AsksNoSuite (map string_bytes words.now) → result ≡ Status.OutOfMemory
        → O.writing out.new ≡ O.writing out.old }

    // No source, no list and no trace of a list is read on after one byte more than a source may have;
    // where the trace was run, it was read at most one piece after its first bad line.
    ensures sources_within { AsksNoRun (map string_bytes words.now)
        → read_limit < bytes_given (F.reading files.new)
        → (F.reading files.new).current ≡ (F.reading files.old).current }
    ensures within { (contents : List ℕ → List ℕ) → (F.reading files.old).contents ≡ Some contents
        → (file top trace : List ℕ) → map string_bytes words.now ≡ sim_words file top trace
        → ReadsWithin file top trace contents (F.reading files.old) (F.reading files.new) }
    ensures done_within { result ≡ Status.Done → (contents : List ℕ → List ℕ)
        → (F.reading files.old).contents ≡ Some contents
        → (file top trace : List ℕ) → map string_bytes words.now ≡ sim_words file top trace
        → IsTraceWithin file top trace contents (F.reading files.new) }
    ensures bad_within { result ≡ Status.TraceFault → (contents : List ℕ → List ℕ)
        → (F.reading files.old).contents ≡ Some contents
        → (file top trace : List ℕ) → map string_bytes words.now ≡ sim_words file top trace
        → IsTraceWithin file top trace contents (F.reading files.new) }

    // The causes of faults. Where a trace could be read no further, the report is put of the lines
    // that were given whole.
    ensures read_fault { result ≡ Status.ReadFault → Unreadable (map string_bytes words.now)
        (F.reading files.old) (F.reading files.new) (O.writing out.old) (O.writing out.new)
        (E.writing err.old) (E.writing err.new) }
    ensures write_fault { result ≡ Status.WriteFault
        → (MayFault (O.writing out.old).faults (O.writing out.new).faults
        × (E.writing err.new ≡ E.writing err.old))
        ⊎ MayFault (E.writing err.old).faults (E.writing err.new).faults }

    // Where a put of the output failed, nothing is put as a fault text.
    ensures quiet { (O.writing out.old).faults < (O.writing out.new).faults
        → E.writing err.new ≡ E.writing err.old }

    // Where a count of faults rose, the status is that of a fault.
    ensures files_rose { (F.reading files.old).faults < (F.reading files.new).faults
        → IsFault result }
    ensures out_rose { (O.writing out.old).faults < (O.writing out.new).faults → IsFault result }
    ensures err_rose { (E.writing err.old).faults < (E.writing err.new).faults → IsFault result }
    ensures files_count { (F.reading files.old).faults ≤ (F.reading files.new).faults }
    ensures out_count { (O.writing out.old).faults ≤ (O.writing out.new).faults }
    ensures err_count { (E.writing err.old).faults ≤ (E.writing err.new).faults }

    // Where no count rose, the status is that of the answer, or memory is wanting.
    ensures complete { (contents : List ℕ → List ℕ) → (F.reading files.old).contents ≡ Some contents
        → NoFault (F.reading files.old).faults (F.reading files.new).faults
        → NoFault (O.writing out.old).faults (O.writing out.new).faults
        → NoFault (E.writing err.old).faults (E.writing err.new).faults
        → (status : TheStatus) (output text : List ℕ)
        → Answer (map string_bytes words.now) contents status output text
        → result ≡ status ⊎ result ≡ Status.OutOfMemory }
{
    let Some(form) = form_of(words) else {
        return tell_usage(err);
    };
    match answer(rt, alloc, form, files, out) {
        Ok(()) => Status::Done,
        Err(stop) => tell_stop(err, stop),
    }
}

/// Does the same over files and sinks that never fail: the status is that of the answer, and the
/// sinks take as many bytes as the answer has; or memory is wanting, and only that is told.
pub fn run_surely<R: Threads + Sync>(
    rt: &R,
    alloc: Global,
    words: &[String],
    files: &mut SureFiles,
    out: &mut SureSink,
    err: &mut SureSink,
) -> Status
    ensures complete { (status : TheStatus) (output text : List ℕ)
        → Answer (map string_bytes words.now) (contents_of files.old.files) status output text
        → result ≡ status ⊎ result ≡ Status.OutOfMemory }
    ensures answer { IsDecided result → CountsAnswer (map string_bytes words.now)
        (contents_of files.old.files) result out.old out.new err.old err.new }
    ensures no_memory { result ≡ Status.OutOfMemory
        → err.new ≡ count_after no_memory_line err.old }
{
    run(rt, alloc, words, files, out, err)
}

/// All words and contents have an answer, and it is one: one status, one output, and one fault text
/// but for the place of a `Syntax`. The output is left open where words ask for Verilog: two modules may
/// carry one tree.
///
/// Words that ask for a run, over a trace, over those of a list, or of a made design, have an answer where what is accepted can be
/// laid out, and words that ask for Verilog where it has a module. The program builds the module that it
/// puts: so it has built one wherever such words are done, and of a tree that had none it could tell nothing
/// but want of memory.
///
/// Words that ask for a schedule, and files that have one, have it as their answer; words that ask for
/// Verilog have the text of every module that carries the tree; and words that ask for a run, files that are
/// accepted and a trace without a bad line have a report, and words that ask for a suite of such traces have
/// the text of their sections. What is accepted and laid out keeps the headline.
pub fn one_answer()
    ensures some { (words : List (List ℕ)) (contents : List ℕ → List ℕ) → LayOut words contents
        → HaveModules words contents → HasAnswer words contents }
    ensures one_status { (words : List (List ℕ)) (contents : List ℕ → List ℕ)
        (status other : TheStatus) (output text more said : List ℕ)
        → Answer words contents status output text → Answer words contents other more said
        → status ≡ other }
    ensures one_output { (words : List (List ℕ)) (contents : List ℕ → List ℕ)
        (status other : TheStatus) (output text more said : List ℕ) → AsksNoVerilog words
        → Answer words contents status output text → Answer words contents other more said
        → output ≡ more }
    ensures one_text { (words : List (List ℕ)) (contents : List ℕ → List ℕ)
        (status other : TheStatus) (output text more said : List ℕ)
        → Answer words contents status output text → Answer words contents other more said
        → IsSameText text said }
    ensures planned { (contents : List ℕ → List ℕ) (file top : List ℕ)
        (tree : TreeData) (made : TheSchedule) → IsPlanned file contents top tree made
        → Answer (schedule_words file top) contents Status.Done (printed tree made) [] }
    ensures verilog { (contents : List ℕ → List ℕ) (file top : List ℕ)
        (tree : TreeData) (made : TheSchedule) (v : VModuleData)
        → IsPlanned file contents top tree made → IsVerilogOf tree made v
        → Answer (verilog_words file top) contents Status.Done (vtext v) [] }
    ensures simulated { (contents : List ℕ → List ℕ) (file top trace : List ℕ)
        (tree : TreeData) (made : TheSchedule) (qs : List Asking)
        → IsPlanned file contents top tree made → IsLaidOut tree
        → IsClean (tree_scheme tree).elements (contents trace) qs
        → (output : List ℕ) × Answer (sim_words file top trace) contents Status.Done output [] }
    ensures told { (contents : List ℕ → List ℕ) (file top list : List ℕ) (tree : TreeData)
        (made : TheSchedule) (names : List (List ℕ)) (tolds : List Told)
        → IsPlanned file contents top tree made → IsLaidOut tree
        → NamesTraces (contents list) names → AreTold (subject tree) made contents names tolds
        → bad_traces tolds ≡ 0
        → Answer (suite_words file top list) contents Status.Done (suite_text tolds) [] }
    ensures made { (contents : List ℕ → List ℕ) (n : ℕ) (tree : TreeData) (made : TheSchedule)
        → IsMade (made_words n) n → IsPlanned made_file (made_contents n) made_top tree made
        → IsLaidOut tree
        → (output : List ℕ) × Answer (made_words n) contents Status.Done output [] }
    ensures headline { (contents : List ℕ → List ℕ) (file top : List ℕ)
        (tree : TreeData) (made : TheSchedule) → IsPlanned file contents top tree made
        → IsLaidOut tree → Headline contents file top tree made }
{}
