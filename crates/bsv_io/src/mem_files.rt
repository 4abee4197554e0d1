ghost use Rattle.std.specs.Prelude.{◌≡◌, ◌+◌, ◌<◌, ◌≤◌, ◌^◌, ◌++◌, ◌||◌, length, min, take, drop};
ghost use Rattle.std.specs.Prelude.{not, None, Some, IsNone, IsSome, IsOk, IfOk, IfSome, OnOk};
ghost use Rattle.std.specs.Prelude.{OnErr, is_ok, is_none, if◌then◌else◌};
ghost use Rattle.std.specs.Option.{option_copied};
ghost use Rattle.bsv_io.specs.Calls.{is_listed, called};
ghost use Rattle.bsv_io.specs.Faults.{MayFault};
ghost use Rattle.bsv_io.specs.InMemory.{entries, file_of, left_of, mem_reading, sure_reading};
ghost use Rattle.bsv_io.specs.Reading.{Gives, chosen, advanced, current_name, rest};
ghost use Rattle.bsv_io.specs.Standing.{fresh, opened, refused, stuck, passed};

use crate::calls::FailingCalls;
use crate::contents::{copy_front, find, left};
use crate::failed::Failed;
use crate::files::Files;
use crate::progress::Progress;
use bsv_bits::{Name, OutOfMemory};
use std::alloc::Global;
use std::marker::Model;

/// Files in memory, for tests: calls that are listed by their numbers fail, and so does the choice
/// of a name that is missing.
#[derive(Drop)]
pub struct MemFiles {
    files: Vec<(Name, Vec<u8>)>,
    calls: FailingCalls,
    progress: Progress,
}

impl Model for MemFiles {
    ghost use Rattle.bsv_io.specs.InMemory.{MemSource, entries};

    ghost Value = { MemSource };

    ghost view = { λ s. record {
      files = entries s.files.items;
      plan = s.calls;
      standing = s.progress;
    } };
}

impl MemFiles {
    /// A source of these files, in which the calls with these numbers fail. Calls, of `choose` and
    /// of `read` alike, are numbered from 0. Of two files with one name the first counts.
    pub fn new(
        _alloc: Global,
        files: Vec<(Name, Vec<u8>)>,
        failing: Vec<u64>,
    ) -> Result<MemFiles, OutOfMemory>
        ensures taken { IsOk result }
        ensures source { IfOk result (λ s. s ≡ record {
          files = entries files.items;
          plan = record { failing = failing.items; made = 0 };
          standing = fresh;
        }) }
    {
        Ok(MemFiles {
            files,
            calls: FailingCalls::new(failing),
            progress: Progress::new(),
        })
    }
}

impl Files for MemFiles {
    ghost reading = { mem_reading };

    fn choose(&mut self, name: Name) -> Result<(), Failed>
        ensures ok { OnOk result (mem_reading self.new ≡ chosen name (mem_reading self.old)) }
        ensures err { OnErr result (mem_reading self.new ≡ record (mem_reading self.old) {
          faults = (mem_reading self.new).faults;
          blamed = Some name;
          current = None;
        }) }
        ensures count { (mem_reading self.old).faults ≤ (mem_reading self.new).faults }
        ensures counted { OnErr result (MayFault (mem_reading self.old).faults
            (mem_reading self.new).faults) }

        // Which calls fail, and all that a call changes.
        ensures fails { is_ok result ≡ not (is_listed self.old.plan || is_none
            (file_of self.old.files name)) }
        ensures files { self.new.files ≡ self.old.files }
        ensures numbered { self.new.plan ≡ called self.old.plan }
        ensures chosen { OnOk result (self.new.standing ≡ opened name self.old.standing) }
        ensures refused { OnErr result (self.new.standing ≡ refused name self.old.standing) }
    {
        if self.calls.next_fails() || find(&self.files, name.bytes()).is_none() {
            self.progress.refuse(name);
            return Err(Failed);
        }
        self.progress.choose(name);
        Ok(())
    }

    fn read(&mut self, buf: &mut [u8]) -> Result<usize, Failed>
        requires room { 0 < length buf.old }
        requires current { IsSome (mem_reading self.old).current }
        ensures within { IfOk result (λ n. n ≤ length buf.new) }
        ensures ok { IfOk result (λ n. mem_reading self.new ≡ advanced n (mem_reading self.old)) }
        ensures bytes { IfOk result (λ n. IfSome (rest (mem_reading self.old)) (Gives n buf.new)) }
        ensures err { OnErr result (mem_reading self.new ≡ record (mem_reading self.old) {
          faults = (mem_reading self.new).faults;
          blamed = current_name (mem_reading self.old);
        }) }
        ensures count { (mem_reading self.old).faults ≤ (mem_reading self.new).faults }
        ensures counted { OnErr result (MayFault (mem_reading self.old).faults
            (mem_reading self.new).faults) }

        // Which calls fail, how much a call gives, and all that it changes.
        ensures fails { is_ok result ≡ not (is_listed self.old.plan) }
        ensures files { self.new.files ≡ self.old.files }
        ensures numbered { self.new.plan ≡ called self.old.plan }
        ensures most { IfOk result (λ n. IfSome self.old.standing.current
            (λ at. n ≡ min (length (left_of self.old.files at)) (length buf.old))) }
        ensures behind { IfOk result (λ n. drop n buf.new ≡ drop n buf.old) }
        ensures passed { IfOk result (λ n. self.new.standing ≡ passed n self.old.standing) }
        ensures stuck { OnErr result (self.new.standing ≡ stuck self.old.standing) }
        ensures buffer { OnErr result (buf.new ≡ buf.old) }
    {
        if self.calls.next_fails() {
            self.progress.fail();
            return Err(Failed);
        }
        let count = copy_front(left(&self.files, self.progress.current()), buf);
        self.progress.advance(count);
        Ok(count)
    }
}
