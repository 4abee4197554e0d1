ghost use Rattle.std.specs.Prelude.{◌≡◌, ◌<◌, ◌≤◌, length, min, drop, None, Some, IsSome, IsOk, IfOk, IfSome, OnOk, OnErr};
ghost use Rattle.bsv_io.specs.Faults.{MayFault};
ghost use Rattle.bsv_io.specs.InMemory.{entries, left_of, sure_reading};
ghost use Rattle.bsv_io.specs.Reading.{Gives, chosen, advanced, current_name, rest};
ghost use Rattle.bsv_io.specs.Sure.{NoFault};

use crate::contents::{copy_front, left};
use crate::failed::Failed;
use crate::files::Files;
use crate::progress::CurrentFile;
use bsv_bits::Name;
use std::marker::Model;

/// Files in memory that never fail. A name that is missing reads as an empty file.
#[derive(Drop)]
pub struct SureFiles {
    files: Vec<(Name, Vec<u8>)>,
    current: Option<CurrentFile>,
}

impl Model for SureFiles {
    ghost use Rattle.bsv_io.specs.InMemory.{SureSource, entries};

    ghost Value = { SureSource };

    ghost view = { λ s. record { files = entries s.files.items; current = s.current } };
}

impl SureFiles {
    /// A source of these files. Of two files with one name the first counts.
    pub fn new(files: Vec<(Name, Vec<u8>)>) -> SureFiles
        ensures { result ≡ record { files = entries files.items; current = None } }
    {
        SureFiles {
            files,
            current: None,
        }
    }
}

impl Files for SureFiles {
    ghost reading = { sure_reading };

    fn choose(&mut self, name: Name) -> Result<(), Failed>
        ensures ok { OnOk result (sure_reading self.new ≡ chosen name (sure_reading self.old)) }
        ensures err { OnErr result (sure_reading self.new ≡ record (sure_reading self.old) {
          faults = (sure_reading self.new).faults;
          blamed = Some name;
          current = None;
        }) }
        ensures count { (sure_reading self.old).faults ≤ (sure_reading self.new).faults }
        ensures counted { OnErr result (MayFault (sure_reading self.old).faults
            (sure_reading self.new).faults) }

        // No call fails, and the choice is all that changes.
        ensures sure { IsOk result }
        ensures never { NoFault (sure_reading self.old).faults (sure_reading self.new).faults }
        ensures files { self.new.files ≡ self.old.files }
        ensures chosen { self.new.current ≡ Some (record { name = name; place = 0 }) }
    {
        self.current = Some(CurrentFile::new(name));
        Ok(())
    }

    fn read(&mut self, buf: &mut [u8]) -> Result<usize, Failed>
        requires room { 0 < length buf.old }
        requires current { IsSome (sure_reading self.old).current }
        ensures within { IfOk result (λ n. n ≤ length buf.new) }
        ensures ok { IfOk result (λ n. sure_reading self.new ≡ advanced n (sure_reading self.old)) }
        ensures bytes { IfOk result (λ n. IfSome (rest (sure_reading self.old)) (Gives n buf.new)) }
        ensures err { OnErr result (sure_reading self.new ≡ record (sure_reading self.old) {
          faults = (sure_reading self.new).faults;
          blamed = current_name (sure_reading self.old);
        }) }
        ensures count { (sure_reading self.old).faults ≤ (sure_reading self.new).faults }
        ensures counted { OnErr result (MayFault (sure_reading self.old).faults
            (sure_reading self.new).faults) }

        // No call fails; how much a call gives, and what it leaves.
        ensures sure { IsOk result }
        ensures never { NoFault (sure_reading self.old).faults (sure_reading self.new).faults }
        ensures files { self.new.files ≡ self.old.files }
        ensures most { IfOk result (λ n. IfSome self.old.current
            (λ at. n ≡ min (length (left_of self.old.files at)) (length buf.old))) }
        ensures behind { IfOk result (λ n. drop n buf.new ≡ drop n buf.old) }
    {
        let file = self.current.as_mut().unwrap();
        let count = copy_front(left(&self.files, file), buf);
        file.advance(count);
        Ok(count)
    }
}
