ghost use Rattle.std.specs.Prelude.{◌≡◌, ◌<◌, ◌≤◌, ◌^◌, length, take, None, Some, IsSome, IfOk, IfSome, IfNone, OnOk, OnErr, OnSome, IsUtf8};
ghost use Rattle.std.specs.Io.KnownBytes.{Consumes, IsAtEnd, Keeps};
ghost use Rattle.bsv_io.specs.Disk.{disk_reading};
ghost use Rattle.bsv_io.specs.Faults.{MayFault};
ghost use Rattle.bsv_io.specs.Reading.{Gives, chosen, advanced, current_name, rest};
ghost use Rattle.bsv_io.specs.Standing.{fresh, opened, refused, stuck, passed};

use crate::failed::Failed;
use crate::files::Files;
use crate::open_files::OpenFiles;
use crate::progress::Progress;
use bsv_bits::Name;
use std::io::{ErrorKind, Read};
use std::marker::Model;

/// Files that are opened by their names, as the real ones of a runtime. A name that is not UTF-8
/// names none of them.
///
/// Contracts see where the source stands, and what the open file tells of its rest: of a real file
/// that is nothing.
#[derive(Drop)]
pub struct DiskFiles<'a, R: OpenFiles> {
    rt: &'a R,
    file: Option<R::File>,
    progress: Progress,
}

impl<'a, R: OpenFiles> Model for DiskFiles<'a, R> {
    ghost use Rattle.std.specs.Prelude.{IsSome, option_and_then};
    ghost use Rattle.bsv_io.specs.Disk.{DiskSource};

    ghost Value = { DiskSource };

    ghost view = { λ files. record {
      standing = files.progress;
      left = option_and_then (λ file. R.File.remaining file) files.file;
    } };

    ghost invariant = { λ files. IsSome files.progress.current → IsSome files.file };
}

/// Reads the next bytes to the front of the buffer, again where a signal came between.
fn read_some<F: Read>(file: &mut F, buf: &mut [u8]) -> Option<usize>
    ensures within { IfSome result (λ n. n ≤ length buf.new) }
    ensures bytes { IfSome result (λ n. Consumes (F.remaining file.old) (F.remaining file.new)
        (take n buf.new)) }
    ensures end { IfSome result (λ n. n ≡ 0 → 0 < length buf.old → IsAtEnd (F.remaining file.new)) }
    ensures failed { IfNone result (Keeps (F.remaining file.old) (F.remaining file.new)) }
{
    for _turn in 0..u64::MAX {
        match file.read(buf) {
            Ok(count) => return Some(count),
            Err(error) => {
                if error.kind() != ErrorKind::Interrupted {
                    return None;
                }
            }
        }
    }
    None
}

impl<'a, R: OpenFiles> DiskFiles<'a, R> {
    pub fn new(rt: &'a R) -> DiskFiles<'a, R>
        ensures { result ≡ record { standing = fresh; left = None } }
    {
        DiskFiles {
            rt,
            file: None,
            progress: Progress::new(),
        }
    }
}

impl<R: OpenFiles> Files for DiskFiles<'_, R> {
    ghost reading = { disk_reading };

    fn choose(&mut self, name: Name) -> Result<(), Failed>
        ensures ok { OnOk result (disk_reading self.new ≡ chosen name (disk_reading self.old)) }
        ensures err { OnErr result (disk_reading self.new ≡ record (disk_reading self.old) {
          faults = (disk_reading self.new).faults;
          blamed = Some name;
          current = None;
        }) }
        ensures count { (disk_reading self.old).faults ≤ (disk_reading self.new).faults }
        ensures counted { OnErr result (MayFault (disk_reading self.old).faults
            (disk_reading self.new).faults) }

        // What is left is what the opened file of this name tells; each failure counts once.
        ensures text { OnOk result (IsUtf8 name) }
        ensures left { OnOk result (R.opens name self.new.left) }
        ensures opened { OnOk result (self.new.standing ≡ opened name self.old.standing) }
        ensures refused { OnErr result (self.new.standing ≡ refused name self.old.standing) }
    {
        self.file = self.rt.open(name.bytes());
        if self.file.is_none() {
            self.progress.refuse(name);
            return Err(Failed);
        }
        self.progress.choose(name);
        Ok(())
    }

    fn read(&mut self, buf: &mut [u8]) -> Result<usize, Failed>
        requires room { 0 < length buf.old }
        requires current { IsSome (disk_reading self.old).current }
        ensures within { IfOk result (λ n. n ≤ length buf.new) }
        ensures ok { IfOk result (λ n. disk_reading self.new ≡ advanced n (disk_reading self.old)) }
        ensures bytes { IfOk result (λ n. IfSome (rest (disk_reading self.old)) (Gives n buf.new)) }
        ensures err { OnErr result (disk_reading self.new ≡ record (disk_reading self.old) {
          faults = (disk_reading self.new).faults;
          blamed = current_name (disk_reading self.old);
        }) }
        ensures count { (disk_reading self.old).faults ≤ (disk_reading self.new).faults }
        ensures counted { OnErr result (MayFault (disk_reading self.old).faults
            (disk_reading self.new).faults) }

        // Each failure counts once, and the buffer has what the file gave.
        ensures passed { IfOk result (λ n. self.new.standing ≡ passed n self.old.standing) }
        ensures stuck { OnErr result (self.new.standing ≡ stuck self.old.standing) }
        ensures given { IfOk result (λ n. Consumes self.old.left self.new.left (take n buf.new)) }
        ensures end { IfOk result (λ n. n ≡ 0 → IsAtEnd self.new.left) }
    {
        let file = self.file.as_mut().unwrap();
        match read_some(file, buf) {
            Some(count) if self.progress.fits(count) => {
                self.progress.advance(count);
                Ok(count)
            }
            _ => {
                self.progress.fail();
                Err(Failed)
            }
        }
    }
}
