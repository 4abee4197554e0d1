ghost use Rattle.std.specs.Prelude.{◌≡◌, ◌+◌, ◌<◌, ◌≤◌, ◌^◌, ◌↔◌, Some, IsSome, IfSome, IsTrue};
ghost use Rattle.std.specs.Option.{ForSome};
ghost use Rattle.bsv_io.specs.Faults.{MayFault};
ghost use Rattle.bsv_io.specs.Standing.{fresh, opened, refused, stuck, passed};

use bsv_bits::Name;
use std::marker::Model;

/// The file that is being read: its name, and how many of its bytes were given.
#[derive(Drop)]
pub(crate) struct CurrentFile {
    name: Name,
    place: u64,
}

impl Model for CurrentFile {
    ghost use Rattle.bsv_io.specs.Reading.{Current};

    ghost Value = { Current };

    ghost view = { λ file. record { name = file.name; place = file.place } };
}

/// The name that the last failed call was about: none, that of the current file, or another.
#[derive(Drop)]
enum Blamed {
    Nothing,
    CurrentFile,
    Former(Name),
}

/// Where a source is between two calls.
#[derive(Drop)]
pub(crate) struct Progress {
    faults: u64,
    blamed: Blamed,
    current: Option<CurrentFile>,
}

impl Model for Progress {
    ghost use Rattle.bsv_io.specs.Standing.{Standing};
    ghost use Rattle.bsv_io.specs.Blame.{blamed_name};

    ghost Value = { Standing };

    ghost view = { λ progress. record {
      faults = progress.faults;
      blamed = blamed_name progress.blamed progress.current;
      current = progress.current;
    } };
}

impl CurrentFile {
    /// A file at its start.
    pub(crate) fn new(name: Name) -> CurrentFile
        ensures { result ≡ record { name = name; place = 0 } }
    {
        CurrentFile { name, place: 0 }
    }

    pub(crate) fn name(&self) -> &Name
        ensures { result.now ≡ self.now.name }
    {
        &self.name
    }

    pub(crate) fn place(&self) -> u64
        ensures place { result ≡ self.now.place }
        ensures range { self.now.place < 2 ^ 64 }
    {
        self.place
    }

    /// Moves the place after so many bytes more.
    pub(crate) fn advance(&mut self, count: usize)
        requires { self.old.place + count < 2 ^ 64 }
        ensures { self.new ≡ record self.old { place = self.old.place + count } }
    {
        self.place += count as u64;
    }
}

impl Progress {
    /// No call was made.
    pub(crate) fn new() -> Progress
        ensures { result ≡ fresh }
    {
        Progress {
            faults: 0,
            blamed: Blamed::Nothing,
            current: None,
        }
    }

    /// The current file.
    pub(crate) fn current(&self) -> &CurrentFile
        requires { IsSome self.now.current }
        ensures { self.now.current ≡ Some result.now }
    {
        match &self.current {
            Some(file) => file,
            None => unreachable!(),
        }
    }

    /// Makes a file the current one, at its start.
    pub(crate) fn choose(&mut self, name: Name)
        ensures { self.new ≡ opened name self.old }
    {
        let left = self.current.replace(CurrentFile::new(name));
        if let Blamed::CurrentFile = self.blamed {
            self.blamed = match left {
                Some(CurrentFile { name, place: _ }) => Blamed::Former(name),
                None => Blamed::Nothing,
            };
        }
    }

    /// Notes that a file could not be chosen.
    pub(crate) fn refuse(&mut self, name: Name)
        ensures after { self.new ≡ refused name self.old }
        ensures count { self.old.faults ≤ self.new.faults }
        ensures counted { MayFault self.old.faults self.new.faults }
    {
        self.faults = self.faults.saturating_add(1);
        self.blamed = Blamed::Former(name);
        self.current = None;
    }

    /// Notes that the current file could not be read.
    pub(crate) fn fail(&mut self)
        ensures after { self.new ≡ stuck self.old }
        ensures count { self.old.faults ≤ self.new.faults }
        ensures counted { MayFault self.old.faults self.new.faults }
    {
        self.faults = self.faults.saturating_add(1);
        self.blamed = Blamed::CurrentFile;
    }

    /// Whether the place in the current file can be told after so many bytes more.
    pub(crate) fn fits(&self, count: usize) -> bool
        requires { IsSome self.now.current }
        ensures { IfSome self.now.current (λ at. IsTrue result ↔ (at.place + count < 2 ^ 64)) }
    {
        self.current().place <= u64::MAX - count as u64
    }

    /// Moves the place in the current file after so many bytes more.
    pub(crate) fn advance(&mut self, count: usize)
        requires fits { ForSome self.old.current (λ at. at.place + count < 2 ^ 64) }
        ensures { self.new ≡ passed count self.old }
    {
        if let Some(file) = &mut self.current {
            file.advance(count);
        }
    }
}
