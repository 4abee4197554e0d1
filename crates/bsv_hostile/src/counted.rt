ghost use Rattle.std.specs.Prelude.{◌≡◌, ◌<◌, ◌≤◌, length, None, Some, IsSome};
ghost use Rattle.std.specs.Prelude.{IfOk, IfSome, OnOk, OnErr};
ghost use Rattle.bsv_io.specs.Faults.{MayFault};
ghost use Rattle.bsv_io.specs.InMemory.{mem_reading, mem_writing};
ghost use Rattle.bsv_io.specs.Reading.{Gives, chosen, advanced, current_name, rest};
ghost use Rattle.bsv_io.specs.Writing.{appended, AppendsPrefix};

use bsv_bits::Name;
use bsv_io::{Failed, Files, MemFiles, MemSink, Sink};

/// Files in memory that count the calls.
#[derive(Drop)]
pub(crate) struct CountedFiles {
    files: MemFiles,
    pub(crate) choices: u64,
    pub(crate) calls: u64,
}

impl CountedFiles {
    pub(crate) fn new(files: MemFiles) -> CountedFiles {
        CountedFiles {
            files,
            choices: 0,
            calls: 0,
        }
    }
}

impl Files for CountedFiles {
    ghost reading = { λ s. mem_reading s.files };

    fn choose(&mut self, name: Name) -> Result<(), Failed>
        ensures ok { OnOk result (mem_reading self.new.files
            ≡ chosen name (mem_reading self.old.files)) }
        ensures err { OnErr result (mem_reading self.new.files
            ≡ record (mem_reading self.old.files) {
              faults = (mem_reading self.new.files).faults;
              blamed = Some name;
              current = None;
            }) }
        ensures count { (mem_reading self.old.files).faults ≤ (mem_reading self.new.files).faults }
        ensures counted { OnErr result (MayFault (mem_reading self.old.files).faults
            (mem_reading self.new.files).faults) }
    {
        self.choices = self.choices.saturating_add(1);
        self.calls = self.calls.saturating_add(1);
        self.files.choose(name)
    }

    fn read(&mut self, buf: &mut [u8]) -> Result<usize, Failed>
        requires room { 0 < length buf.old }
        requires current { IsSome (mem_reading self.old.files).current }
        ensures within { IfOk result (λ n. n ≤ length buf.new) }
        ensures ok { IfOk result (λ n. mem_reading self.new.files
            ≡ advanced n (mem_reading self.old.files)) }
        ensures bytes { IfOk result (λ n. IfSome (rest (mem_reading self.old.files))
            (Gives n buf.new)) }
        ensures err { OnErr result (mem_reading self.new.files
            ≡ record (mem_reading self.old.files) {
              faults = (mem_reading self.new.files).faults;
              blamed = current_name (mem_reading self.old.files);
            }) }
        ensures count { (mem_reading self.old.files).faults ≤ (mem_reading self.new.files).faults }
        ensures counted { OnErr result (MayFault (mem_reading self.old.files).faults
            (mem_reading self.new.files).faults) }
    {
        self.calls = self.calls.saturating_add(1);
        self.files.read(buf)
    }
}

/// A sink in memory that counts the calls.
#[derive(Drop)]
pub(crate) struct CountedSink {
    sink: MemSink,
    pub(crate) calls: u64,
}

impl CountedSink {
    pub(crate) fn new(sink: MemSink) -> CountedSink {
        CountedSink { sink, calls: 0 }
    }

    /// The bytes that were put.
    pub(crate) fn bytes(&self) -> &[u8] {
        self.sink.bytes()
    }
}

impl Sink for CountedSink {
    ghost writing = { λ s. mem_writing s.sink };

    fn put(&mut self, bytes: &[u8]) -> Result<(), Failed>
        ensures ok { OnOk result (mem_writing self.new.sink
            ≡ appended bytes.now (mem_writing self.old.sink)) }
        ensures err { OnErr result (AppendsPrefix bytes.now (mem_writing self.old.sink)
            (mem_writing self.new.sink)) }
        ensures count { (mem_writing self.old.sink).faults ≤ (mem_writing self.new.sink).faults }
        ensures counted { OnErr result (MayFault (mem_writing self.old.sink).faults
            (mem_writing self.new.sink).faults) }
    {
        self.calls = self.calls.saturating_add(1);
        self.sink.put(bytes)
    }
}
