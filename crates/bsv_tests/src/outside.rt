ghost use Rattle.std.specs.Prelude.{◌≡◌, IsOk, OnErr};
ghost use Rattle.bsv_io.specs.Faults.{MayFault};

use bsv_bits::{Name, OutOfMemory};
use bsv_io::{
    DiskFiles, Failed, Files, GrowSink, MemFiles, MemSink, PutBuffer, Sink, StdSink, SureFiles,
    SureSink,
};
use std::alloc::Global;
use std::io::{ErrorKind, Write};
use std::test::Fail;
use std::{fs, io};

/// Chooses a file and reads four pieces of two bytes: `+` for a choice, `-` for one that failed,
/// the bytes of a piece and `|`, `!` for a read that failed.
fn walk<F: Files>(alloc: Global, files: &mut F, name: &[u8]) -> Result<Vec<u8>, OutOfMemory> {
    let mut seen = Vec::new(alloc);
    if files.choose(Name::new(alloc, name)?).is_err() {
        seen.push(b'-')?;
        return Ok(seen);
    }
    seen.push(b'+')?;
    for _turn in 0..4 {
        let mut piece = [0; 2];
        match files.read(&mut piece) {
            Ok(count) => {
                seen.extend_from_slice(&piece[..count])?;
                seen.push(b'|')?;
            }
            Err(_) => seen.push(b'!')?,
        }
    }
    Ok(seen)
}

/// The files a, b (empty) and a second a.
fn three_files(alloc: Global) -> Result<Vec<(Name, Vec<u8>)>, OutOfMemory> {
    let mut files = Vec::new(alloc);
    files.push((Name::new(alloc, b"a")?, Vec::from_slice(alloc, b"hello")?))?;
    files.push((Name::new(alloc, b"b")?, Vec::new(alloc)))?;
    files.push((Name::new(alloc, b"a")?, Vec::from_slice(alloc, b"x")?))?;
    Ok(files)
}

#[test]
fn files_in_memory(rt: HostRuntime) -> Result<(), Fail> {
    let alloc = rt.alloc();
    let rows: [(&[u64], &[u8], &[u8]); 7] = [
        (&[], b"a", b"+he|ll|o||"),
        (&[], b"b", b"+||||"),
        (&[], b"c", b"-"),
        (&[0], b"a", b"-"),
        (&[1], b"a", b"+!he|ll|o|"),
        (&[4, 2], b"a", b"+he|!ll|!"),
        (&[5, u64::MAX], b"a", b"+he|ll|o||"),
    ];
    for (failing, name, want) in rows {
        let failing = Vec::from_slice(alloc, failing)?;
        let mut files = MemFiles::new(alloc, three_files(alloc)?, failing)?;
        let seen = walk(alloc, &mut files, name)?;
        assert_eq!(rt; seen.as_slice(), want);
    }
    Ok(())
}

#[test]
fn calls_are_numbered_through(rt: HostRuntime) -> Result<(), Fail> {
    let alloc = rt.alloc();
    let failing = Vec::from_slice(alloc, &[1, 8])?;
    let mut files = MemFiles::new(alloc, three_files(alloc)?, failing)?;
    let rows: [(&[u8], &[u8]); 4] = [
        (b"c", b"-"),
        (b"a", b"-"),
        (b"a", b"+he|ll|o||"),
        (b"b", b"+!|||"),
    ];
    for (name, want) in rows {
        let seen = walk(alloc, &mut files, name)?;
        assert_eq!(rt; seen.as_slice(), want);
    }
    Ok(())
}

#[test]
fn files_that_never_fail(rt: HostRuntime) -> Result<(), Fail> {
    let alloc = rt.alloc();
    let mut files = SureFiles::new(three_files(alloc)?);
    assert!(rt; start_surely(&mut files, Name::new(alloc, b"b")?).is_ok());
    let rows: [(&[u8], &[u8]); 3] = [(b"c", b"+||||"), (b"a", b"+he|ll|o||"), (b"b", b"+||||")];
    for (name, want) in rows {
        let seen = walk(alloc, &mut files, name)?;
        assert_eq!(rt; seen.as_slice(), want);
    }
    Ok(())
}

#[test]
fn files_of_the_disk(rt: HostRuntime) -> Result<(), Fail> {
    let alloc = rt.alloc();
    fs::write(&rt, "greeting.txt", "hello")?;
    let mut files = DiskFiles::new(&rt);
    let rows: [(&[u8], &[u8]); 5] = [
        (b"greeting.txt", b"+he|ll|o||"),
        (b"no_such_file", b"-"),
        (b"\xff", b"-"),
        // A directory opens, and its reads fail.
        (b".", b"+!!!!"),
        (b"greeting.txt", b"+he|ll|o||"),
    ];
    for (name, want) in rows {
        let seen = walk(alloc, &mut files, name)?;
        assert_eq!(rt; seen.as_slice(), want);
    }
    fs::remove_file(&rt, "greeting.txt")?;
    Ok(())
}

/// Puts three pieces: `+` for each that was put, `-` for each that failed.
fn put_three<S: Sink>(sink: &mut S) -> [u8; 3] {
    let mut seen = [b'+'; 3];
    if sink.put(b"abc").is_err() {
        seen[0] = b'-';
    }
    if sink.put(b"").is_err() {
        seen[1] = b'-';
    }
    if sink.put(b"defgh").is_err() {
        seen[2] = b'-';
    }
    seen
}

#[test]
fn sinks_in_memory(rt: HostRuntime) -> Result<(), Fail> {
    let alloc = rt.alloc();
    let rows: [(usize, &[u64], [u8; 3], &[u8]); 10] = [
        (100, &[], *b"+++", b"abcdefgh"),
        (8, &[3], *b"+++", b"abcdefgh"),
        (100, &[0], *b"-++", b"adefgh"),
        (100, &[1], *b"+-+", b"abcdefgh"),
        (100, &[2, 0], *b"-+-", b"ade"),
        (7, &[], *b"++-", b"abcdefg"),
        (4, &[2], *b"++-", b"abcd"),
        (3, &[], *b"++-", b"abc"),
        (1, &[0], *b"-+-", b"a"),
        (0, &[], *b"-+-", b""),
    ];
    for (room, failing, want, bytes) in rows {
        let mut sink = MemSink::new(alloc, room, Vec::from_slice(alloc, failing)?)?;
        assert_eq!(rt; put_three(&mut sink), want);
        assert_eq!(rt; sink.bytes(), bytes);
    }
    assert!(rt; MemSink::new(alloc, usize::MAX, Vec::new(alloc)).is_err());
    Ok(())
}

#[test]
fn sinks_that_never_fail(rt: HostRuntime) {
    let mut sink = SureSink::new();
    assert_eq!(rt; put_three(&mut sink), *b"+++");
    assert_eq!(rt; sink.taken(), 8);
}

#[test]
fn sinks_that_grow(rt: HostRuntime) -> Result<(), Fail> {
    let mut sink = GrowSink::new(rt.alloc());
    assert_eq!(rt; put_three(&mut sink), *b"+++");
    let bytes = sink.bytes();
    assert_eq!(rt; bytes.as_slice(), b"abcdefgh".as_slice());
    Ok(())
}

/// A writer that takes one byte at each second call and is interrupted at the others.
#[derive(Drop)]
struct Slow {
    room: usize,
    flushes: bool,
    interrupted: bool,
    taken: Vec<u8>,
    flushed: usize,
}

impl Write for Slow {
    fn write(&mut self, buf: &[u8]) -> io::Result<usize> {
        self.interrupted = !self.interrupted;
        if self.interrupted {
            return Err(io::Error::from(ErrorKind::Interrupted));
        }
        if buf.is_empty() || self.taken.len() >= self.room {
            return Ok(0);
        }
        self.taken.push(buf[0])?;
        Ok(1)
    }

    fn flush(&mut self) -> io::Result<()> {
        if !self.flushes {
            return Err(io::Error::from(ErrorKind::Other));
        }
        self.flushed = self.taken.len();
        Ok(())
    }
}

#[test]
fn sinks_of_writers(rt: HostRuntime) -> Result<(), Fail> {
    let alloc = rt.alloc();
    let mut whole = Vec::new(alloc);
    assert_eq!(rt; put_three(&mut StdSink::new(&mut whole)), *b"+++");
    assert_eq!(rt; whole.as_slice(), b"abcdefgh".as_slice());
    assert!(rt; StdSink::new(rt.stdout()).put(b"").is_ok());
    assert!(rt; StdSink::new(rt.stderr()).put(b"").is_ok());
    let rows: [(usize, bool, [u8; 3], &[u8], usize); 3] = [
        (100, true, *b"+++", b"abcdefgh", 8),
        (5, true, *b"++-", b"abcde", 3),
        (100, false, *b"---", b"abcdefgh", 0),
    ];
    for (room, flushes, want, bytes, flushed) in rows {
        let mut slow = Slow {
            room,
            flushes,
            interrupted: false,
            taken: Vec::new(alloc),
            flushed: 0,
        };
        assert_eq!(rt; put_three(&mut StdSink::new(&mut slow)), want);
        assert_eq!(rt; slow.taken.as_slice(), bytes);
        assert_eq!(rt; slow.flushed, flushed);
    }
    Ok(())
}

/// Whether a buffer puts the pieces whole, in so many calls of `put`.
fn takes_puts(alloc: Global, pieces: &[&[u8]], puts: u64) -> Result<bool, OutOfMemory> {
    // The call after those is the one of this function, and fails.
    let mut sink = MemSink::new(alloc, 10_000, Vec::from_slice(alloc, &[puts])?)?;
    let mut buffer = PutBuffer::new();
    let added = buffer.add_all(&mut sink, pieces).is_ok() && buffer.flush(&mut sink).is_ok();
    let whole: Vec<u8> = pieces.concat(alloc)?;
    Ok(added && sink.bytes() == whole.as_slice() && sink.put(b"z").is_err())
}

#[test]
fn puts_of_a_buffer(rt: HostRuntime) -> Result<(), Fail> {
    let alloc = rt.alloc();
    let fits = vec![in alloc; b'x'; 4096]?;
    let long = vec![in alloc; b'y'; 4097]?;
    assert!(rt; takes_puts(alloc, &[], 0)?);
    assert!(rt; takes_puts(alloc, &[b"", b""], 0)?);
    assert!(rt; takes_puts(alloc, &[b"ab", b"", b"c"], 1)?);
    assert!(rt; takes_puts(alloc, &[&fits], 1)?);
    assert!(rt; takes_puts(alloc, &[b"ab", &fits, b"c"], 3)?);
    assert!(rt; takes_puts(alloc, &[&long], 1)?);
    assert!(rt; takes_puts(alloc, &[b"ab", &long, b"c"], 3)?);
    Ok(())
}

/// A caller that is generic in its source, and hands a fault on.
fn start<F: Files>(files: &mut F, name: Name) -> Result<(), Failed>
    ensures { OnErr result (MayFault (F.reading files.old).faults (F.reading files.new).faults) }
{
    files.choose(name)
}

/// Over a source that never fails the same caller always succeeds.
fn start_surely(files: &mut SureFiles, name: Name) -> Result<(), Failed>
    ensures { IsOk result }
{
    start(files, name)
}
