ghost use Rattle.std.specs.Prelude.{◌≡◌, ◌<◌, length, IsSome};

use bsv_bits::{Name, OutOfMemory};
use bsv_io::{Failed, Files};
use std::alloc::{AllocError, Global};

/// How many pieces of a file are read at most.
const MAX_PIECES: usize = 1_048_577;

/// Reads the next bytes of the current file. The answer is how many; none where it fails.
fn read_more<F: Files>(
    files: &mut F,
    source: &mut Vec<u8>,
    buffer: &mut [u8],
) -> Result<usize, AllocError>
    requires room { 0 < length buffer.old }
    requires current { IsSome (F.reading files.old).current }
    ensures current { IsSome (F.reading files.new).current }
    ensures room { length buffer.new ≡ length buffer.old }
{
    match files.read(buffer) {
        Ok(len) => {
            source.extend_from_slice(&buffer[..len])?;
            Ok(len)
        }
        Err(Failed) => Ok(0),
    }
}

/// Reads the current file, as far as it can be read.
fn read_current<F: Files>(alloc: Global, files: &mut F) -> Result<Vec<u8>, AllocError>
    requires current { IsSome (F.reading files.old).current }
{
    let mut buffer = [0u8; 4096];
    let mut source = Vec::new(alloc);
    for _turn in 0..MAX_PIECES {
        if read_more(files, &mut source, &mut buffer)? == 0 {
            return Ok(source);
        }
    }
    Ok(source)
}

/// The bytes of the file of a name, as far as they can be read.
pub fn read_source<F: Files>(
    alloc: Global,
    files: &mut F,
    name: &[u8],
) -> Result<Vec<u8>, OutOfMemory> {
    let name = Name::new(alloc, name)?;
    match files.choose(name) {
        Ok(()) => Ok(read_current(alloc, files)?),
        Err(Failed) => Ok(Vec::new(alloc)),
    }
}
