ghost use Rattle.std.specs.Prelude.{◌≡◌, ◌+◌, ◌<◌, ◌^◌, ◌++◌, length, min, take, drop};
ghost use Rattle.std.specs.Option.{option_copied};
ghost use Rattle.bsv_io.specs.InMemory.{entries, file_of, left_of};

use crate::progress::CurrentFile;
use bsv_bits::Name;

/// The bytes of the first file of this name.
pub(crate) fn find<'a>(files: &'a [(Name, Vec<u8>)], name: &[u8]) -> Option<&'a [u8]>
    ensures { option_copied result ≡ file_of (entries files.now) name.now }
{
    for file in files {
        if file.0.bytes() == name {
            return Some(file.1.as_slice());
        }
    }
    None
}

/// What is left of the current file. A file that is missing is empty.
pub(crate) fn left<'a>(files: &'a [(Name, Vec<u8>)], file: &CurrentFile) -> &'a [u8]
    ensures left { result.now ≡ left_of (entries files.now) file.now }
    ensures room { file.now.place + length result.now < 2 ^ 64 }
{
    let bytes = find(files, file.name().bytes()).unwrap_or(&[]);
    let place = bytes.len().min(file.place() as usize);
    &bytes[place..]
}

/// Copies as many bytes as fit to the front of the buffer, and answers how many.
pub(crate) fn copy_front(from: &[u8], to: &mut [u8]) -> usize
    ensures count { result ≡ min (length from.now) (length to.old) }
    ensures bytes { to.new ≡ take result from.now ++ drop result to.old }
{
    let count = from.len().min(to.len());
    to[..count].copy_from_slice(&from[..count]);
    count
}
