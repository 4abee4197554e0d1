ghost use Rattle.std.specs.Prelude.{◌≡◌, ℕ, ◌+◌, ◌<◌, ◌≤◌, List, length, take, vec_len, Some, Err, IfOk, OnOk, IsSome};
ghost use Rattle.bsv_io.specs.Faults.{MayFault};
ghost use Rattle.bsv_io.specs.Moving.{Moves, SameFile};
ghost use Rattle.bsv_io.specs.Reading.{bytes_given, current_name, rest};

use crate::files::Files;
use crate::unread::Unread;
use bsv_bits::Name;
use std::alloc::Global;

/// Reads the next bytes of the current file into the buffer, and adds them to those that were read. The answer is
/// how many.
pub fn read_more<F: Files>(
    files: &mut F,
    bytes: &mut Vec<u8>,
    buffer: &mut [u8],
) -> Result<usize, Unread>
    requires room { 0 < length buffer.old }
    requires current { IsSome (F.reading files.old).current }
    ensures bytes { IfOk result (λ n. (left : List ℕ) → rest (F.reading files.old) ≡ Some left
        → Moves n bytes.old.items bytes.new.items left (rest (F.reading files.new))) }
    ensures long { IfOk result (λ n. (n ≤ length buffer.old)
        × (vec_len bytes.new ≡ vec_len bytes.old + n)) }
    ensures file { OnOk result (SameFile (F.reading files.old) (F.reading files.new)) }
    ensures given { IfOk result (λ n. bytes_given (F.reading files.new)
        ≡ bytes_given (F.reading files.old) + n) }
    ensures within { bytes_given (F.reading files.new)
        ≤ bytes_given (F.reading files.old) + length buffer.old }
    ensures contents { (F.reading files.new).contents ≡ (F.reading files.old).contents }
    ensures failed { result ≡ Err Unread.Failed
        → MayFault (F.reading files.old).faults (F.reading files.new).faults
        × ((F.reading files.new).blamed ≡ current_name (F.reading files.old)) }
    ensures count { (F.reading files.old).faults ≤ (F.reading files.new).faults }
    ensures kept { (result ≡ Err Unread.Failed → ⊥)
        → (F.reading files.new).faults ≡ (F.reading files.old).faults }
{
    let len = files.read(buffer)?;
    bytes.extend_from_slice(&buffer[..len])?;
    Ok(len)
}

/// Reads the current file from its start up to a limit.
fn read_current<F: Files>(
    alloc: Global,
    files: &mut F,
    limit: usize,
    buffer: &mut [u8],
) -> Result<Vec<u8>, Unread>
    requires limit { 0 < limit }
    requires room { 0 < length buffer.old }
    requires current { IsSome (F.reading files.old).current }
    ensures bytes { IfOk result (λ bytes. (text : List ℕ) → rest (F.reading files.old) ≡ Some text
        → bytes.items ≡ take limit text) }
    ensures within { bytes_given (F.reading files.new)
        ≤ bytes_given (F.reading files.old) + limit }
    ensures contents { (F.reading files.new).contents ≡ (F.reading files.old).contents }
    ensures failed { result ≡ Err Unread.Failed
        → MayFault (F.reading files.old).faults (F.reading files.new).faults
        × ((F.reading files.new).blamed ≡ current_name (F.reading files.old)) }
    ensures count { (F.reading files.old).faults ≤ (F.reading files.new).faults }
    ensures kept { (result ≡ Err Unread.Failed → ⊥)
        → (F.reading files.new).faults ≡ (F.reading files.old).faults }
{
    let mut bytes = Vec::new(alloc);
    for _turn in 0..limit {
        let room = buffer.len().min(limit - bytes.len());
        let len = read_more(files, &mut bytes, &mut buffer[..room])?;
        if len == 0 || bytes.len() == limit {
            return Ok(bytes);
        }
    }
    unreachable!()
}

/// Reads the file of a name from its start, up to so many bytes.
pub fn read_up_to<F: Files>(
    alloc: Global,
    files: &mut F,
    name: &[u8],
    limit: usize,
) -> Result<Vec<u8>, Unread>
    requires { 0 < limit }
    ensures bytes { IfOk result (λ bytes. (contents : List ℕ → List ℕ)
        → (F.reading files.old).contents ≡ Some contents
        → bytes.items ≡ take limit (contents name.now)) }
    ensures within { limit < bytes_given (F.reading files.new)
        → (F.reading files.new).current ≡ (F.reading files.old).current }
    ensures contents { (F.reading files.new).contents ≡ (F.reading files.old).contents }
    ensures failed { result ≡ Err Unread.Failed
        → MayFault (F.reading files.old).faults (F.reading files.new).faults
        × ((F.reading files.new).blamed ≡ Some name.now) }
    ensures count { (F.reading files.old).faults ≤ (F.reading files.new).faults }
    ensures kept { (result ≡ Err Unread.Failed → ⊥)
        → (F.reading files.new).faults ≡ (F.reading files.old).faults }
{
    let mut buffer = vec![in alloc; 0u8; 4096]?;
    files.choose(Name::new(alloc, name)?)?;
    read_current(alloc, files, limit, &mut buffer)
}
