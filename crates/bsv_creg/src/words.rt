ghost use Rattle.std.specs.Prelude.{◌≡◌, ◌≤◌, ◌<◌, ◌^◌, ◌↔◌, IsTrue, IfOk, length};
ghost use Rattle.bsv_prim.specs.Table.{IsWordOf, word_at};
ghost use Rattle.bsv_creg.specs.Files.{FitsFile, words_of, zero_file, word_named, file_apply};

use bsv_bits::{OutOfMemory, Word};
use bsv_prim::{Part, Queue};
use std::alloc::Global;

/// How many words an address of so many bits names.
pub(crate) fn count_of(address: u32) -> u32
    requires { address ≤ 6 }
    ensures count { result ≡ 2 ^ address }
    ensures some { 1 ≤ result }
{
    1 << address
}

/// The number of an address.
fn place_of(address: u32, word: Word) -> u32
    requires most { address ≤ 6 }
    requires width { word.width ≡ address }
    ensures place { result ≡ word.value }
    ensures within { word.value < 2 ^ address }
{
    let value = word.value();
    value as u32
}

/// A file whose words are all 0.
pub(crate) fn zeros(alloc: Global, width: u32, count: u32) -> Result<Queue, OutOfMemory>
    requires some { 1 ≤ width }
    requires most { width ≤ 128 }
    ensures { IfOk result (λ queue. queue ≡ zero_file width count) }
{
    let mut queue = Queue::new(alloc, count)?;
    for _number in 0..count {
        queue.push(Word::zero(width));
    }
    Ok(queue)
}

/// Whether the part is a file of exactly so many words of this width.
pub(crate) fn fits_file(width: u32, count: u32, part: &Part) -> bool
    ensures { IsTrue result ↔ FitsFile width count part.now }
{
    match part {
        Part::Queue(queue) => {
            if queue.depth() != count || queue.len() != count {
                return false;
            }
            for number in 0..count {
                if queue.item(number).width() != width {
                    return false;
                }
            }
            true
        }
        _ => false,
    }
}

/// The word that the first argument names.
pub(crate) fn word_in(width: u32, address: u32, part: &Part, args: &[Word]) -> Word
    requires some { 1 ≤ width }
    requires most_width { width ≤ 128 }
    requires most { address ≤ 6 }
    requires part { FitsFile width (2 ^ address) part.now }
    requires given { 1 ≤ length args.now }
    requires address { IsWordOf address (word_at args.now 0) }
    ensures { result ≡ word_named width (words_of part.now) args.now }
{
    match part {
        Part::Queue(queue) => queue.item(place_of(address, args[0])),
        _ => Word::zero(width),
    }
}

/// Puts the second argument in the place that the first one names.
pub(crate) fn put_word(width: u32, address: u32, part: &mut Part, args: &[Word])
    requires most { address ≤ 6 }
    requires part { FitsFile width (2 ^ address) part.old }
    requires given { 2 ≤ length args.now }
    requires address { IsWordOf address (word_at args.now 0) }
    ensures { part.new ≡ file_apply 1 part.old args.now }
{
    if let Part::Queue(queue) = part {
        queue.set(place_of(address, args[0]), args[1]);
    }
}
