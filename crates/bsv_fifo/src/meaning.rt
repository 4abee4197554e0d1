ghost use Rattle.std.specs.Prelude.{◌≡◌, ◌≤◌, ◌<◌, ◌↔◌, IsTrue, length, true};
ghost use Rattle.bsv_bits.specs.Words.{zero_word};
ghost use Rattle.bsv_fifo.specs.Queues.{queue_arity, queue_guard, front, queue_result, changed, items_of, FitsQueue, queue_register_width};

use crate::method::{Method, count_width_of};
use bsv_bits::Word;
use bsv_prim::{Part, Queue, RegisterInfo};

/// Whether the part is a queue of this depth with words of so many bits.
pub(crate) fn fits_queue(width: u32, depth: u32, part: &Part) -> bool
    ensures { IsTrue result ↔ FitsQueue width depth part.now }
{
    match part {
        Part::Queue(queue) => {
            if queue.depth() != depth {
                return false;
            }
            for number in 0..queue.len() {
                if queue.item(number).width() != width {
                    return false;
                }
            }
            true
        }
        _ => false,
    }
}

/// How many items there are; none where the part is no queue.
fn length_of(part: &Part) -> u32
    ensures { result ≡ length (items_of part.now) }
{
    match part {
        Part::Queue(queue) => queue.len(),
        _ => 0,
    }
}

/// Whether the method may be called on the part.
pub(crate) fn guard_of(depth: u32, method: Method, part: &Part) -> bool
    ensures { result ≡ queue_guard depth method (items_of part.now) }
{
    match method {
        Method::Enq => length_of(part) < depth,
        Method::Deq | Method::First => length_of(part) > 0,
        _ => true,
    }
}

/// The front item, and 0 where there is none.
fn front_of(width: u32, part: &Part) -> Word
    requires some { 1 ≤ width }
    requires most { width ≤ 128 }
    ensures { result ≡ front width (items_of part.now) }
{
    match part {
        Part::Queue(queue) if queue.len() > 0 => queue.item(0),
        _ => Word::zero(width),
    }
}

/// What the method answers; an action answers nothing, for which a bit 0 stands.
pub(crate) fn result_of(width: u32, depth: u32, method: Method, part: &Part) -> Word
    requires some { 1 ≤ width }
    requires most { width ≤ 128 }
    ensures { result ≡ queue_result width depth method (items_of part.now) }
{
    match method {
        Method::First => front_of(width, part),
        Method::NotFull => Word::bit(length_of(part) < depth),
        Method::NotEmpty => Word::bit(length_of(part) > 0),
        _ => Word::zero(1),
    }
}

/// Calls a method that is ready.
pub(crate) fn change(method: Method, queue: &mut Queue, args: &[Word])
    requires ready { queue_guard queue.old.depth method queue.old.items ≡ true }
    requires args { queue_arity method ≤ length args.now }
    ensures { queue.new ≡ record queue.old { items = changed method queue.old.items args.now } }
{
    match method {
        Method::Enq => queue.push(args[0]),
        Method::Deq => {
            let _front = queue.pop();
        }
        Method::Clear => queue.clear(),
        _ => {}
    }
}

/// The register that counts the items, and after it one for each place.
pub(crate) fn register_of(width: u32, depth: u32, number: u32) -> RegisterInfo
    requires some_width { 1 ≤ width }
    requires most_width { width ≤ 128 }
    requires some_depth { 1 ≤ depth }
    requires most_depth { depth ≤ 64 }
    ensures width { result.width ≡ queue_register_width width depth number }
    ensures start { result.start ≡ zero_word (queue_register_width width depth number) }
    ensures resets { result.resets ≡ true }
{
    let width = if number == 0 {
        count_width_of(depth)
    } else {
        width
    };
    RegisterInfo {
        width,
        start: Word::zero(width),
        resets: true,
    }
}
