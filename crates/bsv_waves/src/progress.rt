use bsv_io::{Sink, put_all};
use itoa::Buffer;

/// After so many clocks their number is told.
const STEP: u64 = 100_000;

/// Tells how many clocks are done, at each round number of them. What cannot be told is left out.
pub(crate) fn tell_done<E: Sink>(done: u64, err: &mut E) {
    if done % STEP == 0 {
        let mut digits = Buffer::new();
        let _told = put_all(err, &[digits.format(done).as_bytes(), b" clocks\n"]);
    }
}
