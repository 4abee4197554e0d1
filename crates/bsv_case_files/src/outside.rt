use std::alloc::Global;

/// Room for all that a run puts to a sink.
const AMPLE: usize = 1 << 16;

/// Which calls of the files and of the two sinks of a run fail, by their numbers from 0 on, and how
/// many bytes the sinks have room for.
#[derive(Drop)]
pub struct Outside {
    pub failing_reads: Vec<u64>,
    pub failing_puts: Vec<u64>,
    pub failing_texts: Vec<u64>,
    pub room: usize,
    pub text_room: usize,
}

impl Outside {
    /// Nothing fails.
    pub(crate) fn sound(alloc: Global) -> Outside {
        Outside {
            failing_reads: Vec::new(alloc),
            failing_puts: Vec::new(alloc),
            failing_texts: Vec::new(alloc),
            room: AMPLE,
            text_room: AMPLE,
        }
    }
}
