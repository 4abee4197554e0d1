use crate::values::{Count, Fault};
use bsv_fail::Fail;

/// Something, or the first refusal.
pub type Got<A> = Result<A, Fail<Fault>>;

/// Something, and the count after it.
pub type Counted<A> = Got<(A, Count)>;
