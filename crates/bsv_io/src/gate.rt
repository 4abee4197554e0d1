/// Where a worker of a parallel call passes before each row or trace that it computes, with the number of that one.
///
/// A pass changes nothing. The program hands in `NoGate`; a test hands in a gate that waits for a second worker.
pub trait Gate {
    fn pass(&self, number: u64);
}

/// The gate that does nothing.
#[derive(Clone, Copy)]
pub struct NoGate;

impl Gate for NoGate {
    fn pass(&self, _number: u64) {}
}
