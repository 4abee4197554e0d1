/// How a run of the program ends. In this order these are the exit statuses 0 to 6.
#[derive(Clone, Copy, Debug, PartialEq, Eq)]
pub enum Status {
    Done,
    Refused,
    Usage,
    ReadFault,
    WriteFault,
    OutOfMemory,
    TraceFault,
}
