ghost use Rattle.std.specs.Prelude.{◌≡◌, ℕ, ◌<◌, ◌≤◌, ◌^◌};
ghost use Rattle.bsv_fifo.specs.Queues.{queue_method, queue_arity, changes, waits, count_width};

/// The methods of a queue.
#[derive(Clone, Copy, Debug, PartialEq, Eq)]
pub(crate) enum Method {
    /// Appends a word.
    Enq,
    /// Drops the front.
    Deq,
    /// Gives the front.
    First,
    NotFull,
    NotEmpty,
    /// Drops all items.
    Clear,
}

impl Method {
    /// The method of a number.
    pub(crate) fn of(number: u32) -> Method
        requires { number < 6 }
        ensures { result ≡ queue_method number }
    {
        match number {
            0 => Method::Enq,
            1 => Method::Deq,
            2 => Method::First,
            3 => Method::NotFull,
            4 => Method::NotEmpty,
            _ => Method::Clear,
        }
    }

    /// How many arguments the method takes.
    pub(crate) fn arity(self) -> u32
        ensures { result ≡ queue_arity self }
    {
        match self {
            Method::Enq => 1,
            _ => 0,
        }
    }

    /// Whether the method is an action.
    pub(crate) fn changes(self) -> bool
        ensures { result ≡ changes self }
    {
        matches!(self, Method::Enq | Method::Deq | Method::Clear)
    }

    /// Whether the method has a guard.
    pub(crate) fn waits(self) -> bool
        ensures { result ≡ waits self }
    {
        matches!(self, Method::Enq | Method::Deq | Method::First)
    }
}

/// The least width that holds a depth.
#[tactic(auto, using(crate::proofs::CountDigits::count_digits))]
pub(crate) fn count_width_of(depth: u32) -> u32
    requires some { 1 ≤ depth }
    requires most { depth ≤ 64 }
    ensures width { result ≡ count_width depth }
    ensures holds { depth < 2 ^ result }
    ensures least { (width : ℕ) → depth < 2 ^ width → result ≤ width }
    ensures some { 1 ≤ result }
    ensures few { result ≤ 7 }
{
    u32::BITS - depth.leading_zeros()
}
