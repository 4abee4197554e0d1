ghost use Rattle.std.specs.Prelude.{◌≡◌};
ghost use Rattle.bsv_io.specs.Calls.{is_listed, called};

use std::marker::Model;

/// Calls that are numbered from 0, some of which are to fail.
#[derive(Drop)]
pub(crate) struct FailingCalls {
    failing: Vec<u64>,
    made: u128,
}

impl Model for FailingCalls {
    ghost use Rattle.bsv_io.specs.Calls.{CallPlan};

    ghost Value = { CallPlan };

    ghost view = { λ calls. record { failing = calls.failing.items; made = calls.made } };
}

impl FailingCalls {
    /// No call was made, and those with these numbers are to fail.
    pub(crate) fn new(failing: Vec<u64>) -> FailingCalls
        ensures { result ≡ record { failing = failing.items; made = 0 } }
    {
        FailingCalls { failing, made: 0 }
    }

    /// Counts the next call, and answers whether it is to fail.
    pub(crate) fn next_fails(&mut self) -> bool
        ensures listed { result ≡ is_listed self.old }
        ensures counted { self.new ≡ called self.old }
    {
        let number = self.made;
        if number < 1 << 64 {
            self.made = number + 1;
        }
        self.failing
            .iter()
            .any(|listed| u128::from(*listed) == number)
    }
}
