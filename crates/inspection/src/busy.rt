//! The second in which the most messages arrived.

ghost use Rattle.std.specs.Prelude.{◌≡◌, ℕ, ◌+◌, ◌<◌, ◌≤◌, ◌==◌, ◌^◌, ◌++◌, List, nat_lt, replicate, if◌then◌else◌};
ghost use Rattle.inspection.specs.Running.{IsBusy};

use crate::inspection::Second;

/// The second that messages arrive in, and the busiest one so far.
#[derive(Clone, Copy)]
pub struct Busy {
    pub now: Second,
    pub busiest: Second,
}

/// How many messages have arrived in a second that is the last one, or comes after it.
fn messages_in(last: Second, number: u64) -> u64
    ensures { result ≡ (if last.number == number then last.messages else 0) }
{
    if last.number == number {
        last.messages
    } else {
        0
    }
}

/// The second of more messages, the earlier of equals.
fn busier(earlier: Second, later: Second) -> Second
    ensures { result ≡ (if nat_lt earlier.messages later.messages then later else earlier) }
{
    if later.messages > earlier.messages {
        later
    } else {
        earlier
    }
}

impl Busy {
    /// n messages arrived in this second.
    pub(crate) fn note(&mut self, number: u64, count: u64)
        requires { self.old.now.messages + count < 2 ^ 64 }
        ensures now { self.new.now.number ≡ number }
        ensures busy { (seconds : List ℕ) → IsBusy seconds self.old → self.old.now.number ≤ number
            → IsBusy (seconds ++ replicate count number) self.new }
    {
        self.now = Second {
            number,
            messages: messages_in(self.now, number) + count,
        };
        self.busiest = busier(self.busiest, self.now);
    }
}
