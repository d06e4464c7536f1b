//! How many connections are open.

ghost use Rattle.std.specs.Prelude.{◌≡◌, ◌+◌, ◌<◌, ◌^◌};
ghost use Rattle.inspection.specs.Running.{with_opened, with_ended};

/// How many connections are open, and the most that were open at once.
#[derive(Clone, Copy)]
pub struct OpenCount {
    pub now: u64,
    pub most: u64,
}

impl OpenCount {
    /// One more connection is open.
    pub(crate) fn note_opened(&mut self)
        requires { self.old.now + 1 < 2 ^ 64 }
        ensures { self.new ≡ with_opened self.old }
    {
        self.now += 1;
        if self.now > self.most {
            self.most = self.now;
        }
    }

    /// An open connection has ended.
    pub(crate) fn note_ended(&mut self)
        requires { 0 < self.old.now }
        ensures { self.new ≡ with_ended self.old }
    {
        self.now -= 1;
    }
}
