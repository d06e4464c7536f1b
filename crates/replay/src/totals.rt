//! The figures so far.

ghost use Rattle.std.specs.Prelude.{◌≡◌, ◌-◌, ◌<◌, ◌^◌, []};
ghost use Rattle.responses.specs.Reference.{status_of};
ghost use Rattle.reference.specs.Reference.{breaks_a_rule};
ghost use Rattle.replay.specs.Totals.{AreBelow, with_status, no_counts, with_reply};
ghost use Rattle.replay.specs.Backs.{response_of};

use crate::pending::PendingAnswer;
use arrivals::Series;
use http_requests::Meaning;
use paths::Tree;
use reference::Counts;
use std::alloc::Global;

/// Nothing was answered yet.
pub(crate) const NONE: Counts = Counts { by_status: [0; 9] };

/// The messages that were answered so far.
#[derive(Drop)]
pub struct Totals {
    /// How many they are, and so the number of the next.
    pub answered: usize,
    pub counts: Counts,
    /// How many of them broke a rule.
    pub bypassed: u64,
    /// The numbers of the requests that were turned away.
    pub rejected: Series<usize>,
    /// How long the admitted requests took.
    pub samples: Series<u64>,
}

impl Totals {
    /// Nothing was answered yet.
    pub(crate) fn new(alloc: Global) -> Totals
        ensures { result
            ≡ record { answered = 0; counts = no_counts; bypassed = 0; rejected = []; samples = [] } }
    {
        Totals {
            answered: 0,
            counts: NONE,
            bypassed: 0,
            rejected: Series::new(alloc),
            samples: Series::new(alloc),
        }
    }

    /// Counts one more message, and how it is to be answered.
    pub(crate) fn record_reply<F: Tree>(&mut self, answer: &PendingAnswer<F>, what: &Meaning)
        requires number { self.old.answered < 2 ^ 64 - 1 }
        requires counts { AreBelow (2 ^ 64 - 1) self.old.counts }
        requires bypassed { self.old.bypassed < 2 ^ 64 - 1 }
        ensures { self.new
            ≡ with_reply self.old (status_of (response_of answer.now)) (breaks_a_rule what.now) }
    {
        self.answered += 1;
        count_status(&mut self.counts, answer);
        if breaks_a_rule(what) {
            self.bypassed += 1;
        }
    }
}

/// Counts one more message, by the status that it is to be answered with.
pub(crate) fn count_status<F: Tree>(counts: &mut Counts, answer: &PendingAnswer<F>)
    requires { AreBelow (2 ^ 64 - 1) counts.old }
    ensures { counts.new ≡ with_status counts.old (status_of (response_of answer.now)) }
{
    counts.by_status[answer.status_place()] += 1;
}

/// Whether a message breaks a rule, and so is no request.
pub(crate) fn breaks_a_rule(what: &Meaning) -> bool
    ensures { result ≡ breaks_a_rule what.now }
{
    matches!(what, Meaning::Bad(_))
}
