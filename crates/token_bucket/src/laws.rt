//! Laws of the definitions that the contracts of a bucket cite. Each function is there for its clause alone.

ghost use Rattle.token_bucket.specs.Running.{CreditRuns, StandingRuns};
ghost use Rattle.token_bucket.specs.After.{AccrualSplits};

/// The least balance over all calls so far can be carried from call to call: it is the credit before
/// the last call with what that call's ticks accrue, without what it takes, up to the depth.
pub fn credit_runs()
    ensures { CreditRuns }
{}

/// So a bucket's standing after a call needs its standing before it alone.
pub fn standing_runs()
    ensures { StandingRuns }
{}

/// What ticks accrue can be split at any tick between them.
pub fn accrual_splits()
    ensures { AccrualSplits }
{}
