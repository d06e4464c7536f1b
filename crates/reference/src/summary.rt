//! What a replay answers: its figures, and which requests were rejected.

use admission::{Control, PoolFigures};
use arrivals::Series;
use captures::Version;

/// How many messages were answered with each status.
#[derive(Clone, Copy, Debug, PartialEq, Eq)]
pub struct Counts {
    /// A count for each of `STATUS_CODES`, in their order.
    pub by_status: [u64; 9],
}

/// What became of the requests of one tier.
#[derive(Debug, Drop)]
pub struct Tally {
    /// How many were admitted.
    pub admitted: u64,
    /// How many were turned away.
    pub rejected: u64,
    /// The changes of its rate, up to the last tick at which a request of any tier was offered.
    pub controls: Series<Control>,
}

/// What became of a capture's messages.
#[derive(Debug, Drop)]
pub struct Summary {
    pub counts: Counts,
    /// How many messages broke a rule, and so were no requests.
    pub bypassed: u64,
    /// How long each admitted request took from its arrival to its finish, in their order, in ticks of one microsecond.
    pub samples: Series<u64>,
    /// What became of the requests of each tier.
    pub tiers: [Tally; 4],
    /// What the pools have done, the default pool first; none where there is no other.
    pub pools: Series<PoolFigures>,
}

/// What a replay has come to.
#[derive(Debug, Drop)]
pub struct Outcome {
    /// The format of the text that was replayed.
    pub version: Version,
    /// The numbers of the requests that were turned away, rising.
    pub rejected: Series<usize>,
    pub summary: Summary,
}
