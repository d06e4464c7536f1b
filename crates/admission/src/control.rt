//! What a controller tells of a request: admitted or rejected, and why; of a control of a rate; and of a pool.

/// A change of the rate. `percentile` and `smoothed` are in ticks, `rate` in thousandths of a token a second.
#[derive(Clone, Copy, Debug, PartialEq, Eq, Hash)]
pub struct Control {
    /// The tick that its rate holds from: that at which the responses that it was made of are complete.
    pub instant: u64,
    /// The 90th percentile of the window's response times.
    pub percentile: u64,
    /// The smoothed percentile.
    pub smoothed: u64,
    /// The new rate.
    pub rate: u64,
}

/// What became of an offered request.
#[derive(Clone, Copy, Debug, PartialEq, Eq, Hash)]
pub enum Decision {
    /// It is served, and its service ends at this tick.
    Admitted { finish: u64 },
    /// It is turned away.
    Rejected,
}

/// What a request of a pool and a tier finds when it comes.
#[derive(Clone, Copy, Debug, PartialEq, Eq, Hash)]
pub struct Outlook {
    /// The credit of the tier's bucket, in units of 10^-9 token.
    pub credit: u64,
    /// The tier's rate in force, in thousandths of a token a second. That of a control at the same tick counts.
    pub rate: u64,
    /// The tick from which on a server of the pool is free of the pool's admitted requests, of all tiers.
    pub free: u64,
}

/// What a pool has done.
#[derive(Clone, Copy, Debug, PartialEq, Eq, Hash)]
pub struct PoolFigures {
    /// How many requests were admitted that its servers work on.
    pub admitted: u64,
    /// How many ticks they work on them in all.
    pub busy: u64,
    /// How many of them waited at most when one of them came, that one with them where it has to wait.
    pub longest_queue: u64,
}
