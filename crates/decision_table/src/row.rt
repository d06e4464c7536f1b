//! A row of the table of decisions: what is reported of one message.

use admission::{Decision, Outlook};

/// A request that was offered to the admission control.
#[derive(Clone, Copy, Debug, PartialEq, Eq)]
pub struct Offered {
    /// How long the server works on it, in ticks.
    pub service: u64,
    /// The number of the pool whose servers work on it.
    pub pool: u8,
    /// What it found when it came.
    pub found: Outlook,
    pub decision: Decision,
}

/// What a row says of a message, besides its method and its target.
#[derive(Clone, Copy, Debug, PartialEq, Eq)]
pub struct Row {
    pub number: usize,
    /// The number of its connection.
    pub conn: usize,
    /// When it came, in microseconds.
    pub tick: u64,
    /// 0 to 3.
    pub tier: u8,
    /// The status of its reply.
    pub status: u16,
    /// Whether the table has a column of pools.
    pub pools: bool,
    /// None where the message breaks a rule of HTTP, and so is no request.
    pub offered: Option<Offered>,
}
