//! What recorded traffic holds.

use crate::{MessageCounts, RecordCounts};
use captures::Version;

/// Bytes, and how many connections they came on.
#[derive(Clone, Copy, Debug, PartialEq, Eq)]
pub struct Share {
    pub bytes: u64,
    pub connections: u64,
}

/// A second of the recording.
#[derive(Clone, Copy, Debug, PartialEq, Eq)]
pub struct Second {
    /// Its number: its ticks divided by 1,000,000.
    pub number: u64,
    /// How many messages arrived in it.
    pub messages: u64,
}

/// What a capture or a text of traffic holds.
#[derive(Clone, Copy, Debug, PartialEq, Eq)]
pub struct Inspection {
    /// Its format.
    pub version: Version,
    /// When it starts, in seconds since 1970-01-01.
    pub start: u64,
    pub records: RecordCounts,
    /// The first tick that a record gives, in microseconds; `None` where none gives one.
    pub first_tick: Option<u64>,
    /// The last one.
    pub last_tick: Option<u64>,
    /// The bytes of all pieces. Where a number names one connection after the other, each counts for itself.
    pub received: Share,
    /// The most connections that were open at once, each from its first piece to its end.
    pub most_open: u64,
    pub messages: MessageCounts,
    /// The bytes after the messages that closed their connections. They are ignored.
    pub after_close: Share,
    /// The bytes after the last messages of connections that no message closed: those of messages that never end, and
    /// empty lines.
    pub unfinished: Share,
    /// The second in which the most messages arrived, the first of equals; second 0 where no message arrived.
    pub busiest: Second,
}
