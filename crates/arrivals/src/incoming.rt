//! Messages with where they came from.

use crate::Series;
use http_requests::{Meaning, Message};

/// Where a message came from: the connection, the tick of the piece that holds its last byte, in microseconds, and the
/// tier that the connection had then.
#[derive(Clone, Copy, Debug)]
pub struct Origin {
    pub conn: u16,
    pub tick: u64,
    pub tier: u8,
}

/// A message that came in, and where it came from.
#[derive(Drop)]
pub struct Incoming {
    pub origin: Origin,
    pub what: Meaning,
}

/// The messages that end in a piece, and where they came from.
#[derive(Drop)]
pub struct PieceMessages {
    pub origin: Origin,
    pub messages: Series<Message>,
}
