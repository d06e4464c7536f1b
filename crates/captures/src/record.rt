//! A record of a capture.

ghost use Rattle.std.specs.Prelude.{◌≡◌};
ghost use Rattle.captures.specs.Captures.{size_of};

use devices::Bytes;

/// A record of a capture: something that came in on a connection, or its tier.
#[derive(Debug, Drop)]
pub enum Record {
    /// Bytes of the connection: 1 to 65,536 of them.
    Piece {
        /// When they came, in microseconds.
        tick: u64,
        conn: u16,
        bytes: Bytes,
    },
    /// The connection has ended: no piece of it follows.
    End {
        /// When it ended, in microseconds.
        tick: u64,
        conn: u16,
    },
    /// The tier of the connection, before its first piece. A capture of version 1 has none.
    Tier {
        conn: u16,
        /// 0 to 3. A connection without such a record is of tier 0.
        tier: u8,
    },
}

impl Record {
    /// How many bytes of its connection the record brings.
    pub fn size(&self) -> usize
        ensures { result ≡ size_of self.now }
    {
        match self {
            Record::Piece { bytes, .. } => bytes.as_slice().len(),
            Record::End { .. } | Record::Tier { .. } => 0,
        }
    }
}
