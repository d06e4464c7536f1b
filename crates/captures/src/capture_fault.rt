//! What is wrong with a capture, and at which record.

ghost use Rattle.std.specs.Prelude.{◌≡◌, ◌≤◌, length};
ghost use Rattle.captures.specs.CaptureFaults.{kind_name};

use devices::Stop;
use std::error::Error;
use std::fmt;

/// What is wrong with a record of a capture.
#[derive(Clone, Copy, Debug, PartialEq, Eq)]
pub enum CaptureFaultKind {
    /// The input ends before a line feed or before bytes that it announces.
    Cut,
    /// The first line is another than that of a capture, or the start is past its limit.
    Header,
    /// A line announces no piece, no end, no tier and no stop, or a tier in version 1, or is longer than 64 bytes.
    Kind,
    /// A line has the wrong number of fields, or a field is no decimal.
    Number,
    /// A tick is past its limit, or lower than the one before.
    Tick,
    /// The number of a connection is past its limit.
    Connection,
    /// The connection had its end.
    Ended,
    /// A tier is above 3, or the connection has had a piece or a tier.
    Tier,
    /// A piece has no bytes or too many, or no line feed follows its bytes.
    Length,
    /// The last line gives another number of records.
    Count,
    /// A byte follows the last line.
    Trailing,
    /// The whole text is past its limit.
    TooLarge,
    /// The device failed.
    Read,
    /// There was no memory for the bytes of a piece.
    Memory,
}

impl CaptureFaultKind {
    /// Its name, as in a line that reports the fault.
    pub fn name(self) -> &'static str
        ensures name { result.now ≡ kind_name self }
        ensures short { length result.now ≤ 12 }
    {
        match self {
            CaptureFaultKind::Cut => "Cut",
            CaptureFaultKind::Header => "Header",
            CaptureFaultKind::Kind => "Kind",
            CaptureFaultKind::Number => "Number",
            CaptureFaultKind::Tick => "Tick",
            CaptureFaultKind::Connection => "Connection",
            CaptureFaultKind::Ended => "Ended",
            CaptureFaultKind::Tier => "Tier",
            CaptureFaultKind::Length => "Length",
            CaptureFaultKind::Count => "Count",
            CaptureFaultKind::Trailing => "Trailing",
            CaptureFaultKind::TooLarge => "TooLarge",
            CaptureFaultKind::Read => "Read",
            CaptureFaultKind::Memory => "Memory",
        }
    }
}

impl fmt::Display for CaptureFaultKind {
    ghost use Rattle.std.specs.Prelude.{Some};
    ghost use Rattle.captures.specs.CaptureFaults.{kind_name};

    ghost output = { λ kind. Some (kind_name kind) };

    fn fmt<W: fmt::Write>(&self, f: &mut fmt::Formatter<W>) -> fmt::Result {
        f.write_str(self.name())
    }
}

impl Error for CaptureFaultKind {}

/// The first fault of a capture. Record 0 is the first line, pieces, ends and tiers are records from 1 on, and the last
/// line is the record after them.
#[derive(Clone, Copy, Debug, PartialEq, Eq, thiserror::Error)]
#[error("record {at}: {kind}")]
pub struct CaptureFault {
    pub at: usize,
    pub kind: CaptureFaultKind,
}

impl From<Stop> for CaptureFaultKind {
    ghost use Rattle.captures.specs.CaptureFaults.{kind_of};

    ghost from_gives = { λ stop kind. kind ≡ kind_of stop };

    fn from(stop: Stop) -> CaptureFaultKind {
        match stop {
            Stop::TooLong => CaptureFaultKind::Kind,
            Stop::Cut => CaptureFaultKind::Cut,
            Stop::TooLarge => CaptureFaultKind::TooLarge,
            Stop::Read => CaptureFaultKind::Read,
            Stop::Memory => CaptureFaultKind::Memory,
        }
    }
}
