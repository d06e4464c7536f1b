//! What is wrong with a snapshot, and at which entry.

ghost use Rattle.std.specs.Prelude.{◌≡◌, ◌≤◌, length};
ghost use Rattle.paths.specs.SnapshotFaults.{kind_name};

use devices::Stop;
use std::error::Error;
use std::fmt;

/// What is wrong with an entry of a snapshot.
#[derive(Clone, Copy, Debug, PartialEq, Eq)]
pub enum SnapshotFaultKind {
    /// The input ends before a line feed or before bytes that it announces.
    Cut,
    /// The first line is another than that of a snapshot.
    Header,
    /// A line announces neither a file nor the end, or is longer than 64 bytes.
    Kind,
    /// A line has the wrong number of fields, a field is no decimal, or the time is past its limit.
    Number,
    /// A file, the number of files or the whole text is past its limit.
    TooLarge,
    /// A name is empty, too long or not allowed, or no line feed follows it.
    Name,
    /// A name doesn't come after the one before it.
    Order,
    /// A name lies in a folder whose name an earlier file has.
    Conflict,
    /// No line feed follows the bytes of a file.
    Length,
    /// The last line gives another number of files.
    Count,
    /// A byte follows the last line.
    Trailing,
    /// The device failed.
    Read,
    /// There was no memory for a name or a file.
    Memory,
}

impl SnapshotFaultKind {
    /// Its name, as in a line that reports the fault.
    pub fn name(self) -> &'static str
        ensures name { result.now ≡ kind_name self }
        ensures short { length result.now ≤ 12 }
    {
        match self {
            SnapshotFaultKind::Cut => "Cut",
            SnapshotFaultKind::Header => "Header",
            SnapshotFaultKind::Kind => "Kind",
            SnapshotFaultKind::Number => "Number",
            SnapshotFaultKind::TooLarge => "TooLarge",
            SnapshotFaultKind::Name => "Name",
            SnapshotFaultKind::Order => "Order",
            SnapshotFaultKind::Conflict => "Conflict",
            SnapshotFaultKind::Length => "Length",
            SnapshotFaultKind::Count => "Count",
            SnapshotFaultKind::Trailing => "Trailing",
            SnapshotFaultKind::Read => "Read",
            SnapshotFaultKind::Memory => "Memory",
        }
    }
}

impl fmt::Display for SnapshotFaultKind {
    ghost use Rattle.std.specs.Prelude.{Some};
    ghost use Rattle.paths.specs.SnapshotFaults.{kind_name};

    ghost output = { λ kind. Some (kind_name kind) };

    fn fmt<W: fmt::Write>(&self, f: &mut fmt::Formatter<W>) -> fmt::Result {
        f.write_str(self.name())
    }
}

impl Error for SnapshotFaultKind {}

/// The first fault of a snapshot text. Entry 0 is the first line, files are entries from 1 on, and the last line is the
/// entry after them.
#[derive(Clone, Copy, Debug, PartialEq, Eq, thiserror::Error)]
#[error("entry {entry}: {kind}")]
pub struct SnapshotFault {
    pub entry: usize,
    pub kind: SnapshotFaultKind,
}

impl From<Stop> for SnapshotFaultKind {
    ghost use Rattle.paths.specs.SnapshotFaults.{kind_of};

    ghost from_gives = { λ stop kind. kind ≡ kind_of stop };

    fn from(stop: Stop) -> SnapshotFaultKind {
        match stop {
            Stop::TooLong => SnapshotFaultKind::Kind,
            Stop::Cut => SnapshotFaultKind::Cut,
            Stop::TooLarge => SnapshotFaultKind::TooLarge,
            Stop::Read => SnapshotFaultKind::Read,
            Stop::Memory => SnapshotFaultKind::Memory,
        }
    }
}
