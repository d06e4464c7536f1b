//! The line of an entry of a snapshot, and what it announces.

ghost use Rattle.std.specs.Prelude.{◌≡◌, ◌-◌, ◌<◌, IfErr, ◌≢◌};
ghost use Rattle.devices.specs.Devices.{CanFail};
ghost use Rattle.devices.specs.Texts.{Counts, line_at};
ghost use Rattle.devices.specs.Parts.{FailsWithin};
ghost use Rattle.paths.specs.SnapshotFaults.{heading_of, GivesLine};

use crate::SnapshotFaultKind;
use crate::file::{EntryHeading, FileLine};
use devices::{Input, Line, Stop, number, read_long_line, three_numbers};
use std::io::Read;

/// The fewest bytes of a line that announces something, as `end 0`, with its line feed.
const SHORTEST_LINE: usize = 6;
/// The fewest bytes of a file's line, as `file 0 1 0`, with its line feed.
const SHORTEST_FILE_LINE: usize = 11;

/// Reads the line of an entry of a text that may take `left` more bytes. Bytes after a line that announces nothing
/// may have been read too.
pub(crate) fn read_entry_line<R: Read>(input: &mut Input<R>, left: &mut usize) -> Result<Line, Stop>
    requires { CanFail input.old }
    ensures line { GivesLine input.old.bytes left.old input.new.bytes left.new result }
    // Where a read failed, no whole line had been taken.
    ensures part { FailsWithin Stop.Read Stop.Cut line_at
        input.old.bytes left.old input.new.bytes left.new result }
    ensures count { Counts input.old.failures input.new.failures result }
    // It takes no memory.
    ensures memory { IfErr result (λ e. e ≢ Stop.Memory) }
{
    read_long_line(input, left, SHORTEST_LINE, b"file ", SHORTEST_FILE_LINE)
}

/// What a line of a snapshot announces.
pub(crate) fn read_heading(line: &[u8]) -> Result<EntryHeading, SnapshotFaultKind>
    ensures { result ≡ heading_of line.now }
{
    if let Some(fields) = line.strip_prefix(b"file ") {
        return match three_numbers(fields) {
            Some((mtime, name_len, len)) => Ok(EntryHeading::File(FileLine {
                mtime,
                name_len,
                len,
            })),
            None => Err(SnapshotFaultKind::Number),
        };
    }
    match line.strip_prefix(b"end ") {
        Some(field) => match number(field) {
            Some(count) => Ok(EntryHeading::End(count)),
            None => Err(SnapshotFaultKind::Number),
        },
        None => Err(SnapshotFaultKind::Kind),
    }
}
