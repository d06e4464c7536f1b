//! The first line and the lines that announce records: what each says, and reading it.

ghost use Rattle.std.specs.Prelude.{◌≡◌, ◌≢◌, ◌<◌, ◌≤◌, ◌-◌, ◌^◌, ◌+◌, min, IfOk, IfErr, IfSome};
ghost use Rattle.devices.specs.Devices.{CanFail};
ghost use Rattle.devices.specs.Numbers.{number_of};
ghost use Rattle.devices.specs.Texts.{Counts, Gives, line_at};
ghost use Rattle.devices.specs.Parts.{FailsAfter, FailsWithin, TookAtMost};
ghost use Rattle.captures.specs.Reference.{max_start};
ghost use Rattle.captures.specs.Captures.{Follows, longest_record};
ghost use Rattle.captures.specs.CaptureFaults.{CountsKind, IsUnfinished, is_unforeseen_kind, header_at, record_at};
ghost use Rattle.captures.specs.CaptureFaults.{two_numbers, heading_of, start_heading, start_of};
ghost use Rattle.captures.specs.Readers.{seen, GivesLine};

use crate::reading::read_announced;
use crate::so_far::SoFar;
use crate::{CaptureFaultKind, Record, Version};
use devices::{
    Input, Line, Stop, number, number_and_rest, read_line, read_long_line, three_numbers,
};
use std::alloc::Global;
use std::io::Read;

/// The latest start of a capture, in seconds since 1970-01-01.
const MAX_START: u64 = 4_102_444_800;
/// The fewest bytes of a line that announces something, as `stop 0`, with its line feed.
const SHORTEST_LINE: usize = 7;
/// The fewest bytes of a piece's line, as `piece 0 0 1`, with its line feed.
const SHORTEST_PIECE_LINE: usize = 12;

/// The line before a piece: its tick, its connection, and how many bytes follow. A number past 64 bits stands as
/// the greatest of 64 bits, which is past every limit.
#[derive(Clone, Copy, Debug)]
pub struct PieceLine {
    pub tick: u64,
    pub conn: u64,
    pub len: u64,
}

/// The line that ends a connection.
#[derive(Clone, Copy, Debug)]
pub struct EndLine {
    pub tick: u64,
    pub conn: u64,
}

/// The line that gives a connection its tier.
#[derive(Clone, Copy, Debug)]
pub struct TierLine {
    pub conn: u64,
    pub tier: u64,
}

/// What a line of a capture announces: a piece, the end of a connection, its tier, or the end of the capture after so
/// many records.
#[derive(Clone, Copy, Debug)]
pub enum Heading {
    Piece(PieceLine),
    End(EndLine),
    Tier(TierLine),
    Stop(u64),
}

/// A version, and the start that a field gives.
fn read_field(version: Version, field: &[u8]) -> Result<(Version, u64), CaptureFaultKind>
    ensures { result ≡ start_heading version (number_of field.now) }
{
    match number(field) {
        Some(start) if start <= MAX_START => Ok((version, start)),
        Some(_) => Err(CaptureFaultKind::Header),
        None => Err(CaptureFaultKind::Number),
    }
}

/// The format and the start that the first line gives.
fn read_start(line: &[u8]) -> Result<(Version, u64), CaptureFaultKind>
    ensures { result ≡ start_of line.now }
{
    match line.strip_prefix(Version::One.row().opening.as_bytes()) {
        Some(field) => read_field(Version::One, field),
        None => match line.strip_prefix(Version::Two.row().opening.as_bytes()) {
            Some(field) => read_field(Version::Two, field),
            None => match line.strip_prefix(Version::Traffic.row().opening.as_bytes()) {
                Some(field) => read_field(Version::Traffic, field),
                None => Err(CaptureFaultKind::Header),
            },
        },
    }
}

/// The numbers of two decimals that are parted by one space.
fn two_numbers(text: &[u8]) -> Option<(u64, u64)>
    ensures { result ≡ two_numbers text.now }
{
    let (first, rest) = number_and_rest(text)?;
    let second = number(rest)?;
    Some((first, second))
}

/// What a line of a capture of this version announces.
fn read_heading(version: Version, line: &[u8]) -> Result<Heading, CaptureFaultKind>
    ensures { result ≡ heading_of version line.now }
{
    if let Some(fields) = line.strip_prefix(b"piece ") {
        return match three_numbers(fields) {
            Some((tick, conn, len)) => Ok(Heading::Piece(PieceLine { tick, conn, len })),
            None => Err(CaptureFaultKind::Number),
        };
    }
    if let Some(fields) = line.strip_prefix(b"end ") {
        return match two_numbers(fields) {
            Some((tick, conn)) => Ok(Heading::End(EndLine { tick, conn })),
            None => Err(CaptureFaultKind::Number),
        };
    }
    if let Some(fields) = line.strip_prefix(b"tier ") {
        if version.row().has_tiers {
            return match two_numbers(fields) {
                Some((conn, tier)) => Ok(Heading::Tier(TierLine { conn, tier })),
                None => Err(CaptureFaultKind::Number),
            };
        }
    }
    match line.strip_prefix(b"stop ") {
        Some(field) => match number(field) {
            Some(count) => Ok(Heading::Stop(count)),
            None => Err(CaptureFaultKind::Number),
        },
        None => Err(CaptureFaultKind::Kind),
    }
}

/// Reads the first line, and answers its version and the start.
pub(crate) fn read_header<R: Read>(
    input: &mut Input<R>,
    left: &mut usize,
) -> Result<(Version, u64), CaptureFaultKind>
    requires { CanFail input.old }
    ensures line { Gives is_unforeseen_kind header_at
        input.old.bytes left.old input.new.bytes left.new result }
    // Where a read failed, no whole line had been taken.
    ensures part { FailsWithin CaptureFaultKind.Read CaptureFaultKind.Cut header_at
        input.old.bytes left.old input.new.bytes left.new result }
    ensures limit { IfOk result (λ first. first.1 ≤ max_start) }
    ensures count { CountsKind input.old.failures input.new.failures result }
    // It takes no memory.
    ensures memory { IfErr result (λ kind. kind ≢ CaptureFaultKind.Memory) }
    // Of the input no more was taken than a line may have.
    ensures most { TookAtMost 65 input.old.bytes input.new.bytes }
{
    match read_line(input, left) {
        Ok(line) => read_start(line.as_slice()),
        Err(Stop::TooLong) => Err(CaptureFaultKind::Header),
        Err(stop) => Err(CaptureFaultKind::from(stop)),
    }
}

/// Reads the line of a record, or of the end, of a capture of this version. Bytes after a line that announces nothing
/// may have been read too.
fn read_record_line<R: Read>(
    input: &mut Input<R>,
    left: &mut usize,
    _version: Version,
) -> Result<Line, Stop>
    requires { CanFail input.old }
    ensures line { GivesLine _version input.old.bytes left.old input.new.bytes left.new result }
    // Where a read failed, no whole line had been taken.
    ensures part { FailsWithin Stop.Read Stop.Cut line_at
        input.old.bytes left.old input.new.bytes left.new result }
    ensures count { Counts input.old.failures input.new.failures result }
    // It takes no memory.
    ensures memory { IfErr result (λ e. e ≢ Stop.Memory) }
    // At most 65 bytes were taken, and one byte past the limit.
    ensures most { TookAtMost (min 65 (left.old + 1)) input.old.bytes input.new.bytes }
{
    read_long_line(input, left, SHORTEST_LINE, b"piece ", SHORTEST_PIECE_LINE)
}

/// Reads the record after those so far, or `None` where the capture ends.
pub(crate) fn read_record<R: Read>(
    alloc: Global,
    input: &mut Input<R>,
    left: &mut usize,
    version: Version,
    so_far: &SoFar,
) -> Result<Option<Record>, CaptureFaultKind>
    requires { CanFail input.old }
    ensures record { Gives is_unforeseen_kind
        (record_at version (seen so_far.now)) input.old.bytes left.old input.new.bytes left.new result }
    // Where a read failed, no whole record had been taken.
    ensures part { FailsAfter CaptureFaultKind.Read
        (λ part. IsUnfinished (record_at version (seen so_far.now) (record { bytes = part; left = left.old })))
        input.old.bytes left.old input.new.bytes left.new result }
    ensures fits { IfOk result (λ next. IfSome next (Follows version (seen so_far.now))) }
    ensures count { CountsKind input.old.failures input.new.failures result }
    // At most the longest record was taken, and one byte past the limit.
    ensures most { TookAtMost (min longest_record (left.old + 1)) input.old.bytes input.new.bytes }
{
    let line = read_record_line(input, left, version)?;
    let heading = read_heading(version, line.as_slice())?;
    read_announced(alloc, input, left, version, so_far, heading)
}
