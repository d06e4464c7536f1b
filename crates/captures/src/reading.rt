//! Reading what a line announced.

ghost use Rattle.std.specs.Prelude.{◌≡◌, ◌≢◌, ◌<◌, ◌≤◌, ◌-◌, ◌^◌, ◌+◌, length, min, IfOk, IfErr, IfSome};
ghost use Rattle.devices.specs.Devices.{CanFail};
ghost use Rattle.devices.specs.Texts.{Gives};
ghost use Rattle.devices.specs.Parts.{FailsAtOnce, FailsAfter, FailsWithin, TookAtMost};
ghost use Rattle.captures.specs.Reference.{max_piece_bytes};
ghost use Rattle.captures.specs.Captures.{Follows};
ghost use Rattle.captures.specs.CaptureFaults.{CountsKind, IsUnfinished, IsHeadingOf, is_unforeseen_kind};
ghost use Rattle.captures.specs.CaptureFaults.{body_at, piece_at, close_at, announced};
ghost use Rattle.captures.specs.Readers.{seen};

use crate::headings::{Heading, PieceLine};
use crate::so_far::SoFar;
use crate::{CaptureFaultKind, Record, Version};
use devices::{Bytes, Input, read_byte_of, read_run};
use std::alloc::Global;
use std::io::Read;

/// The most bytes of a piece.
const MAX_PIECE_BYTES: u64 = 65_536;

/// Reads the bytes of a piece, n.
fn read_body<R: Read>(
    alloc: Global,
    input: &mut Input<R>,
    left: &mut usize,
    len: usize,
) -> Result<Bytes, CaptureFaultKind>
    requires { CanFail input.old }
    ensures bytes { Gives is_unforeseen_kind (body_at len)
        input.old.bytes left.old input.new.bytes left.new result }
    // Where a read failed, no whole run had been taken.
    ensures part { FailsWithin CaptureFaultKind.Read CaptureFaultKind.Cut (body_at len)
        input.old.bytes left.old input.new.bytes left.new result }
    ensures length { IfOk result (λ bytes. length bytes ≡ len) }
    ensures count { CountsKind input.old.failures input.new.failures result }
    // At most the bytes and one more were taken, and one byte past the limit.
    ensures most { TookAtMost (min (len + 1) (left.old + 1)) input.old.bytes input.new.bytes }
{
    let bytes = read_run(alloc, input, left, len)?;
    let end = read_byte_of(input, left)?;
    if end != b'\n' {
        return Err(CaptureFaultKind::Length);
    }
    Ok(bytes)
}

/// Reads the piece that a line announced.
fn read_piece<R: Read>(
    alloc: Global,
    input: &mut Input<R>,
    left: &mut usize,
    version: Version,
    so_far: &SoFar,
    line: PieceLine,
) -> Result<Record, CaptureFaultKind>
    requires { CanFail input.old }
    ensures piece { Gives is_unforeseen_kind
        (piece_at version (seen so_far.now) line) input.old.bytes left.old input.new.bytes left.new result }
    // Where a read failed, no whole piece had been taken.
    ensures part { FailsWithin CaptureFaultKind.Read CaptureFaultKind.Cut
        (piece_at version (seen so_far.now) line)
        input.old.bytes left.old input.new.bytes left.new result }
    ensures fits { IfOk result (Follows version (seen so_far.now)) }
    ensures count { CountsKind input.old.failures input.new.failures result }
    // At most the longest piece was taken, and one byte past the limit.
    ensures most { TookAtMost (min (max_piece_bytes + 1) (left.old + 1))
        input.old.bytes input.new.bytes }
{
    let conn = so_far.allow(version, line.tick, line.conn)?;
    if line.len == 0 || line.len > MAX_PIECE_BYTES {
        return Err(CaptureFaultKind::Length);
    }
    let bytes = read_body(alloc, input, left, line.len as usize)?;
    Ok(Record::Piece {
        tick: line.tick,
        conn,
        bytes,
    })
}

/// Looks for the end of the input.
fn read_close<R: Read>(input: &mut Input<R>, left: usize) -> Result<(), CaptureFaultKind>
    requires { CanFail input.old }
    ensures close { Gives is_unforeseen_kind close_at
        input.old.bytes left input.new.bytes left result }
    // A read that failed took nothing.
    ensures part { FailsAtOnce CaptureFaultKind.Read
        input.old.bytes left input.new.bytes left result }
    ensures count { CountsKind input.old.failures input.new.failures result }
    // It takes no memory.
    ensures memory { IfErr result (λ kind. kind ≢ CaptureFaultKind.Memory) }
    // At most one byte was taken.
    ensures most { TookAtMost 1 input.old.bytes input.new.bytes }
{
    match input.read_byte() {
        Ok(None) => Ok(()),
        Ok(Some(_)) => Err(CaptureFaultKind::Trailing),
        Err(_) => Err(CaptureFaultKind::Read),
    }
}

/// Reads what a line announced: a record, or `None` where the capture ends.
pub(crate) fn read_announced<R: Read>(
    alloc: Global,
    input: &mut Input<R>,
    left: &mut usize,
    version: Version,
    so_far: &SoFar,
    heading: Heading,
) -> Result<Option<Record>, CaptureFaultKind>
    requires failures { CanFail input.old }
    requires version { IsHeadingOf version heading }
    ensures record { Gives is_unforeseen_kind
        (announced version (seen so_far.now) heading) input.old.bytes left.old input.new.bytes left.new result }
    // Where a read failed, no whole record had been taken.
    ensures part { FailsAfter CaptureFaultKind.Read
        (λ part. IsUnfinished (announced version (seen so_far.now) heading (record { bytes = part; left = left.old })))
        input.old.bytes left.old input.new.bytes left.new result }
    ensures fits { IfOk result (λ next. IfSome next (Follows version (seen so_far.now))) }
    ensures count { CountsKind input.old.failures input.new.failures result }
    // At most the longest piece was taken, and one byte past the limit.
    ensures most { TookAtMost (min (max_piece_bytes + 1) (left.old + 1))
        input.old.bytes input.new.bytes }
{
    match heading {
        Heading::Piece(line) => match read_piece(alloc, input, left, version, so_far, line) {
            Ok(piece) => Ok(Some(piece)),
            Err(kind) => Err(kind),
        },
        Heading::End(line) => match so_far.allow(version, line.tick, line.conn) {
            Ok(conn) => Ok(Some(Record::End {
                tick: line.tick,
                conn,
            })),
            Err(kind) => Err(kind),
        },
        Heading::Tier(line) => match so_far.allow_tier(version, line) {
            Ok(tier) => Ok(Some(tier)),
            Err(kind) => Err(kind),
        },
        Heading::Stop(count) => {
            if count != so_far.count as u64 {
                return Err(CaptureFaultKind::Count);
            }
            match read_close(input, *left) {
                Ok(()) => Ok(None),
                Err(kind) => Err(kind),
            }
        }
    }
}
