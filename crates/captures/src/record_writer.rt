//! Writing records.

ghost use Rattle.std.specs.Prelude.{◌≡◌, ◌<◌, ◌-◌, ◌^◌, ◌++◌, ◌∷◌, [], codes, decimal, IfOk, IfErr};
ghost use Rattle.std.specs.String.{string_bytes};
ghost use Rattle.devices.specs.Devices.{CanFail, CountsBy, WritesPrefix};
ghost use Rattle.captures.specs.Reference.{first_line, piece_line, record_text};
ghost use Rattle.captures.specs.Passes.{writer_failures, IsWriteOrMemory};
ghost use Rattle.captures.specs.Captures.{line_of, rest_of};

use crate::{PassFault, Record, Version};
use devices::Output;
use std::alloc::{AllocError, Global};
use std::io::Write;

/// Writes the first line of a text in this format.
///
/// # Errors
///
/// `Write` where the writer failed, and `Memory`: a prefix of the line stands.
pub fn write_first_line<W: Write>(
    alloc: Global,
    output: &mut Output<W>,
    version: Version,
    start: u64,
) -> Result<(), PassFault>
    requires { CanFail output.old }
    ensures prefix { WritesPrefix
        output.old.bytes output.new.bytes result (first_line version start ++ 10 ∷ []) }
    ensures count { CountsBy writer_failures output.old.failures output.new.failures result }
    ensures own { IfErr result IsWriteOrMemory }
{
    let opening = version.row().opening;
    let line = format!(in alloc; "{opening}{start}\n")?;
    output.write_all(line.as_bytes())?;
    Ok(())
}

/// The line before the bytes of a piece.
fn piece_line(alloc: Global, tick: u64, conn: u16, len: usize) -> Result<String, AllocError>
    ensures { IfOk result (λ line. string_bytes line ≡ piece_line tick conn len ++ 10 ∷ []) }
{
    format!(in alloc; "piece {tick} {conn} {len}\n")
}

/// The line of a record, or the one before its bytes.
fn record_line(alloc: Global, next: &Record) -> Result<String, AllocError>
    ensures { IfOk result (λ line. string_bytes line ≡ line_of next.now) }
{
    match next {
        Record::Piece { tick, conn, bytes } => {
            piece_line(alloc, *tick, *conn, bytes.as_slice().len())
        }
        Record::End { tick, conn } => format!(in alloc; "end {tick} {conn}\n"),
        Record::Tier { conn, tier } => format!(in alloc; "tier {conn} {tier}\n"),
    }
}

/// Writes the line of a record.
fn write_line<W: Write>(
    alloc: Global,
    output: &mut Output<W>,
    next: &Record,
) -> Result<(), PassFault>
    requires { CanFail output.old }
    ensures prefix { WritesPrefix output.old.bytes output.new.bytes result (line_of next.now) }
    ensures count { CountsBy writer_failures output.old.failures output.new.failures result }
    ensures own { IfErr result IsWriteOrMemory }
{
    let line = record_line(alloc, next)?;
    output.write_all(line.as_bytes())?;
    Ok(())
}

/// Writes what comes after the line of a record: the bytes of a piece, with a line feed.
fn write_rest<W: Write>(output: &mut Output<W>, next: &Record) -> Result<(), PassFault>
    requires { CanFail output.old }
    ensures prefix { WritesPrefix output.old.bytes output.new.bytes result (rest_of next.now) }
    ensures count { CountsBy writer_failures output.old.failures output.new.failures result }
    ensures own { IfErr result IsWriteOrMemory }
{
    if let Record::Piece { bytes, .. } = next {
        output.write_both(bytes.as_slice(), b"\n")?;
    }
    Ok(())
}

/// Writes a record.
///
/// # Errors
///
/// `Write` where the writer failed, and `Memory`: a prefix of the record's text stands.
pub fn write_record<W: Write>(
    alloc: Global,
    output: &mut Output<W>,
    next: &Record,
) -> Result<(), PassFault>
    requires { CanFail output.old }
    ensures prefix { WritesPrefix output.old.bytes output.new.bytes result (record_text next.now) }
    ensures count { CountsBy writer_failures output.old.failures output.new.failures result }
    ensures own { IfErr result IsWriteOrMemory }
{
    match write_line(alloc, output, next) {
        Ok(()) => write_rest(output, next),
        Err(fault) => Err(fault),
    }
}

/// Writes the last line of a capture of n records.
///
/// # Errors
///
/// `Write` where the writer failed, and `Memory`: a prefix of the line stands.
pub fn write_last_line<W: Write>(
    alloc: Global,
    output: &mut Output<W>,
    count: usize,
) -> Result<(), PassFault>
    requires { CanFail output.old }
    ensures prefix { WritesPrefix output.old.bytes output.new.bytes result
        ((codes "stop " ++ decimal count) ++ 10 ∷ []) }
    ensures count { CountsBy writer_failures output.old.failures output.new.failures result }
    ensures own { IfErr result IsWriteOrMemory }
{
    let line = format!(in alloc; "stop {count}\n")?;
    output.write_all(line.as_bytes())?;
    Ok(())
}
