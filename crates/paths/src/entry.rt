//! Reading the first line, the entries and the last line of a snapshot.

ghost use Rattle.std.specs.Prelude.{◌≡◌, ◌<◌, ◌≤◌, ◌-◌, ◌^◌, ◌&&◌, ◌==◌, not, length, IfOk, IfErr, IfSome, ◌≢◌};
ghost use Rattle.std.specs.List.{list_all, list_any, slice_split};
ghost use Rattle.paths.specs.Reference.{slash};
ghost use Rattle.devices.specs.Devices.{CanFail};
ghost use Rattle.devices.specs.Texts.{Gives};
ghost use Rattle.devices.specs.Parts.{FailsAtOnce, FailsWithin, LacksWithin, TookAtMost};
ghost use Rattle.paths.specs.Snapshots.{is_name, is_part, FitsName, Follows};
ghost use Rattle.paths.specs.SnapshotFaults.{CountsKind, is_unforeseen_kind, header_at, name_at, body_at, file_at};
ghost use Rattle.paths.specs.SnapshotFaults.{announced, entry_at};

use crate::bytes::is_text;
use crate::file::{EntryHeading, FileLine};
use crate::heading::{read_entry_line, read_heading};
use crate::{
    File, MAX_FILE_BYTES, MAX_FILES, MAX_NAME_BYTES, MAX_TIME, Snapshot, SnapshotFaultKind,
};
use devices::{Bytes, Input, Stop, read_byte_of, read_line, read_run};
use std::alloc::Global;
use std::io::Read;

/// Whether these bytes may be a file's name: UTF-8 without byte 0, whose parts between slashes are names of their own.
pub fn is_name(name: &[u8]) -> bool
    ensures { result ≡ is_name name.now }
{
    is_text(name) && has_no_zero(name) && has_good_parts(name)
}

/// Whether no byte is 0.
fn has_no_zero(bytes: &[u8]) -> bool
    ensures { result ≡ list_all (λ b. not (b == 0)) bytes.now }
{
    bytes.iter().all(|byte| *byte != 0)
}

/// Whether each part between slashes may be one.
fn has_good_parts(name: &[u8]) -> bool
    ensures { result ≡ list_all is_part (slice_split (λ b. b == slash) name.now) }
{
    name.split(|byte| *byte == b'/').all(|part| is_part(part))
}

/// Whether these bytes may be a part of a name between slashes.
fn is_part(part: &[u8]) -> bool
    ensures { result ≡ is_part part.now }
{
    !part.is_empty() && part != b".".as_slice() && part != b"..".as_slice()
}

/// Reads the first line.
pub(crate) fn read_header<R: Read>(
    input: &mut Input<R>,
    left: &mut usize,
) -> Result<(), SnapshotFaultKind>
    requires { CanFail input.old }
    ensures line { Gives is_unforeseen_kind header_at
        input.old.bytes left.old input.new.bytes left.new result }
    // Where a read failed, no whole line had been taken.
    ensures part { FailsWithin SnapshotFaultKind.Read SnapshotFaultKind.Cut header_at
        input.old.bytes left.old input.new.bytes left.new result }
    ensures count { CountsKind input.old.failures input.new.failures result }
    // It takes no memory.
    ensures memory { IfErr result (λ kind. kind ≢ SnapshotFaultKind.Memory) }
    // Of the input no more was taken than a line may have.
    ensures most { TookAtMost 65 input.old.bytes input.new.bytes }
{
    match read_line(input, left) {
        Ok(line) => {
            if line.as_slice() == b"haboob-snapshot 1".as_slice() {
                Ok(())
            } else {
                Err(SnapshotFaultKind::Header)
            }
        }
        Err(Stop::TooLong) => Err(SnapshotFaultKind::Header),
        Err(stop) => Err(SnapshotFaultKind::from(stop)),
    }
}

/// Reads a name of n bytes that may stand after those of the snapshot.
fn read_name<R: Read>(
    alloc: Global,
    input: &mut Input<R>,
    left: &mut usize,
    files: &Snapshot,
    len: usize,
) -> Result<Bytes, SnapshotFaultKind>
    requires { CanFail input.old }
    ensures name { Gives is_unforeseen_kind (name_at files.now len)
        input.old.bytes left.old input.new.bytes left.new result }
    // Where a read failed, no whole name had been taken.
    ensures part { FailsWithin SnapshotFaultKind.Read SnapshotFaultKind.Cut
        (name_at files.now len)
        input.old.bytes left.old input.new.bytes left.new result }
    // Where there was no memory, nothing had been taken.
    ensures lacks { FailsAtOnce SnapshotFaultKind.Memory
        input.old.bytes left.old input.new.bytes left.new result }
    ensures fits { IfOk result (λ name. FitsName files.now len name) }
    ensures count { CountsKind input.old.failures input.new.failures result }
{
    let name = read_run(alloc, input, left, len)?;
    let end = read_byte_of(input, left)?;
    if end != b'\n' || !is_name(name.as_slice()) {
        return Err(SnapshotFaultKind::Name);
    }
    if !files.precedes(name.as_slice()) {
        return Err(SnapshotFaultKind::Order);
    }
    if files.has_file_above(name.as_slice()) {
        return Err(SnapshotFaultKind::Conflict);
    }
    Ok(name)
}

/// Reads the bytes of a file, n.
fn read_body<R: Read>(
    alloc: Global,
    input: &mut Input<R>,
    left: &mut usize,
    len: usize,
) -> Result<Bytes, SnapshotFaultKind>
    requires { CanFail input.old }
    ensures bytes { Gives is_unforeseen_kind (body_at len)
        input.old.bytes left.old input.new.bytes left.new result }
    // Where a read failed, no whole run had been taken.
    ensures part { FailsWithin SnapshotFaultKind.Read SnapshotFaultKind.Cut
        (body_at len)
        input.old.bytes left.old input.new.bytes left.new result }
    // Where there was no memory, nothing had been taken.
    ensures lacks { FailsAtOnce SnapshotFaultKind.Memory
        input.old.bytes left.old input.new.bytes left.new result }
    ensures length { IfOk result (λ bytes. length bytes ≡ len) }
    ensures count { CountsKind input.old.failures input.new.failures result }
{
    let bytes = read_run(alloc, input, left, len)?;
    let end = read_byte_of(input, left)?;
    if end != b'\n' {
        return Err(SnapshotFaultKind::Length);
    }
    Ok(bytes)
}

/// Reads the file that a line announced, after those of the snapshot.
fn read_file<R: Read>(
    alloc: Global,
    input: &mut Input<R>,
    left: &mut usize,
    files: &Snapshot,
    line: FileLine,
) -> Result<File, SnapshotFaultKind>
    requires { CanFail input.old }
    ensures file { Gives is_unforeseen_kind (file_at files.now line)
        input.old.bytes left.old input.new.bytes left.new result }
    // Where a read failed, no whole file had been taken.
    ensures part { FailsWithin SnapshotFaultKind.Read SnapshotFaultKind.Cut
        (file_at files.now line)
        input.old.bytes left.old input.new.bytes left.new result }
    // Nor where there was no memory.
    ensures lacks { FailsWithin SnapshotFaultKind.Memory SnapshotFaultKind.Cut
        (file_at files.now line)
        input.old.bytes left.old input.new.bytes left.new result }
    ensures fits { IfOk result (λ file. Follows files.now file) }
    ensures count { CountsKind input.old.failures input.new.failures result }
{
    if line.mtime > MAX_TIME {
        return Err(SnapshotFaultKind::Number);
    }
    if line.len > MAX_FILE_BYTES || files.len() >= MAX_FILES {
        return Err(SnapshotFaultKind::TooLarge);
    }
    if line.name_len == 0 || line.name_len > MAX_NAME_BYTES {
        return Err(SnapshotFaultKind::Name);
    }
    let name = read_name(alloc, input, left, files, line.name_len as usize)?;
    let bytes = read_body(alloc, input, left, line.len as usize)?;
    Ok(File {
        name,
        mtime: line.mtime,
        bytes,
    })
}

/// Reads what a line announced: a file, or `None` for the end.
fn read_announced<R: Read>(
    alloc: Global,
    input: &mut Input<R>,
    left: &mut usize,
    files: &Snapshot,
    heading: EntryHeading,
) -> Result<Option<File>, SnapshotFaultKind>
    requires { CanFail input.old }
    ensures entry { Gives is_unforeseen_kind
        (announced files.now heading) input.old.bytes left.old input.new.bytes left.new result }
    // Where a read failed, no whole file had been taken.
    ensures part { FailsWithin SnapshotFaultKind.Read SnapshotFaultKind.Cut
        (announced files.now heading)
        input.old.bytes left.old input.new.bytes left.new result }
    // Nor where there was no memory.
    ensures lacks { FailsWithin SnapshotFaultKind.Memory SnapshotFaultKind.Cut
        (announced files.now heading)
        input.old.bytes left.old input.new.bytes left.new result }
    ensures fits { IfOk result (λ entry. IfSome entry (λ file. Follows files.now file)) }
    ensures count { CountsKind input.old.failures input.new.failures result }
{
    match heading {
        EntryHeading::File(line) => match read_file(alloc, input, left, files, line) {
            Ok(file) => Ok(Some(file)),
            Err(kind) => Err(kind),
        },
        EntryHeading::End(count) => {
            if count == files.len() as u64 {
                Ok(None)
            } else {
                Err(SnapshotFaultKind::Count)
            }
        }
    }
}

/// Reads the entry after the files of the snapshot: a file, or `None` for the last line.
pub(crate) fn read_entry<R: Read>(
    alloc: Global,
    input: &mut Input<R>,
    left: &mut usize,
    files: &Snapshot,
) -> Result<Option<File>, SnapshotFaultKind>
    requires { CanFail input.old }
    ensures entry { Gives is_unforeseen_kind (entry_at files.now)
        input.old.bytes left.old input.new.bytes left.new result }
    // Where a read failed, no whole entry had been taken.
    ensures part { FailsWithin SnapshotFaultKind.Read SnapshotFaultKind.Cut
        (entry_at files.now)
        input.old.bytes left.old input.new.bytes left.new result }
    // Where there was no memory, some of the entry had been taken, and no whole one.
    ensures lacks { LacksWithin SnapshotFaultKind.Memory SnapshotFaultKind.Cut (entry_at files.now)
        input.old.bytes left.old input.new.bytes left.new result }
    ensures fits { IfOk result (λ entry. IfSome entry (λ file. Follows files.now file)) }
    ensures count { CountsKind input.old.failures input.new.failures result }
{
    let line = read_entry_line(input, left)?;
    let heading = read_heading(line.as_slice())?;
    read_announced(alloc, input, left, files, heading)
}
