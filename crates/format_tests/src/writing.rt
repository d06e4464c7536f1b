//! Callers of the writer. What they promise follows from its clauses alone.
ghost use Rattle.std.specs.Prelude.{◌<◌, ◌-◌, ◌^◌, OnOk};
ghost use Rattle.std.specs.Io.KnownBytes.{Appends};
ghost use Rattle.devices.specs.Devices.{CanFail};
ghost use Rattle.paths.specs.Snapshots.{snapshot_text, IsSnapshotText};
ghost use Rattle.snapshots.specs.Writers.{Counts};

use devices::{Bytes, Output};
use paths::File;
use snapshots::{SnapshotWriter, WriteFault};
use std::alloc::{AllocError, Global};
use std::io::Write;

/// A name, a time and the bytes.
pub type Entry = (&'static str, u64, &'static str);

/// More calls than any of these runs makes.
pub const ALL: usize = 1_000_000;

/// Files of these names, times and bytes.
pub fn files_of(alloc: Global, entries: &[Entry]) -> Result<Vec<File>, AllocError> {
    let mut files = Vec::new(alloc);
    for (name, mtime, bytes) in entries {
        let name = Bytes::from_vec(Vec::from_slice(alloc, name.as_bytes())?);
        let bytes = Bytes::from_vec(Vec::from_slice(alloc, bytes.as_bytes())?);
        files.push(File {
            name,
            mtime: *mtime,
            bytes,
        })?;
    }
    Ok(files)
}

/// Writes the snapshot of these files, and stops at the first fault.
pub fn write_files<W: Write>(
    alloc: Global,
    output: &mut Output<W>,
    files: &[File],
) -> Result<(), WriteFault>
    requires { CanFail output.old }
    ensures text { OnOk result
        (Appends output.old.bytes output.new.bytes (snapshot_text files.now)) }
    ensures rules { OnOk result (IsSnapshotText (snapshot_text files.now) files.now) }
    ensures count { Counts output.old.failures output.new.failures result }
{
    let mut writer = SnapshotWriter::begin(alloc, output)?;
    for file in files {
        match writer.add(
            output,
            file.name.as_slice(),
            file.mtime,
            file.bytes.as_slice(),
        ) {
            Ok(()) => (),
            Err(fault) => return Err(fault),
        }
    }
    writer.finish(output)
}

/// Writes the snapshot of those of these files that break no rule, and answers the rules that the others break.
pub fn write_allowed<W: Write>(
    alloc: Global,
    output: &mut Output<W>,
    files: &[File],
) -> Result<Vec<WriteFault>, WriteFault>
    requires { CanFail output.old }
{
    let mut refused = Vec::new(alloc);
    let mut writer = SnapshotWriter::begin(alloc, output)?;
    for file in files {
        match writer.add(
            output,
            file.name.as_slice(),
            file.mtime,
            file.bytes.as_slice(),
        ) {
            Ok(()) => (),
            Err(WriteFault::Write) => return Err(WriteFault::Write),
            Err(rule) => match refused.push(rule) {
                Ok(()) => (),
                Err(_) => return Err(WriteFault::Memory),
            },
        }
    }
    writer.finish(output)?;
    Ok(refused)
}
