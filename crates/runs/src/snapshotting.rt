//! The snapshot of what was found in a folder.

ghost use Rattle.std.specs.Prelude.{◌≡◌, ◌-◌, ◌<◌, ◌^◌, [], Some, None, false, MatchResult, IfOk, IfErr, OnOk};
ghost use Rattle.faults.specs.declared.folder_fault.FileFault.{FileFault as AFileFault};
ghost use Rattle.paths.specs.Snapshots.{text_before_end, snapshot_text};
ghost use Rattle.snapshots.specs.Keeping.{a_file};
ghost use Rattle.snapshots.specs.Writers.{Took};
ghost use Rattle.std.specs.Io.KnownBytes.{Appends};
ghost use Rattle.devices.specs.Devices.{CanFail, CountsBy};
ghost use Rattle.runs.specs.Folders.{AddsFile, AddsFound, AfterTaking, Cuts, CutsFile, CutsFound, Names, refusal};
ghost use Rattle.runs.specs.Folders.{IsSnapshotRunFault, WritesFolder, name_of, output_failures};
ghost use Rattle.runs.specs.Folders.{unwritten};

use crate::folder::{Contents, Folder, Found};
use devices::Output;
use faults::{Fault, FileFault, FolderFault, Place};
use snapshots::{SnapshotWriter, WriteFault};
use std::alloc::Global;
use std::io::Write;

/// What a rule that a file breaks is to the run, or a failed write and out of memory.
fn refusal(fault: WriteFault) -> Result<FileFault, Fault>
    ensures { result ≡ refusal fault }
{
    match fault {
        WriteFault::Time => Ok(FileFault::Time),
        WriteFault::Size => Ok(FileFault::Size),
        WriteFault::Count => Ok(FileFault::Count),
        WriteFault::Name => Ok(FileFault::Name),
        WriteFault::Order => Ok(FileFault::Order),
        WriteFault::Conflict => Ok(FileFault::Conflict),
        WriteFault::Text => Ok(FileFault::Text),
        WriteFault::Write => Err(Fault::Write(Place::Output)),
        WriteFault::Memory => Err(Fault::Memory),
    }
}

/// Adds a file; or why it can't be taken.
fn add_file<W: Write>(
    writer: &mut SnapshotWriter,
    output: &mut Output<W>,
    name: &str,
    contents: &Contents,
) -> Result<Option<FileFault>, Fault>
    requires { CanFail output.old }
    ensures ok { AfterTaking output.old.bytes writer.old (λ files before. IfOk result (λ r.
        AddsFile files before (a_file name.now contents.now.mtime contents.now.bytes.items) r
        output.new.bytes writer.new)) }
    ensures fault { AfterTaking output.old.bytes writer.old (λ files before. IfErr result
        (CutsFile files before (a_file name.now contents.now.mtime contents.now.bytes.items)
        output.new.bytes)) }
    ensures count { CountsBy output_failures output.old.failures output.new.failures result }
{
    match writer.add(output, name.as_bytes(), contents.mtime, &contents.bytes) {
        Ok(()) => Ok(None),
        Err(fault) => Ok(Some(refusal(fault)?)),
    }
}

/// Adds what was found; or why it can't be taken.
fn add_found<F: Folder, W: Write>(
    folder: &F,
    writer: &mut SnapshotWriter,
    output: &mut Output<W>,
    found: &Found,
) -> Result<Option<FileFault>, Fault>
    requires { CanFail output.old }
    ensures ok { AfterTaking output.old.bytes writer.old (λ files before. IfOk result (λ r.
        AddsFound (F.answers folder.now) files before found.now r output.new.bytes writer.new)) }
    ensures fault { AfterTaking output.old.bytes writer.old (λ files before. IfErr result
        (CutsFound (F.answers folder.now) files before found.now output.new.bytes)) }
    ensures count { CountsBy output_failures output.old.failures output.new.failures result }
{
    if found.fault.is_some() {
        return Ok(found.fault);
    }
    match folder.read(found.name.as_str())? {
        Ok(contents) => add_file(writer, output, found.name.as_str(), &contents),
        Err(fault) => Ok(Some(fault)),
    }
}

/// Why a first or a last line wasn't written.
fn unwritten(fault: WriteFault) -> Fault
    ensures { result ≡ unwritten fault }
{
    match fault {
        WriteFault::Write => Fault::Write(Place::Output),
        _ => Fault::Memory,
    }
}

/// Writes the first line.
fn begin<W: Write>(alloc: Global, output: &mut Output<W>) -> Result<SnapshotWriter, Fault>
    requires { CanFail output.old }
    ensures ok { IfOk result (λ writer. Took [] output.old.bytes output.new.bytes writer) }
    ensures fault { IfErr result (Cuts (text_before_end []) output.old.bytes output.new.bytes) }
    ensures count { CountsBy output_failures output.old.failures output.new.failures result }
{
    match SnapshotWriter::begin(alloc, output) {
        Ok(writer) => Ok(writer),
        Err(fault) => Err(unwritten(fault)),
    }
}

/// Writes the last line.
fn finish<W: Write>(writer: SnapshotWriter, output: &mut Output<W>) -> Result<(), Fault>
    requires { CanFail output.old }
    ensures text { AfterTaking output.old.bytes writer (λ files before. MatchResult result
        (λ _. Appends before output.new.bytes (snapshot_text files))
        (Cuts (snapshot_text files) before output.new.bytes)) }
    ensures count { CountsBy output_failures output.old.failures output.new.failures result }
{
    match writer.finish(output) {
        Ok(()) => Ok(()),
        Err(fault) => Err(unwritten(fault)),
    }
}

/// The fault of what has this name.
fn refused(alloc: Global, name: &str, fault: FileFault) -> Fault
    ensures { Names name.now fault result }
{
    match FolderFault::new(alloc, name, fault) {
        Ok(named) => Fault::Folder(named),
        Err(_) => Fault::Memory,
    }
}

/// Refuses what was found, where it can't be taken and nothing is to be left out.
fn refuse(alloc: Global, found: &Found, reason: Option<FileFault>, skip: bool) -> Result<(), Fault>
    ensures ok { OnOk result (skip ≡ false → reason ≡ None) }
    ensures fault { IfErr result (λ f. (skip ≡ false)
        × ((fault : AFileFault) × (reason ≡ Some fault) × Names (name_of found.now) fault f)) }
{
    match reason {
        Some(fault) if !skip => Err(refused(alloc, found.name.as_str(), fault)),
        _ => Ok(()),
    }
}

/// Writes the snapshot of what was found in a folder, in the order given, which is to be that of the names' bytes. One
/// file is in memory at a time. What can't be taken is a fault, or left out where that is asked for. `reasons` is
/// emptied, and gets for each of what was found why it was left out, or nothing where it was taken.
///
/// # Errors
///
/// `Folder` with the first that can't be taken, where nothing is to be left out: the files before it stand, without a
/// last line. `Write` of the output where it failed, `Memory`, and `Open` of the folder where it says nothing of a file
/// since too many are open: a prefix stands. No other fault. `reasons` has what became of exactly those before the one
/// at which the run stopped: of none at the first line, and of all at the last.
pub fn run_snapshot<F: Folder, W: Write>(
    alloc: Global,
    folder: &F,
    found: &[Found],
    skip: bool,
    reasons: &mut Vec<Option<FileFault>>,
    output: &mut Output<W>,
) -> Result<(), Fault>
    requires { CanFail output.old }
    ensures ok { OnOk result (WritesFolder
        (F.answers folder.now) found.now skip reasons.new.items output.old.bytes output.new.bytes) }
    ensures fault { IfErr result (IsSnapshotRunFault
        (F.answers folder.now) found.now skip reasons.new.items output.old.bytes output.new.bytes) }
    // The output is reported only where it failed in this call.
    ensures writes { CountsBy output_failures output.old.failures output.new.failures result }
{
    reasons.clear();
    reasons.reserve(found.len())?;
    let mut writer = begin(alloc, output)?;
    for one in found {
        let reason = add_found(folder, &mut writer, output, one)?;
        refuse(alloc, one, reason, skip)?;
        reasons.push_reserved(reason);
    }
    finish(writer, output)
}
