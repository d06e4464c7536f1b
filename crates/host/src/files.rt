//! Each job that needs no engine, with the files that its arguments name.

use crate::explained::Explained;
use crate::folder::{FileFolder, list_folder, open_root};
use crate::looks::{with_looks, with_reason};
use crate::opening::{check_standard, open_both};
use crate::overwritten::{Node, Overwritten};
use crate::source::Source;
use captures::Version;
use devices::Output;
use faults::{Fault, FileFault, FolderFault, Place, write_skipped};
use reference::Settings;
use runs::{
    Found, Sink, buffered_input, inspect_into, run_snapshot, settings_into, slim_into, upgrade_into,
};
use settings::{MAX_SETTINGS_BYTES, default_settings, read_settings};
use slim::Queries;
use std::alloc::AllocError;
use std::io::{ErrorKind, Read};

/// How many bytes of a settings file are read: one more than it may have.
const MAX_SETTINGS_READ: u64 = MAX_SETTINGS_BYTES as u64 + 1;

/// The bytes of a settings file, and which file it is.
fn document_in(rt: &HostRuntime, name: &str) -> Result<(Vec<u8>, Option<Node>), Explained> {
    let file = Source::open(rt, name, Place::Settings)?;
    let node = file.node(Place::Settings)?;
    let mut bytes = Vec::new(rt.alloc());
    match file.take(MAX_SETTINGS_READ).read_to_end(&mut bytes) {
        Ok(_) => Ok((bytes, node)),
        Err(error) if error.kind() == ErrorKind::OutOfMemory => Err(Fault::Memory.into()),
        Err(error) => {
            let fault = Fault::Read(Place::Settings);
            Err(Explained::by(rt.alloc(), fault, name, &error))
        }
    }
}

/// The settings of a file, and which file it is; or the default ones without it.
pub fn settings_in(
    rt: &HostRuntime,
    name: Option<&str>,
) -> Result<(Settings, Option<Node>), Explained> {
    let alloc = rt.alloc();
    let Some(name) = name else {
        return Ok((default_settings(alloc)?, None));
    };
    let (bytes, node) = document_in(rt, name)?;
    match read_settings(alloc, &bytes) {
        Ok(settings) => Ok((settings, node)),
        Err(fault) => Err(Explained::in_document(alloc, &bytes, fault)),
    }
}

/// Writes to standard output the settings of a file, or the default ones without it.
pub fn settings_named(
    rt: &HostRuntime,
    standard: Option<Node>,
    name: Option<&str>,
) -> Result<(), Explained> {
    let alloc = rt.alloc();
    let (bytes, node) = match name {
        Some(name) => document_in(rt, name)?,
        None => (Vec::new(alloc), None),
    };
    check_standard(alloc, standard, &[node], Place::Report)?;
    match settings_into(alloc, &bytes, Sink::new(rt.stdout())).0 {
        Err(Fault::Settings(fault)) => Err(Explained::in_document(alloc, &bytes, fault)),
        ran => Ok(ran?),
    }
}

/// Reports on standard output what a capture file holds.
pub fn inspect_named(
    rt: &HostRuntime,
    standard: Option<Node>,
    name: &str,
) -> Result<(), Explained> {
    let capture = Source::open(rt, name, Place::Capture)?;
    let node = capture.node(Place::Capture)?;
    check_standard(rt.alloc(), standard, &[node], Place::Report)?;
    let input = buffered_input(rt.alloc(), capture.shown())?;
    let ran = inspect_into(rt.alloc(), input, Sink::new(rt.stdout())).0;
    ran.map_err(|fault| with_looks(rt, fault, None, name))
}

/// Writes the upgraded text of a capture file to another.
pub fn upgrade_named(
    rt: &HostRuntime,
    name: &str,
    output: &str,
    to: Version,
) -> Result<(), Explained> {
    let (capture, output) = open_both(rt, name, output)?;
    let input = buffered_input(rt.alloc(), capture)?;
    let ran = upgrade_into(rt.alloc(), input, Sink::new(output), to).0;
    ran.map_err(|fault| with_looks(rt, fault, None, name))
}

/// Writes the slim text of a capture file to another.
pub fn slim_named(
    rt: &HostRuntime,
    name: &str,
    output: &str,
    to: Version,
    drop_queries: bool,
) -> Result<(), Explained> {
    let (capture, output) = open_both(rt, name, output)?;
    let queries = if drop_queries {
        Queries::Dropped
    } else {
        Queries::Kept
    };
    let input = buffered_input(rt.alloc(), capture)?;
    let ran = slim_into(rt.alloc(), input, Sink::new(output), to, queries).0;
    ran.map_err(|fault| with_looks(rt, fault, None, name))
}

/// How many of the names that are left out are listed, each in a line. Of the others there is the count alone.
const MAX_REPORTED: usize = 100;

/// Reports what was left out, and how many that is. Where standard error can't be written, the snapshot stands all the
/// same.
fn report_left_out(
    rt: &HostRuntime,
    found: &[Found],
    reasons: &[Option<FileFault>],
) -> Result<usize, AllocError> {
    let mut skipped = 0usize;
    for (one, reason) in found.iter().zip(reasons) {
        let Some(fault) = reason else {
            continue;
        };
        if skipped < MAX_REPORTED {
            let named = FolderFault::new(rt.alloc(), one.name.as_str(), *fault)?;
            let _ = Fault::Folder(named).write_line(&mut Output::new(rt.stderr()));
        }
        skipped = skipped.saturating_add(1);
    }
    Ok(skipped)
}

/// Writes the files of a folder as a snapshot. What is in the folder is listed before the output is opened: so a new
/// output is none of its files, and one that was among them is refused.
pub fn snapshot_named(
    rt: &HostRuntime,
    folder: &str,
    output: &str,
    skip: bool,
) -> Result<(), Explained> {
    let root = match open_root(rt, folder) {
        Ok(root) => root,
        Err(fault) => return Err(with_reason(rt, fault, folder)),
    };
    let listing = list_folder(rt, &root)?;
    let output = Overwritten::open(rt, output, Place::Output, &listing.nodes)?;
    let mut reasons = Vec::new(rt.alloc());
    let ran = run_snapshot(
        rt.alloc(),
        &FileFolder::new(rt, &root, &listing),
        &listing.found,
        skip,
        &mut reasons,
        &mut Output::new(output),
    );
    let skipped = report_left_out(rt, &listing.found, &reasons)?;
    ran?;
    if skip {
        let _ = write_skipped(skipped, &mut Output::new(rt.stderr()));
    }
    Ok(())
}
