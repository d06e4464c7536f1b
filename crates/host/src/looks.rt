//! What a file looks like that was given in the place of a capture or a snapshot.

ghost use Rattle.std.specs.Prelude.{◌<◌, length};

use crate::explained::Explained;
use crate::source::STANDARD;
use captures::{CaptureFault, CaptureFaultKind, PassFault};
use faults::{Fault, Place};
use paths::{SnapshotFault, SnapshotFaultKind};
use std::fs::{File, metadata};
use std::io::Read;

/// How many bytes of a file are looked at.
const LOOKED_AT: usize = 512;

/// Packet files begin so (draft-ietf-opsawg-pcap, section 4, either byte order and unit of time; of
/// draft-ietf-opsawg-pcapng, section 4.1).
const PACKETS: [[u8; 4]; 5] = [
    [0xd4, 0xc3, 0xb2, 0xa1],
    [0xa1, 0xb2, 0xc3, 0xd4],
    [0x4d, 0x3c, 0xb2, 0xa1],
    [0xa1, 0xb2, 0x3c, 0x4d],
    [0x0a, 0x0d, 0x0d, 0x0a],
];

/// What the files begin with that gzip (RFC 1952, section 2.3.1), xz, Zstandard (RFC 8878, section 3.1.1), bzip2 and
/// zip write.
const COMPRESSED: [&[u8]; 5] = [
    b"\x1f\x8b",
    b"\xfd7zXZ",
    b"\x28\xb5\x2f\xfd",
    b"BZh",
    b"PK\x03\x04",
];

/// Whether the text has this part.
fn has(text: &[u8], part: &[u8]) -> bool
    requires { 0 < length part.now }
{
    text.windows(part.len()).any(|window| window == part)
}

/// What a file that begins with these bytes looks like, and what to do with it, where that can be seen and is not what
/// it is to be.
fn look_of(place: Place, bytes: &[u8]) -> Option<&'static str> {
    if bytes.is_empty() {
        return Some("the file is empty");
    }
    if COMPRESSED.iter().any(|start| bytes.starts_with(start)) {
        return Some("it is compressed: decompress it first");
    }
    if PACKETS.iter().any(|start| bytes.starts_with(start)) {
        return Some("it holds packets: haboob-capture-from-pcap makes a capture of them");
    }
    if bytes.starts_with(b"haboob-snapshot ") {
        return (place != Place::Snapshot).then_some("it looks like a snapshot");
    }
    if bytes.starts_with(b"haboob-capture ") || bytes.starts_with(b"haboob-traffic ") {
        return (place != Place::Capture).then_some("it looks like a capture");
    }
    if bytes.starts_with(b"haboob-replies ") {
        return Some("it looks like replies");
    }
    if has(bytes, b" HTTP/1.") || has(bytes, b" HTTP/2") || bytes.starts_with(b"{\"") {
        return Some("it looks like a log: haboob-capture-from-log makes a capture of one");
    }
    None
}

/// What is to be said of an input of this name that couldn't be read, or whose first line is another than it is to be.
/// What isn't a plain file isn't looked at: a pipe's bytes are gone.
fn words_on(rt: &HostRuntime, place: Place, name: &str) -> Option<&'static str> {
    if name == STANDARD {
        return None;
    }
    let known = metadata(rt, name).ok()?;
    if known.is_dir() {
        return Some("it is a folder");
    }
    if !known.is_file() {
        return None;
    }
    let mut bytes = [0; LOOKED_AT];
    let count = File::open(rt, name).ok()?.read(&mut bytes).ok()?;
    look_of(place, &bytes[..count])
}

/// Whether a capture's fault is of its first line, or of a read.
fn is_of_first_line(fault: CaptureFault) -> bool {
    match fault.kind {
        CaptureFaultKind::Header | CaptureFaultKind::Cut => fault.at == 0,
        CaptureFaultKind::Read => true,
        _ => false,
    }
}

/// Whether a snapshot's fault is of its first line, or of a read.
fn is_of_heading(fault: SnapshotFault) -> bool {
    match fault.kind {
        SnapshotFaultKind::Header | SnapshotFaultKind::Cut => fault.entry == 0,
        SnapshotFaultKind::Read => true,
        _ => false,
    }
}

/// The input that couldn't be read, or whose first line is another than it is to be.
fn input_of(fault: &Fault) -> Option<Place> {
    match fault {
        Fault::Snapshot(fault) if is_of_heading(*fault) => Some(Place::Snapshot),
        Fault::Replay(PassFault::Capture(fault))
        | Fault::Upgrade(PassFault::Capture(fault))
        | Fault::Slim(PassFault::Capture(fault))
            if is_of_first_line(*fault) => { Some(Place::Capture) }
        _ => None,
    }
}

/// A fault of a run over these inputs, with what is to be said of the one that it is of.
pub fn with_looks(
    rt: &HostRuntime,
    fault: Fault,
    snapshot: Option<&str>,
    capture: &str,
) -> Explained {
    let (place, name) = match (input_of(&fault), snapshot) {
        (Some(Place::Snapshot), Some(name)) => (Place::Snapshot, name),
        (Some(Place::Capture), _) => (Place::Capture, capture),
        _ => return Explained::from(fault),
    };
    match words_on(rt, place, name) {
        Some(what) => Explained::on(rt.alloc(), fault, name, what),
        None => Explained::from(fault),
    }
}

/// The fault of a folder of this name, with the system's reason where it couldn't be opened and it tells one.
pub(crate) fn with_reason(rt: &HostRuntime, fault: Fault, name: &str) -> Explained {
    if !matches!(fault, Fault::Open(_)) {
        return Explained::from(fault);
    }
    let alloc = rt.alloc();
    match metadata(rt, name) {
        Err(error) => Explained::by(alloc, fault, name, &error),
        Ok(known) if !known.is_dir() => Explained::on(alloc, fault, name, "it is no folder"),
        Ok(_) => Explained::from(fault),
    }
}
