//! How faults are reported that no row of `tests/lines.toml` brings about, and lines that can't be written.
use crate::running::Narrow;
use captures::{CaptureFault, CaptureFaultKind, PassFault};
use command_line::WordFault;
use devices::Output;
use paths::{SnapshotFault, SnapshotFaultKind};
use program::{Fault, FileFault, FolderFault, Place, write_skipped};
use responses::Write;
use settings::{ConfigFault, ConfigFaultKind};
use std::alloc::AllocGlobal;
use std::process::Abort;
use std::test::Fail;

fn check(rt: &impl Abort, fault: Fault, status: u8, line: &str) {
    let mut text = Narrow::ample();
    let written = fault.write_line(&mut Output::new(&mut text));
    assert_eq!(rt; (written, fault.status()), (Ok(()), status));
    assert_eq!(rt; text.text(), line.as_bytes());
}

/// The greatest number, and out of memory.
static SNAPSHOT_LINES: [(SnapshotFault, u8, &str); 2] = [
    (
        SnapshotFault {
            entry: usize::MAX,
            kind: SnapshotFaultKind::TooLarge,
        },
        4,
        "haboob: snapshot: entry 18446744073709551615: TooLarge\n",
    ),
    (
        SnapshotFault {
            entry: 1,
            kind: SnapshotFaultKind::Memory,
        },
        7,
        "haboob: memory\n",
    ),
];

#[test]
fn snapshot_lines(rt: HostRuntime) {
    for (fault, status, line) in SNAPSHOT_LINES {
        check(&rt, Fault::Snapshot(fault), status, line);
    }
}

/// The greatest number, out of memory, and a message too many.
static REPLAY_LINES: [(PassFault, u8, &str); 4] = [
    (
        PassFault::Capture(CaptureFault {
            at: usize::MAX,
            kind: CaptureFaultKind::Connection,
        }),
        5,
        "haboob: capture: record 18446744073709551615: Connection\n",
    ),
    (
        PassFault::Capture(CaptureFault {
            at: 4,
            kind: CaptureFaultKind::Memory,
        }),
        7,
        "haboob: memory\n",
    ),
    (
        PassFault::TooMany(1_048_576),
        5,
        "haboob: capture: message 1048576: TooMany\n",
    ),
    (PassFault::Memory, 7, "haboob: memory\n"),
];

#[test]
fn replay_lines(rt: HostRuntime) {
    for (fault, status, line) in REPLAY_LINES {
        check(&rt, Fault::Replay(fault), status, line);
        check(&rt, Fault::Upgrade(fault), status, line);
        check(&rt, Fault::Slim(fault), status, line);
    }
}

/// A report that can't be written, and out of memory.
#[test]
fn lines_of_files(rt: HostRuntime) {
    let report = Fault::Write(Place::Report);
    check(&rt, report, 6, "haboob: write: report\n");
    let settings = ConfigFault {
        kind: ConfigFaultKind::Memory,
        key: None,
    };
    check(&rt, Fault::Settings(settings), 7, "haboob: memory\n");
    check(&rt, Fault::Words(WordFault::Memory), 7, "haboob: memory\n");
    check(&rt, Fault::Memory, 7, "haboob: memory\n");
}

/// A line that can't be written is answered so, with its front there; nothing is tried again.
#[test]
fn line_into_a_dead_writer(rt: HostRuntime) {
    let mut text = Narrow::new(7, 1);
    let reported = Fault::Memory.write_line(&mut Output::new(&mut text));
    assert_eq!(rt; reported, Err(Write));
    assert_eq!(rt; text.text(), b"haboob:".as_slice());
}

/// What was found in a folder: its name, and why it can't be taken.
static FOLDER_LINES: [(&str, FileFault, u8, &str); 5] = [
    ("a/b c", FileFault::Link, 4, "haboob: folder: Link a/b c\n"),
    ("a", FileFault::Special, 4, "haboob: folder: Special a\n"),
    ("a", FileFault::Changed, 4, "haboob: folder: Changed a\n"),
    (
        "a/b",
        FileFault::Conflict,
        4,
        "haboob: folder: Conflict a/b\n",
    ),
    ("a", FileFault::Read, 6, "haboob: read: folder a\n"),
];

#[test]
fn lines_of_a_folder(rt: HostRuntime) -> Result<(), Fail> {
    for (name, fault, status, line) in FOLDER_LINES {
        let name = Vec::from_slice(rt.alloc(), name.as_bytes())?;
        check(
            &rt,
            Fault::Folder(FolderFault { name, fault }),
            status,
            line,
        );
    }
    Ok(())
}

#[test]
fn line_of_a_count(rt: HostRuntime) {
    for (size, good, answer, line) in [
        (1024, 1, Ok(()), "haboob: skipped 12\n"),
        (7, 1, Err(Write), "haboob:"),
    ] {
        let mut text = Narrow::new(size, good);
        assert_eq!(rt; write_skipped(12, &mut Output::new(&mut text)), answer);
        assert_eq!(rt; text.text(), line.as_bytes());
    }
}

/// A line with a name is written in three parts, and nothing after the one that fails.
#[test]
fn named_line_into_a_dead_writer(rt: HostRuntime) -> Result<(), Fail> {
    let whole = "haboob: read: folder name\n";
    for good in 0..3usize {
        let name = Vec::from_slice(rt.alloc(), b"name")?;
        let fault = Fault::Folder(FolderFault {
            name,
            fault: FileFault::Read,
        });
        let mut text = Narrow::new(1024, good);
        assert_eq!(rt; fault.write_line(&mut Output::new(&mut text)), Err(Write));
        assert!(rt; whole.as_bytes().starts_with(text.text()));
    }
    Ok(())
}
