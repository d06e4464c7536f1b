//! Snapshots that are read whole or in part, at their limits, and by reads that fail; faults are rows (`tests`).
use devices::Input;
use paths::{Snapshot, SnapshotFault, SnapshotFaultKind as Kind};
use std::alloc::{AllocError, Global};
use std::test::Fail;
use test_support::{Flaky, SNAPSHOT, snapshot};

/// The snapshot without files.
static EMPTY: &str = "haboob-snapshot 1\nend 0\n";

/// The fault of a whole text.
pub fn fault_of(alloc: Global, text: &[u8]) -> Option<SnapshotFault> {
    let mut input = Input::new(text);
    match Snapshot::read(alloc, &mut input) {
        Ok(_) => None,
        Err(fault) => Some(fault),
    }
}

/// A fault.
pub fn fault(entry: usize, kind: Kind) -> Option<SnapshotFault> {
    Some(SnapshotFault { entry, kind })
}

#[test]
fn snapshot_of_one_file(rt: HostRuntime) -> Result<(), Fail> {
    let files = snapshot(rt.alloc(), SNAPSHOT.as_bytes())?;
    assert!(rt; files.len() == 1);
    assert!(rt;
        (files.mtime(0), files.name(0), files.bytes(0))
            == (784_111_777, b"a.txt".as_slice(), b"hi\n".as_slice())
    );
    assert!(rt; fault_of(rt.alloc(), EMPTY.as_bytes()) == None);
    Ok(())
}

/// Texts, and what is shown of their snapshots: their files, and nothing of how they are looked up.
static SHOWN: [(&str, &str); 2] = [
    ("haboob-snapshot 1\nend 0\n", "Snapshot { files: [] }"),
    (
        "haboob-snapshot 1\nfile 7 1 1\na\nb\nend 1\n",
        "Snapshot { files: [File { name: Bytes { bytes: [97] }, mtime: 7, bytes: Bytes { bytes: [98] } }] }",
    ),
];

/// What is shown of the snapshot of a text.
fn shown(alloc: Global, text: &str) -> Result<String, Fail> {
    let files = snapshot(alloc, text.as_bytes())?;
    Ok(format!(in alloc; "{files:?}")?)
}

#[test]
fn shown_as_its_files(rt: HostRuntime) -> Result<(), Fail> {
    for (text, want) in &SHOWN {
        let shown = shown(rt.alloc(), text)?;
        assert!(rt; shown.as_str() == *want);
    }
    Ok(())
}

/// What follows the last line is left unread.
#[test]
fn front_leaves_the_rest(rt: HostRuntime) -> Result<(), Fail> {
    let mut input = Input::new("haboob-snapshot 1\nend 0\n rest".as_bytes());
    let files = Snapshot::read_front(rt.alloc(), &mut input)?;
    let mut rest = [0; 6];
    let count = input.read_some(&mut rest)?;
    assert!(rt; (files.len(), count, rest) == (0, 5, *b" rest\0"));
    Ok(())
}

/// How many files a snapshot has, or its fault, where a read fails after so many; how often the input failed, and how
/// many reads were made.
fn outcome(alloc: Global, good: usize) -> (Result<usize, SnapshotFault>, (u64, usize)) {
    let mut device = Flaky::new(SNAPSHOT.as_bytes(), 3, good);
    let mut input = Input::new(&mut device);
    let came = match Snapshot::read(alloc, &mut input) {
        Ok(files) => Ok(files.len()),
        Err(fault) => Err(fault),
    };
    let failures = input.failures();
    drop(input);
    (came, (failures, device.calls))
}

/// The entry that is named where the read failed that comes after so many.
fn entry_of(came: Result<usize, SnapshotFault>, calls: (u64, usize), good: usize) -> Option<usize> {
    match came {
        Err(found) if found.kind == Kind::Read && calls == (1, good.wrapping_add(1)) => {
            Some(found.entry)
        }
        _ => None,
    }
}

/// Whatever read fails, the fault names the entry that was being read, the count is one, and nothing more is read.
#[test]
fn each_read_failing(rt: HostRuntime) {
    let mut last = 0;
    for good in 0..1000usize {
        let (came, calls) = outcome(rt.alloc(), good);
        if came == Ok(1) && calls.0 == 0 && last == 2 {
            return;
        }
        match entry_of(came, calls, good) {
            Some(entry) if entry == last || entry == last.wrapping_add(1) => last = entry,
            _ => assert!(rt; false, "{good}"),
        }
    }
    assert!(rt; false, "no run met all its reads");
}

/// The text of a file with the longest name, of 1,024 bytes, that is the largest, of 16,777,216.
fn largest(alloc: Global) -> Result<Vec<u8>, AllocError> {
    let mut text = Vec::new(alloc);
    text.extend_from_slice(b"haboob-snapshot 1\nfile 253402300799 1024 16777216\n")?;
    text.resize(50 + 1024, b'n')?;
    text.push(b'\n')?;
    text.resize(1075 + 16_777_216, b'b')?;
    text.extend_from_slice(b"\nend 1\n")?;
    Ok(text)
}

#[test]
fn longest_name_and_largest_file(rt: HostRuntime) -> Result<(), Fail> {
    let text = largest(rt.alloc())?;
    let files = snapshot(rt.alloc(), &text)?;
    assert!(rt; files.len() == 1);
    let is_as_written = files.mtime(0) == 253_402_300_799
        && text.get(50..1074) == Some(files.name(0))
        && text.get(1075..16_778_291) == Some(files.bytes(0));
    assert!(rt; is_as_written);
    Ok(())
}

/// The first fault of a text of 65,536 files that goes on so.
fn fault_after_most(alloc: Global, rest: &str) -> Result<Option<SnapshotFault>, AllocError> {
    let mut text = String::from_str(alloc, "haboob-snapshot 1\n")?;
    for n in 0..65_536u32 {
        let file = format!(in alloc; "file 0 5 0\n{n:05}\n\n")?;
        text.push_str(file.as_str())?;
    }
    text.push_str(rest)?;
    Ok(fault_of(alloc, text.as_bytes()))
}

/// 65,536 files are read, and one more is too large, whatever its line says of it.
#[test]
fn most_files(rt: HostRuntime) -> Result<(), Fail> {
    let whole = fault_after_most(rt.alloc(), "end 65536\n")?;
    let longer = fault_after_most(rt.alloc(), "file 0 0 0\n")?;
    assert!(rt; (whole, longer) == (None, fault(65_537, Kind::TooLarge)));
    Ok(())
}
