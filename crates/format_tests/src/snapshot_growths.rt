//! Out of memory: `checks/refuse_growths.py` refuses each growth in turn.
use crate::names::{found, text_of};
use crate::snapshot_texts::{fault, fault_of};
use devices::Input;
use paths::{Outcome, Snapshot, SnapshotFault, SnapshotFaultKind as Kind, resolve};
use std::alloc::{AllocGlobal, Global};
use std::process::Abort;
use test_support::{Flaky, snapshot};

static ONE: &str = "haboob-snapshot 1\nfile 784111777 7 3\na/b.txt\nhi\n\nend 1\n";

/// A growth that is refused is answered so, with the entry; else the answers are right.
#[test]
fn each_growth_refused(rt: HostRuntime) {
    let mut input = Input::new(ONE.as_bytes());
    let files = match Snapshot::read(rt.alloc(), &mut input) {
        Ok(files) => files,
        Err(found) => {
            assert!(rt; Some(found) == fault(1, Kind::Memory));
            return;
        }
    };
    assert!(rt; files.len() == 1);
    if let Ok(outcome) = resolve(rt.alloc(), &files, b"GET", b"/a/./b%2etxt") {
        assert!(rt; matches!(&outcome, Outcome::File(0)));
    }
    if let Ok(outcome) = resolve(rt.alloc(), &files, b"GET", b"/a") {
        let is_right = match &outcome {
            Outcome::Move(to) => to.as_slice() == b"/a/".as_slice(),
            _ => false,
        };
        assert!(rt; is_right, "no redirect");
    }
}

/// The names of so many files that they are found by a hash.
static MANY: [&str; 12] = ["a", "b", "c", "d", "e", "f", "g", "h", "i", "j", "k/l", "m"];

/// The snapshot of those files, or its fault; none where there is no memory for its text.
fn many(alloc: Global) -> Option<Result<Snapshot, SnapshotFault>> {
    let text = text_of(alloc, &MANY).ok()?;
    Some(snapshot(alloc, text.as_bytes()))
}

/// Whether a name is that of this file, or of none, where there is memory to look.
fn finds(alloc: Global, files: &Snapshot, name: &str, want: Option<usize>) -> bool {
    match found(alloc, files, name) {
        Ok(is) => is == want,
        Err(_) => true,
    }
}

/// Each name is found, and no other.
fn check_found(rt: &(impl Abort + AllocGlobal), files: &Snapshot) {
    for (number, name) in MANY.iter().enumerate() {
        assert!(rt; finds(rt.alloc(), files, name, Some(number)), "{name}");
    }
    for name in ["", "k", "k/", "k/l/", "no file has so long a name"] {
        assert!(rt; finds(rt.alloc(), files, name, None), "{name}");
    }
}

/// A snapshot that found no memory for its index has the same files.
#[test]
fn each_growth_refused_of_many_files(rt: HostRuntime) {
    match many(rt.alloc()) {
        Some(Ok(files)) => check_found(&rt, &files),
        Some(Err(found)) => assert!(rt; found.kind == Kind::Memory),
        None => (),
    }
}

/// What follows the first line, with a fault that is met after memory was taken: the fault, and the last entry that
/// takes memory.
static FAULTY: [(&str, usize, Kind, usize); 15] = [
    ("file 0 2 1\na", 1, Kind::Cut, 1),
    ("file 0 2 1\naxb\nh\n", 1, Kind::Name, 1),
    ("file 0 2 1\n./\nh\n", 1, Kind::Name, 1),
    ("file 0 1 9\na\nhi", 1, Kind::Cut, 1),
    ("file 0 1 1\na\nhi\n", 1, Kind::Length, 1),
    ("file 0 1 1\na\nh\n", 2, Kind::Cut, 1),
    ("file 0 1 1\na\nh\nfiles\n", 2, Kind::Kind, 1),
    ("file 0 1 1\na\nh\nfile 0 1 01\n", 2, Kind::Number, 1),
    (
        "file 0 1 1\na\nh\nfile 0 1 16777217\n",
        2,
        Kind::TooLarge,
        1,
    ),
    ("file 0 1 1\na\nh\nfile 0 1025 1\n", 2, Kind::Name, 1),
    ("file 0 1 1\na\nh\nfile 0 1 1\na\nh\n", 2, Kind::Order, 2),
    (
        "file 0 1 1\na\nh\nfile 0 3 1\na/b\nh\n",
        2,
        Kind::Conflict,
        2,
    ),
    ("file 0 1 1\na\nh\nfile 0 1 1\nb\nhi\n", 2, Kind::Length, 2),
    ("file 0 1 1\na\nh\nend 2\n", 2, Kind::Count, 1),
    ("file 0 1 1\na\nh\nend 1\n\n", 2, Kind::Trailing, 1),
];

/// Whether a fault is out of memory at an entry that takes some, of which the last is given.
fn lacks_memory(found: SnapshotFault, last: usize) -> bool {
    found.kind == Kind::Memory && found.entry >= 1 && found.entry <= last
}

/// The fault of the text, or out of memory, and nothing else.
#[test]
fn each_growth_refused_before_a_fault(rt: HostRuntime) {
    for (entries, entry, kind, last) in &FAULTY {
        let Ok(text) = format!(in rt.alloc(); "haboob-snapshot 1\n{entries}") else {
            return;
        };
        match fault_of(rt.alloc(), text.as_bytes()) {
            Some(found) => assert!(rt;
                Some(found) == fault(*entry, *kind) || lacks_memory(found, *last),
                "{entries} is answered {found:?}"
            ),
            None => assert!(rt; false, "{entries} is the end of a snapshot"),
        }
    }
}

/// The same of failed reads: the fault of a read at the entry that was being read, or out of memory.
#[test]
fn each_growth_refused_before_a_failed_read(rt: HostRuntime) {
    for good in 0..60usize {
        let mut device = Flaky::new(ONE.as_bytes(), 3, good);
        let mut input = Input::new(&mut device);
        match Snapshot::read(rt.alloc(), &mut input) {
            Ok(files) => assert!(rt; (files.len(), input.failures()) == (1, 0)),
            Err(found) => {
                let failed = input.failures();
                let read = found.kind == Kind::Read && found.entry <= 2 && failed == 1;
                assert!(rt; read || (lacks_memory(found, 1) && failed == 0));
            }
        }
    }
}
