//! Upgrades between devices that fail, or without memory, and to the version that no command asks for.
use captures::{CaptureFault, CaptureFaultKind as Kind, UpgradeFault, Version, upgrade};
use devices::{Input, Output};
use std::alloc::{AllocGlobal, Global};
use std::process::Abort;
use test_support::{Flaky, NEWER, OLDER, Slow};

/// More calls than any of these runs makes.
const ALL: usize = 1_000_000;

/// The records of `OLDER` and `NEWER` as traffic.
static TRAFFIC: &str =
    "haboob-traffic 1 784111777\npiece 0 0 32\nGET /a.txt HTTP/1.1\r\nHost: a\r\n\r\n\nend 5 0\nstop 2\n";

/// Lives of one number, which no capture can hold.
static LIVES: &str =
    "haboob-traffic 1 0\ntier 3 1\npiece 5 3 2\nhi\nend 5 3\npiece 5 3 1\nx\nend 5 3\nend 5 3\ntier 3 0\nstop 7\n";

/// What an upgrade came to, how often the reader and the writer failed, and how much of the text stands that is wanted,
/// where nothing else does.
type Came = (Result<(), UpgradeFault>, (u64, u64), Option<usize>);

/// An upgrade between devices in memory, which fail after so many reads and writes.
fn run(alloc: Global, text: &str, to: Version, calls: (usize, usize), want: &str) -> Came {
    let mut taken = Vec::new(alloc);
    let mut reader = Input::new(Flaky::new(text.as_bytes(), 5, calls.0));
    let mut writer = Output::new(Slow::new(&mut taken, 7, calls.1));
    let result = upgrade(alloc, &mut reader, &mut writer, to);
    let failures = (reader.failures(), writer.failures());
    drop(writer);
    let stands = want.as_bytes().starts_with(&taken).then_some(taken.len());
    (result, failures, stands)
}

/// Whether all of the text was written, and no device failed.
fn is_whole(came: &Came, want: &str) -> bool {
    *came == (Ok(()), (0, 0), Some(want.len()))
}

#[test]
fn to_version_one(rt: HostRuntime) {
    for text in [OLDER, NEWER, TRAFFIC, LIVES] {
        let came = run(rt.alloc(), text, Version::One, (ALL, ALL), text);
        assert!(rt; is_whole(&came, text), "{text}");
    }
}

/// How much stands after a read that failed: the first line and the whole records before the one that was being read.
fn whole_before(fault: UpgradeFault) -> usize {
    match fault {
        UpgradeFault::Capture(
            CaptureFault {
                at,
                kind: Kind::Read,
            },
        ) => [0, 27, 73, 81][at.min(3)],
        _ => usize::MAX,
    }
}

/// Whether a read failed, and so much stands.
fn is_cut(came: Came) -> bool {
    let (result, failures, stands) = came;
    match result {
        Err(fault) => failures == (1, 0) && stands == Some(whole_before(fault)),
        Ok(()) => false,
    }
}

fn check_reads(rt: &(impl Abort + AllocGlobal), text: &str, to: Version, want: &str) {
    for good in 0..1000usize {
        let came = run(rt.alloc(), text, to, (good, ALL), want);
        if is_whole(&came, want) {
            return;
        }
        assert!(rt; is_cut(came), "{good}");
    }
    assert!(rt; false, "no run met all its reads");
}

/// Each read fails in turn.
#[test]
fn reads_failing(rt: HostRuntime) {
    check_reads(&rt, OLDER, Version::Two, NEWER);
    check_reads(&rt, NEWER, Version::Traffic, TRAFFIC);
}

/// How much stands where a write failed.
fn written_before(came: &Came) -> Option<usize> {
    match came {
        (Err(UpgradeFault::Write), (0, 1), stands) => *stands,
        _ => None,
    }
}

/// At last more than so many bytes stand.
fn check_writes(rt: &(impl Abort + AllocGlobal), text: &str, to: Version, want: &str, most: usize) {
    let mut last = 0;
    for good in 0..1000usize {
        let came = run(rt.alloc(), text, to, (ALL, good), want);
        if last > most && is_whole(&came, want) {
            return;
        }
        match written_before(&came) {
            Some(stands) => last = stands,
            None => assert!(rt; false, "{good}"),
        }
    }
    assert!(rt; false, "no run met all its writes");
}

/// Each write fails in turn: a prefix stands.
#[test]
fn writes_failing(rt: HostRuntime) {
    check_writes(&rt, OLDER, Version::Two, NEWER, 73);
    check_writes(&rt, LIVES, Version::Traffic, LIVES, 81);
}

/// Whether the text stands, or else a prefix of it.
fn stands(taken: &[u8], whole: bool) -> bool {
    for (found, want) in taken.iter().zip(NEWER.as_bytes()) {
        if *found != *want && (whole || *found != 0) {
            return false;
        }
    }
    true
}

/// `checks/refuse_growths.py` refuses each growth in turn: a prefix stands then, else the whole text.
#[test]
fn growths_of_upgrades_refused(rt: HostRuntime) {
    let mut taken = [0u8; 200];
    let mut reader = Input::new(OLDER.as_bytes());
    let mut writer = Output::new(taken.as_mut_slice());
    let result = upgrade(rt.alloc(), &mut reader, &mut writer, Version::Two);
    drop(writer);
    let is_whole = result == Ok(());
    assert!(rt; (is_whole || result == Err(UpgradeFault::Memory)) && stands(&taken, is_whole));
}
