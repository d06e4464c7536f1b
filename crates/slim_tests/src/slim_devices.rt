//! Devices that fail.
use captures::{CaptureFaultKind, PassFault, Version};
use devices::{Input, Output};
use slim::{Queries, slim};
use std::alloc::{AllocGlobal, Global};
use std::process::Abort;
use test_support::{Flaky, Slow};

static CAPTURE: &str = "haboob-capture 1 0\npiece 3 0 20\nGET /?q HTTP/1.0\r\n\r\n\nstop 1\n";

static WANT: &str = "haboob-traffic 1 0\npiece 3 0 16\nGET / HTTP/1.0\n\n\nstop 1\n";

/// What a call with devices that fail after so many calls came to, how often the reader and the writer failed, and how
/// much of the text stands that is wanted, where nothing else does.
fn run(
    alloc: Global,
    reads: usize,
    writes: usize,
) -> (Result<(), PassFault>, (u64, u64), Option<usize>) {
    let mut taken = Vec::new(alloc);
    let mut reader = Input::new(Flaky::new(CAPTURE.as_bytes(), 16, reads));
    let mut writer = Output::new(Slow::new(&mut taken, 5, writes));
    let answer = slim(
        alloc,
        &mut reader,
        &mut writer,
        Version::Traffic,
        Queries::Dropped,
    );
    let failed = (reader.failures(), writer.failures());
    drop(writer);
    let stands = WANT.as_bytes().starts_with(&taken).then_some(taken.len());
    (answer, failed, stands)
}

/// Whether such a call came to its end.
fn ends(rt: &(impl Abort + AllocGlobal), reads: usize, writes: usize) -> bool {
    let (answer, failed, stands) = run(rt.alloc(), reads, writes);
    assert!(rt; stands.is_some());
    let is_right = match answer {
        Ok(()) => (failed, stands) == ((0, 0), Some(WANT.len())),
        Err(PassFault::Capture(fault)) => {
            fault.kind == CaptureFaultKind::Read && failed == (1, 0)
        }
        Err(fault) => fault == PassFault::Write && failed == (0, 1),
    };
    assert!(rt; is_right);
    answer.is_ok()
}

/// Fails each read in turn, or each write, until a call comes to its end: how many calls it made, if below 100.
fn calls_to_the_end(rt: &(impl Abort + AllocGlobal), is_read: bool) -> usize {
    for good in 0..100usize {
        let (reads, writes) = if is_read {
            (good, usize::MAX)
        } else {
            (usize::MAX, good)
        };
        if ends(rt, reads, writes) {
            return good;
        }
    }
    100
}

#[test]
fn each_read_failing(rt: HostRuntime) {
    let calls = calls_to_the_end(&rt, true);
    assert!(&rt; 3 < calls && calls < 100);
}

#[test]
fn each_write_failing(rt: HostRuntime) {
    let calls = calls_to_the_end(&rt, false);
    assert!(&rt; 10 < calls && calls < 100);
}
