//! Runs with a report, by devices that fail.
use crate::running::{Narrow, TIGHT, outcome, run_tight};
use command_line::Engine;
use program::{Fault, Place, Wanted, run_files};
use settings::read_settings;
use std::alloc::{AllocGlobal, Global};
use std::process::Abort;
use std::sync::Wait;
use std::thread::Threads;
use test_support::{SNAPSHOT, TIGHT_REPLIES, TIGHT_REPORT};

/// A request at once, two that find no token, and one when a token is there again.
pub static CAPTURE: &str = "haboob-capture 1 784111777\n\
     piece 0 0 32\n\
     GET /a.txt HTTP/1.1\r\n\
     Host: a\r\n\
     \r\n\
     \n\
     piece 0 0 32\n\
     GET /a.txt HTTP/1.1\r\n\
     Host: a\r\n\
     \r\n\
     \n\
     piece 999999 0 32\n\
     GET /a.txt HTTP/1.1\r\n\
     Host: a\r\n\
     \r\n\
     \n\
     piece 1000000 0 32\n\
     GET /a.txt HTTP/1.1\r\n\
     Host: a\r\n\
     \r\n\
     \n\
     stop 4\n";

/// Runs with a writer of the report that fails after n writes; whether the run came to its end.
fn ends_reporting<T: Abort + AllocGlobal + Threads + Wait + Sync>(rt: &T, good: usize) -> bool {
    let mut replies = Narrow::ample();
    let mut report = Narrow::new(32, good);
    let staged = Engine::Staged;
    let ran = run_tight(
        rt,
        rt.alloc(),
        staged,
        SNAPSHOT,
        CAPTURE,
        &mut replies,
        &mut report,
    );
    assert_eq!(rt; replies.text(), TIGHT_REPLIES.as_bytes());
    let Err(fault) = ran else {
        assert_eq!(rt; report.text(), TIGHT_REPORT.as_bytes());
        return true;
    };
    assert_eq!(rt; fault, Fault::Write(Place::Report));
    assert!(rt; TIGHT_REPORT.as_bytes().starts_with(report.text()));
    false
}

#[test]
fn each_write_of_the_report_failing(rt: HostRuntime) {
    for good in 0..20usize {
        if ends_reporting(&rt, good) {
            assert!(rt; good > 5);
            return;
        }
    }
    assert!(rt; false, "the run comes to no end");
}

/// Runs with buffers before the devices.
fn run_buffered<T: Threads + Wait + Sync>(
    rt: &T,
    alloc: Global,
    capture: &str,
    replies: &mut Narrow,
    report: &mut Narrow,
) -> Result<(), Fault> {
    let settings = read_settings(alloc, TIGHT.as_bytes())?;
    run_files(
        rt,
        alloc,
        &settings,
        Wanted::Replies(Engine::Staged),
        SNAPSHOT.as_bytes(),
        capture.as_bytes(),
        replies,
        report,
    )
    .0
}

/// Runs with buffers before writers that take so many bytes a write and fail after so many writes.
fn check_buffered<T: Abort + AllocGlobal + Threads + Wait + Sync>(
    rt: &T,
    capture: &str,
    writers: [(usize, usize); 2],
    came: &str,
    stand: (&str, &str),
) {
    let mut replies = Narrow::new(writers[0].0, writers[0].1);
    let mut report = Narrow::new(writers[1].0, writers[1].1);
    let ran = run_buffered(rt, rt.alloc(), capture, &mut replies, &mut report);
    assert_eq!(rt; outcome(&ran), came);
    assert_eq!(rt;
        (replies.text(), report.text()),
        (stand.0.as_bytes(), stand.1.as_bytes())
    );
}

/// What the buffers hold at the end is written, first the replies and then the report; where one can't be written, that
/// is the fault, and no report stands after replies that aren't whole.
#[test]
fn buffered_report(rt: HostRuntime) {
    let ample = (1024, usize::MAX);
    let front = "haboob-r";
    let table = [
        (CAPTURE, [ample, ample], "ok", (TIGHT_REPLIES, TIGHT_REPORT)),
        (CAPTURE, [ample, (8, 1)], "report", (TIGHT_REPLIES, front)),
        (CAPTURE, [(8, 1), ample], "replies", (front, "")),
        ("", [ample, ample], "capture", ("haboob-replies 1\n", "")),
    ];
    for (capture, writers, came, stand) in table {
        check_buffered(&rt, capture, writers, came, stand);
    }
}
