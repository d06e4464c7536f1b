//! Devices that fail.
ghost use Rattle.std.specs.Prelude.{[], None, Some, IfOk};
ghost use Rattle.program.specs.Bundles.{AfterSnapshot, WritesAnswer};

use crate::running::{FIRST_RUN, Narrow, outcome};
use captures::CaptureFaultKind;
use devices::{Input, Output};
use paths::SnapshotFaultKind;
use program::{Fault, Place, run_bundle, run_program};
use replay::ReplayFault;
use std::alloc::{AllocGlobal, Global};
use std::io;
use std::io::{ErrorKind, Write};
use std::process::Abort;
use std::test::Fail;
use test_support::{Flaky, ONE_REPLY, SNAPSHOT};

/// The place that couldn't be read.
fn unread(fault: Fault) -> Option<Place> {
    match fault {
        Fault::Snapshot(fault) if fault.kind == SnapshotFaultKind::Read => Some(Place::Snapshot),
        Fault::Replay(ReplayFault::Capture(fault)) if fault.kind == CaptureFaultKind::Read => {
            Some(Place::Capture)
        }
        _ => None,
    }
}

/// Runs with a reader that fails after n reads; whether the run came to its end.
fn ends_reading(rt: &(impl Abort + AllocGlobal), good: usize) -> bool {
    let mut reader = Flaky::new(FIRST_RUN.as_bytes(), 8, good);
    let mut replies = Narrow::ample();
    let ran = run_bundle(
        rt.alloc(),
        &mut Input::new(&mut reader),
        &mut Output::new(&mut replies),
    );
    let Err(fault) = ran else {
        assert_eq!(rt; replies.text(), ONE_REPLY.as_bytes());
        return true;
    };
    let following = FIRST_RUN.len() - SNAPSHOT.len();
    let place = if reader.bytes.len() > following {
        Place::Snapshot
    } else {
        Place::Capture
    };
    assert_eq!(rt; unread(fault), Some(place));
    assert_eq!(rt; replies.text().is_empty(), place == Place::Snapshot);
    assert!(rt; ONE_REPLY.as_bytes().starts_with(replies.text()));
    false
}

#[test]
fn each_read_failing(rt: HostRuntime) {
    for good in 0..200usize {
        if ends_reading(&rt, good) {
            assert!(rt; good > 50);
            return;
        }
    }
    assert!(rt; false, "the run comes to no end");
}

/// Runs with a writer that fails after n writes; whether the run came to its end.
fn ends_writing(rt: &(impl Abort + AllocGlobal), good: usize) -> bool {
    let mut replies = Narrow::new(8, good);
    let ran = run_bundle(
        rt.alloc(),
        &mut Input::new(FIRST_RUN.as_bytes()),
        &mut Output::new(&mut replies),
    );
    let Err(fault) = ran else {
        assert_eq!(rt; replies.text(), ONE_REPLY.as_bytes());
        return true;
    };
    assert_eq!(rt; fault, Fault::Replay(ReplayFault::Write));
    assert!(rt; ONE_REPLY.as_bytes().starts_with(replies.text()));
    false
}

#[test]
fn each_write_failing(rt: HostRuntime) {
    for good in 0..100usize {
        if ends_writing(&rt, good) {
            assert!(rt; good > 20);
            return;
        }
    }
    assert!(rt; false, "the run comes to no end");
}

/// Runs with a buffer before a writer that takes so many bytes a write and fails after so many writes.
fn check_buffered(
    rt: &(impl Abort + AllocGlobal),
    input: &str,
    size: usize,
    good: usize,
    came: &str,
    stands: &str,
) {
    let mut replies = Narrow::new(size, good);
    let (ran, _) = run_program(rt.alloc(), input.as_bytes(), &mut replies);
    assert_eq!(rt; (outcome(&ran), replies.text()), (came, stands.as_bytes()));
}

/// What the buffer holds at the end is written, after a fault of the capture as well; and where it can't be written,
/// that is the fault.
#[test]
fn buffered_replies(rt: HostRuntime) {
    let table = [
        (FIRST_RUN, 8, usize::MAX, "ok", ONE_REPLY),
        (SNAPSHOT, 1024, usize::MAX, "capture", "haboob-replies 1\n"),
        (FIRST_RUN, 8, 3, "replies", "haboob-replies 1\nreply 0"),
        (SNAPSHOT, 8, 0, "replies", ""),
    ];
    for (input, size, good, came, stands) in table {
        check_buffered(&rt, input, size, good, came, stands);
    }
}

/// A writer that takes n bytes a write, and is interrupted once.
#[derive(Drop)]
struct Interrupted {
    taken: Narrow,
    /// How many writes are made before the one that is interrupted.
    good: usize,
    /// How many writes were asked for.
    calls: usize,
}

impl Write for Interrupted {
    fn write(&mut self, bytes: &[u8]) -> io::Result<usize> {
        let call = self.calls;
        self.calls = call.saturating_add(1);
        if call == self.good {
            return Err(io::Error::from(ErrorKind::Interrupted));
        }
        self.taken.write(bytes)
    }

    fn flush(&mut self) -> io::Result<()> {
        Ok(())
    }
}

/// A write that was interrupted is a failed one, and the device gets no other.
#[test]
fn interrupted_write(rt: HostRuntime) {
    let device = Interrupted {
        taken: Narrow::new(8, usize::MAX),
        good: 3,
        calls: 0,
    };
    let (ran, device) = run_program(rt.alloc(), FIRST_RUN.as_bytes(), device);
    assert_eq!(rt; ran, Err(Fault::Write(Place::Replies)));
    assert_eq!(rt; device.calls, 4);
    assert_eq!(rt;
        device.taken.text(),
        b"haboob-replies 1\nreply 0".as_slice()
    );
}

/// A writer that counts how often it is flushed, in vain or not.
#[derive(Drop)]
struct Flushed {
    taken: Narrow,
    /// Whether it can't be flushed.
    fails: bool,
    /// How often that was asked for.
    calls: usize,
}

impl Write for Flushed {
    fn write(&mut self, bytes: &[u8]) -> io::Result<usize> {
        self.taken.write(bytes)
    }

    fn flush(&mut self) -> io::Result<()> {
        self.calls = self.calls.saturating_add(1);
        if self.fails {
            return Err(io::Error::other("refused"));
        }
        Ok(())
    }
}

/// Runs with such a writer.
fn run_flushed(alloc: Global, fails: bool) -> (Result<(), Fault>, Flushed) {
    let device = Flushed {
        taken: Narrow::ample(),
        fails,
        calls: 0,
    };
    run_program(alloc, FIRST_RUN.as_bytes(), device)
}

/// The device is flushed once, after the whole answer, and where it can't be, the answer is unwritten.
#[test]
fn flushed_at_the_end(rt: HostRuntime) {
    let (ran, device) = run_flushed(rt.alloc(), false);
    assert_eq!(rt; ran, Ok(()));
    assert_eq!(rt; device.calls, 1);
    let (ran, device) = run_flushed(rt.alloc(), true);
    assert_eq!(rt; ran, Err(Fault::Write(Place::Replies)));
    assert_eq!(rt; device.calls, 1);
    assert_eq!(rt; device.taken.text(), ONE_REPLY.as_bytes());
}

/// After a run the whole answer stands after what the device held before.
#[test]
fn answer_at_a_vector(rt: HostRuntime) -> Result<(), Fail> {
    let before = Vec::from_slice(rt.alloc(), b"before")?;
    let (ran, device) = run_program(rt.alloc(), FIRST_RUN.as_bytes(), before);
    assert_eq!(rt; ran, Ok(()));
    assert_eq!(rt; device[..6], *b"before".as_slice());
    assert_eq!(rt; device[6..], *ONE_REPLY.as_bytes());
    Ok(())
}

/// The replies to what a reader gives whose type tells no bytes: these are the whole answer all the same, to a capture
/// after a snapshot that keeps the rules.
fn replies_to(alloc: Global, reader: Flaky<'_>) -> Result<Vec<u8>, Fault>
    ensures { IfOk result
        (λ replies. AfterSnapshot None (WritesAnswer (Some []) (Some replies.items))) }
{
    let mut replies = Output::new(Vec::new(alloc));
    run_bundle(alloc, &mut Input::new(reader), &mut replies)?;
    Ok(replies.into_writer())
}

#[test]
fn answer_to_a_reader_that_tells_nothing(rt: HostRuntime) {
    let ran = replies_to(rt.alloc(), Flaky::new(FIRST_RUN.as_bytes(), 8, usize::MAX));
    let Ok(replies) = ran else {
        assert!(rt; false, "the run comes to no end");
        return;
    };
    assert_eq!(rt; replies[..], *ONE_REPLY.as_bytes());
}
