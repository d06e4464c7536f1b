//! Runs that are given their devices and give them back: what is reported of a device is what became of it.
use crate::reports::CAPTURE;
use crate::running::{FIRST_RUN, Narrow, TIGHT, outcome};
use captures::{CaptureFaultKind, PassFault, Version};
use command_line::Engine;
use devices::Input;
use program::{
    Devices, Fault, Place, Sink, Wanted, bundle_into, replay_into, settings_into, upgrade_into,
};
use settings::read_settings;
use std::alloc::AllocGlobal;
use std::process::Abort;
use std::sync::Wait;
use std::thread::Threads;
use test_support::{Flaky, NEWER, OLDER, SNAPSHOT, TIGHT_REPLIES, TIGHT_REPORT};

/// Whether an upgrade reported what became of its devices: how often the reader failed, whether the writer did, and
/// whether the whole text stands. A fault is reported of a device that failed.
fn is_reported(ran: &Result<(), Fault>, failed: (u64, bool), whole: bool) -> bool {
    match ran {
        Ok(()) => whole && failed == (0, false),
        Err(Fault::Write(Place::Output)) => failed.1,
        Err(Fault::Upgrade(PassFault::Capture(fault))) => {
            fault.kind == CaptureFaultKind::Read && failed == (1, false)
        }
        Err(_) => false,
    }
}

/// Upgrades with a reader that fails after some reads and a writer that fails after some writes; whether it came to its
/// end.
fn ends(rt: &(impl Abort + AllocGlobal), reads: usize, writes: usize) -> bool {
    let input = Input::new(Flaky::new(OLDER.as_bytes(), 8, reads));
    let output = Sink::new(Narrow::new(8, writes));
    let (ran, input, output) = upgrade_into(rt.alloc(), input, output, Version::Two);
    let failed = (input.failures(), output.has_failed());
    let text = output.into_writer();
    assert!(rt; NEWER.as_bytes().starts_with(text.text()));
    assert!(rt; is_reported(&ran, failed, text.text() == NEWER.as_bytes()));
    ran.is_ok()
}

#[test]
fn each_read_and_write_failing(rt: HostRuntime) {
    for good in 0..100usize {
        if ends(&rt, good, usize::MAX) {
            assert!(rt; good > 5);
            assert!(rt; ends(&rt, good, 100));
            assert!(rt; !ends(&rt, good, 0));
            assert!(rt; !ends(&rt, 0, 0));
            return;
        }
        ends(&rt, good, good);
    }
    assert!(rt; false, "the run comes to no end");
}

/// Where a writer fails, so does its run, and tells it.
#[test]
fn dead_writers(rt: HostRuntime) {
    let alloc = rt.alloc();
    let input = Input::new(FIRST_RUN.as_bytes());
    let (ran, _, output) = bundle_into(alloc, input, Sink::new(Narrow::new(8, 0)));
    assert_eq!(rt; ran, Err(Fault::Write(Place::Replies)));
    assert!(rt; output.has_failed());

    let (ran, output) = settings_into(alloc, b"", Sink::new(Narrow::new(8, 3)));
    assert_eq!(rt; ran, Err(Fault::Write(Place::Report)));
    assert!(rt; output.has_failed());
}

/// Replays with writers that fail after some writes.
fn replay<T: Abort + AllocGlobal + Threads + Wait + Sync>(
    rt: &T,
    writes: usize,
    report_writes: usize,
) -> (Result<(), Fault>, Sink<Narrow>, Sink<Narrow>) {
    let alloc = rt.alloc();
    let settings = read_settings(alloc, TIGHT.as_bytes())
        .ok()
        .expect(rt, "settings");
    let devices = Devices {
        snapshot: Input::new(SNAPSHOT.as_bytes()),
        capture: Input::new(CAPTURE.as_bytes()),
        written: Sink::new(Narrow::new(1024, writes)),
        report: Sink::new(Narrow::new(1024, report_writes)),
    };
    let wanted = Wanted::Replies(Engine::Plain);
    let (ran, devices) = replay_into(rt, alloc, &settings, wanted, devices);
    (ran, devices.written, devices.report)
}

/// What a replay came to, which writers failed, and what stands at them.
fn check_replay<T: Abort + AllocGlobal + Threads + Wait + Sync>(
    rt: &T,
    (writes, report_writes): (usize, usize),
    came: &str,
    failed: (bool, bool),
    stand: (&str, &str),
) {
    let (ran, written, report) = replay(rt, writes, report_writes);
    assert_eq!(rt; outcome(&ran), came);
    assert_eq!(rt; (written.has_failed(), report.has_failed()), failed);
    let (written, report) = (written.into_writer(), report.into_writer());
    assert_eq!(rt;
        (written.text(), report.text()),
        (stand.0.as_bytes(), stand.1.as_bytes())
    );
}

#[test]
fn replays(rt: HostRuntime) {
    let table = [
        ((9, 9), "ok", (false, false), (TIGHT_REPLIES, TIGHT_REPORT)),
        ((0, 9), "replies", (true, false), ("", "")),
        ((9, 0), "report", (false, true), (TIGHT_REPLIES, "")),
    ];
    for (writes, came, failed, stand) in table {
        check_replay(&rt, writes, came, failed, stand);
    }
}
