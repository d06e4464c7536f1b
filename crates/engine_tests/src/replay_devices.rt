//! Devices that fail.
use crate::replaying::{DEFAULT_SHAPE, ENGINES, Engine, default_settings, run_devices};
use captures::CaptureFaultKind;
use devices::{Input, Output};
use replay::{ReplayFault, Settings};
use stage_graph::NoGate;
use std::alloc::AllocGlobal;
use std::process::Abort;
use std::sync::Wait;
use std::thread::Threads;
use test_support::{A, Flaky, ONE_REPLY, SNAPSHOT, Slow, capture_of};

/// Replays with devices that fail after n calls; whether the replay came to its end.
fn ends(
    rt: &(impl Abort + AllocGlobal + Threads + Wait + Sync),
    engine: Engine,
    settings: &Settings,
    capture: &str,
    reads: usize,
    writes: usize,
) -> bool {
    let mut taken = Vec::new(rt.alloc());
    let mut reader = Input::new(Flaky::new(capture.as_bytes(), 16, reads));
    let mut writer = Output::new(Slow::new(&mut taken, 16, writes));
    let ran = run_devices(
        rt,
        rt.alloc(),
        engine,
        SNAPSHOT,
        settings,
        &NoGate,
        &mut reader,
        &mut writer,
    );
    let failed = (reader.failures(), writer.failures());
    let fault = ran.expect(rt, "a snapshot").err();
    let want = ONE_REPLY.as_bytes();
    let is_right = match fault {
        None => taken.len() == want.len(),
        Some(ReplayFault::Capture(fault)) => {
            fault.kind == CaptureFaultKind::Read
                && failed == (1, 0)
                && (taken.len() == 17 || taken.len() == want.len() - 7)
        }
        Some(fault) => fault == ReplayFault::Write && failed == (0, 1),
    };
    assert!(rt; is_right && want.starts_with(&taken), "{failed:?}");
    fault.is_none()
}

/// Fails each read in turn, or each write, until a replay comes to its end: how many calls it made, if below 200.
fn calls_to_the_end<T: Abort + AllocGlobal + Threads + Wait + Sync>(
    rt: &T,
    engine: Engine,
    settings: &Settings,
    capture: &str,
    is_read: bool,
) -> usize {
    for good in 0..200usize {
        let (reads, writes) = if is_read {
            (good, usize::MAX)
        } else {
            (usize::MAX, good)
        };
        if ends(rt, engine, settings, capture, reads, writes) {
            return good;
        }
    }
    200
}

#[test]
fn each_read_and_write_failing(rt: HostRuntime) {
    let settings = default_settings(rt.alloc(), DEFAULT_SHAPE).expect(&rt, "settings");
    let capture = capture_of(rt.alloc(), &[(0, 0, A)]).expect(&rt, "memory");
    for engine in ENGINES {
        let reads = calls_to_the_end(&rt, engine, &settings, &capture, true);
        let writes = calls_to_the_end(&rt, engine, &settings, &capture, false);
        assert!(rt; 10 < reads && reads < 200 && 10 < writes && writes < 200);
    }
}
