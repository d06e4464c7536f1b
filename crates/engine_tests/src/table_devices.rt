//! Devices that fail.
use crate::explaining::explain_devices;
use crate::replaying::{DEFAULT_SHAPE, default_settings};
use captures::CaptureFaultKind;
use devices::{Input, Output};
use replay::{ReplayFault, Settings};
use std::alloc::AllocGlobal;
use std::process::Abort;
use test_support::{A, Flaky, SNAPSHOT, Slow, capture_of};

static WANT: &str =
    "number,connection,tick,tier,status,decision,service,credit,rate,start,finish,waited,method,target\n\
     0,0,0,0,200,admitted,201,100000000000,1000000,0,201,0,GET,/a.txt\n";

/// Explains with devices that fail after n calls; whether the call came to its end.
fn ends(
    rt: &(impl Abort + AllocGlobal),
    settings: &Settings,
    capture: &str,
    reads: usize,
    writes: usize,
) -> bool {
    let mut taken = Vec::new(rt.alloc());
    let mut reader = Input::new(Flaky::new(capture.as_bytes(), 16, reads));
    let mut writer = Output::new(Slow::new(&mut taken, 5, writes));
    let ran = explain_devices(rt.alloc(), SNAPSHOT, settings, &mut reader, &mut writer);
    let failed = (reader.failures(), writer.failures());
    let fault = ran.expect(rt, "a snapshot").err();
    let want = WANT.as_bytes();
    let is_right = match fault {
        None => taken.len() == want.len(),
        Some(ReplayFault::Capture(fault)) => {
            fault.kind == CaptureFaultKind::Read
                && failed == (1, 0)
                && (taken.len() == 98 || taken.len() == want.len())
        }
        Some(fault) => fault == ReplayFault::Write && failed == (0, 1),
    };
    assert!(rt; is_right && want.starts_with(&taken), "{failed:?}");
    fault.is_none()
}

/// Fails each read in turn, or each write, until a call comes to its end: how many calls it made, if below 200.
fn calls_to_the_end(
    rt: &(impl Abort + AllocGlobal),
    settings: &Settings,
    capture: &str,
    is_read: bool,
) -> usize {
    for good in 0..200usize {
        let (reads, writes) = if is_read {
            (good, usize::MAX)
        } else {
            (usize::MAX, good)
        };
        if ends(rt, settings, capture, reads, writes) {
            return good;
        }
    }
    200
}

#[test]
fn each_read_and_write_failing(rt: HostRuntime) {
    let settings = default_settings(rt.alloc(), DEFAULT_SHAPE).expect(&rt, "settings");
    let capture = capture_of(rt.alloc(), &[(0, 0, A)]).expect(&rt, "memory");
    let reads = calls_to_the_end(&rt, &settings, &capture, true);
    let writes = calls_to_the_end(&rt, &settings, &capture, false);
    assert!(rt; 5 < reads && reads < 200 && 30 < writes && writes < 200);
}
