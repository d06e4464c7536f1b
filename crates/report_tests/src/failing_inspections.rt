//! Inspections whose reads fail, or whose requests for memory do.
ghost use Rattle.std.specs.Prelude.{◌≤◌};

use captures::CaptureFaultKind as Kind;
use devices::Input;
use inspection::{InspectFault, Inspection, inspect, inspection_text};
use reference::SettingsFault;
use std::alloc::{AllocGlobal, Global};
use std::fmt::Display;
use std::process::Abort;
use test_support::Flaky;

/// How many whole records there were, and the record and the kind of the fault where there was one.
fn reported(answer: Result<Inspection, InspectFault>) -> (u64, Option<(usize, Kind)>) {
    match answer {
        Ok(inspection) => (inspection.records.all, None),
        Err(InspectFault::FirstLine(fault)) => (0, Some((fault.at, fault.kind))),
        Err(InspectFault::Stopped { held, fault }) => {
            (held.records.all, Some((fault.at, fault.kind)))
        }
        Err(InspectFault::Memory) => (0, Some((0, Kind::Memory))),
    }
}

static CAPTURE: &str =
    "haboob-capture 2 0\ntier 9 1\npiece 0 9 18\nGET / HTTP/1.0\r\n\r\n\npiece 5 8 2\nab\nend 7 9\nstop 4\n";

/// What is reported of this capture where a read fails after so many, and how many reads failed.
fn reported_after(alloc: Global, good: usize) -> (u64, Option<(usize, Kind)>, u64) {
    let mut reader = Input::new(Flaky::new(CAPTURE.as_bytes(), 3, good));
    let (records, fault) = reported(inspect(alloc, &mut reader));
    (records, fault, reader.failures())
}

/// Each read fails in turn: it is reported with what the whole records before it hold, and not tried again.
#[test]
fn reads_failing(rt: HostRuntime) {
    for good in 0..1000usize {
        match reported_after(rt.alloc(), good) {
            (records, Some((at, kind)), failures) => {
                let before = at.saturating_sub(1) as u64;
                assert_eq!(rt; (kind, failures, before), (Kind::Read, 1, records));
            }
            (records, None, failures) => {
                assert_eq!(rt; (records, failures), (4, 0));
                return;
            }
        }
    }
    assert!(rt; false, "no run met all its reads");
}

/// The text of what a request in two pieces is inspected to: none without memory, and an empty one at another fault.
fn text_of_two_pieces(alloc: Global) -> Option<String> {
    let capture =
        "haboob-capture 1 0\npiece 0 3 20\nGET / HTTP/1.1\r\nHost\npiece 0 3 7\n: a\r\n\r\n\nstop 2\n";
    match inspect(alloc, &mut Input::new(capture.as_bytes())) {
        Ok(inspection) => inspection_text(alloc, &inspection).ok(),
        Err(InspectFault::Memory) => None,
        Err(_) => Some(String::new(alloc)),
    }
}

/// `checks/refuse_growths.py` refuses each growth in turn: that is answered so; else the answers are right.
#[test]
fn each_growth_refused(rt: HostRuntime) {
    if let Some(text) = text_of_two_pieces(rt.alloc()) {
        let is_right = text.contains("\nmethod GET 1\n")
            && text.ends_with("unfinished 0 0\nbusiest 0 1\nend\n");
        assert!(rt; is_right, "{text}");
    }
}

/// What a fault of an inspection, or of the settings, says of itself.
fn check_text<T: Display>(rt: &(impl Abort + AllocGlobal), fault: &T, want: &str) {
    let text = format!(in rt.alloc(); "{fault}").expect(rt, "memory");
    assert_eq!(rt; text.as_str(), want);
}

#[test]
fn faults_of_inspections(rt: HostRuntime) {
    for (capture, want) in [
        ("haboob-capture 3 0\n", "capture: record 0: Header"),
        ("haboob-capture 1 0\nnothing\n", "capture: record 1: Kind"),
    ] {
        match inspect(rt.alloc(), &mut Input::new(capture.as_bytes())) {
            Ok(_) => assert!(rt; false, "no fault"),
            Err(fault) => check_text(&rt, &fault, want),
        }
    }
    check_text(&rt, &InspectFault::Memory, "no memory");
}

static SETTINGS_FAULTS: [(SettingsFault, &str); 5] = [
    (
        SettingsFault::Front,
        "the front stages do not end with step 3",
    ),
    (
        SettingsFault::Back,
        "the back stages do not end with step 2",
    ),
    (SettingsFault::Batch, "a batch has 1 to 65536 records"),
    (
        SettingsFault::Cache,
        "the cache has at most 1073741824 bytes",
    ),
    (
        SettingsFault::Retry,
        "a rejected request may be tried again after at most 86400 seconds",
    ),
];

#[test]
fn faults_of_settings(rt: HostRuntime) {
    for (fault, want) in &SETTINGS_FAULTS {
        check_text(&rt, fault, want);
    }
}
