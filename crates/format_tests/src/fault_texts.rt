//! What the faults of the formats say of themselves.
use captures::{CaptureFault, CaptureFaultKind, PassFault};
use devices::{Failed, Stop};
use paths::{SnapshotFault, SnapshotFaultKind};
use snapshots::WriteFault;
use std::alloc::AllocGlobal;
use std::fmt::Display;
use std::process::Abort;
use std::test::Fail;

/// This is shown so.
fn check<T: Display>(rt: &(impl Abort + AllocGlobal), shown: &T, want: &str) -> Result<(), Fail> {
    let text = format!(in rt.alloc(); "{shown}")?;
    assert_eq!(rt; text.as_str(), want);
    Ok(())
}

static STOPS: [(Stop, &str); 5] = [
    (Stop::TooLong, "a line is too long"),
    (Stop::Cut, "the input ended too early"),
    (Stop::TooLarge, "the text is too large"),
    (Stop::Read, "a read failed"),
    (Stop::Memory, "out of memory"),
];

#[test]
fn faults_of_devices(rt: HostRuntime) -> Result<(), Fail> {
    for (stop, text) in &STOPS {
        check(&rt, stop, text)?;
    }
    check(&rt, &Failed, "the device failed")
}

static PASS_FAULTS: [(PassFault, &str); 4] = [
    (
        PassFault::Capture(CaptureFault {
            at: 7,
            kind: CaptureFaultKind::Trailing,
        }),
        "capture: record 7: Trailing",
    ),
    (PassFault::TooMany(1_048_576), "message 1048576: TooMany"),
    (PassFault::Write, "a write failed"),
    (PassFault::Memory, "no memory"),
];

#[test]
fn faults_of_captures(rt: HostRuntime) -> Result<(), Fail> {
    for (fault, text) in &PASS_FAULTS {
        check(&rt, fault, text)?;
    }
    let fault = CaptureFault {
        at: 7,
        kind: CaptureFaultKind::Trailing,
    };
    check(&rt, &fault, "record 7: Trailing")
}

static WRITE_FAULTS: [(WriteFault, &str); 9] = [
    (WriteFault::Time, "Time"),
    (WriteFault::Size, "Size"),
    (WriteFault::Count, "Count"),
    (WriteFault::Name, "Name"),
    (WriteFault::Order, "Order"),
    (WriteFault::Conflict, "Conflict"),
    (WriteFault::Text, "Text"),
    (WriteFault::Write, "the snapshot can't be written"),
    (WriteFault::Memory, "no memory"),
];

#[test]
fn faults_of_snapshots(rt: HostRuntime) -> Result<(), Fail> {
    for (fault, text) in &WRITE_FAULTS {
        check(&rt, fault, text)?;
    }
    let fault = SnapshotFault {
        entry: 9,
        kind: SnapshotFaultKind::Conflict,
    };
    check(&rt, &fault, "entry 9: Conflict")
}
