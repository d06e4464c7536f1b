//! Captures that are upgraded, or become slim texts, by devices that fail.

ghost use Rattle.devices.specs.Devices.{CanFail};

use crate::running::{Narrow, is_out_of_memory};
use captures::{CaptureFaultKind, PassFault, Version};
use devices::{Input, Output};
use program::{Fault, Place, Sink, buffered_input, run_slim, run_upgrade, slim_into, upgrade_into};
use slim::Queries;
use std::alloc::{AllocGlobal, Global};
use std::io::{Read, Write};
use std::process::Abort;
use test_support::{Flaky, NEWER, OLDER};

/// What is made of a capture.
#[derive(Clone, Copy)]
enum Pass {
    Upgrade(Version),
    Slim,
}

/// The records of [`OLDER`] as traffic.
static TRAFFIC: &str =
    "haboob-traffic 1 784111777\npiece 0 0 32\nGET /a.txt HTTP/1.1\r\nHost: a\r\n\r\n\nend 5 0\nstop 2\n";

/// A request in two pieces, with a body that never ends after it.
static UNFINISHED: &str =
    "haboob-capture 2 784111777\ntier 0 1\npiece 5 0 20\nGET / HTTP/1.1\r\nHost\n\
    piece 6 0 7\n: a\r\n\r\n\npiece 7 0 41\nPUT / HTTP/1.0\r\nContent-Length: 9\r\n\r\nabcd\nend 1000000 0\nstop 5\n";

static SLIM: &str =
    "haboob-traffic 1 784111777\ntier 0 1\npiece 6 0 22\nGET / HTTP/1.1\nHost:\n\n\nend 1000000 0\nstop 3\n";

const PASSES: [Pass; 3] = [
    Pass::Upgrade(Version::Two),
    Pass::Upgrade(Version::Traffic),
    Pass::Slim,
];

/// A capture, and what the pass makes of it.
fn texts_of(pass: Pass) -> (&'static str, &'static str) {
    match pass {
        Pass::Upgrade(Version::Traffic) => (OLDER, TRAFFIC),
        Pass::Upgrade(_) => (OLDER, NEWER),
        Pass::Slim => (UNFINISHED, SLIM),
    }
}

/// The pass without a buffer.
fn run<R: Read, W: Write>(
    alloc: Global,
    pass: Pass,
    input: &mut Input<R>,
    output: &mut Output<W>,
) -> Result<(), Fault>
    requires { CanFail input.old × CanFail output.old }
{
    match pass {
        Pass::Upgrade(to) => run_upgrade(alloc, input, output, to),
        Pass::Slim => run_slim(alloc, input, output, Version::Traffic, Queries::Dropped),
    }
}

/// The pass with a buffer before each device.
fn run_buffered<W: Write + Drop>(
    alloc: Global,
    pass: Pass,
    text: &[u8],
    writer: W,
) -> Result<(), Fault> {
    let input = buffered_input(alloc, text)?;
    let sink = Sink::new(writer);
    match pass {
        Pass::Upgrade(to) => upgrade_into(alloc, input, sink, to).0,
        Pass::Slim => slim_into(alloc, input, sink, Version::Traffic, Queries::Dropped).0,
    }
}

/// The fault of the pass, where it is one.
fn fault_of(fault: &Fault) -> Option<&PassFault> {
    match fault {
        Fault::Upgrade(own) | Fault::Slim(own) => Some(own),
        _ => None,
    }
}

/// Whether the capture couldn't be read.
fn is_unread(fault: &Fault) -> bool {
    let Some(PassFault::Capture(fault)) = fault_of(fault) else {
        return false;
    };
    fault.kind == CaptureFaultKind::Read
}

/// Whether the output couldn't be written.
fn is_unwritten(fault: &Fault) -> bool {
    matches!(fault_of(fault), Some(PassFault::Write))
}

/// A pass with a reader that fails after n reads; whether it came to its end.
fn ends_reading(rt: &(impl Abort + AllocGlobal), pass: Pass, good: usize) -> bool {
    let (text, want) = texts_of(pass);
    let reader = Flaky::new(text.as_bytes(), 8, good);
    let mut output = Narrow::ample();
    let ran = run(
        rt.alloc(),
        pass,
        &mut Input::new(reader),
        &mut Output::new(&mut output),
    );
    assert!(rt; want.as_bytes().starts_with(output.text()));
    let Err(fault) = ran else {
        assert_eq!(rt; output.text().len(), want.len());
        return true;
    };
    assert!(rt; is_unread(&fault));
    false
}

/// Each read failing in turn.
fn check_reads(rt: &(impl Abort + AllocGlobal), pass: Pass) {
    for good in 0..100usize {
        if ends_reading(rt, pass, good) {
            assert!(rt; good > 10);
            return;
        }
    }
    assert!(rt; false, "the run comes to no end");
}

#[test]
fn each_read_failing(rt: HostRuntime) {
    for pass in PASSES {
        check_reads(&rt, pass);
    }
}

/// A pass with a writer that fails after n writes, without a buffer and with one; whether both came to an end.
fn ends_writing(rt: &(impl Abort + AllocGlobal), pass: Pass, good: usize) -> bool {
    let (text, want) = texts_of(pass);
    let want = want.as_bytes();
    let mut output = Narrow::new(8, good);
    let ran = run(
        rt.alloc(),
        pass,
        &mut Input::new(text.as_bytes()),
        &mut Output::new(&mut output),
    );
    let mut buffered = Narrow::new(8, good);
    let with_buffer = run_buffered(rt.alloc(), pass, text.as_bytes(), &mut buffered);
    assert!(rt; want.starts_with(output.text()) && want.starts_with(buffered.text()));
    let ended = (ran.is_ok(), with_buffer.is_ok());
    if let Err(fault) = &ran {
        assert!(rt; is_unwritten(fault));
    }
    assert!(rt; matches!(with_buffer, Ok(()) | Err(Fault::Write(Place::Output))));
    assert_eq!(rt; ended, (output.text() == want, buffered.text() == want));
    ended == (true, true)
}

/// Each write failing in turn.
fn check_writes(rt: &(impl Abort + AllocGlobal), pass: Pass) {
    for good in 0..100usize {
        if ends_writing(rt, pass, good) {
            assert!(rt; good > 5);
            return;
        }
    }
    assert!(rt; false, "the run comes to no end");
}

#[test]
fn each_write_failing(rt: HostRuntime) {
    for pass in PASSES {
        check_writes(&rt, pass);
    }
}

/// What the buffer holds at the end is written after a fault of the capture as well; where it can't be written, that is
/// the fault.
fn check_dead_writer(rt: &(impl Abort + AllocGlobal), pass: Pass, cut: &[u8]) {
    let mut output = Narrow::new(8, 0);
    let ran = run_buffered(rt.alloc(), pass, cut, &mut output);
    assert_eq!(rt; ran, Err(Fault::Write(Place::Output)));
    assert!(rt; output.text().is_empty());
}

#[test]
fn fault_with_a_dead_writer(rt: HostRuntime) {
    check_dead_writer(&rt, Pass::Upgrade(Version::Two), &OLDER.as_bytes()[..50]);
    check_dead_writer(&rt, Pass::Slim, &UNFINISHED.as_bytes()[..50]);
}

/// `checks/refuse_growths.py` refuses each growth in turn: then a prefix is written.
#[test]
fn each_growth_refused(rt: HostRuntime) {
    for pass in PASSES {
        let (text, want) = texts_of(pass);
        let mut output = Narrow::ample();
        let ran = run_buffered(rt.alloc(), pass, text.as_bytes(), &mut output);
        assert!(rt; want.as_bytes().starts_with(output.text()));
        match ran {
            Ok(()) => assert_eq!(rt; output.text().len(), want.len()),
            Err(fault) => assert!(rt; is_out_of_memory(&fault)),
        }
    }
}
