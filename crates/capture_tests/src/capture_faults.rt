//! Reads that fail, and what is answered after a fault and after the end.
ghost use Rattle.std.specs.Prelude.{◌≡◌, ◌≤◌};

use crate::collecting::collect;
use captures::{CaptureFault, CaptureFaultKind as Kind, CaptureReader, Record};
use devices::Input;
use std::alloc::{AllocGlobal, Global};
use std::io::Read;
use std::process::Abort;
use test_support::Flaky;

static TWO_CONNECTIONS: &str = "haboob-capture 1 784111777\n\
     piece 7 9 32\n\
     GET /a.txt HTTP/1.1\r\n\
     Host: a\r\n\
     \r\n\
     \n\
     piece 7 2 32\n\
     GET /a.txt HTTP/1.1\r\n\
     Host: a\r\n\
     \r\n\
     \n\
     stop 2\n";

/// Two lives of one number.
static LIVES: &str =
    "haboob-traffic 1 0\ntier 3 1\npiece 5 3 2\nhi\nend 5 3\npiece 5 3 1\nx\nstop 4\n";

/// How many records a text has, or its fault, where a read fails after so many; how often the input failed, and how
/// many reads were made.
fn outcome(alloc: Global, text: &str, good: usize) -> (Result<usize, CaptureFault>, (u64, usize)) {
    let mut device = Flaky::new(text.as_bytes(), 3, good);
    let mut input = Input::new(&mut device);
    let came = match collect(alloc, &mut input) {
        Ok((_, _, records)) => Ok(records.len()),
        Err(fault) => Err(fault),
    };
    let failures = input.failures();
    drop(input);
    (came, (failures, device.calls))
}

/// The record that is named where the read failed that comes after so many.
fn record_of(came: Result<usize, CaptureFault>, calls: (u64, usize), good: usize) -> Option<usize> {
    match came {
        Err(found) if found.kind == Kind::Read && calls == (1, good.wrapping_add(1)) => {
            Some(found.at)
        }
        _ => None,
    }
}

/// Whatever read fails, the fault names the record that was being read, the count is one, and nothing more is read.
fn check(rt: &(impl Abort + AllocGlobal), text: &str, records: usize) {
    let mut last = 0;
    for good in 0..1000usize {
        let (came, calls) = outcome(rt.alloc(), text, good);
        if came == Ok(records) && calls.0 == 0 && last == records.wrapping_add(1) {
            return;
        }
        match record_of(came, calls, good) {
            Some(record) if record == last || record == last.wrapping_add(1) => last = record,
            _ => assert!(rt; false, "{good}"),
        }
    }
    assert!(rt; false, "no run met all its reads");
}

#[test]
fn each_read_failing(rt: HostRuntime) {
    check(&rt, TWO_CONNECTIONS, 2);
    check(&rt, LIVES, 4);
}

/// The fault of an answer.
fn fault_in(answer: Result<Option<Record>, CaptureFault>) -> Option<CaptureFault> {
    match answer {
        Ok(_) => None,
        Err(fault) => Some(fault),
    }
}

/// The first two answers after the first line.
fn two_answers<R: Read>(
    alloc: Global,
    input: &mut Input<R>,
) -> Result<(Option<CaptureFault>, Option<CaptureFault>), CaptureFault>
    requires { input.old.failures ≡ 0 }
    ensures { input.new.failures ≤ 1 }
{
    let mut reader = CaptureReader::open(input)?;
    let first = fault_in(reader.next_record(alloc));
    let second = fault_in(reader.next_record(alloc));
    Ok((first, second))
}

/// A text, its fault, and how many bytes stand after it, or after the last line.
static STOPPED: [(&str, Option<CaptureFault>, usize); 2] = [
    (
        "haboob-capture 1 0\nsteal 0\nstop 0\n",
        Some(CaptureFault {
            at: 1,
            kind: Kind::Kind,
        }),
        7,
    ),
    ("haboob-capture 1 0\nstop 0\n", None, 0),
];

/// From a fault on that fault is answered, and nothing is read; nor is it after the end.
#[test]
fn a_fault_stays(rt: HostRuntime) {
    for (text, fault, left) in &STOPPED {
        let mut input = Input::new(text.as_bytes());
        let answers = two_answers(rt.alloc(), &mut input);
        assert!(rt; answers == Ok((*fault, *fault)), "{text}");
        let mut rest = [0; 9];
        assert_eq!(rt; input.read_some(&mut rest), Ok(*left));
    }
}
