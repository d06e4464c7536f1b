//! What a capture holds, by devices that fail.
use crate::running::{Narrow, is_out_of_memory};
use devices::{Input, Output};
use program::{Fault, Place, inspect_files, run_inspect};
use std::alloc::{AllocGlobal, Global};
use std::process::Abort;
use test_support::Flaky;

/// A request that closes, two bytes after it, and the end of another connection.
static CAPTURE: &str =
    "haboob-capture 1 784111777\npiece 7 0 21\nHEAD / HTTP/1.0\r\n\r\n..\nend 1000008 5\nstop 2\n";

/// What is reported of it.
fn whole(alloc: Global) -> Narrow {
    let mut output = Narrow::ample();
    let _ = inspect_files(alloc, CAPTURE.as_bytes(), &mut output);
    output
}

/// Inspects with a reader that fails after n reads; whether the run came to its end.
fn ends_reading(rt: &(impl Abort + AllocGlobal), whole: &[u8], good: usize) -> bool {
    let reader = Flaky::new(CAPTURE.as_bytes(), 8, good);
    let mut output = Narrow::ample();
    let ran = run_inspect(
        rt.alloc(),
        &mut Input::new(reader),
        &mut Output::new(&mut output),
    );
    match ran {
        Ok(()) => {
            assert_eq!(rt; output.text(), whole);
            true
        }
        Err(fault) => {
            assert_eq!(rt; fault.status(), 6);
            assert!(rt; output.text().is_empty() || output.text().ends_with(b"end\n"));
            false
        }
    }
}

#[test]
fn each_read_failing(rt: HostRuntime) {
    let whole = whole(rt.alloc());
    for good in 0..100usize {
        if ends_reading(&rt, whole.text(), good) {
            assert!(rt; good > 10);
            return;
        }
    }
    assert!(rt; false, "the run comes to no end");
}

/// Inspects with a writer that fails after n writes, without a buffer and with one; whether both came to an end.
fn ends_writing(rt: &(impl Abort + AllocGlobal), whole: &[u8], good: usize) -> bool {
    let mut output = Narrow::new(64, good);
    let ran = run_inspect(
        rt.alloc(),
        &mut Input::new(CAPTURE.as_bytes()),
        &mut Output::new(&mut output),
    );
    let mut buffered = Narrow::new(64, good);
    let (with_buffer, _) = inspect_files(rt.alloc(), CAPTURE.as_bytes(), &mut buffered);
    assert!(rt; whole.starts_with(output.text()) && whole.starts_with(buffered.text()));
    assert!(rt; matches!(ran, Ok(()) | Err(Fault::Write(Place::Report))));
    assert!(rt; matches!(with_buffer, Ok(()) | Err(Fault::Write(Place::Report))));
    let ended = (ran.is_ok(), with_buffer.is_ok());
    assert_eq!(rt; ended, (output.text() == whole, buffered.text() == whole));
    ended == (true, true)
}

#[test]
fn each_write_failing(rt: HostRuntime) {
    let whole = whole(rt.alloc());
    for good in 0..100usize {
        if ends_writing(&rt, whole.text(), good) {
            assert!(rt; good > 3);
            return;
        }
    }
    assert!(rt; false, "the run comes to no end");
}

/// After a fault of the capture the text is due; where it can't be written, that is the fault.
#[test]
fn fault_with_a_dead_writer(rt: HostRuntime) {
    let mut output = Narrow::new(64, 0);
    let (ran, _) = inspect_files(rt.alloc(), &CAPTURE.as_bytes()[..70], &mut output);
    assert_eq!(rt; ran, Err(Fault::Write(Place::Report)));
    assert!(rt; output.text().is_empty());
}

/// `checks/refuse_growths.py` refuses each growth in turn: then nothing stands.
#[test]
fn each_growth_refused(rt: HostRuntime) {
    let mut output = Narrow::ample();
    match inspect_files(rt.alloc(), CAPTURE.as_bytes(), &mut output).0 {
        Ok(()) => assert!(rt; output.text().ends_with(b"end\n")),
        Err(fault) => {
            assert!(rt; is_out_of_memory(&fault));
            assert!(rt; output.text().is_empty());
        }
    }
}
