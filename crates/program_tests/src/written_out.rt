//! Settings that are written out, by devices that fail.
use crate::running::is_out_of_memory;
use devices::Output;
use program::{Fault, Place, Sink, run_settings, settings_into};
use settings::settings_text;
use std::alloc::AllocGlobal;
use std::process::Abort;
use std::test::Fail;
use test_support::{Counted, Slow};

/// Writes to a writer that fails after n writes, without a buffer and with one; whether both came to an end.
fn ends_writing(rt: &(impl Abort + AllocGlobal), whole: &[u8], good: usize) -> bool {
    let mut taken = Vec::new(rt.alloc());
    let ran = run_settings(
        rt.alloc(),
        b"",
        &mut Output::new(Slow::new(&mut taken, 512, good)),
    );
    let mut buffered = Vec::new(rt.alloc());
    let writer = Slow::new(&mut buffered, 512, good);
    let (with_buffer, _) = settings_into(rt.alloc(), b"", Sink::new(writer));
    assert!(rt; whole.starts_with(&taken) && whole.starts_with(&buffered));
    assert!(rt; matches!(ran, Ok(()) | Err(Fault::Write(Place::Report))));
    assert!(rt; matches!(with_buffer, Ok(()) | Err(Fault::Write(Place::Report))));
    let ended = (ran.is_ok(), with_buffer.is_ok());
    assert_eq!(rt;
        ended,
        (taken.len() == whole.len(), buffered.len() == whole.len())
    );
    ended == (true, true)
}

#[test]
fn each_write_failing(rt: HostRuntime) -> Result<(), Fail> {
    let Ok(whole) = settings_text(rt.alloc(), b"") else {
        return Err(Fail::from("no text"));
    };
    for good in 0..100usize {
        if ends_writing(&rt, whole.as_bytes(), good) {
            assert!(rt; good > 10);
            return Ok(());
        }
    }
    Err(Fail::from("the run comes to no end"))
}

/// `checks/refuse_growths.py` refuses each growth in turn: then nothing stands.
#[test]
fn each_growth_refused(rt: HostRuntime) {
    let (ran, output) = settings_into(rt.alloc(), b"", Sink::new(Counted { bytes: 0 }));
    assert_eq!(rt; ran.is_ok(), output.into_writer().bytes > 0);
    if let Err(fault) = ran {
        assert!(rt; is_out_of_memory(&fault));
    }
}
