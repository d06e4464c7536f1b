//! Out of memory: `checks/refuse_growths.py` refuses each growth in turn.
use crate::reports::CAPTURE;
use crate::running::{FIRST_RUN, Narrow, is_out_of_memory, run_tight};
use command_line::Engine;
use program::run_program;
use std::alloc::AllocGlobal;
use std::process::Abort;
use std::sync::Wait;
use std::thread::Threads;
use test_support::{ONE_REPLY, SNAPSHOT, TIGHT_REPLIES, TIGHT_REPORT};

/// A run whose growth is refused says so, and has written a prefix of the replies.
#[test]
fn each_growth_refused(rt: HostRuntime) {
    let mut replies = Narrow::ample();
    match run_program(rt.alloc(), FIRST_RUN.as_bytes(), &mut replies).0 {
        Ok(()) => assert_eq!(rt; replies.text(), ONE_REPLY.as_bytes()),
        Err(fault) => {
            assert!(rt; is_out_of_memory(&fault));
            assert!(rt; ONE_REPLY.as_bytes().starts_with(replies.text()));
        }
    }
}

/// The same of a run with a report: of that the whole is written, or nothing.
fn check<T: Abort + AllocGlobal + Threads + Wait + Sync>(rt: &T, engine: Engine) {
    let mut replies = Narrow::ample();
    let mut report = Narrow::ample();
    let ran = run_tight(
        rt,
        rt.alloc(),
        engine,
        SNAPSHOT,
        CAPTURE,
        &mut replies,
        &mut report,
    );
    match ran {
        Ok(()) => {
            assert_eq!(rt; replies.text(), TIGHT_REPLIES.as_bytes());
            assert_eq!(rt; report.text(), TIGHT_REPORT.as_bytes());
        }
        Err(fault) => {
            assert!(rt; is_out_of_memory(&fault));
            assert!(rt; TIGHT_REPLIES.as_bytes().starts_with(replies.text()));
            assert!(rt; report.text().is_empty());
        }
    }
}

#[test]
fn each_growth_refused_with_a_report(rt: HostRuntime) {
    check(&rt, Engine::Plain);
    check(&rt, Engine::Staged);
}
