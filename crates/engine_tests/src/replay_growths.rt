//! Out of memory: `checks/refuse_growths.py` refuses each growth of these tests in turn.
use crate::batches::{NARROW, WIDE};
use crate::policies::{long_misses, nimble, routed};
use crate::replaying::{
    DEFAULT_SHAPE, ENGINES, Engine, default_settings, fault_of, run_engine, shaped, tight_settings,
};
use replay::{ReplayFault, Settings};
use stage_graph::NoGate;
use std::alloc::{AllocGlobal, Global};
use std::process::Abort;
use std::sync::Wait;
use std::thread::Threads;
use test_support::{A, ONE_REPLY, SNAPSHOT, TIGHT_REPLIES, capture_of, in_bytes};

/// A request for a file that isn't there.
static NONE: &str = "GET /none HTTP/1.1\r\nHost: a\r\n\r\n";

/// A request for the file, and one for a folder without an index.
pub static CAPTURE: &str = "haboob-capture 1 784111777\n\
     piece 0 0 32\n\
     GET /a.txt HTTP/1.1\r\n\
     Host: a\r\n\
     \r\n\
     \n\
     piece 1 3 27\n\
     GET / HTTP/1.1\r\n\
     Host: a\r\n\
     \r\n\
     \n\
     stop 2\n";

static WANT: &str = "haboob-replies 1\n\
     reply 0 0 150\n\
     HTTP/1.1 200 OK\r\n\
     Date: Sun, 06 Nov 1994 08:49:37 GMT\r\n\
     Content-Type: text/plain\r\n\
     Content-Length: 3\r\n\
     Last-Modified: Sun, 06 Nov 1994 08:49:37 GMT\r\n\
     \r\n\
     hi\n\
     \n\
     reply 1 3 123\n\
     HTTP/1.1 404 Not Found\r\n\
     Date: Sun, 06 Nov 1994 08:49:37 GMT\r\n\
     Content-Type: text/plain\r\n\
     Content-Length: 14\r\n\
     \r\n\
     404 Not Found\n\
     \n\
     stop 2\n";

/// The replies to three requests, of which the second finds no token.
static NIMBLE_REPLIES: &str = "haboob-replies 1\n\
     reply 0 0 123\n\
     HTTP/1.1 404 Not Found\r\n\
     Date: Sun, 06 Nov 1994 08:49:37 GMT\r\n\
     Content-Type: text/plain\r\n\
     Content-Length: 14\r\n\
     \r\n\
     404 Not Found\n\
     \n\
     reply 1 0 159\n\
     HTTP/1.1 503 Service Unavailable\r\n\
     Date: Sun, 06 Nov 1994 08:49:38 GMT\r\n\
     Content-Type: text/plain\r\n\
     Content-Length: 24\r\n\
     Retry-After: 1\r\n\
     \r\n\
     503 Service Unavailable\n\
     \n\
     reply 2 0 150\n\
     HTTP/1.1 200 OK\r\n\
     Date: Sun, 06 Nov 1994 08:49:38 GMT\r\n\
     Content-Type: text/plain\r\n\
     Content-Length: 3\r\n\
     Last-Modified: Sun, 06 Nov 1994 08:49:37 GMT\r\n\
     \r\n\
     hi\n\
     \n\
     stop 3\n";

/// A replay whose growth is refused says so, and has written a prefix of what it would have written: the text in memory
/// has its room beforehand, so no write fails.
fn check_engine<T: Abort + AllocGlobal + Threads + Wait + Sync>(
    rt: &T,
    engine: Engine,
    settings: &Settings,
    capture: &[u8],
    want: &[u8],
) {
    match run_engine(rt, rt.alloc(), engine, SNAPSHOT, settings, &NoGate, capture) {
        None => {}
        Some(ran) => match fault_of(&ran) {
            None => assert_eq!(rt; ran.text.as_slice(), want),
            Some(fault) => {
                assert_eq!(rt; fault, ReplayFault::Memory);
                assert!(rt; want.starts_with(&ran.text));
            }
        },
    }
}

/// So it is on each engine.
fn check<T: Abort + AllocGlobal + Threads + Wait + Sync>(
    rt: &T,
    settings: Option<Box<Settings>>,
    capture: &str,
    want: &str,
) {
    let Some(settings) = settings else {
        return;
    };
    for engine in ENGINES {
        check_engine(rt, engine, &settings, capture.as_bytes(), want.as_bytes());
    }
}

#[test]
fn each_growth_refused(rt: HostRuntime) {
    let settings = default_settings(rt.alloc(), DEFAULT_SHAPE);
    check(&rt, settings, CAPTURE, WANT);
}

#[test]
fn each_growth_refused_in_byte_pieces(rt: HostRuntime) {
    if let Ok(capture) = in_bytes(rt.alloc(), A) {
        let settings = default_settings(rt.alloc(), DEFAULT_SHAPE);
        check(&rt, settings, &capture, ONE_REPLY);
    }
}

/// The narrowest stages, and the widest.
#[test]
fn each_growth_refused_on_any_floor(rt: HostRuntime) {
    let pieces = [(0, 0, A), (0, 0, A), (999_999, 0, A), (1_000_000, 0, A)];
    if let Ok(capture) = capture_of(rt.alloc(), &pieces) {
        check(
            &rt,
            tight_settings(rt.alloc(), NARROW),
            &capture,
            TIGHT_REPLIES,
        );
        check(
            &rt,
            tight_settings(rt.alloc(), WIDE),
            &capture,
            TIGHT_REPLIES,
        );
    }
}

/// A control at each admitted request.
fn nimble_settings(alloc: Global) -> Option<Box<Settings>> {
    shaped(alloc, DEFAULT_SHAPE, long_misses()?, nimble(1)?)
}

#[test]
fn each_growth_refused_with_controls(rt: HostRuntime) {
    let pieces = [(0, 0, NONE), (1_199_477, 0, A), (1_199_478, 0, A)];
    if let Ok(capture) = capture_of(rt.alloc(), &pieces) {
        check(&rt, nimble_settings(rt.alloc()), &capture, NIMBLE_REPLIES);
    }
}

/// A route changes no reply.
fn routed_settings(alloc: Global) -> Option<Box<Settings>> {
    routed(alloc, default_settings(alloc, DEFAULT_SHAPE)?)
}

#[test]
fn each_growth_refused_on_a_route(rt: HostRuntime) {
    check(&rt, routed_settings(rt.alloc()), CAPTURE, WANT);
}
