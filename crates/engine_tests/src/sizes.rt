//! Sizes at which a body might give up: each engine answers there as anywhere, with memory enough.
use crate::replaying::{DEFAULT_SHAPE, Ran, Shape, default_settings, outcome_of, run_all};
use std::alloc::{AllocError, AllocGlobal, Global};
use std::process::Abort;
use std::sync::Wait;
use std::thread::Threads;
use test_support::{A, SNAPSHOT};

/// The engines answer a capture in batches of n pieces the same: the replies end so, and so many requests are rejected.
pub fn check_size<T: Abort + AllocGlobal + Threads + Wait + Sync>(
    rt: &T,
    batch: usize,
    capture: &str,
    end: &str,
    rejected: usize,
) -> Ran {
    let shape = Shape {
        batch,
        ..DEFAULT_SHAPE
    };
    let settings = default_settings(rt.alloc(), shape).expect(rt, "settings");
    let ran = run_all(rt, SNAPSHOT, &settings, capture);
    assert!(rt; ran.text.ends_with(end.as_bytes()), "{end}");
    assert_eq!(rt; outcome_of(rt, &ran).rejected.as_slice().len(), rejected);
    ran
}

/// The most requests that one piece can have: 3,276 of 20 bytes.
fn fullest_piece(alloc: Global) -> Result<String, AllocError> {
    let piece = "G / HTTP/1.1\nHost:\n\n".repeat(alloc, 3_276)?;
    format!(in alloc; "haboob-capture 1 784111777\npiece 0 0 65520\n{piece}\nstop 1\n")
}

/// The bucket holds 100 tokens.
#[test]
fn most_messages_of_a_piece(rt: HostRuntime) {
    let capture = fullest_piece(rt.alloc()).expect(&rt, "memory");
    check_size(&rt, 1_024, &capture, "\n\nstop 3276\n", 3_176);
}

/// 10,001 pieces of a request.
fn many_pieces(alloc: Global) -> Result<String, AllocError> {
    let mut capture = String::from_str(alloc, "haboob-capture 1 784111777\n")?;
    for number in 0..10_001usize {
        write!(capture, "piece 0 {} 32\n{A}\n", number % 50)?;
    }
    capture.push_str("stop 10001\n")?;
    Ok(capture)
}

/// A batch of 10,000 pieces, and one of a piece after it.
#[test]
fn ten_thousand_pieces_of_a_batch(rt: HostRuntime) {
    let capture = many_pieces(rt.alloc()).expect(&rt, "memory");
    check_size(&rt, 10_000, &capture, "\n\nstop 10001\n", 9_901);
}
