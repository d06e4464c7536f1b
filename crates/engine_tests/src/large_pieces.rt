//! Batches with more bytes than one thread cuts.
use crate::sizes::check_size;
use std::alloc::{AllocError, AllocGlobal, Global};
use std::process::Abort;
use std::sync::Wait;
use std::thread::Threads;
use test_support::A;

/// A piece of 65,536 bytes: a block of 55 that announces so many bytes of a body, and 65,481 bytes of it.
fn large_piece(alloc: Global, file: &str, announced: usize) -> Result<String, AllocError> {
    let body = "b".repeat(alloc, 65_481)?;
    format!(in alloc;
        "GET /{file} HTTP/1.1\r\nHost: a\r\nContent-Length: {announced}\r\n\r\n{body}"
    )
}

/// A capture of 40 such pieces, four of a kind after another, each on the next of so many connections.
fn in_turn(alloc: Global, conns: usize, kinds: [&str; 3]) -> Result<String, AllocError> {
    let mut capture = String::from_str(alloc, "haboob-capture 1 784111777\n")?;
    for number in 0..40usize {
        let piece = kinds[number / 4 % 3];
        let conn = number.checked_rem(conns).unwrap_or(0);
        write!(capture, "piece 0 {conn} {}\n{piece}\n", piece.len())?;
    }
    capture.push_str("stop 40\n")?;
    Ok(capture)
}

/// Pieces of these kinds on one connection and on several: the replies end so, and so many requests are rejected.
fn check_kinds<T: Abort + AllocGlobal + Threads + Wait + Sync>(
    rt: &T,
    kinds: [&str; 3],
    end: &str,
    rejected: usize,
) {
    for conns in [1, 3, 20usize] {
        let capture = in_turn(rt.alloc(), conns, kinds).expect(rt, "memory");
        check_size(rt, 1024, &capture, end, rejected);
    }
}

/// One with few large messages, and one with many small ones too. The bucket holds 100 tokens. Of the second there are
/// 16 pieces of the first kind, 12 of the second and 12 of the third.
#[test]
fn cut_by_threads(rt: HostRuntime) {
    let found = large_piece(rt.alloc(), "a.txt", 65_481).expect(&rt, "memory");
    let missing = large_piece(rt.alloc(), "b.txt", 65_481).expect(&rt, "memory");
    check_kinds(&rt, [&found, &missing, &found], "\n\nstop 40\n", 0);
    let many = A.repeat(rt.alloc(), 2048).expect(&rt, "memory");
    let none = "GET /n.txt HTTP/1.1\r\nHost: a\r\n\r\n";
    let none = none.repeat(rt.alloc(), 2048).expect(&rt, "memory");
    check_kinds(&rt, [&many, &none, &found], "\n\nstop 57356\n", 57_256);
}

/// A text of 40 lives of such a piece, each on the next of so many numbers: the first, the third and so on of a whole
/// message, and the others of one that lacks a byte.
fn lives(alloc: Global, count: usize, whole: &str, lacking: &str) -> Result<String, AllocError> {
    let mut text = String::from_str(alloc, "haboob-traffic 1 784111777\n")?;
    for life in 0..40usize {
        let number = life.checked_rem(count).unwrap_or(0);
        let piece = if life % 2 == 0 { whole } else { lacking };
        write!(text, "piece 0 {number} 65536\n{piece}\nend 0 {number}\n")?;
    }
    text.push_str("stop 80\n")?;
    Ok(text)
}

/// The lives of so many numbers in batches of several sizes: the 20 whole messages are answered.
fn check_lives<T: Abort + AllocGlobal + Threads + Wait + Sync>(
    rt: &T,
    count: usize,
    whole: &str,
    lacking: &str,
) {
    let text = lives(rt.alloc(), count, whole, lacking).expect(rt, "memory");
    for batch in [1, 2, 3, 7, 1024] {
        check_size(rt, batch, &text, "hi\n\nstop 20\n", 0);
    }
}

#[test]
fn lives_cut_by_threads(rt: HostRuntime) {
    let alloc = rt.alloc();
    let whole = large_piece(alloc, "a.txt", 65_481).expect(&rt, "memory");
    let lacking = large_piece(alloc, "a.txt", 65_482).expect(&rt, "memory");
    for count in [1, 3, 20usize] {
        check_lives(&rt, count, &whole, &lacking);
    }
}
