//! More messages than one pair of floors takes at a time.
use crate::sizes::check_size;
use std::alloc::{AllocError, AllocGlobal, Global};
use std::process::Abort;
use test_support::A;

/// Three pieces of 2,048 requests each.
fn three_pieces(alloc: Global) -> Result<String, AllocError> {
    let mut capture = String::from_str(alloc, "haboob-capture 1 784111777\n")?;
    let block = A.repeat(alloc, 2048)?;
    for _ in 0..3 {
        write!(capture, "piece 0 0 65536\n{block}\n")?;
    }
    capture.push_str("stop 3\n")?;
    Ok(capture)
}

/// How replies of theirs begin.
static HEADS: [&str; 5] = [
    "\nreply 99 0 150\nHTTP/1.1 200 OK\r\n",
    "\nreply 100 0 159\nHTTP/1.1 503 Service Unavailable\r\n",
    "\nreply 4095 0 159\nHTTP/1.1 503 Service Unavailable\r\n",
    "\nreply 4096 0 159\nHTTP/1.1 503 Service Unavailable\r\n",
    "\nreply 6143 0 159\nHTTP/1.1 503 Service Unavailable\r\n",
];

/// They stand in these replies.
fn check_heads(rt: &(impl Abort + AllocGlobal), replies: &[u8]) {
    let text = String::from_utf8_lossy(rt.alloc(), replies).expect(rt, "memory");
    for head in HEADS {
        assert!(rt; text.contains(head), "{head}");
    }
}

/// The messages of one batch, in two parts. The bucket holds 100 tokens, so the replies are 100 of 150 bytes, and then
/// 6,044 of 159.
#[test]
fn several_parts(rt: HostRuntime) {
    let capture = three_pieces(rt.alloc()).expect(&rt, "memory");
    let ran = check_size(&rt, 1024, &capture, "\n\nstop 6144\n", 6044);
    assert_eq!(rt; ran.text.len(), 1_085_505);
    check_heads(&rt, &ran.text);
}
