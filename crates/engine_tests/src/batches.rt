//! Whatever the batch, the stages and the cache, the replies are the same.
use crate::batch_texts::{FILES, TEXTS, longest_blocks};
use crate::policies::{long_misses, nimble, routed, tight};
use crate::replaying::{DEFAULT_SHAPE, Shape, run_all, tiered, tight_settings};
use replay::Settings;
use std::alloc::{AllocGlobal, Global};
use std::process::Abort;
use std::sync::Wait;
use std::thread::Threads;
use test_support::{A, SNAPSHOT, TIGHT_REPLIES, capture_of, in_bytes};

/// The shape of one worker and room for one item a stage, batches of one piece, and no cache.
pub static NARROW: Shape<'static> = Shape {
    front: &[3],
    back: &[2],
    workers: 1,
    capacity: 1,
    batch: 1,
    cache: 0,
};

/// The default stages at their widest.
pub static WIDE: Shape<'static> = Shape {
    front: &[1, 2, 3],
    back: &[1, 2],
    workers: 16,
    capacity: 4096,
    batch: 65_536,
    cache: 1_073_741_824,
};

/// Settings with batches of n pieces, a route in front of the file, a delay elsewhere, and a policy for each tier: that
/// of tier 0 has a control at each request, and so many tokens.
fn settings_of(alloc: Global, batch: usize, depth: u64) -> Option<Box<Settings>> {
    let shape = Shape {
        batch,
        ..DEFAULT_SHAPE
    };
    let costs = long_misses()?.served_by(1, 7);
    let policies = [nimble(depth)?, tight(1)?, tight(2)?, tight(2)?];
    routed(alloc, tiered(alloc, shape, costs, policies)?)
}

/// The engines write and answer the same to a text in batches of several sizes, and come to its end or don't.
fn check_text<T: Abort + AllocGlobal + Threads + Wait + Sync>(rt: &T, text: &str, ends: bool) {
    for (batch, depth) in [
        (1, 1),
        (2, 1),
        (3, 1),
        (1024, 1),
        (1, 100),
        (3, 100),
        (1024, 100),
    ] {
        let settings = settings_of(rt.alloc(), batch, depth).expect(rt, "settings");
        let ran = run_all(rt, FILES, &settings, text);
        assert_eq!(rt; ran.answer.is_ok(), ends, "{text}");
    }
}

#[test]
fn same_answers(rt: HostRuntime) {
    for (text, ends) in &TEXTS {
        check_text(&rt, text, *ends);
    }
}

/// The longest blocks, and a request of which each byte is a piece.
#[test]
fn same_answers_to_long_texts(rt: HostRuntime) {
    check_text(&rt, &longest_blocks(rt.alloc()).expect(&rt, "memory"), true);
    check_text(&rt, &in_bytes(rt.alloc(), A).expect(&rt, "memory"), true);
}

/// Each way to cut the steps into stages, for the front and for the back.
static CUTS: [(&[usize], &[usize]); 8] = [
    (&[3], &[2]),
    (&[1, 3], &[2]),
    (&[2, 3], &[2]),
    (&[1, 2, 3], &[2]),
    (&[3], &[1, 2]),
    (&[1, 3], &[1, 2]),
    (&[2, 3], &[1, 2]),
    (&[1, 2, 3], &[1, 2]),
];

/// The engines of this shape reply to four requests as the bucket lets them, which holds one token.
fn check_shape<T: Abort + AllocGlobal + Threads + Wait + Sync>(
    rt: &T,
    shape: Shape,
    capture: &str,
) {
    let settings = tight_settings(rt.alloc(), shape).expect(rt, "settings");
    let ran = run_all(rt, SNAPSHOT, &settings, capture);
    assert_eq!(rt; ran.text.as_slice(), TIGHT_REPLIES.as_bytes());
}

/// Each of them, and the narrowest and the widest stages.
#[test]
fn any_floor_same_bytes(rt: HostRuntime) {
    let pieces = [(0, 0, A), (0, 0, A), (999_999, 0, A), (1_000_000, 0, A)];
    let capture = capture_of(rt.alloc(), &pieces).expect(&rt, "memory");
    for (front, back) in &CUTS {
        let shape = Shape {
            front,
            back,
            ..DEFAULT_SHAPE
        };
        check_shape(&rt, shape, &capture);
    }
    check_shape(&rt, NARROW, &capture);
    check_shape(&rt, WIDE, &capture);
}
