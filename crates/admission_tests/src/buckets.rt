//! Buckets over gaps, changed rates and the greatest values.

use token_bucket::{Bucket, MAX_DEPTH, MAX_RATE, MAX_TICK, TOKEN};

#[test]
fn a_tight_bucket_lets_one_through_a_second(rt: HostRuntime) {
    // one token, one token a second: a full bucket, an empty one, one unit short of full in the next second
    let mut bucket = Bucket::new(1, 1000);
    assert_eq!(rt; bucket.credit(), 1_000_000_000);
    assert!(rt; bucket.try_take());
    assert!(rt; !bucket.try_take());
    bucket.advance(999_999);
    assert_eq!(rt; bucket.credit(), 999_999_000);
    assert!(rt; !bucket.try_take());
    bucket.advance(1_000_000);
    assert_eq!(rt; bucket.credit(), 1_000_000_000);
    assert!(rt; bucket.try_take());
    assert_eq!(rt; bucket.credit(), 0);
}

#[test]
fn a_gap_is_credited_at_each_rate_in_turn(rt: HostRuntime) {
    // 5,000 ticks at 1,000 units and 1,194,477 ticks at 833
    let mut bucket = Bucket::new(1, 1000);
    assert!(rt; bucket.try_take());
    bucket.advance(5000);
    bucket.set_rate(833);
    bucket.advance(1_199_477);
    assert_eq!(rt; bucket.credit(), 999_999_341);
    assert!(rt; !bucket.try_take());
    bucket.advance(1_199_478);
    assert_eq!(rt; bucket.credit(), 1_000_000_000);
    assert!(rt; bucket.try_take());
    assert_eq!(rt; bucket.credit(), 0);
}

#[test]
fn the_greatest_values_fit(rt: HostRuntime) {
    let mut bucket = Bucket::new(MAX_DEPTH, MAX_RATE);
    assert_eq!(rt; bucket.credit(), 1_000_000_000_000_000);
    assert!(rt; bucket.try_take());
    bucket.advance(MAX_TICK);
    assert_eq!(rt; bucket.credit(), MAX_DEPTH * TOKEN);
}
