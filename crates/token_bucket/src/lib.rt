//! A token bucket on virtual time.
//!
//! A bucket counts units, of which [`TOKEN`] make a token. One tick is a microsecond, and a rate is
//! in thousandths of a token a second, so a tick adds exactly `rate` units and nothing is rounded.
#![tactic(auto)]

mod bucket;
pub mod laws;

pub use bucket::Bucket;

/// The units of one token.
pub const TOKEN: u64 = 1_000_000_000;

/// The greatest depth of a bucket, in tokens.
pub const MAX_DEPTH: u64 = 1_000_000;

/// The greatest rate, in thousandths of a token a second.
pub const MAX_RATE: u64 = 1_000_000_000;

/// The last tick that a bucket's clock may reach.
pub const MAX_TICK: u64 = 1_000_000_000_000_000;
