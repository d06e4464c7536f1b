//! Adaptive admission control on virtual time.
//!
//! Pools of virtual servers take the admitted requests of four tiers in their order, each request in its pool alone.
//! Each tier has a policy and a token bucket of its own. At every n of its responses, in the order in which they are
//! complete, a control compares the smoothed 90th percentile of the response times with a target, and raises the rate
//! of its bucket by addition or lowers it by division. A request is admitted where the bucket of its tier has a token
//! when it is offered. All times are ticks of one microsecond.
#![tactic(auto)]

mod control;
mod controller;
mod in_flight;
pub mod laws;
mod policy;
mod pool;
mod servers;
mod tier;
mod window;

pub use control::{Control, Decision, Outlook, PoolFigures};
pub use controller::Controller;
pub use policy::{Policy, PolicyFault, PolicyNumbers};
pub use token_bucket::{MAX_DEPTH, MAX_RATE, MAX_TICK};
pub use window::SampleWindow;

/// The most samples that a window holds.
pub const MAX_WINDOW: u64 = 4096;

/// The most admitted requests from one control to the next.
pub const MAX_EVERY: u64 = 4096;

/// The greatest step by which a rate is raised.
pub const MAX_UP: u64 = 1_000_000_000;

/// The least and the greatest divisor by which a rate is lowered, in hundredths.
pub const MIN_DOWN: u64 = 101;

pub const MAX_DOWN: u64 = 10_000;

/// The greatest target, in ticks.
pub const MAX_TARGET: u64 = 1_000_000_000_000;

/// The longest service, in ticks.
pub const MAX_SERVICE: u64 = 20_000_000_000;

/// The most servers of a pool.
pub const MAX_SERVERS: u64 = 1024;

/// The most pools beside the default one.
pub const MAX_POOLS: u64 = 16;

/// The longest delay of a response beside its service, in ticks.
pub const MAX_DELAY: u64 = 1_000_000_000;

/// The most offers that a controller takes.
pub const MAX_OFFERS: u64 = 536_870_912;

// The tick at which a server is free fits into 64 bits after all of these and one more, each of the longest service,
// and so does the longest response time: 10^15 + 10^9 + 2 * 10^10 * (2^29 + 1) is less than 2^64.
const _: () = prove!(MAX_SERVICE <= (u64::MAX - MAX_TICK - MAX_DELAY) / (MAX_OFFERS + 1));
