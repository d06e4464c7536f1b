//! What the tests of several crates share: devices that fail, a site of one file with captures of requests for it, and
//! what the rules answer to these.
#![tactic(auto)]

mod examples;
mod poor_devices;
mod texts;

pub use examples::{A, NEWER, OLDER, ONE_REPLY, SNAPSHOT, TIGHT_REPLIES, TIGHT_REPORT};
pub use poor_devices::{Counted, Flaky, Slow};
pub use texts::{capture_of, in_bytes, snapshot};
