//! The engines: a capture is replayed against a snapshot, and every reply is written.
#![tactic(auto)]

mod advance;
mod answers;
mod back;
mod chunks;
mod decider;
mod direct;
mod engine;
mod explain;
mod floors;
mod format;
mod front;
mod groups;
mod load;
mod lookup;
mod parts;
mod pending;
mod plain;
mod replies;
mod rows;
mod server;
mod serving;
mod source;
mod staged;
mod totals;

pub use arrivals::Series;
pub use explain::explain_replay;
pub use plain::plain_replay;
pub use reference::{
    BACK_STEPS, Counts, FRONT_STEPS, Outcome, ReplayFault, Settings, SettingsFault, Summary, Tally,
};
pub use staged::staged_replay;

/// The most messages that are answered, in any format ([`captures::Version::max_messages`] says how many in each).
pub const MAX_MESSAGES: usize = 536_870_912;
