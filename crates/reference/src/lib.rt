//! The reference server: what the answer to a capture is, in definitions alone, with their laws, and what goes in and
//! comes out of a replay: settings, the outcome, faults.
#![tactic(auto)]

pub mod laws;
mod settings;
mod summary;

pub use captures::PassFault as ReplayFault;
pub use settings::{BACK_STEPS, FRONT_STEPS, Settings, SettingsFault};
pub use summary::{Counts, Outcome, Summary, Tally};
