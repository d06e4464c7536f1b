//! Writes the snapshot of a file tree, one file in memory at a time.
#![tactic(auto)]

mod laws;
mod names;
mod so_far;
mod texts;
mod write_fault;
mod writer;

pub use laws::{none_broken, read_back, rules_kept};
pub use write_fault::WriteFault;
pub use writer::SnapshotWriter;
