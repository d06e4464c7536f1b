//! The snapshot of a file tree, and what a request's target names in it.
#![tactic(auto)]

mod bytes;
mod entry;
mod file;
mod heading;
mod laws;
mod limits;
mod name_index;
mod reading;
mod resolution;
mod segments;
mod snapshot;
mod snapshot_fault;
mod target;

pub use entry::is_name;
pub use file::File;
pub use laws::{
    no_fault_of_a_prefix, no_fault_of_a_snapshot, one_first_fault, one_prefix, one_snapshot,
    prefix_or_fault, snapshot_or_fault,
};
pub use limits::{MAX_FILE_BYTES, MAX_FILES, MAX_NAME_BYTES, MAX_TEXT_BYTES, MAX_TIME};
pub use resolution::{Outcome, find_plain, locate, resolve};
pub use segments::Segments;
pub use snapshot::{Snapshot, Tree};
pub use snapshot_fault::{SnapshotFault, SnapshotFaultKind};
pub use target::{Asked, inspect};
