//! The files and folders that a job names: opened, listed and read, with what is said of them in words; and the jobs
//! that need no engine.
#![tactic(auto)]

mod cursor;
mod explained;
mod files;
mod folder;
mod looks;
mod open_folder;
mod opening;
mod overwritten;
mod source;

pub use explained::Explained;
pub use files::{
    inspect_named, settings_in, settings_named, slim_named, snapshot_named, upgrade_named,
};
pub use looks::with_looks;
pub use opening::{Names, Opened, check_standard, open_files};
pub use overwritten::{Node, Overwritten, STANDARD_OUTPUT};
pub use source::{EMPTY_LINE, STANDARD_INPUT, Source};
