//! The runs of the program that need no engine, over any readers and writers: what a capture holds, its upgrade, its
//! slim text, the snapshot of a folder, and the settings in force; and the buffers before the devices of each run.
#![tactic(auto)]

mod buffer;
mod folder;
mod in_force;
mod inspecting;
mod rewriting;
mod running;
mod sink;
mod slimming;
mod snapshotting;
mod upgrading;

pub use buffer::{BUFFER_BYTES, Buffered, Device, Initial};
pub use folder::{Contents, Folder, Found, Unanswered};
pub use in_force::{run_settings, settings_into};
pub use inspecting::{inspect_files, inspect_into, run_inspect};
pub use running::{
    Job, buffered, buffered_input, finish_output, is_due, reported, run_attributing, run_buffered,
};
pub use sink::Sink;
pub use slimming::{run_slim, slim_into};
pub use snapshotting::run_snapshot;
pub use upgrading::{run_upgrade, upgrade_into};
