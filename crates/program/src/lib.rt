//! The whole program over any readers and writers: the replay of a snapshot's capture, with and without a report, and
//! beside it the runs and the faults of the crates below, under one name.
//!
//! The program `haboob` adds the command line and the files to these runs, and nothing else.
#![tactic(auto)]

mod bundle;
mod replaying;
mod wanted;

pub use bundle::{bundle_into, run_bundle, run_program};
pub use faults::{Fault, FileFault, FolderFault, Place, shown_name, words_line, write_skipped};
pub use replaying::{Devices, replay_into, run_files, run_replay};
pub use runs::{
    Contents, Folder, Found, Sink, Unanswered, buffered_input, inspect_files, inspect_into,
    run_inspect, run_settings, run_slim, run_snapshot, run_upgrade, settings_into, slim_into,
    upgrade_into,
};
pub use wanted::Wanted;
