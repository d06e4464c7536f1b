//! All faults of the program, each with its line and its status.
#![tactic(auto)]

mod fault;
mod fault_line;
mod folder_fault;

pub use fault::{Fault, Place};
pub use fault_line::{shown_name, words_line, write_skipped};
pub use folder_fault::{FileFault, FolderFault};
