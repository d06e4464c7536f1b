//! The report of a replay: as a text, and written to a device.
#![tactic(auto)]

mod percentiles;
mod reports;
mod writing;

pub use reports::report;
pub use writing::{ReportFault, write_report};
