//! Recorded traffic: captures of both versions, and texts that are days long. They are read record by record, and
//! written in a later format.
#![tactic(auto)]

mod capture_fault;
mod connection_set;
mod headings;
mod laws;
mod pass_fault;
mod progress;
mod reader;
mod reading;
mod record;
mod record_writer;
mod so_far;
mod upgrading;
mod version;

pub use capture_fault::{CaptureFault, CaptureFaultKind};
pub use laws::{
    capture_or_fault, no_fault_of_a_capture, numbers_of_a_capture, one_capture, one_first_fault,
    records_of_a_capture, records_of_version_one, upgrade_again, upgrade_of_a_capture,
};
pub use pass_fault::{PassFault, PassFault as UpgradeFault};
pub use reader::CaptureReader;
pub use record::Record;
pub use record_writer::{write_first_line, write_last_line, write_record};
pub use upgrading::upgrade;
pub use version::Version;
