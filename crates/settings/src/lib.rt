//! The settings of Haboob: what a document of keys gives, or its first fault; and the document that writes them out.
#![tactic(auto)]

mod config;
mod config_fault;
mod document;
mod in_words;
mod keys;
mod pools;
mod routes;
mod written_out;
mod written_tables;

pub use config::{MAX_SETTINGS_BYTES, default_settings, read_settings};
pub use config_fault::{ConfigFault, ConfigFaultKind};
pub use in_words::fault_words;
pub use keys::{Key, PolicyKey, PolicyTable};
pub use written_out::settings_text;
