//! The command line of Haboob: the job that its arguments ask for.
#![tactic(auto)]

mod commands;
mod words;

pub use words::{Engine, Job, Target, WordFault, read_words};
