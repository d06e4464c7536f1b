//! Tests of the crates `settings` and `command_line`.
#![tactic(auto)]

#[cfg(test)]
mod command_words;
#[cfg(test)]
mod settings_documents;
#[cfg(test)]
mod words_of_faults;
