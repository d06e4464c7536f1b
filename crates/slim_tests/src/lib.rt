//! Tests of the slim text of recorded traffic, the crate `slim`: devices that fail. Whole texts are rows (`tests`).
#![tactic(auto)]

#[cfg(test)]
mod slim_devices;
