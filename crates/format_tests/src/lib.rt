//! Tests of devices and of snapshots: the crates `devices`, `paths` and `snapshots`. Faults of snapshots, and what
//! targets are answered with, are rows (`tests`).
#![tactic(auto)]

#[cfg(test)]
mod device_texts;
#[cfg(test)]
mod failing_writes;
#[cfg(test)]
mod fault_texts;
#[cfg(test)]
mod names;
#[cfg(test)]
mod poor_devices;
#[cfg(test)]
mod resolution;
#[cfg(test)]
mod snapshot_growths;
#[cfg(test)]
mod snapshot_texts;
#[cfg(test)]
mod writing;
#[cfg(test)]
mod writing_growths;
#[cfg(test)]
mod writing_limits;
#[cfg(test)]
mod writing_rules;
#[cfg(test)]
mod written_texts;
