//! Tests of the crate `program`.
#![tactic(auto)]

#[cfg(test)]
mod folders;
#[cfg(test)]
mod inspections;
#[cfg(test)]
mod lines;
#[cfg(test)]
mod memory;
#[cfg(test)]
mod poor_devices;
#[cfg(test)]
mod reports;
#[cfg(test)]
mod rewrites;
#[cfg(test)]
mod running;
#[cfg(test)]
mod sinks;
#[cfg(test)]
mod written_out;
