//! Tests of the crates `stage_queue` and `stage_graph`.
#![tactic(auto)]

#[cfg(test)]
mod adding;
#[cfg(test)]
mod floors;
#[cfg(test)]
mod gates;
#[cfg(test)]
mod helpers;
#[cfg(test)]
mod memory;
#[cfg(test)]
mod queues;
#[cfg(test)]
mod threads;
