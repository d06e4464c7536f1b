//! Bounded queues and numbered slots: what a staged floor keeps its items in.
//!
//! Both make all their room when they are made, so that filling and emptying them takes no memory.
#![tactic(auto)]

mod memory;
mod queue;
mod slots;

pub use memory::Memory;
pub use queue::Queue;
pub use slots::{Placing, Slots};
