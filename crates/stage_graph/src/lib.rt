//! A staged floor. Items pass through stages, each with a bounded queue and workers that take from it.
//!
//! `Floor` is the core, a state machine without threads: right under every list of events, by any workers in
//! any order. `run_floor` runs one in threads. `Helpers` are threads that stay, run one floor after another, and take
//! chunks of items through them. `replay_history` checks the history of one.
#![tactic(auto)]

mod carries;
mod chain;
mod event;
mod floor;
mod helpers;
mod legality;
mod notes;
mod plan;
mod run;
mod steps;
mod unrun;

pub use carries::Carries;
pub use chain::{Chain, Named, Span};
pub use event::{Cause, Event, History};
pub use floor::{Floor, Run, RunName};
pub use helpers::{Arrived, Before, Helpers, Travel, beside};
pub use legality::{Checked, replay_history};
pub use notes::{Naming, Opened, Register};
pub use plan::{Plan, PlanFault};
pub use run::{Gate, NoGate, run_floor};
pub use stage_queue::Memory;
pub use steps::Steps;
pub use unrun::Unrun;
