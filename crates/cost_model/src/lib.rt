//! How long the virtual server works on a request. Nothing is measured: a service time is a function of what the
//! request asks for and is answered with, so that response times and rejections are functions of the capture.
#![tactic(auto)]

mod charge;
mod costs;
mod pools;
mod prefix;
mod routes;

pub use charge::{Charge, Tariff};
pub use costs::{CostFault, Costs, service};
pub use pools::Pools;
pub use prefix::Prefix;
pub use routes::{Route, Routes};

/// The greatest cost, in ticks of one microsecond.
pub const MAX_COST: u64 = 1_000_000;

/// The most servers.
pub const MAX_SERVERS: u64 = 1024;

/// The longest delay of a response beside its service, in ticks.
pub const MAX_DELAY: u64 = 1_000_000_000;

/// The greatest cost of a request on a route, in ticks.
pub const MAX_ROUTE_COST: u64 = 1_000_000_000;

/// The most routes.
pub const MAX_ROUTES: usize = 64;

/// The most pools besides pool 0.
pub const MAX_POOLS: usize = 16;
