//! Service times, policies and routes.
use admission::Policy;
use cost_model::{Costs, Pools, Prefix, Route, Routes};
use replay::Settings;
use std::alloc::Global;

/// The service times that a document without settings gives.
pub fn default_costs() -> Option<Costs> {
    Costs::new(200, 10, 50).ok()
}

/// Service times by which what isn't there takes 5,000 ticks, and a file 100.
pub fn long_misses() -> Option<Costs> {
    Costs::new(100, 0, 5000).ok()
}

/// The policy that a document without settings gives.
pub fn default_policy() -> Option<Policy> {
    Policy::new(
        100, 100, 700, 1_000_000, 50_000, 5_000_000, 2_000, 120, 100_000, 90, 100,
    )
    .ok()
}

/// n tokens, and one more each second.
pub fn tight(depth: u64) -> Option<Policy> {
    Policy::new(
        100, 100, 700, 1000, 1000, 1000, 2000, 120, 100_000, 90, depth,
    )
    .ok()
}

/// A control at each request, of this depth.
pub fn nimble(depth: u64) -> Option<Policy> {
    Policy::new(1, 1, 700, 1000, 500, 2000, 10, 120, 1000, 90, depth).ok()
}

/// These settings with a route in front of the file: 2,000 ticks of a pool of two servers, 100 for each 1,024 bytes,
/// and a delay of 3.
pub fn routed(alloc: Global, settings: Box<Settings>) -> Option<Box<Settings>> {
    let prefix = Prefix::read(alloc, b"/a.txt").ok()??;
    let mut routes = Vec::new(alloc);
    routes.push(Route::in_range(prefix, 2000, 100, 3, 1)).ok()?;
    let mut servers = Vec::new(alloc);
    servers.push(2).ok()?;
    Box::new(
        alloc,
        Box::into_inner(settings).with_routes(Routes::new(routes), Pools::new(servers)),
    )
    .ok()
}
