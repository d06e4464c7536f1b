//! What a request costs: by its route, or by the table.

ghost use Rattle.std.specs.Prelude.{◌≡◌, ◌≤◌, [], length, IfOk, IsOk};
ghost use Rattle.std.specs.Option.{option_map};
ghost use Rattle.paths.specs.Snapshots.{max_file_bytes};
ghost use Rattle.cost_model.specs.Reference.{bytes_sent, charge, charge_on};
ghost use Rattle.cost_model.specs.Services.{AreServed, MAX_DELAY, longest_service};

use crate::{Costs, Pools, Route, Routes, service};
use paths::Outcome;
use std::alloc::{AllocError, Global};
use std::marker::Model;

/// What a request comes to: how long a server works on it, at least one tick and at most 20,000,000,000, how long its
/// response takes besides, at most 1,000,000,000, and of which pool that server is.
#[derive(Clone, Copy, Debug, PartialEq, Eq)]
pub struct Charge {
    service: u64,
    delay: u64,
    pool: u8,
}

impl Model for Charge {
    ghost use Rattle.std.specs.Prelude.{◌≤◌};
    ghost use Rattle.cost_model.specs.Reference.{Charge as ChargeRow};
    ghost use Rattle.cost_model.specs.Services.{MAX_DELAY, longest_service};

    ghost Value = { ChargeRow };

    ghost view = { λ c. record { service = c.service; delay = c.delay; pool = c.pool } };

    ghost invariant = { λ c. (1 ≤ c.service) × (c.service ≤ longest_service) × (c.delay ≤ MAX_DELAY) };

    ghost inverse = { λ c. record { service = c.service; delay = c.delay; pool = c.pool } };
}

impl Charge {
    /// How long a server works on the request, 1 to 20,000,000,000 ticks.
    pub fn service(self) -> u64
        ensures service { result ≡ self.service }
        ensures range { (1 ≤ result) × (result ≤ longest_service) }
    {
        self.service
    }

    /// How long its response takes beside that, 0 to 1,000,000,000 ticks.
    pub fn delay(self) -> u64
        ensures delay { result ≡ self.delay }
        ensures range { result ≤ MAX_DELAY }
    {
        self.delay
    }

    /// The number of the pool whose server works on it.
    pub fn pool(self) -> u8
        ensures { result ≡ self.pool }
    {
        self.pool
    }
}

/// How many of a file's bytes are sent, by what a request is answered with.
fn bytes_sent(outcome: &Outcome, head: bool, unmodified: bool, len: u64) -> u64
    requires { len ≤ max_file_bytes }
    ensures bytes { result ≡ bytes_sent outcome.now head unmodified len }
    ensures range { result ≤ max_file_bytes }
{
    match outcome {
        Outcome::File(_) if !head && !unmodified => len,
        _ => 0,
    }
}

/// What a request on this route, or on none, comes to.
fn charge_on(
    costs: Costs,
    route: Option<&Route>,
    outcome: &Outcome,
    head: bool,
    unmodified: bool,
    len: u64,
) -> Charge
    requires { len ≤ max_file_bytes }
    ensures { result
        ≡ charge_on costs (option_map (λ r. r.now) route.entry) outcome.now head unmodified len }
{
    match route {
        Some(route) => Charge {
            service: route.service(bytes_sent(outcome, head, unmodified, len)),
            delay: route.delay(),
            pool: route.pool(),
        },
        None => Charge {
            service: service(costs, outcome, head, unmodified, len),
            delay: costs.delay(),
            pool: 0,
        },
    }
}

/// What requests cost: on a route as it says, on none by the table. Each route names a pool that is there.
#[derive(Drop)]
pub struct Tariff {
    costs: Costs,
    routes: Routes,
    pools: Pools,
}

impl Model for Tariff {
    ghost use Rattle.cost_model.specs.Reference.{Tariff as TariffRow};
    ghost use Rattle.cost_model.specs.Services.{AreServed};

    ghost Value = { TariffRow };

    ghost view = { λ t. record { costs = t.costs; routes = t.routes; pools = t.pools } };

    ghost invariant = { λ t. AreServed t.routes t.pools };
}

impl Tariff {
    /// A tariff of this table, these routes and these pools.
    pub fn new(costs: Costs, routes: Routes, pools: Pools) -> Tariff
        requires { AreServed routes pools }
        ensures { result ≡ record { costs = costs; routes = routes; pools = pools } }
    {
        Tariff {
            costs,
            routes,
            pools,
        }
    }

    /// The table.
    pub fn costs(&self) -> Costs
        ensures { result ≡ self.now.costs }
    {
        self.costs
    }

    /// The routes.
    pub fn routes(&self) -> &Routes
        ensures { result.now ≡ self.now.routes }
    {
        &self.routes
    }

    /// The pools from 1 on. Each route names one of them, or pool 0.
    pub fn pools(&self) -> &Pools
        ensures pools { result.now ≡ self.now.pools }
        ensures served { AreServed self.now.routes self.now.pools }
    {
        &self.pools
    }

    /// What a request with this target comes to, by what it is answered with: `head` and `unmodified` say that a file's
    /// bytes are not given, `len` is its length.
    ///
    /// # Errors
    ///
    /// Memory ran out. Without routes none is taken.
    #[inline]
    pub fn charge(
        &self,
        alloc: Global,
        target: &[u8],
        outcome: &Outcome,
        head: bool,
        unmodified: bool,
        len: u64,
    ) -> Result<Charge, AllocError>
        requires { len ≤ max_file_bytes }
        ensures charge { IfOk result
            (λ c. c ≡ charge self.now target.now outcome.now head unmodified len) }
        // It is of a pool that is there.
        ensures pool { IfOk result (λ c. c.pool ≤ length self.now.pools) }
        // Without routes the target isn't read, which alone takes memory.
        ensures free { self.now.routes ≡ [] → IsOk result }
    {
        let route = self.routes.of_target(alloc, target)?;
        Ok(charge_on(self.costs, route, outcome, head, unmodified, len))
    }
}
