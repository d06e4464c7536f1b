//! Routes: requests that cost something else, by their paths.

ghost use Rattle.std.specs.Prelude.{◌≡◌, ◌≤◌, ◌+◌, [], bytes_eq, codes, find, length, IfOk, IsOk};
ghost use Rattle.std.specs.List.{starts_with};
ghost use Rattle.std.specs.Option.{option_map};
ghost use Rattle.paths.specs.Reference.{asked};
ghost use Rattle.paths.specs.Snapshots.{max_file_bytes};
ghost use Rattle.cost_model.specs.Reference.{bytes_cost, route_of};
ghost use Rattle.cost_model.specs.Services.{IsRoute, MAX_POOLS, longest_service};

use crate::{MAX_DELAY, MAX_ROUTES, Prefix};
use devices::Bytes;
use paths::{Asked, inspect};
use std::alloc::{AllocError, Global};
use std::marker::Model;

/// The requests whose path begins with some segments, and what each of them costs, in ticks of one microsecond.
/// Contracts see it as a `Route` of the definitions.
#[derive(Drop)]
pub struct Route {
    prefix: Prefix,
    cost: u64,
    kib: u64,
    delay: u64,
    pool: u8,
}

impl Model for Route {
    ghost use Rattle.cost_model.specs.Reference.{Route as RouteRow};
    ghost use Rattle.cost_model.specs.Services.{IsRoute};

    ghost Value = { RouteRow };

    ghost view = { λ r. record { prefix = r.prefix; cost = r.cost; kib = r.kib; delay = r.delay; pool = r.pool } };

    ghost invariant = { λ r. IsRoute r.cost r.kib r.delay r.pool };
}

impl Route {
    /// The route of this prefix: a request costs 1 to 1,000,000,000 ticks, each 1,024 bytes that are sent besides 0 to
    /// 1,000,000, and its response takes 0 to 1,000,000,000 beside that. The servers of this pool work on it (0 to 16;
    /// pool 0 has those of the table).
    pub fn in_range(prefix: Prefix, cost: u64, kib: u64, delay: u64, pool: u8) -> Route
        requires { IsRoute cost kib delay pool }
        ensures { result
            ≡ record { prefix = prefix; cost = cost; kib = kib; delay = delay; pool = pool } }
    {
        Route {
            prefix,
            cost,
            kib,
            delay,
            pool,
        }
    }

    /// The number of the pool whose servers work on its requests, 0 to 16.
    pub fn pool(&self) -> u8
        ensures pool { result ≡ self.now.pool }
        ensures range { result ≤ MAX_POOLS }
    {
        self.pool
    }

    /// Whether a path is on it.
    fn has(&self, path: &[Bytes]) -> bool
        ensures { result ≡ starts_with bytes_eq path.now self.now.prefix }
    {
        self.prefix.begins(path)
    }

    /// How long a server works on a request that so many bytes of a file are sent to, 1 to 20,000,000,000 ticks.
    pub(crate) fn service(&self, bytes: u64) -> u64
        requires { bytes ≤ max_file_bytes }
        ensures service { result ≡ self.now.cost + bytes_cost self.now.kib bytes }
        ensures range { (1 ≤ result) × (result ≤ longest_service) }
    {
        self.cost + (bytes * self.kib).div_ceil(1024)
    }

    /// How long a response takes beside the servers' work, 0 to 1,000,000,000 ticks.
    pub(crate) fn delay(&self) -> u64
        ensures delay { result ≡ self.now.delay }
        ensures range { result ≤ MAX_DELAY }
    {
        self.delay
    }
}

/// At most 64 routes, of which the first that a path is on counts. Contracts see them as their list.
#[derive(Drop)]
pub struct Routes {
    routes: Option<Vec<Route>>,
}

impl Model for Routes {
    ghost use Rattle.std.specs.Prelude.{◌≤◌, List, [], length};
    ghost use Rattle.std.specs.Option.{option_map_or};
    ghost use Rattle.cost_model.specs.Reference.{Route as RouteRow};
    ghost use Rattle.cost_model.specs.Services.{MAX_ROUTES};

    ghost Value = { List RouteRow };

    ghost view = { λ r. option_map_or (λ routes. routes.items) r.routes [] };

    ghost invariant = { λ r. length (option_map_or (λ routes. routes.items) r.routes []) ≤ MAX_ROUTES };
}

impl Routes {
    /// No routes.
    pub fn none() -> Routes
        ensures { result ≡ [] }
    {
        Routes { routes: None }
    }

    /// These routes, in their order.
    pub fn new(routes: Vec<Route>) -> Routes
        requires { length routes.items ≤ MAX_ROUTES }
        ensures { result ≡ routes.items }
    {
        Routes {
            routes: Some(routes),
        }
    }

    /// The routes, in their order.
    pub fn as_slice(&self) -> &[Route]
        ensures { result.now ≡ self.now }
    {
        match &self.routes {
            Some(routes) => routes,
            None => &[],
        }
    }

    /// The first route that a path is on.
    fn of_path(&self, path: &[Bytes]) -> Option<&Route>
        ensures { option_map (λ route. route.now) result
            ≡ find (λ route. starts_with bytes_eq path.now route.prefix) self.now }
    {
        self.as_slice().iter().find(|route| route.has(path))
    }

    /// The first route that a request with this target is on: the path is what its target asks for with GET, whatever
    /// the request's own method. Without routes the target isn't read.
    ///
    /// # Errors
    ///
    /// Memory ran out.
    #[inline]
    pub fn of_target(&self, alloc: Global, target: &[u8]) -> Result<Option<&Route>, AllocError>
        ensures route { IfOk result
            (λ route. option_map (λ r. r.now) route ≡ route_of self.now (asked (codes "GET") target.now)) }
        ensures free { self.now ≡ [] → IsOk result }
    {
        if self.as_slice().is_empty() {
            return Ok(None);
        }
        self.of_read_target(alloc, target)
    }

    /// The same, where there are routes: the target is read. It stands apart, so that nothing of it is done where there
    /// are none.
    #[cold]
    #[inline(never)]
    fn of_read_target(&self, alloc: Global, target: &[u8]) -> Result<Option<&Route>, AllocError>
        ensures { IfOk result
            (λ route. option_map (λ r. r.now) route ≡ route_of self.now (asked (codes "GET") target.now)) }
    {
        match inspect(alloc, b"GET", target)? {
            Asked::Path { segments, .. } => Ok(self.of_path(segments.as_slice())),
            _ => Ok(None),
        }
    }
}
