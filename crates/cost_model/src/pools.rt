//! Pools: servers that work for the routes that name them.

ghost use Rattle.std.specs.Prelude.{◌≡◌, []};
ghost use Rattle.cost_model.specs.Services.{ArePools};

use std::marker::Model;

/// How many servers each of at most 16 pools has, 1 to 1,024. Contracts see these numbers as a list. A pool has its
/// place there as its number, counted from 1: pool 0 has the servers of the table.
#[derive(Drop)]
pub struct Pools {
    servers: Option<Vec<u64>>,
}

impl Model for Pools {
    ghost use Rattle.std.specs.Prelude.{ℕ, List, []};
    ghost use Rattle.std.specs.Option.{option_map_or};
    ghost use Rattle.cost_model.specs.Services.{ArePools};

    ghost Value = { List ℕ };

    ghost view = { λ p. option_map_or (λ servers. servers.items) p.servers [] };

    ghost invariant = { λ p. ArePools (option_map_or (λ servers. servers.items) p.servers []) };
}

impl Pools {
    /// No pools.
    pub fn none() -> Pools
        ensures { result ≡ [] }
    {
        Pools { servers: None }
    }

    /// Pools of so many servers, in their order.
    pub fn new(servers: Vec<u64>) -> Pools
        requires { ArePools servers.items }
        ensures { result ≡ servers.items }
    {
        Pools {
            servers: Some(servers),
        }
    }

    /// How many servers each has, in their order.
    pub fn as_slice(&self) -> &[u64]
        ensures servers { result.now ≡ self.now }
        ensures range { ArePools result.now }
    {
        match &self.servers {
            Some(servers) => servers,
            None => &[],
        }
    }
}
