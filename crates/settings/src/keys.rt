//! The table of a settings document: each key with its table and its name, what may stand there, and what is said of
//! it.

ghost use Rattle.std.specs.Prelude.{◌≡◌, ◌≤◌, IfOk, length};
ghost use Rattle.settings.specs.Keys.{HasDefault, IsRow, IsWithin, all_keys, default_of, defaults_of, is_table};
ghost use Rattle.settings.specs.Keys.{keys_in, name_of, policy_row, row_of, table_of};
ghost use Rattle.settings.specs.declared.keys.Key.{Key};

use std::alloc::{AllocError, Global};
use std::fmt;

/// A table of a settings document that holds a policy. Requests of tier 0 are under `policy`, those of tier 1 under
/// `tier1`, and so on.
#[derive(Clone, Copy, Debug, PartialEq, Eq)]
pub enum PolicyTable {
    /// `policy`.
    Policy,
    /// `tier1`.
    Tier1,
    /// `tier2`.
    Tier2,
    /// `tier3`.
    Tier3,
}

/// A key of a policy's table.
#[derive(Clone, Copy, Debug, PartialEq, Eq)]
pub enum PolicyKey {
    Window,
    Every,
    Smoothing,
    Rate,
    RateMin,
    RateMax,
    Up,
    Down,
    Target,
    Low,
    Depth,
}

/// A key of a settings document, one of its tables, or a floor whose lists don't fit together.
#[derive(Clone, Copy, Debug, PartialEq, Eq)]
pub enum Key {
    /// `floor`.
    Floor,
    FrontCuts,
    FrontWorkers,
    FrontCapacities,
    BackCuts,
    BackWorkers,
    BackCapacities,
    Batch,
    Cache,
    /// The three lists of the front floor together.
    Front,
    /// The three lists of the back floor together.
    Back,
    /// `costs`.
    Costs,
    File,
    Kib,
    Error,
    Servers,
    Delay,
    /// The table of a policy.
    Policy(PolicyTable),
    /// A key of a policy, in this table.
    InPolicy(PolicyTable, PolicyKey),
    /// `page`.
    Page,
    RetryAfter,
    /// `pool`, a list of tables.
    Pool,
    PoolName,
    PoolServers,
    /// `route`, a list of tables.
    Route,
    RoutePrefix,
    RouteCost,
    RouteKib,
    RouteDelay,
    RoutePool,
}

/// What may stand at a key.
#[derive(Clone, Copy)]
pub(crate) enum Kind {
    /// A table of the document.
    Table,
    /// An integer: its default, the least and the greatest.
    Number(u64, u64, u64),
    /// A list of integers, and its default.
    Numbers(&'static [usize]),
    /// No value, but these lists of a floor, which are to fit together: where its stages end, their workers, and what
    /// their queues hold.
    Lists(Key, Key, Key),
    /// A list of tables.
    Tables,
    /// A text, in such a table.
    Text,
    /// An integer, in such a table: the least and the greatest.
    Each(u64, u64),
}

/// What the table says of a key.
#[derive(Clone, Copy)]
pub(crate) struct Row {
    /// Its name in the table that holds it, as `front_cuts`.
    pub(crate) name: &'static str,
    /// What may stand at it.
    pub(crate) kind: Kind,
    /// Its unit, its range and what it is.
    pub(crate) comment: &'static str,
    /// What its unit is in another one, where that helps.
    pub(crate) scale: &'static str,
}

/// What a number of a rate is, in requests.
const PER_SECOND: &str = "; 1000 is one request a second";

// The rows of a policy's keys, in whichever table.

static WINDOW: Row = Row {
    name: "window",
    kind: Kind::Number(100, 1, 4096),
    comment: "response times, 1 to 4096: of how many of the last ones the 90th percentile is taken",
    scale: "",
};

static EVERY: Row = Row {
    name: "every",
    kind: Kind::Number(100, 1, 4096),
    comment: "admitted requests, 1 to 4096: after how many the controller looks again",
    scale: "",
};

static SMOOTHING: Row = Row {
    name: "smoothing",
    kind: Kind::Number(700, 0, 999),
    comment: "thousandths, 0 to 999: how much of the former value stays (700 is a weight of 0.7 for the past)",
    scale: "",
};

static RATE: Row = Row {
    name: "rate",
    kind: Kind::Number(1_000_000, 1, 1_000_000_000),
    comment: "thousandths of a token a second, rate_min to rate_max: how fast tokens come back at first",
    scale: "; 1000 is one request a second, and rate_min and rate_max count where they are left out too",
};

static RATE_MIN: Row = Row {
    name: "rate_min",
    kind: Kind::Number(50_000, 1, 1_000_000_000),
    comment: "thousandths of a token a second, 1 to rate_max: the rate never falls below it",
    scale: PER_SECOND,
};

static RATE_MAX: Row = Row {
    name: "rate_max",
    kind: Kind::Number(5_000_000, 1, 1_000_000_000),
    comment: "thousandths of a token a second, rate_min to 1000000000: the rate never rises above it",
    scale: PER_SECOND,
};

static UP: Row = Row {
    name: "up",
    kind: Kind::Number(2000, 0, 1_000_000_000),
    comment: "thousandths of a token a second, 0 to 1000000000: by how much the rate rises at once",
    scale: PER_SECOND,
};

static DOWN: Row = Row {
    name: "down",
    kind: Kind::Number(120, 101, 10_000),
    comment: "hundredths, 101 to 10000: what the rate is divided by where it falls (120 divides it by 1.2)",
    scale: "",
};

static TARGET: Row = Row {
    name: "target",
    kind: Kind::Number(100_000, 1, 1_000_000_000_000),
    comment: "microseconds, 1 to 1000000000000: above this response time the rate falls",
    scale: "",
};

static LOW: Row = Row {
    name: "low",
    kind: Kind::Number(90, 0, 100),
    comment: "percent of the target, 0 to 100: below this part of it the rate rises",
    scale: "",
};

static DEPTH: Row = Row {
    name: "depth",
    kind: Kind::Number(100, 1, 1_000_000),
    comment: "tokens, 1 to 1000000: how many the bucket holds; it starts full",
    scale: "",
};

impl PolicyKey {
    /// Its row, in whichever table.
    fn row(self) -> &'static Row
        ensures row { (table : Key) → IsRow result.now (policy_row table self) }
        ensures name { length result.now.name.now ≤ 16 }
        ensures default { (table : Key) → HasDefault (policy_row table self).kind }
    {
        match self {
            PolicyKey::Window => &WINDOW,
            PolicyKey::Every => &EVERY,
            PolicyKey::Smoothing => &SMOOTHING,
            PolicyKey::Rate => &RATE,
            PolicyKey::RateMin => &RATE_MIN,
            PolicyKey::RateMax => &RATE_MAX,
            PolicyKey::Up => &UP,
            PolicyKey::Down => &DOWN,
            PolicyKey::Target => &TARGET,
            PolicyKey::Low => &LOW,
            PolicyKey::Depth => &DEPTH,
        }
    }
}

// The rows of all other keys.

static FLOOR: Row = Row {
    name: "floor",
    kind: Kind::Table,
    comment: "",
    scale: "",
};

static FRONT_CUTS: Row = Row {
    name: "front_cuts",
    kind: Kind::Numbers(&[1, 2, 3]),
    comment: "steps, rising from at least 1, the last 3: how many of the front's are done where each stage ends",
    scale: "",
};

static FRONT_WORKERS: Row = Row {
    name: "front_workers",
    kind: Kind::Numbers(&[2, 2, 2]),
    comment: "workers, 1 to 16 for each stage: how many requests, or chunks of them, it works on at once",
    scale: "",
};

static FRONT_CAPACITIES: Row = Row {
    name: "front_capacities",
    kind: Kind::Numbers(&[64, 64, 64]),
    comment: "requests, 1 to 4096 for each stage: how many its queue holds",
    scale: "",
};

static BACK_CUTS: Row = Row {
    name: "back_cuts",
    kind: Kind::Numbers(&[1, 2]),
    comment: "steps, rising from at least 1, the last 2: how many of the back's are done where each stage ends",
    scale: "",
};

static BACK_WORKERS: Row = Row {
    name: "back_workers",
    kind: Kind::Numbers(&[2, 2]),
    comment: "workers, 1 to 16 for each stage: how many requests, or chunks of them, it works on at once",
    scale: "",
};

static BACK_CAPACITIES: Row = Row {
    name: "back_capacities",
    kind: Kind::Numbers(&[64, 64]),
    comment: "requests, 1 to 4096 for each stage: how many its queue holds",
    scale: "",
};

static BATCH: Row = Row {
    name: "batch",
    kind: Kind::Number(1024, 1, 65_536),
    comment: "pieces, 1 to 65536: how many are read at a time",
    scale: "",
};

static CACHE: Row = Row {
    name: "cache",
    kind: Kind::Number(67_108_864, 0, 1_073_741_824),
    comment: "bytes, 0 to 1073741824: how much the cache of pages holds",
    scale: "",
};

static FRONT: Row = Row {
    name: "front",
    kind: Kind::Lists(Key::FrontCuts, Key::FrontWorkers, Key::FrontCapacities),
    comment: "",
    scale: "",
};

static BACK: Row = Row {
    name: "back",
    kind: Kind::Lists(Key::BackCuts, Key::BackWorkers, Key::BackCapacities),
    comment: "",
    scale: "",
};

static COSTS: Row = Row {
    name: "costs",
    kind: Kind::Table,
    comment: "",
    scale: "",
};

static FILE: Row = Row {
    name: "file",
    kind: Kind::Number(200, 1, 1_000_000),
    comment: "microseconds, 1 to 1000000: how long the server works on a file",
    scale: "",
};

static KIB: Row = Row {
    name: "kib",
    kind: Kind::Number(10, 0, 1_000_000),
    comment: "microseconds, 0 to 1000000: how long it works besides on each 1024 bytes that are given",
    scale: "",
};

static ERROR: Row = Row {
    name: "error",
    kind: Kind::Number(50, 1, 1_000_000),
    comment: "microseconds, 1 to 1000000: how long it works on any other answer",
    scale: "",
};

static SERVERS: Row = Row {
    name: "servers",
    kind: Kind::Number(1, 1, 1024),
    comment: "servers, 1 to 1024: how many work side by side, each on one request at a time",
    scale: "",
};

static DELAY: Row = Row {
    name: "delay",
    kind: Kind::Number(0, 0, 1_000_000_000),
    comment: "microseconds, 0 to 1000000000: how long each response takes beside the server's work",
    scale: "",
};

static POLICY: Row = Row {
    name: "policy",
    kind: Kind::Table,
    comment: "",
    scale: "",
};

static TIER1: Row = Row {
    name: "tier1",
    kind: Kind::Table,
    comment: "",
    scale: "",
};

static TIER2: Row = Row {
    name: "tier2",
    kind: Kind::Table,
    comment: "",
    scale: "",
};

static TIER3: Row = Row {
    name: "tier3",
    kind: Kind::Table,
    comment: "",
    scale: "",
};

static PAGE: Row = Row {
    name: "page",
    kind: Kind::Table,
    comment: "",
    scale: "",
};

static RETRY_AFTER: Row = Row {
    name: "retry_after",
    kind: Kind::Number(1, 0, 86_400),
    comment: "seconds, 0 to 86400: after how long a rejected request may be tried again (Retry-After)",
    scale: "",
};

static POOL: Row = Row {
    name: "pool",
    kind: Kind::Tables,
    comment: "at most 16 of them, each below a line [[pool]]",
    scale: "",
};

static POOL_NAME: Row = Row {
    name: "name",
    kind: Kind::Text,
    comment: "what routes name it by, unlike any other; each pool is named by a route",
    scale: "",
};

static POOL_SERVERS: Row = Row {
    name: "servers",
    kind: Kind::Each(1, 1024),
    comment: "servers, 1 to 1024: how many work side by side on the requests of its routes alone",
    scale: "",
};

static ROUTE: Row = Row {
    name: "route",
    kind: Kind::Tables,
    comment: "at most 64 of them, each below a line [[route]]",
    scale: "",
};

static ROUTE_PREFIX: Row = Row {
    name: "prefix",
    kind: Kind::Text,
    comment: "a decoded path from its first slash on: what is at it and below it is on the route",
    scale: "",
};

static ROUTE_COST: Row = Row {
    name: "cost",
    kind: Kind::Each(1, 1_000_000_000),
    comment: "microseconds, 1 to 1000000000: how long the server works on a request, whatever its answer",
    scale: "",
};

static ROUTE_KIB: Row = Row {
    name: "kib",
    kind: Kind::Each(0, 1_000_000),
    comment: "microseconds, 0 to 1000000: how long it works besides on each 1024 bytes that are given",
    scale: "",
};

static ROUTE_DELAY: Row = Row {
    name: "delay",
    kind: Kind::Each(0, 1_000_000_000),
    comment: "microseconds, 0 to 1000000000: how long each response takes beside the server's work",
    scale: "",
};

static ROUTE_POOL: Row = Row {
    name: "pool",
    kind: Kind::Text,
    comment: "the name of a pool: its servers work on these requests, and those of costs on all others",
    scale: "",
};

impl Key {
    /// Its row.
    pub(crate) fn row(self) -> &'static Row
        ensures row { IsRow result.now (row_of self) }
        ensures name { length result.now.name.now ≤ 16 }
        ensures default { HasDefault (row_of self).kind }
    {
        match self {
            Key::Floor => &FLOOR,
            Key::FrontCuts => &FRONT_CUTS,
            Key::FrontWorkers => &FRONT_WORKERS,
            Key::FrontCapacities => &FRONT_CAPACITIES,
            Key::BackCuts => &BACK_CUTS,
            Key::BackWorkers => &BACK_WORKERS,
            Key::BackCapacities => &BACK_CAPACITIES,
            Key::Batch => &BATCH,
            Key::Cache => &CACHE,
            Key::Front => &FRONT,
            Key::Back => &BACK,
            Key::Costs => &COSTS,
            Key::File => &FILE,
            Key::Kib => &KIB,
            Key::Error => &ERROR,
            Key::Servers => &SERVERS,
            Key::Delay => &DELAY,
            Key::Policy(PolicyTable::Policy) => &POLICY,
            Key::Policy(PolicyTable::Tier1) => &TIER1,
            Key::Policy(PolicyTable::Tier2) => &TIER2,
            Key::Policy(PolicyTable::Tier3) => &TIER3,
            Key::InPolicy(_, key) => key.row(),
            Key::Page => &PAGE,
            Key::RetryAfter => &RETRY_AFTER,
            Key::Pool => &POOL,
            Key::PoolName => &POOL_NAME,
            Key::PoolServers => &POOL_SERVERS,
            Key::Route => &ROUTE,
            Key::RoutePrefix => &ROUTE_PREFIX,
            Key::RouteCost => &ROUTE_COST,
            Key::RouteKib => &ROUTE_KIB,
            Key::RouteDelay => &ROUTE_DELAY,
            Key::RoutePool => &ROUTE_POOL,
        }
    }

    /// Its name in the table that holds it, as `front_cuts`.
    pub fn name(self) -> &'static str
        ensures name { result.now ≡ name_of self }
        ensures short { length result.now ≤ 16 }
    {
        self.row().name
    }

    /// Whether it is a table of the document, or a list of tables.
    pub fn is_table(self) -> bool
        ensures { result ≡ is_table self }
    {
        matches!(self.row().kind, Kind::Table | Kind::Tables)
    }

    /// The table that holds it. A table is its own.
    pub fn table(self) -> Key
        ensures { result ≡ table_of self }
    {
        match self {
            Key::FrontCuts
            | Key::FrontWorkers
            | Key::FrontCapacities
            | Key::BackCuts
            | Key::BackWorkers
            | Key::BackCapacities
            | Key::Batch
            | Key::Cache
            | Key::Front
            | Key::Back => Key::Floor,
            Key::File | Key::Kib | Key::Error | Key::Servers | Key::Delay => Key::Costs,
            Key::InPolicy(table, _) => Key::Policy(table),
            Key::RetryAfter => Key::Page,
            Key::PoolName | Key::PoolServers => Key::Pool,
            Key::RoutePrefix | Key::RouteCost | Key::RouteKib | Key::RouteDelay | Key::RoutePool =>
                Key::Route,
            _ => self,
        }
    }

    /// The integer of a document that says nothing of it, nought where none may stand.
    pub(crate) fn default(self) -> u64
        ensures value { result ≡ default_of self }
        ensures within { IsWithin (row_of self).kind result }
    {
        match self.row().kind {
            Kind::Number(default, _, _) => default,
            _ => 0,
        }
    }

    /// The list of integers of a document that says nothing of it, empty where none may stand.
    pub(crate) fn defaults(self) -> &'static [usize]
        ensures { result.now ≡ defaults_of self }
    {
        match self.row().kind {
            Kind::Numbers(default) => default,
            _ => &[],
        }
    }
}

/// The keys of a policy in a table.
macro_rules! policy_keys {
    ($table:ident) => {
        &[
            Key::InPolicy(PolicyTable::$table, PolicyKey::Window),
            Key::InPolicy(PolicyTable::$table, PolicyKey::Every),
            Key::InPolicy(PolicyTable::$table, PolicyKey::Smoothing),
            Key::InPolicy(PolicyTable::$table, PolicyKey::Rate),
            Key::InPolicy(PolicyTable::$table, PolicyKey::RateMin),
            Key::InPolicy(PolicyTable::$table, PolicyKey::RateMax),
            Key::InPolicy(PolicyTable::$table, PolicyKey::Up),
            Key::InPolicy(PolicyTable::$table, PolicyKey::Down),
            Key::InPolicy(PolicyTable::$table, PolicyKey::Target),
            Key::InPolicy(PolicyTable::$table, PolicyKey::Low),
            Key::InPolicy(PolicyTable::$table, PolicyKey::Depth),
        ]
    };
}

/// The keys that a table may have; without a table, the tables that a document may have.
pub(crate) fn keys_in(table: Option<Key>) -> &'static [Key]
    ensures { result.now ≡ keys_in table }
{
    match table {
        None => &[
            Key::Floor,
            Key::Costs,
            Key::Policy(PolicyTable::Policy),
            Key::Page,
            Key::Policy(PolicyTable::Tier1),
            Key::Policy(PolicyTable::Tier2),
            Key::Policy(PolicyTable::Tier3),
            Key::Pool,
            Key::Route,
        ],
        Some(Key::Floor) => &[
            Key::FrontCuts,
            Key::FrontWorkers,
            Key::FrontCapacities,
            Key::BackCuts,
            Key::BackWorkers,
            Key::BackCapacities,
            Key::Batch,
            Key::Cache,
        ],
        Some(Key::Costs) => &[Key::File, Key::Kib, Key::Error, Key::Servers, Key::Delay],
        Some(Key::Page) => &[Key::RetryAfter],
        Some(Key::Pool) => &[Key::PoolName, Key::PoolServers],
        Some(Key::Route) => &[
            Key::RoutePrefix,
            Key::RouteCost,
            Key::RouteKib,
            Key::RouteDelay,
            Key::RoutePool,
        ],
        Some(Key::Policy(PolicyTable::Policy)) => policy_keys!(Policy),
        Some(Key::Policy(PolicyTable::Tier1)) => policy_keys!(Tier1),
        Some(Key::Policy(PolicyTable::Tier2)) => policy_keys!(Tier2),
        Some(Key::Policy(PolicyTable::Tier3)) => policy_keys!(Tier3),
        Some(_) => &[],
    }
}

/// All tables and keys that a document may have, in their order.
#[tactic(auto, unfolding(crate::specs::Keys::all_keys))]
pub(crate) fn all_keys(alloc: Global) -> Result<Vec<Key>, AllocError>
    ensures { IfOk result (λ keys. keys.items ≡ all_keys) }
{
    let mut keys = Vec::new(alloc);
    for table in keys_in(None) {
        keys.push(*table)?;
        keys.extend_from_slice(keys_in(Some(*table)))?;
    }
    Ok(keys)
}

impl fmt::Display for Key {
    ghost use Rattle.std.specs.Prelude.{Some};
    ghost use Rattle.settings.specs.Keys.{path_of};

    ghost output = { λ key. Some (path_of key) };

    fn fmt<W: fmt::Write>(&self, f: &mut fmt::Formatter<W>) -> fmt::Result {
        let name = self.name();
        if self.is_table() {
            f.write_str(name)
        } else {
            let table = self.table().name();
            write!(f, "{table}.{name}")
        }
    }
}
