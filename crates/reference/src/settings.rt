//! What an operator may set.

ghost use Rattle.std.specs.Prelude.{◌≡◌, ◌≤◌, ◌*◌, ◌/◌, [], ℕ, Some, None, IfOk, IfErr};
ghost use Rattle.stage_graph.specs.After.{last_cut};
ghost use Rattle.reference.specs.Reference.{Choice};
ghost use Rattle.reference.specs.Choices.{IsChoice, choice_of, with_routes, at_speed, settings_fault};
ghost use Rattle.cost_model.specs.Services.{AreServed};
ghost use Rattle.reference.specs.Choices.{front_steps, back_steps, max_batch};
ghost use Rattle.reference.specs.Choices.{max_cache, max_retry_after, min_speed, max_speed};
ghost use Rattle.captures.specs.Reference.{max_tick};

use admission::Policy;
use cost_model::{Costs, Pools, Routes, Tariff};
use stage_graph::Plan;
use std::marker::Model;
use thiserror::Error;

/// How many steps a request takes before it is decided on: its target is read, looked up, and its service time
/// computed.
pub const FRONT_STEPS: usize = 3;

/// How many it takes then: its page is fetched, and its reply rendered.
pub const BACK_STEPS: usize = 2;

/// The most records of a batch.
pub const MAX_BATCH: usize = 65_536;

/// The most bytes of the cache.
pub const MAX_CACHE: usize = 1_073_741_824;

/// The longest time after which a rejected request may be tried again, in seconds.
pub const MAX_RETRY_AFTER: u64 = 86_400;

/// The speed at which traffic comes as it was recorded, in percent, and the least.
pub const MIN_SPEED: u64 = 100;

/// The greatest speed, in percent of that at which traffic was recorded.
pub const MAX_SPEED: u64 = 10_000;

/// Which of the settings is outside its range.
#[derive(Clone, Copy, Debug, PartialEq, Eq, Error)]
pub enum SettingsFault {
    #[error("the front stages do not end with step 3")]
    Front,
    #[error("the back stages do not end with step 2")]
    Back,
    #[error("a batch has 1 to 65536 records")]
    Batch,
    #[error("the cache has at most 1073741824 bytes")]
    Cache,
    #[error("a rejected request may be tried again after at most 86400 seconds")]
    Retry,
}

/// What an operator may set. Contracts see it as a `Choice`.
#[derive(Drop)]
pub struct Settings {
    front: Plan,
    back: Plan,
    batch: usize,
    cache: usize,
    tariff: Tariff,
    policies: [Policy; 4],
    retry_after: u64,
    speed: u64,
}

impl Model for Settings {
    ghost use Rattle.reference.specs.Reference.{Choice};
    ghost use Rattle.reference.specs.Choices.{IsChoice};

    ghost Value = { Choice };

    ghost view = { λ s. record {
      floors = record { front = s.front; back = s.back; batch = s.batch; cache = s.cache };
      served = record {
        tariff = s.tariff;
        policies = s.policies;
        retry_after = s.retry_after;
        speed = s.speed;
      };
    } };

    ghost invariant = { λ s. IsChoice (record {
      floors = record { front = s.front; back = s.back; batch = s.batch; cache = s.cache };
      served = record {
        tariff = s.tariff;
        policies = s.policies;
        retry_after = s.retry_after;
        speed = s.speed;
      };
    }) };
}

impl Settings {
    /// The settings of values that are in their ranges, as [`Settings::new`] has them.
    pub fn in_range(
        front: Plan,
        back: Plan,
        batch: usize,
        cache: usize,
        costs: Costs,
        policies: [Policy; 4],
        retry_after: u64,
    ) -> Settings
        requires { IsChoice (choice_of front back batch cache costs policies retry_after) }
        ensures { result ≡ choice_of front back batch cache costs policies retry_after }
    {
        Settings {
            front,
            back,
            batch,
            cache,
            tariff: Tariff::new(costs, Routes::none(), Pools::none()),
            policies,
            retry_after,
            speed: MIN_SPEED,
        }
    }

    /// The same settings with these routes, by which some requests cost something else, and the pools that they name.
    pub fn with_routes(self, routes: Routes, pools: Pools) -> Settings
        requires { AreServed routes pools }
        ensures { result
            ≡ record {
              floors = self.floors;
              served = with_routes routes pools self.served;
            } }
    {
        let costs = self.tariff.costs();
        Settings {
            front: self.front,
            back: self.back,
            batch: self.batch,
            cache: self.cache,
            tariff: Tariff::new(costs, routes, pools),
            policies: self.policies,
            retry_after: self.retry_after,
            speed: self.speed,
        }
    }

    /// Settings of these values, or the first that is outside its range. `front` and `back` are the floors of the
    /// staged engine: how a request's steps are cut into stages, with their workers and queues; `batch` is how many
    /// pieces it reads at a time (1 to 65,536), `cache` the most bytes of pages that it keeps (up to 1,073,741,824).
    /// None of these changes an answer. `costs` are the service times ([`Settings::with_routes`] adds routes),
    /// `policies` are those of the tiers 0 to 3, and `retry_after` the seconds that a rejected request is told to wait
    /// (0 to 86,400). Traffic comes as it was recorded ([`Settings::with_speed`]).
    ///
    /// # Errors
    ///
    /// `Front` where the last of `front`'s cuts isn't 3, `Back` where that of `back` isn't 2, then `Batch`, `Cache`,
    /// `Retry`.
    pub fn new(
        front: Plan,
        back: Plan,
        batch: usize,
        cache: usize,
        costs: Costs,
        policies: [Policy; 4],
        retry_after: u64,
    ) -> Result<Settings, SettingsFault>
        ensures ok { IfOk result
            (λ s. (s ≡ choice_of front back batch cache costs policies retry_after)
            × (settings_fault s ≡ None)) }
        ensures fault { IfErr result
            (λ f. settings_fault (choice_of front back batch cache costs policies retry_after) ≡ Some f) }
    {
        if front.steps() != FRONT_STEPS {
            return Err(SettingsFault::Front);
        }
        if back.steps() != BACK_STEPS {
            return Err(SettingsFault::Back);
        }
        if batch == 0 || batch > MAX_BATCH {
            return Err(SettingsFault::Batch);
        }
        if cache > MAX_CACHE {
            return Err(SettingsFault::Cache);
        }
        if retry_after > MAX_RETRY_AFTER {
            return Err(SettingsFault::Retry);
        }
        Ok(Settings::in_range(front, back, batch, cache, costs, policies, retry_after))
    }

    /// The stages of the front floor.
    pub fn front(&self) -> &Plan
        ensures value { result.now ≡ self.now.floors.front }
        ensures steps { last_cut result.now ≡ front_steps }
    {
        &self.front
    }

    /// The stages of the back floor.
    pub fn back(&self) -> &Plan
        ensures value { result.now ≡ self.now.floors.back }
        ensures steps { last_cut result.now ≡ back_steps }
    {
        &self.back
    }

    /// How many pieces a batch has at most: 1 to 65,536.
    pub fn batch(&self) -> usize
        ensures value { result ≡ self.now.floors.batch }
        ensures range { (1 ≤ result) × (result ≤ max_batch) }
    {
        self.batch
    }

    /// The most bytes of pages that are kept: up to 1,073,741,824.
    pub fn cache(&self) -> usize
        ensures value { result ≡ self.now.floors.cache }
        ensures range { result ≤ max_cache }
    {
        self.cache
    }

    /// What requests cost.
    pub fn tariff(&self) -> &Tariff
        ensures { result.now ≡ self.now.served.tariff }
    {
        &self.tariff
    }

    /// The policies of the tiers 0 to 3.
    pub fn policies(&self) -> [Policy; 4]
        ensures { result ≡ self.now.served.policies }
    {
        self.policies
    }

    /// How many seconds a rejected request is told to wait: 0 to 86,400.
    pub fn retry_after(&self) -> u64
        ensures value { result ≡ self.now.served.retry_after }
        ensures range { result ≤ max_retry_after }
    {
        self.retry_after
    }

    /// The same settings for traffic that comes at so many percent of the speed at which it was recorded: 100 to
    /// 10,000.
    pub fn with_speed(self, speed: u64) -> Settings
        requires { (min_speed ≤ speed) × (speed ≤ max_speed) }
        ensures { result ≡ record { floors = self.floors; served = at_speed speed self.served } }
    {
        Settings { speed, ..self }
    }

    /// The tick that counts for one of a capture (0 to 10^15), at this speed: divided so, and rounded down.
    pub fn tick(&self, recorded: u64) -> u64
        requires { recorded ≤ max_tick }
        ensures value { result ≡ recorded * 100 / self.now.served.speed }
        ensures range { result ≤ recorded }
        ensures rises { (earlier : ℕ) → earlier ≤ recorded
            → earlier * 100 / self.now.served.speed ≤ result }
    {
        if self.speed == MIN_SPEED {
            return recorded;
        }
        recorded * MIN_SPEED / self.speed
    }
}
