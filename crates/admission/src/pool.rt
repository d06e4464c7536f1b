//! A pool: its servers, and the requests that wait for them; and the figures of the pools.

ghost use Rattle.std.specs.Prelude.{◌≡◌, ℕ, ◌+◌, ◌*◌, ◌<◌, ◌≤◌, max, length, nat_lt, if◌then◌else◌, replicate};
ghost use Rattle.std.specs.Prelude.{IfOk, OnOk, OnErr};
ghost use Rattle.std.specs.VecDeque.{deque_len, deque_capacity};
ghost use Rattle.admission.specs.Reference.{with_figures};
ghost use Rattle.admission.specs.Standing.{first_free, IsShare, IsPool, AreFew};
ghost use Rattle.admission.specs.Running.{ahead, with_start, waits_until, new_pool, pool_after, finish_or};
ghost use Rattle.admission.specs.Running.{no_figures, with_request, figures_with, figures_after};
ghost use Rattle.admission.specs.TierCalls.{Decides, Takes, StaysBeside};

use crate::servers::Servers;
use crate::tier::Tier;
use crate::{Decision, MAX_DELAY, MAX_OFFERS, MAX_SERVERS, MAX_SERVICE, MAX_TICK, PoolFigures};
use std::alloc::{AllocError, Global};
use std::collections::VecDeque;
use std::marker::Model;

/// Servers that work on the requests of some routes alone.
#[derive(Drop)]
pub(crate) struct Pool {
    servers: Servers,
    /// Where the pool has figures: when they begin to work on the requests that waited when the last admitted one came,
    /// in their order.
    starts: VecDeque<u64>,
}

impl Model for Pool {
    ghost use Rattle.admission.specs.Standing.{PoolStanding};

    ghost Value = { PoolStanding };

    ghost view = { λ p. record { free = p.servers; starts = p.starts.items } };
}

/// The figures of so many pools that had no request yet: none of a pool that stands alone.
pub(crate) fn no_figures(alloc: Global, pools: usize) -> Result<Vec<PoolFigures>, AllocError>
    ensures { IfOk result (λ figures. figures.items ≡ replicate (with_figures pools) no_figures) }
{
    if pools <= 1 {
        return Ok(Vec::new(alloc));
    }
    let none = PoolFigures {
        admitted: 0,
        busy: 0,
        longest_queue: 0,
    };
    vec![in alloc; none; pools]
}

/// The figures with one more request that takes `service` ticks of a server, when so many wait.
fn with_request(figures: PoolFigures, service: u64, waiting: u64) -> PoolFigures
    requires few { (figures.admitted < MAX_OFFERS) × (figures.busy ≤ MAX_SERVICE * MAX_OFFERS) }
    requires short { service ≤ MAX_SERVICE }
    ensures { result ≡ with_request figures service waiting }
{
    PoolFigures {
        admitted: figures.admitted + 1,
        busy: figures.busy + service,
        longest_queue: figures.longest_queue.max(waiting),
    }
}

/// Counts a request of this pool among the figures of the pools, if there are some.
fn count(figures: &mut Vec<PoolFigures>, pool: usize, service: u64, waiting: u64)
    requires few { (offers : ℕ) × (offers < MAX_OFFERS) × AreFew offers figures.old.items }
    requires short { service ≤ MAX_SERVICE }
    ensures { figures.new.items ≡ figures_with figures.old.items pool service waiting }
{
    if pool >= figures.len() {
        return;
    }
    figures[pool] = with_request(figures[pool], service, waiting);
}

/// Until when a request of this pool waits, the first of whose servers is `free` then; 0 where it has no figures.
fn waits_until(figures: &[PoolFigures], pool: usize, free: u64) -> u64
    ensures { result ≡ if nat_lt pool (length figures.now) then free else 0 }
{
    if pool < figures.len() { free } else { 0 }
}

/// Makes room for the start of a request that comes at `tick`, if it waits until a later one.
fn make_room(starts: &mut VecDeque<u64>, tick: u64, until: u64) -> Result<(), AllocError>
    ensures same { starts.new.items ≡ starts.old.items }
    ensures room { OnOk result (tick < until → deque_len starts.new < deque_capacity starts.new) }
{
    if tick < until {
        starts.reserve(1)?;
    }
    Ok(())
}

/// Takes out the starts that don't lie ahead of `tick` any more.
fn begin(starts: &mut VecDeque<u64>, tick: u64)
    ensures starts { starts.new.items ≡ ahead tick starts.old.items }
    ensures len { deque_len starts.new ≤ deque_len starts.old }
    ensures capacity { deque_capacity starts.new ≡ deque_capacity starts.old }
{
    while let Some(first) = starts.front() {
        if *first > tick {
            break;
        }
        starts.pop_front();
    }
}

/// Keeps the start of a request that comes at `tick`, if it waits until a later one.
fn wait(starts: &mut VecDeque<u64>, tick: u64, until: u64)
    requires { tick < until → deque_len starts.old < deque_capacity starts.old }
    ensures { starts.new.items ≡ with_start tick until starts.old.items }
{
    begin(starts, tick);
    if tick < until {
        let Ok(()) = starts.push_back(until) else {
            unreachable!()
        };
    }
}

impl Pool {
    /// A pool of that many servers, all of them free from tick 0 on.
    pub(crate) fn new(alloc: Global, servers: u64) -> Result<Self, AllocError>
        requires { (1 ≤ servers) × (servers ≤ MAX_SERVERS) }
        ensures { IfOk result (λ pool. pool ≡ new_pool servers) }
    {
        Ok(Pool {
            servers: Servers::new(alloc, servers)?,
            starts: VecDeque::new(alloc),
        })
    }

    /// When the first of its servers is free.
    pub(crate) fn first(&self) -> u64
        ensures { result ≡ first_free self.now.free }
    {
        self.servers.first()
    }

    /// Offers a request of a tier that comes at `tick`, up to which time has passed in the tier, and takes `service`
    /// ticks of a server. Its response takes `delay` ticks beside that. Among the pools that `figures` are of this is
    /// the one with the number `own`.
    pub(crate) fn offer(
        &mut self,
        tier: &mut Tier,
        figures: &mut Vec<PoolFigures>,
        own: usize,
        tick: u64,
        service: u64,
        delay: u64,
    ) -> Result<Decision, AllocError>
        requires beside { (offers : ℕ) × (offers < MAX_OFFERS) × IsShare offers tick tick tier.old
            × IsPool offers self.old × AreFew offers figures.old.items }
        requires tick { tick ≤ MAX_TICK }
        requires work { (1 ≤ service) × (service ≤ MAX_SERVICE) × (delay ≤ MAX_DELAY) }
        ensures decision { IfOk result
            (λ decision. Decides tier.old (first_free self.old.free) tick service decision) }
        ensures tier { IfOk result
            (λ decision. Takes tier.old tick delay decision tier.new
            × StaysBeside tier.old tick tier.new × (tier.new.rules ≡ tier.old.rules)) }
        ensures pool { IfOk result
            (λ decision. self.new
            ≡ pool_after self.old (waits_until figures.old.items own self.old.free) tick decision) }
        ensures figures { IfOk result
            (λ decision. figures.new.items
            ≡ figures_after figures.old.items own service self.new.starts decision) }
        ensures finish { IfOk result
            (λ decision. (first_free self.old.free ≤ finish_or (first_free self.old.free) decision)
            × (finish_or (first_free self.old.free) decision
            ≤ max (first_free self.old.free) tick + service)) }
        ensures err { OnErr result
            ((tier.new ≡ tier.old) × (self.new ≡ self.old) × (figures.new ≡ figures.old)) }
    {
        let free = self.servers.first();
        let until = waits_until(figures.as_slice(), own, free);
        make_room(&mut self.starts, tick, until)?;
        let decision = tier.offer(free, tick, service, delay)?;
        let Decision::Admitted { finish } = decision else {
            return Ok(decision);
        };
        self.servers.take(finish);
        wait(&mut self.starts, tick, until);
        count(figures, own, service, self.starts.len() as u64);
        Ok(decision)
    }
}
