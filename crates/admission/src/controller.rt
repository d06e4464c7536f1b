//! The controller: four tiers that share the pools of servers, offered requests in the order of their ticks.

ghost use Rattle.std.specs.Prelude.{◌≡◌, ◌+◌, ◌*◌, ◌<◌, ◌≤◌, ◌++◌, [], ◌∷◌, ℕ, List, length, map, IfOk, OnOk, OnErr};
ghost use Rattle.std.specs.Prelude.{count_by};
ghost use Rattle.admission.specs.Reference.{Offer, of_tier, served, is_rejected, decide, decided, pools_of};
ghost use Rattle.admission.specs.After.{outlook, controls_in, all_controls, ControllerAfter, StandsAsBefore};
ghost use Rattle.admission.specs.Standing.{last_tick, station_of, ArePools, HasPool, IsOffer, TakesOfferAt};
ghost use Rattle.admission.specs.Running.{finish_or, new_pool};
ghost use Rattle.admission.specs.TierCalls.{AreNew, AllShare, AllMove, AreComplete, AllShow};

use crate::pool::{Pool, no_figures};
use crate::tier::Tier;
use crate::{
    Control, Decision, MAX_DELAY, MAX_OFFERS, MAX_SERVICE, MAX_TICK, Outlook, Policy, PoolFigures,
};
use std::alloc::{AllocError, Global};
use std::marker::Model;

/// Decides which offered requests of four tiers the virtual servers take.
#[derive(Drop)]
pub struct Controller {
    tiers: [Tier; 4],
    /// The pools, each with its own admitted requests of all tiers; the default pool first.
    pools: Vec<Pool>,
    /// Their figures, where there are several.
    figures: Vec<PoolFigures>,
    /// How many requests were offered, of all tiers.
    offers: u64,
    /// The tick of the last one.
    tick: u64,
    /// The tick up to which time has passed, later than that where there was no memory for an offer.
    clock: u64,
}

impl Model for Controller {
    ghost use Rattle.admission.specs.Standing.{Standing, IsSound};

    ghost Value = { Standing };

    ghost view = { λ c. record {
      tiers = c.tiers;
      pools = c.pools.items;
      figures = c.figures.items;
      offers = c.offers;
      tick = c.tick;
      clock = c.clock;
    } };

    ghost invariant = { λ c. IsSound (record {
      tiers = c.tiers;
      pools = c.pools.items;
      figures = c.figures.items;
      offers = c.offers;
      tick = c.tick;
      clock = c.clock;
    }) };
}

/// The tiers of these policies, which were offered nothing yet.
fn tiers_of(alloc: Global, policies: &[Policy]) -> Result<[Tier; 4], AllocError>
    requires { length policies.now ≡ 4 }
    ensures policies { IfOk result (λ tiers. map (λ t. t.rules) tiers ≡ policies.now) }
    ensures four { IfOk result (λ tiers. length tiers ≡ 4) }
    ensures new { IfOk result (λ tiers. AreNew tiers) }
{
    Ok([
        Tier::new(alloc, policies[0])?,
        Tier::new(alloc, policies[1])?,
        Tier::new(alloc, policies[2])?,
        Tier::new(alloc, policies[3])?,
    ])
}

/// Pools of that many servers, all of which are free from tick 0 on.
fn pools_of(alloc: Global, servers: &[u64]) -> Result<Vec<Pool>, AllocError>
    requires { ArePools servers.now }
    ensures { IfOk result (λ pools. pools.items ≡ map new_pool servers.now) }
{
    let mut pools = Vec::with_capacity(alloc, servers.len())?;
    for count in servers {
        pools.push(Pool::new(alloc, *count)?)?;
    }
    Ok(pools)
}

/// Lets time pass up to `tick` in each tier.
fn pass(tiers: &mut [Tier; 4], tick: u64) -> Result<(), AllocError>
    requires share { AllShare tiers.old tick }
    requires tick { tick ≤ MAX_TICK }
    ensures moves { AllMove tiers.old tick tiers.new }
    ensures complete { OnOk result (AreComplete tiers.new tick) }
{
    for tier in 0..4 {
        tiers[tier].pass(tick)?;
    }
    Ok(())
}

/// The controls of four tiers up to this tick, without a copy.
fn controls_of(tiers: [Tier; 4], tick: u64) -> [Vec<Control>; 4]
    requires { AreComplete tiers tick }
    ensures four { length result ≡ 4 }
    ensures shown { AllShow tiers tick (map (λ v. v.items) result) }
{
    let [zero, one, two, three] = tiers;
    [
        zero.into_controls_until(tick),
        one.into_controls_until(tick),
        two.into_controls_until(tick),
        three.into_controls_until(tick),
    ]
}

impl Controller {
    /// A controller that was offered nothing yet, with the policies of the tiers 0 to 3 and one pool of one server.
    pub fn new(alloc: Global, policies: [Policy; 4]) -> Result<Self, AllocError>
        ensures fits { IfOk result (λ controller. ControllerAfter [] controller) }
        ensures station { IfOk result
            (λ controller. station_of controller ≡ record { policies = policies; pools = 1 ∷ [] }) }
        ensures start { IfOk result
            (λ controller. (controller.offers ≡ 0) × (controller.clock ≡ 0)) }
    {
        Controller::with_pools(alloc, policies, &[1])
    }

    /// The same with pools of that many servers: the default pool and at most 16 others, each of 1 to 1,024 servers.
    pub fn with_pools(
        alloc: Global,
        policies: [Policy; 4],
        servers: &[u64],
    ) -> Result<Self, AllocError>
        requires { ArePools servers.now }
        ensures fits { IfOk result (λ controller. ControllerAfter [] controller) }
        ensures station { IfOk result
            (λ controller. station_of controller
            ≡ record { policies = policies; pools = servers.now }) }
        ensures start { IfOk result
            (λ controller. (controller.offers ≡ 0) × (controller.clock ≡ 0)) }
    {
        let tiers = tiers_of(alloc, &policies)?;
        let pools = pools_of(alloc, servers)?;
        let figures = no_figures(alloc, servers.len())?;
        Ok(Controller {
            tiers,
            pools,
            figures,
            offers: 0,
            tick: 0,
            clock: 0,
        })
    }

    /// Offers a request of the default pool and a tier (0 to 3) that comes at `tick` and takes `service` ticks, without
    /// a delay.
    pub fn offer(&mut self, tier: u8, tick: u64, service: u64) -> Result<Decision, AllocError>
        requires offer { IsOffer tier tick service }
        requires room { TakesOfferAt self.old tick }

        // As `offer_to`, with no delay.
        ensures decision { IfOk result
            (λ decision. (offers : List Offer) → ControllerAfter offers self.old
            → decision ≡ decide (station_of self.old) (decided (station_of self.old) offers)
            (record { pool = 0; tier = tier; tick = tick; service = service; delay = 0 })) }
        ensures fits { OnOk result
            ((offers : List Offer) → ControllerAfter offers self.old → ControllerAfter (offers
            ++ record { pool = 0; tier = tier; tick = tick; service = service; delay = 0 } ∷ [])
            self.new) }
        ensures next { OnOk result
            ((last_tick self.new ≡ tick) × (self.new.offers ≡ self.old.offers + 1)
            × (station_of self.new ≡ station_of self.old)) }
        ensures clock { self.new.clock ≡ tick }
        ensures err { OnErr result (StandsAsBefore self.old self.new) }
    {
        // there is a default pool
        let _ = &self.pools;
        self.offer_to(0, tier, tick, service, 0)
    }

    /// Offers a request of a pool and a tier (0 to 3) that comes at `tick`, takes `service` ticks of one of the pool's
    /// servers, and whose response takes `delay` ticks (0 to 1,000,000,000) beside that.
    pub fn offer_to(
        &mut self,
        pool: u8,
        tier: u8,
        tick: u64,
        service: u64,
        delay: u64,
    ) -> Result<Decision, AllocError>
        requires { IsOffer tier tick service × (delay ≤ MAX_DELAY) × HasPool self.old pool
            × TakesOfferAt self.old tick }

        // The decision is that of the definitions for the offers of all tiers so far followed by this one.
        ensures decision { IfOk result
            (λ decision. (offers : List Offer) → ControllerAfter offers self.old
            → decision ≡ decide (station_of self.old) (decided (station_of self.old) offers)
            (record { pool = pool; tier = tier; tick = tick; service = service; delay = delay })) }
        ensures fits { OnOk result
            ((offers : List Offer) → ControllerAfter offers self.old → ControllerAfter (offers
            ++ record { pool = pool; tier = tier; tick = tick; service = service; delay = delay }
            ∷ []) self.new) }

        // What the next offer asks.
        ensures next { OnOk result
            ((last_tick self.new ≡ tick) × (self.new.offers ≡ self.old.offers + 1)
            × (station_of self.new ≡ station_of self.old)) }
        ensures clock { self.new.clock ≡ tick }

        // It fits beside its delay.
        ensures finish { IfOk result
            (λ decision. finish_or 0 decision ≤ MAX_TICK + MAX_SERVICE * MAX_OFFERS) }

        // Without memory the offer wasn't made, but time has passed.
        ensures err { OnErr result (StandsAsBefore self.old self.new) }
    {
        self.pass(tick)?;
        let own = &mut self.tiers[usize::from(tier)];
        let place = usize::from(pool);
        let decision = self.pools[place].offer(
            own,
            &mut self.figures,
            place,
            tick,
            service,
            delay,
        )?;
        self.offers += 1;
        self.tick = tick;
        Ok(decision)
    }

    /// Lets time pass up to `tick`.
    fn pass(&mut self, tick: u64) -> Result<(), AllocError>
        requires forward { (self.old.clock ≤ tick) × (tick ≤ MAX_TICK) }
        ensures same { StandsAsBefore self.old self.new }
        ensures pools { self.new.pools ≡ self.old.pools }
        ensures clock { self.new.clock ≡ tick }
        ensures complete { OnOk result (AreComplete self.new.tiers tick) }
    {
        self.clock = tick;
        pass(&mut self.tiers, tick)
    }

    /// What a request of a pool and a tier (0 to 3) finds that comes at `tick`. The next offer doesn't come before
    /// that.
    pub fn outlook(&mut self, pool: u8, tier: u8, tick: u64) -> Result<Outlook, AllocError>
        requires place { HasPool self.old pool × (tier < 4) }
        requires forward { (self.old.clock ≤ tick) × (tick ≤ MAX_TICK) }
        ensures finds { IfOk result
            (λ found. (offers : List Offer) → ControllerAfter offers self.old
            → found
            ≡ outlook (station_of self.old) (decided (station_of self.old) offers) pool tier tick) }
        ensures range { IfOk result (λ found. found.free ≤ MAX_TICK + MAX_SERVICE * MAX_OFFERS) }
        ensures same { StandsAsBefore self.old self.new }
        ensures clock { self.new.clock ≡ tick }
    {
        self.pass(tick)?;
        Ok(self.found_at(pool, tier, tick))
    }

    /// What a request of a pool and a tier (0 to 3) finds that comes at `tick`, up to which time has passed.
    fn found_at(&self, pool: u8, tier: u8, tick: u64) -> Outlook
        requires place { HasPool self.now pool × (tier < 4) }
        requires complete { AreComplete self.now.tiers tick }
        requires clock { (self.now.clock ≡ tick) × (tick ≤ MAX_TICK) }
        ensures finds { (offers : List Offer) → ControllerAfter offers self.now
            → result
            ≡ outlook (station_of self.now) (decided (station_of self.now) offers) pool tier tick }
        ensures range { result.free ≤ MAX_TICK + MAX_SERVICE * MAX_OFFERS }
    {
        let free = self.pools[usize::from(pool)].first();
        self.tiers[usize::from(tier)].outlook(free, tick)
    }

    /// How many requests of a tier (0 to 3) were admitted.
    pub fn admitted(&self, tier: u8) -> u64
        requires { tier < 4 }
        ensures { (offers : List Offer) → ControllerAfter offers self.now
            → result ≡ length (served (of_tier tier (decided (station_of self.now) offers))) }
    {
        let own = &self.tiers[usize::from(tier)];
        own.in_flight.admitted
    }

    /// How many requests of a tier (0 to 3) were turned away.
    pub fn rejected(&self, tier: u8) -> u64
        requires { tier < 4 }
        ensures { (offers : List Offer) → ControllerAfter offers self.now
            → result ≡ count_by (λ r. is_rejected r.decision)
            (of_tier tier (decided (station_of self.now) offers)) }
    {
        let own = &self.tiers[usize::from(tier)];
        own.rejected
    }

    /// The controls of a tier (0 to 3) whose instant is at most the last offered tick of any tier.
    pub fn controls(&self, tier: u8) -> &[Control]
        requires { tier < 4 }
        ensures { (offers : List Offer) → ControllerAfter offers self.now
            → result.now ≡ controls_in (station_of self.now) offers tier }
    {
        self.tiers[usize::from(tier)].controls_until(self.tick)
    }

    /// The controls of each tier, as [`Controller::controls`] shows them, and the figures of the pools, the default
    /// pool first, where there are several; without a copy.
    pub fn into_parts(self) -> ([Vec<Control>; 4], Vec<PoolFigures>)
        ensures controls { (offers : List Offer) → ControllerAfter offers self
            → map (λ v. v.items) result.0 ≡ all_controls (station_of self) offers }
        ensures pools { (offers : List Offer) → ControllerAfter offers self
            → result.1.items ≡ pools_of (station_of self) offers }
    {
        let tick = self.tick;
        (controls_of(self.tiers, tick), self.figures)
    }
}
