//! Laws of the definitions that the controller's contracts cite. Each function is there for its clause alone.

ghost use Rattle.admission.specs.Laws.{AccrualSplitsAtControl, CreditFromCredit, DecisionsBegin, FinishFromFinish};
ghost use Rattle.admission.specs.Laws.{FinishRuns, FirstCredit, OtherTiersLeave, RateBefore, RateFromOffersBefore};
ghost use Rattle.admission.specs.Laws.{RatesWithin, RejectedLeavesAll};
ghost use Rattle.admission.specs.OneTier.{OneTierAsBefore};
ghost use Rattle.admission.specs.Pools.{AreServedWhole, OnePoolServers, OnePoolServesAll, OtherPoolsLeave};
ghost use Rattle.admission.specs.Servers.{FirstComeFirstServed, OneServerFinishes, OneServerInOrder};

/// A decision depends on the offers before it alone.
pub fn decisions_begin()
    ensures { DecisionsBegin }
{}

/// A rejected offer changes nothing of any tier that a later one sees.
pub fn rejected_leaves_all()
    ensures { RejectedLeavesAll }
{}

/// An offer of another tier changes no credit, rate, sample or control of a tier.
pub fn other_tiers_leave()
    ensures { OtherTiersLeave }
{}

/// Offers of tier 0 and of the default pool alone are decided as they were where there was one policy and one set of
/// servers.
pub fn one_tier_as_before()
    ensures { OneTierAsBefore }
{}

/// Where all offers are of one pool, its servers work on all admitted requests.
pub fn one_pool_serves_all()
    ensures servers { OnePoolServers }
    ensures all { OnePoolServesAll }
{}

/// An offer of another pool changes no finish in a pool.
pub fn other_pools_leave()
    ensures { OtherPoolsLeave }
{}

/// A request is served for its whole service after it came, and its response never takes less.
pub fn are_served_whole()
    ensures { AreServedWhole }
{}

/// Every rate in force lies between the policy's least and greatest.
pub fn rates_within()
    ensures { RatesWithin }
{}

/// The finish of one server can be carried from request to request of its pool over all tiers, and never falls.
pub fn finish_runs()
    ensures { FinishRuns }
{}

/// The rate in force at a tick depends on the responses that are complete by then alone.
pub fn rate_before()
    ensures { RateBefore }
{}

/// Where a pool has one server, each admitted request of it is finished its service after the later of its arrival and
/// the finish of the pool's one before it.
pub fn finish_from_finish()
    ensures { FinishFromFinish }
{}

/// The first credit of a tier is the whole depth, whatever other tiers were offered.
pub fn first_credit()
    ensures { FirstCredit }
{}

/// A credit needs the credit of the tier's offer before it alone, whether that one was admitted, and what accrues
/// between.
pub fn credit_from_credit()
    ensures { CreditFromCredit }
{}

/// A control between two offers splits what accrues between them.
pub fn accrual_splits_at_control()
    ensures { AccrualSplitsAtControl }
{}

/// The rate of a tier in force at a tick depends on the offers of all tiers before that tick alone.
pub fn rate_from_offers_before()
    ensures { RateFromOffersBefore }
{}

/// The finishes of a pool are those of its servers one by one, each request served by the first that is free.
pub fn first_come_first_served()
    ensures { FirstComeFirstServed }
{}

/// Where a pool has one server, a finish is the greatest, over the pool's admitted requests so far, of its arrival and
/// the services from it on.
pub fn one_server_finishes()
    ensures { OneServerFinishes }
{}

/// Where all requests are of one pool of one server, without delay, the responses of a tier are complete in the order
/// of its requests: a control stands at the finish of its last request, and the rate in force is by how many of the
/// first are finished.
pub fn one_server_in_order()
    ensures { OneServerInOrder }
{}
