//! The decider: the controller and the totals, which see each message in its order, and decide on it.

ghost use Rattle.std.specs.Prelude.{◌≡◌, ◌<◌, ◌≤◌, ◌∷◌, ◌&&◌, [], true, Bool, List, length, IfOk, ◌+◌, ◌++◌, map, OnOk};
ghost use Rattle.admission.specs.Reference.{Offer};
ghost use Rattle.admission.specs.After.{ControllerAfter};
ghost use Rattle.admission.specs.Standing.{station_of, HasPool};
ghost use Rattle.reference.specs.Reference.{answers_head, response, offer_at, samples_of, handled_next};
ghost use Rattle.reference.specs.Reference.{handled_after};
ghost use Rattle.reference.specs.Reference.{slip_of, station_for, tick_in};
ghost use Rattle.replay.specs.Totals.{Decides, offer_with};
ghost use Rattle.replay.specs.Fronts.{lookup_of};
ghost use Rattle.replay.specs.Backs.{response_of, only_head, has_location, is_answer, is_back, slip_of_pending};
ghost use Rattle.std.specs.List.{list_all};
ghost use Rattle.captures.specs.Reference.{max_start, max_tick};
ghost use Rattle.paths.specs.declared.file.File.{File};
ghost use Rattle.arrivals.specs.Reference.{Arrival};
ghost use Rattle.replay.specs.Serving.{Counted, DeciderAfter, SameCapture, IsOnTime};
ghost use Rattle.replay.specs.Steps.{DecidesNext};
ghost use Rattle.replay.specs.Coming.{AreLookedUp, InTime};
ghost use Rattle.replay.specs.declared.back.BackState.TheVariants.{Pending};

use crate::answers::{fault_status, outcome_answer, persistence_of};
use crate::lookup::{LookedUp, Lookup, answers_head};
use crate::pending::{PendingAnswer, PendingReply};
use crate::server::Server;
use crate::totals::Totals;
use crate::{MAX_MESSAGES, Settings};
use admission::{Controller, Decision, MAX_TICK};
use arrivals::Origin;
use cost_model::Charge;
use http_requests::Meaning;
use paths::Tree;
use responses::{ResponseKind, Status};
use std::alloc::{AllocError, Global};

/// Where the messages of a capture are decided on and counted, in the order of their arrival.
#[derive(Drop)]
pub struct Decider {
    /// When the capture begins, in seconds since 1970-01-01.
    pub start: u64,
    /// How many messages are answered at most.
    pub most: usize,
    pub controller: Controller,
    pub totals: Totals,
}

/// A controller of these settings, which was offered nothing yet.
fn controller_of(alloc: Global, settings: &Settings) -> Result<Controller, AllocError>
    ensures fits { IfOk result (λ controller. ControllerAfter [] controller) }
    ensures station { IfOk result (λ controller. station_of controller
        ≡ station_for settings.now.served) }
    ensures clock { IfOk result (λ controller. controller.clock ≡ 0) }
{
    let tariff = settings.tariff();
    let mut servers = Vec::new(alloc);
    servers.push(tariff.costs().servers())?;
    servers.extend_from_slice(tariff.pools().as_slice())?;
    Controller::with_pools(alloc, settings.policies(), &servers)
}

impl Decider {
    /// Nothing was decided on yet. The capture begins at `start`, in seconds since 1970-01-01; at most `most` of its
    /// messages are answered.
    pub(crate) fn new(
        alloc: Global,
        settings: &Settings,
        start: u64,
        most: usize,
    ) -> Result<Decider, AllocError>
        requires { (start ≤ max_start) × (most ≤ MAX_MESSAGES) }
        ensures none { IfOk result (λ decider. (files : List File)
            → DeciderAfter files settings.now.served [] decider) }
        ensures of { IfOk result (λ decider. (decider.start ≡ start) × (decider.most ≡ most)
            × (decider.totals.answered ≡ 0)) }
    {
        Ok(Decider {
            start,
            most,
            controller: controller_of(alloc, settings)?,
            totals: Totals::new(alloc),
        })
    }

    /// Offers a request of `tier` that comes at `tick` and comes to `charge`: whether it is turned away.
    fn offer(&mut self, tier: u8, tick: u64, charge: Charge) -> Result<bool, AllocError>
        requires offers { (offers : List Offer) × ControllerAfter offers self.old.controller
            × (length offers < MAX_MESSAGES) }
        requires clock { self.old.controller.clock ≤ tick }
        requires range { (tier < 4) × (tick ≤ MAX_TICK) }
        requires pool { HasPool self.old.controller charge.pool }
        ensures { IfOk result
            (λ away. (offers : List Offer) → ControllerAfter offers self.old.controller
            → self.old.totals.samples ≡ samples_of (station_of self.old.controller) offers
            → Decides offers (offer_with tier tick charge ∷ []) self.old self.new away) }
    {
        let (pool, service, delay) = (charge.pool(), charge.service(), charge.delay());
        match self.controller.offer_to(pool, tier, tick, service, delay)? {
            Decision::Admitted { finish } => {
                self.totals.samples.push(finish - tick + delay)?;
                Ok(false)
            }
            Decision::Rejected => {
                self.totals.rejected.push(self.totals.answered)?;
                Ok(true)
            }
        }
    }

    /// How a message that was looked up is to be answered. The admission control is asked where it is a request.
    pub(crate) fn decide<F: Tree>(
        &mut self,
        server: &Server<'_, F>,
        origin: Origin,
        what: &Meaning,
        lookup: Lookup,
    ) -> Result<PendingAnswer<F>, AllocError>
        requires offers { (offers : List Offer) × ControllerAfter offers self.old.controller
            × (length offers < MAX_MESSAGES) }
        requires station { station_of self.old.controller ≡ station_for server.now.served }
        requires origin { (origin.tier < 4) × (origin.tick ≤ MAX_TICK)
            × (self.old.controller.clock ≤ tick_in server.now.served origin) }
        requires lookup { lookup ≡ lookup_of F.files server.now.served.tariff what.now }
        ensures response_of { IfOk result
            (λ answer. (offers : List Offer) → ControllerAfter offers self.old.controller
            → self.old.totals.samples ≡ samples_of (station_of self.old.controller) offers
            → (away : Bool) × Decides offers
            (offer_at F.files server.now.served origin what.now) self.old self.new away
            × (response_of answer ≡ response F.files server.now.served away what.now)) }
        ensures can { IfOk result (λ answer. (is_answer F.files answer ≡ true)
            × ((only_head (answers_head what.now) (response_of answer) && has_location (response_of answer)) ≡ true)) }
    {
        match what {
            Meaning::Bad(fault) => Ok(PendingAnswer::Ready(ResponseKind::Plain {
                status: fault_status(*fault),
            })),
            Meaning::Request { modified_since, .. } => {
                let since = *modified_since;
                let head = answers_head(what);
                let Lookup::Priced(outcome, charge) = lookup else {
                    unreachable!()
                };
                let settings = server.settings;
                let tick = server.tick(origin);
                // each route names one that is there
                let _pools = settings.tariff().pools();
                if self.offer(origin.tier, tick, charge)? {
                    let retry_after = settings.retry_after();
                    return Ok(PendingAnswer::Ready(ResponseKind::Plain {
                        status: Status::ServiceUnavailable { retry_after },
                    }));
                }
                Ok(outcome_answer(server.snapshot, head, since, outcome))
            }
        }
    }
}

/// Decides on the next message, and counts it.
pub(crate) fn decide_next<F: Tree>(
    server: &Server<'_, F>,
    origin: Origin,
    what: &Meaning,
    lookup: Lookup,
    decider: &mut Decider,
) -> Result<PendingReply<F>, AllocError>
    requires origin { (origin.tick ≤ max_tick) × (origin.tier < 4) }
    requires stands { (decider.old.totals.answered < MAX_MESSAGES) × (arrivals : List Arrival)
        × Counted F.files server.now.served arrivals decider.old
        × IsOnTime server.now.served.speed origin.tick decider.old.controller.clock }
    requires lookup { lookup ≡ lookup_of F.files server.now.served.tariff what.now }
    ensures stands { OnOk result
        (DecidesNext F.files server.now.served origin what.now decider.old decider.new) }
    ensures slip { IfOk result (λ t. (arrivals : List Arrival) (a : Arrival)
        → Counted F.files server.now.served arrivals decider.old → a.origin ≡ origin → a.message.what ≡ what.now
        → slip_of_pending t ≡ slip_of F.files server.now.served decider.old.start
        (handled_next F.files server.now.served arrivals a)) }
    ensures ready { IfOk result (λ t. is_back F.files (Pending t) ≡ true) }
{
    let number = decider.totals.answered;
    let date = decider.start + server.tick(origin) / 1_000_000;
    let head = answers_head(what);
    let link = persistence_of(what);
    let answer = decider.decide(server, origin, what, lookup)?;
    decider.totals.record_reply(&answer, what);
    Ok(PendingReply {
        number,
        conn: usize::from(origin.conn),
        date,
        head,
        link,
        answer,
    })
}

/// Decides on messages, in their order.
pub(crate) fn decide_all<F: Tree>(
    server: &Server<'_, F>,
    lookups: Vec<LookedUp>,
    decider: &mut Decider,
) -> Result<Vec<PendingReply<F>>, AllocError>
    requires arrived { (arrivals : List Arrival) × (more : List Arrival)
        × DeciderAfter F.files server.now.served arrivals decider.old
        × AreLookedUp F.files server.now.served.tariff more lookups.items × InTime arrivals more
        × (length arrivals + length more ≤ MAX_MESSAGES) }
    ensures same { OnOk result (SameCapture decider.old decider.new) }
    ensures stands { OnOk result ((arrivals more : List Arrival)
        → DeciderAfter F.files server.now.served arrivals decider.old
        → AreLookedUp F.files server.now.served.tariff more lookups.items
        → DeciderAfter F.files server.now.served (arrivals ++ more) decider.new) }
    ensures slips { IfOk result (λ v. (arrivals more : List Arrival)
        → DeciderAfter F.files server.now.served arrivals decider.old
        → AreLookedUp F.files server.now.served.tariff more lookups.items
        → map slip_of_pending v.items
        ≡ map (slip_of F.files server.now.served decider.old.start)
        (handled_after F.files server.now.served arrivals more)) }
    ensures ready { IfOk result (λ v. list_all (λ t. is_back F.files (Pending t)) v.items ≡ true) }
{
    let mut pending_replies = Vec::with_capacity(server.alloc, lookups.len())?;
    for looked_up in lookups {
        let LookedUp { message, lookup } = looked_up;
        let pending = decide_next(server, message.origin, &message.what, lookup, decider)?;
        pending_replies.push(pending)?;
    }
    Ok(pending_replies)
}
