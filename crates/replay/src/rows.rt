//! What a replay writes of its messages where a table is asked for: rows.

ghost use Rattle.std.specs.Prelude.{◌≡◌, ◌≤◌, ◌+◌, ◌*◌, ℕ, List};
ghost use Rattle.std.specs.Option.{option_map};
ghost use Rattle.responses.specs.Reference.{status_of};
ghost use Rattle.arrivals.specs.Reference.{Arrival};
ghost use Rattle.paths.specs.declared.file.File.{File};
ghost use Rattle.reference.specs.Reference.{Terms, tick_in, handled_next, slip_of};
ghost use Rattle.replay.specs.Fronts.{lookup_of};
ghost use Rattle.replay.specs.Backs.{slip_of_pending, response_of};
ghost use Rattle.reference.specs.Explaining.{has_pools, row_of, method_of, target_of};
ghost use Rattle.replay.specs.Rowing.{charge_in, pool_of, turns_away, offered_with, outlook_after};

use crate::decider::{Decider, decide_next};
use crate::format::Format;
use crate::lookup::{Lookup, look_up};
use crate::pending::{PendingAnswer, PendingReply};
use crate::server::Server;
use crate::source::Source;
use crate::{ReplayFault, Settings};
use admission::{Decision, MAX_OFFERS, MAX_SERVICE, MAX_TICK, Outlook};
use arrivals::Origin;
use cost_model::Charge;
use decision_table::{Offered, Row, write_heading, write_row};
use devices::Output;
use http_requests::Meaning;
use paths::Tree;
use responses::{HeadRenderer, OK_PLACE, ResponseKind, STATUS_CODES, Status};
use std::alloc::Global;
use std::io::Write;

/// What a message that was looked up comes to: nothing where it is no request.
fn charge_in(lookup: &Lookup) -> Option<Charge>
    ensures { result ≡ charge_in lookup.now }
{
    match lookup {
        Lookup::Priced(_, charge) => Some(*charge),
        _ => None,
    }
}

/// The pool whose servers work on a message that was looked up, pool 0 where it is no request.
fn pool_in(lookup: &Lookup) -> u8
    ensures { result ≡ pool_of (charge_in lookup.now) }
{
    match lookup {
        Lookup::Priced(_, charge) => charge.pool(),
        _ => 0,
    }
}

/// The status that a message is answered with.
fn status_of<F: Tree>(answer: &PendingAnswer<F>) -> u16
    ensures { result ≡ status_of (response_of answer.now) }
{
    match answer {
        PendingAnswer::Page { .. } => STATUS_CODES[OK_PLACE],
        PendingAnswer::Ready(response) => response.code(),
    }
}

/// Whether a message is turned away.
fn turns_away<F: Tree>(answer: &PendingAnswer<F>) -> bool
    ensures { result ≡ turns_away (response_of answer.now) }
{
    match answer {
        PendingAnswer::Ready(
            ResponseKind::Plain {
                status: Status::ServiceUnavailable { .. },
            },
        ) => true,
        _ => false,
    }
}

/// A request that comes to this, found this, and was turned away or not.
fn offered_with(found: Outlook, tick: u64, charge: Charge, away: bool) -> Offered
    requires free { found.free ≤ MAX_TICK + MAX_SERVICE * MAX_OFFERS }
    requires tick { tick ≤ MAX_TICK }
    ensures { result ≡ offered_with found tick charge away }
{
    let service = charge.service();
    let decision = if away {
        Decision::Rejected
    } else {
        Decision::Admitted {
            finish: found.free.max(tick) + service,
        }
    };
    Offered {
        service,
        pool: charge.pool(),
        found,
        decision,
    }
}

/// The same of a message that may be no request.
fn offered_of(found: Outlook, tick: u64, charge: Option<Charge>, away: bool) -> Option<Offered>
    requires free { found.free ≤ MAX_TICK + MAX_SERVICE * MAX_OFFERS }
    requires tick { tick ≤ MAX_TICK }
    ensures { result ≡ option_map (λ c. offered_with found tick c away) charge }
{
    match charge {
        Some(charge) => Some(offered_with(found, tick, charge, away)),
        None => None,
    }
}

/// The row of a message that came from there and counts at this tick, comes to this, found this and has this pending
/// reply, in a table with a column of pools or without one.
fn row_of<F: Tree>(
    origin: Origin,
    tick: u64,
    charge: Option<Charge>,
    found: Outlook,
    pending: &PendingReply<F>,
    pools: bool,
) -> Row
    requires free { found.free ≤ MAX_TICK + MAX_SERVICE * MAX_OFFERS }
    requires tick { tick ≤ MAX_TICK }
    ensures { (files : List File) (terms : Terms) (start : ℕ)
        (arrivals : List Arrival) (a : Arrival)
        → a.origin ≡ origin → tick ≡ tick_in terms origin → pools ≡ has_pools terms
        → charge ≡ charge_in (lookup_of files terms.tariff a.message.what)
        → found ≡ outlook_after files terms arrivals (pool_of charge) origin.tier tick
        → slip_of_pending pending.now ≡ slip_of files terms start (handled_next files terms arrivals a)
        → result ≡ row_of files terms arrivals a }
{
    let away = turns_away(&pending.answer);
    Row {
        number: pending.number,
        conn: pending.conn,
        tick,
        tier: origin.tier,
        status: status_of(&pending.answer),
        pools,
        offered: offered_of(found, tick, charge, away),
    }
}

/// Whether there are pools besides pool 0.
fn has_pools(settings: &Settings) -> bool
    ensures { result ≡ has_pools settings.now.served }
{
    !settings.tariff().pools().as_slice().is_empty()
}

fn method_of(what: &Meaning) -> &[u8]
    ensures { result.now ≡ method_of what.now }
{
    match what {
        Meaning::Request { method, .. } => method.as_slice(),
        Meaning::Bad(_) => &[],
    }
}

fn target_of(what: &Meaning) -> &[u8]
    ensures { result.now ≡ target_of what.now }
{
    match what {
        Meaning::Request { target, .. } => target.as_slice(),
        Meaning::Bad(_) => &[],
    }
}

/// Of each message its row of a table is written.
pub(crate) struct Rows;

impl Format for Rows {
    ghost use Rattle.reference.specs.Explaining.{row_texts};

    ghost texts = { row_texts };

    fn begin<W: Write>(settings: &Settings, writer: &mut Output<W>) -> Result<(), ReplayFault> {
        write_heading(writer, has_pools(settings))?;
        Ok(())
    }

    fn write_message<F: Tree, S: Source<F>, W: Write>(
        server: &Server<'_, F>,
        _heads: &mut HeadRenderer,
        _source: &mut S,
        origin: Origin,
        what: &Meaning,
        decider: &mut Decider,
        writer: &mut Output<W>,
    ) -> Result<(), ReplayFault> {
        let lookup = look_up(server, what)?;
        let (charge, pool) = (charge_in(&lookup), pool_in(&lookup));
        let tick = server.tick(origin);
        // each route names one that is there
        let _pools = server.settings.tariff().pools();
        let found = decider.controller.outlook(pool, origin.tier, tick)?;
        let pending = decide_next(server, origin, what, lookup, decider)?;
        let row = row_of(
            origin,
            tick,
            charge,
            found,
            &pending,
            has_pools(server.settings),
        );
        write_row(writer, &row, method_of(what), target_of(what))?;
        Ok(())
    }

    fn finish<W: Write>(
        _alloc: Global,
        _writer: &mut Output<W>,
        _count: usize,
    ) -> Result<(), ReplayFault> {
        Ok(())
    }
}
