//! What is known of a message before it is decided on.

ghost use Rattle.std.specs.Prelude.{◌≡◌, ◌<◌, ◌≤◌, ◌-◌, ◌+◌, ◌^◌, IfOk};
ghost use Rattle.reference.specs.Reference.{is_unmodified, answers_head, is_unmodified_file, length_found};
ghost use Rattle.replay.specs.Fronts.{lookup_of};
ghost use Rattle.paths.specs.Resolution.{IsOutcome};
ghost use Rattle.cost_model.specs.Reference.{charge};

use crate::server::Server;
use arrivals::Incoming;
use cost_model::{Charge, Tariff};
use http_requests::Meaning;
use paths::{Asked, Outcome, Snapshot, Tree, resolve};
use std::alloc::{AllocError, Global};

/// How far a message was looked up before it is decided on.
#[derive(Drop)]
pub enum Lookup {
    /// It is as it came.
    Unseen,
    /// Its target was read.
    Asked(Asked),
    /// It was looked up.
    Found(Outcome),
    /// What it costs was computed.
    Priced(Outcome, Charge),
}

/// A message, and how far it was looked up.
#[derive(Drop)]
pub struct LookedUp {
    pub message: Incoming,
    pub lookup: Lookup,
}

/// Whether a message asks for a head alone.
pub(crate) fn answers_head(what: &Meaning) -> bool
    ensures { result ≡ answers_head what.now }
{
    match what {
        Meaning::Request { method, .. } => method.as_slice() == b"HEAD".as_slice(),
        Meaning::Bad(_) => false,
    }
}

/// Whether a file was not modified since the date that the request names.
pub(crate) fn is_unmodified(since: Option<u64>, mtime: u64) -> bool
    ensures { result ≡ is_unmodified since mtime }
{
    match since {
        Some(date) => mtime <= date,
        None => false,
    }
}

/// What a request with this target and this outcome costs.
pub(crate) fn charge_of(
    alloc: Global,
    snapshot: &Snapshot,
    tariff: &Tariff,
    target: &[u8],
    head: bool,
    since: Option<u64>,
    outcome: &Outcome,
) -> Result<Charge, AllocError>
    requires { IsOutcome snapshot.now outcome.now }
    ensures { IfOk result (λ c. c
        ≡ charge tariff.now target.now outcome.now head (is_unmodified_file snapshot.now since outcome.now)
        (length_found snapshot.now outcome.now)) }
{
    match outcome {
        Outcome::File(file) => {
            let unmodified = is_unmodified(since, snapshot.mtime(*file));
            let len = snapshot.bytes(*file).len() as u64;
            tariff.charge(alloc, target, outcome, head, unmodified, len)
        }
        _ => tariff.charge(alloc, target, outcome, head, false, 0),
    }
}

/// What is known of a message before it is decided on.
pub(crate) fn look_up<F: Tree>(server: &Server<'_, F>, what: &Meaning) -> Result<Lookup, AllocError>
    ensures { IfOk result (λ lookup. lookup ≡ lookup_of F.files server.now.served.tariff what.now) }
{
    let Meaning::Request {
        method,
        target,
        modified_since,
        ..
    } = what
    else {
        return Ok(Lookup::Unseen);
    };
    let settings = server.settings;
    let outcome = resolve(
        server.alloc,
        server.snapshot,
        method.as_slice(),
        target.as_slice(),
    )?;
    let head = answers_head(what);
    let charge = charge_of(
        server.alloc,
        server.snapshot,
        settings.tariff(),
        target.as_slice(),
        head,
        *modified_since,
        &outcome,
    )?;
    Ok(Lookup::Priced(outcome, charge))
}
