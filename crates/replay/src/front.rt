//! The front floor: what answers each message of a part, and how long that takes.

ghost use Rattle.std.specs.Prelude.{◌≡◌, ◌<◌, ◌++◌, IfOk, OnOk, map, flat_map};
ghost use Rattle.stage_graph.specs.Helpers.{AreSized};
ghost use Rattle.replay.specs.Floors.{served_by};
ghost use Rattle.replay.specs.Chunks.{AreFloorSteps, chunk_len, seen_value, seen_in};
ghost use Rattle.replay.specs.Fronts.{front_value, IsLookup, unseen, floor_lookup, seen_as};
ghost use Rattle.paths.specs.Reference.{asked, outcome};
ghost use Rattle.paths.specs.Resolution.{IsOutcome};
ghost use Rattle.replay.specs.declared.lookup.Lookup.TheVariants.{Unseen, Found};

use crate::chunks::{Chunk, ChunkValue, Seen};
use crate::floors::Floors;
use crate::lookup::{LookedUp, Lookup, answers_head, charge_of};
use crate::serving::{Pricing, Serving, empty_chunk, laid_by, last_laid_by};
use arrivals::Incoming;
use http_requests::Meaning;
use paths::{Outcome, Tree, find_plain, inspect, locate};
use stage_graph::{Before, Carries, Gate, Unrun};
use std::alloc::{AllocError, Global};
use std::marker::PhantomData;
use std::sync::Wait;

/// The number of the step that prices a request, after those that find what it asks for.
const LAST_STEP: usize = 2;

impl<'a, F: Tree, K: Pricing, T: Wait> Serving<'a, F, K, T> {
    /// Reads what a request asks for. A file that its target names literally is found at once, without memory.
    fn read(&self, method: &[u8], target: &[u8]) -> Result<Lookup, AllocError>
        ensures ok { IfOk result
            (λ s. seen_as F.files s ≡ Found (outcome F.files (asked method.now target.now))) }
        ensures is { IfOk result (IsLookup F.files) }
    {
        if let Some(file) = find_plain(self.server.snapshot, method, target) {
            return Ok(Lookup::Found(Outcome::File(file)));
        }
        let asked = inspect(self.server.alloc, method, target)?;
        Ok(Lookup::Asked(asked))
    }

    /// What is known of a message after this step where this is what it asks for: the last step prices it.
    fn found(&self, done: usize, what: &Meaning, outcome: Outcome) -> Result<Lookup, AllocError>
        requires { IsOutcome F.files outcome }
        ensures lookup { IfOk result (λ s. seen_as F.files s
            ≡ floor_lookup F.files K.tariff done what.now (Found outcome)) }
        ensures is { IfOk result (IsLookup F.files) }
    {
        let Meaning::Request {
            target,
            modified_since,
            ..
        } = what
        else {
            return Ok(Lookup::Found(outcome));
        };
        if done < LAST_STEP {
            return Ok(Lookup::Found(outcome));
        }
        let head = answers_head(what);
        let settings = self.server.settings;
        let charge = charge_of(
            self.server.alloc,
            self.server.snapshot,
            settings.tariff(),
            target.as_slice(),
            head,
            *modified_since,
            &outcome,
        )?;
        Ok(Lookup::Priced(outcome, charge))
    }

    /// Looks one step further into a message, after so many steps.
    pub(crate) fn look(
        &self,
        done: usize,
        what: &Meaning,
        lookup: Lookup,
    ) -> Result<Lookup, AllocError>
        requires { IsLookup F.files lookup }
        ensures ok { IfOk result
            (λ s. seen_as F.files s ≡ floor_lookup F.files K.tariff done what.now (seen_as F.files lookup)) }
        ensures is { IfOk result (IsLookup F.files) }
    {
        let Meaning::Request { method, target, .. } = what else {
            return Ok(lookup);
        };
        match lookup {
            Lookup::Unseen => self.read(method.as_slice(), target.as_slice()),
            Lookup::Asked(asked) => {
                let outcome = locate(self.server.alloc, self.server.snapshot, &asked)?;
                self.found(done, what, outcome)
            }
            Lookup::Found(outcome) => self.found(done, what, outcome),
            Lookup::Priced(outcome, charge) => Ok(Lookup::Priced(outcome, charge)),
        }
    }
}

/// The messages in chunks of at most so many.
fn front_chunks<F: Tree>(
    alloc: Global,
    size: usize,
    messages: Vec<Incoming>,
) -> Result<Vec<Chunk<F>>, AllocError>
    requires size { 0 < size }
    ensures all { IfOk result (λ chunks. map (seen_value F.files) (seen_in chunks.items)
        ≡ map unseen messages.items) }
    ensures sized { IfOk result (λ chunks. AreSized chunk_len size chunks.items) }
{
    let mut chunks = Vec::new(alloc);
    let mut chunk = empty_chunk(alloc);
    for message in messages {
        chunk.front.push(Seen {
            message,
            lookup: Lookup::Unseen,
            of: PhantomData,
        })?;
        chunk = laid_by(alloc, size, false, &mut chunks, chunk)?;
    }
    last_laid_by(size, &mut chunks, chunk)?;
    Ok(chunks)
}

/// What is known of the messages of a chunk, after others.
fn add_lookups<F: Tree>(lookups: &mut Vec<LookedUp>, chunk: Chunk<F>) -> Result<(), AllocError>
    ensures { OnOk result (lookups.new.items ≡ lookups.old.items
        ++ map (λ x. record { message = x.message; lookup = x.lookup }) chunk.front.items) }
{
    for item in chunk.front {
        let Seen {
            message,
            lookup,
            ..
        } = item;
        lookups.push(LookedUp { message, lookup })?;
    }
    Ok(())
}

/// What is known of the messages of some chunks, of which there are so many.
fn lookups_of<F: Tree>(
    alloc: Global,
    count: usize,
    chunks: Vec<Chunk<F>>,
) -> Result<Vec<LookedUp>, AllocError>
    ensures { IfOk result (λ v. v.items
        ≡ flat_map (λ chunk. map (λ x. record { message = x.message; lookup = x.lookup }) chunk.front.items)
        chunks.items) }
{
    let mut lookups = Vec::with_capacity(alloc, count)?;
    for chunk in chunks {
        add_lookups(&mut lookups, chunk)?;
    }
    Ok(lookups)
}

/// What is known of each message before it is decided on, by the front floor of the settings.
pub(crate) fn run_front<
    F: Tree,
    K: Pricing,
    Q,
    C: Carries<Chunk = Chunk<F>, Value = ChunkValue, Register = Q>,
    G: Gate,
    T: Wait,
>(
    floors: &Floors<'_, '_, F, K, C, Q, G, T>,
    first: usize,
    messages: Vec<Incoming>,
) -> Result<Vec<LookedUp>, Unrun>
    requires can { AreFloorSteps F.files K.tariff C.step C.content C.count }
    ensures seen { IfOk result
        (λ v. v.items ≡ map (front_value F.files (served_by floors.now).tariff) messages.items) }
{
    let serving = floors.serving;
    let server = &serving.server;
    let alloc = server.alloc;
    let settings = server.settings;
    let plan = settings.front();
    let count = messages.len();
    let size = floors.chunk_size(plan, count);
    let chunks = front_chunks(alloc, size, messages)?;
    let before = Before {
        stages: 0,
        items: first,
    };
    let arrived = floors.run(plan, size, before, chunks)?;
    Ok(lookups_of(alloc, count, arrived)?)
}
