//! The floors of the staged engine, and what they work with.

ghost use Rattle.std.specs.Prelude.{◌≡◌, map, IfOk};
ghost use Rattle.stage_graph.specs.After.{last_cut};
ghost use Rattle.stage_graph.specs.Helpers.{AreSized};
ghost use Rattle.stage_graph.specs.Layouts.{IsChunkSize};
ghost use Rattle.stage_graph.specs.Steps.{value_of};
ghost use Rattle.replay.specs.Chunks.{AreFloorSteps, chunk_len, chunk_step, chunk_value};
ghost use Rattle.replay.specs.Groups.{page_capacity};

use crate::chunks::{Chunk, ChunkValue};
use crate::serving::{Pricing, Serving};
use paths::Tree;
use stage_graph::{Before, Carries, Gate, Plan, Unrun};
use std::sync::{Mutex, Wait};

/// The most messages of a chunk: so many take long enough that it pays to hand them on.
const MOST_IN_CHUNK: usize = 256;

/// How many chunks a floor has for each thread, where it has messages for so many: so none waits long for another.
const CHUNKS_EACH: usize = 4;

/// The floors of the staged engine, and what they work with.
#[derive(Drop)]
pub(crate) struct Floors<'v, 'a, F: Tree, K: Pricing, C, Q, G, T: Wait> {
    pub serving: &'a Serving<'a, F, K, T>,
    pub helpers: &'v C,
    pub register: &'v Mutex<Q>,
    pub gate: &'a G,
    /// How many threads work at a time.
    pub threads: usize,
    /// How many bytes of pages the replies of a group may hold: any number without it.
    pub capacity: Option<usize>,
    pub ghost held: { capacity ≡ page_capacity F.files serving.now.server.floors.cache },
}

impl<
    'v,
    'a,
    F: Tree,
    K: Pricing,
    Q,
    C: Carries<Chunk = Chunk<F>, Value = ChunkValue, Register = Q>,
    G: Gate,
    T: Wait,
> Floors<'v, 'a, F, K, C, Q, G, T> {
    /// Whether messages go through floors: where a gate sees them, and where a floor pays, if a second thread is there.
    /// Else the calling thread takes one after another through all stages.
    pub fn are_used(&self, pays: bool) -> bool {
        !self.gate.is_absent() || (self.threads > 1 && pays)
    }

    /// How many of so many messages are in a chunk at most, on a floor of this plan.
    pub fn chunk_size(&self, plan: &Plan, count: usize) -> usize
        ensures { IsChunkSize plan.now result }
    {
        let chunks = self.threads.saturating_mul(CHUNKS_EACH).max(1);
        plan.least_capacity((count / chunks).min(MOST_IN_CHUNK) + 1)
    }

    /// Takes chunks through a floor of this plan.
    pub fn run(
        &self,
        plan: &Plan,
        size: usize,
        before: Before,
        chunks: Vec<Chunk<F>>,
    ) -> Result<Vec<Chunk<F>>, Unrun>
        requires can { AreFloorSteps F.files K.tariff C.step C.content C.count }
        requires size { IsChunkSize plan.now size }
        requires chunks { AreSized chunk_len size chunks.items }
        ensures { IfOk result (λ v. map (chunk_value F.files) v.items
            ≡ map (λ chunk. value_of (chunk_step F.files self.now.serving.now.server.served.tariff) (last_cut plan.now)
            (chunk_value F.files chunk)) chunks.items) }
    {
        let serving = self.serving;
        let mut register = self.register.lock(serving.rt);
        let arrived = self
            .helpers
            .carry(&mut *register, plan, size, before, chunks)?;
        Ok(arrived)
    }
}
