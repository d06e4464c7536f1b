//! The steps that helpers do to chunks of messages, and the chunks that they are given.

ghost use Rattle.std.specs.Prelude.{◌≡◌, ◌<◌, ◌≤◌, ◌++◌, [], map, IfOk, OnOk};
ghost use Rattle.stage_graph.specs.Helpers.{AreSized};
ghost use Rattle.replay.specs.Fronts.{floor_step};
ghost use Rattle.replay.specs.Backs.{back_step};
ghost use Rattle.replay.specs.Chunks.{chunk_step, chunk_len, chunk_value, seen_value, decided_value, seen_in};
ghost use Rattle.replay.specs.Chunks.{decided_in};

use crate::chunks::{Chunk, ChunkValue, Decided, Seen};
use crate::server::Server;
use page_cache::PageCache;
use paths::Tree;
use stage_graph::Steps;
use std::alloc::{AllocError, Global};
use std::marker::{Brand, PhantomData};
use std::sync::{Mutex, Wait};

/// Names what requests cost.
pub trait Pricing {
    ghost use Rattle.cost_model.specs.Reference.{Tariff as TariffRow};

    ghost tariff: { TariffRow };
}

impl Pricing for Brand {
    ghost use Rattle.std.specs.Prelude.{[]};

    ghost tariff = { record {
      costs = record { file = 1; kib = 0; error = 1; servers = 1; delay = 0 };
      routes = [];
      pools = [];
    } };
}

/// What the steps of both floors work with.
#[derive(Drop)]
pub(crate) struct Serving<'a, F: Tree, K: Pricing, T: Wait> {
    pub rt: &'a T,
    pub server: Server<'a, F>,
    pub cache: Mutex<PageCache<F>>,
    pub of: PhantomData<K>,
    pub ghost table: { server.served.tariff ≡ K.tariff },
}

impl<'a, F: Tree, K: Pricing, T: Wait> Serving<'a, F, K, T> {
    /// The floors work with this cache, whose pages have at most as many bytes together as the settings say.
    pub fn new(rt: &'a T, server: Server<'a, F>, cache: PageCache<F>) -> Serving<'a, F, K, T>
        requires tariff { server.served.tariff ≡ K.tariff }
        requires limit { cache.limit ≡ server.floors.cache }
        ensures { result.server ≡ server.entry }
    {
        Serving {
            rt,
            server,
            cache: Mutex::new(cache),
            of: PhantomData,
        }
    }

    /// Looks one step further into each of these messages, after so many steps.
    fn look_all(&self, done: usize, items: Vec<Seen<F>>) -> Result<Vec<Seen<F>>, AllocError>
        ensures { IfOk result (λ v. map (seen_value F.files) v.items
            ≡ map (floor_step F.files K.tariff done) (map (seen_value F.files) items.items)) }
    {
        let mut looked = Vec::with_capacity(self.server.alloc, items.len())?;
        for item in items {
            let Seen {
                message,
                lookup,
                of,
            } = item;
            let lookup = self.look(done, &message.what, lookup)?;
            looked.push(Seen {
                message,
                lookup,
                of,
            })?;
        }
        Ok(looked)
    }

    /// Does one more step to each of these replies.
    fn advance_all(&self, items: Vec<Decided<F>>) -> Result<Vec<Decided<F>>, AllocError>
        ensures { IfOk result (λ v. map decided_value v.items
            ≡ map (back_step F.files 0) (map decided_value items.items)) }
    {
        let mut further = Vec::with_capacity(self.server.alloc, items.len())?;
        for item in items {
            let state = self.advance(item.state)?;
            further.push(Decided { state })?;
        }
        Ok(further)
    }
}

/// The steps of both floors.
#[derive(Drop)]
pub(crate) struct FloorSteps<'a, F: Tree, K: Pricing, T: Wait> {
    pub serving: &'a Serving<'a, F, K, T>,
}

impl<'a, F: Tree, K: Pricing, T: Wait> Steps for FloorSteps<'a, F, K, T> {
    type Chunk = Chunk<F>;

    type Value = ChunkValue;

    ghost step = { chunk_step F.files K.tariff };

    ghost content = { chunk_value F.files };

    ghost count = { chunk_len };

    fn work(&self, number: usize, chunk: Chunk<F>) -> Option<Chunk<F>> {
        let Chunk { front, back } = chunk;
        let Ok(front) = self.serving.look_all(number, front) else {
            return None;
        };
        let Ok(back) = self.serving.advance_all(back) else {
            return None;
        };
        Some(Chunk { front, back })
    }

    fn len(&self, chunk: &Chunk<F>) -> usize {
        chunk.front.len().saturating_add(chunk.back.len())
    }
}

/// A chunk without a message.
pub(crate) fn empty_chunk<F: Tree>(alloc: Global) -> Chunk<F>
    ensures front { result.front.items ≡ [] }
    ensures back { result.back.items ≡ [] }
{
    Chunk {
        front: Vec::new(alloc),
        back: Vec::new(alloc),
    }
}

/// Puts a chunk after the others where it is full, or ends: what is left of it.
pub(crate) fn laid_by<F: Tree>(
    alloc: Global,
    size: usize,
    ends: bool,
    chunks: &mut Vec<Chunk<F>>,
    chunk: Chunk<F>,
) -> Result<Chunk<F>, AllocError>
    requires size { (0 < chunk_len chunk) × (chunk_len chunk ≤ size) }
    requires sized { AreSized chunk_len size chunks.old.items }
    ensures fronts { IfOk result
        (λ rest. seen_in chunks.new.items ++ rest.front.items
        ≡ seen_in chunks.old.items ++ chunk.front.items) }
    ensures backs { IfOk result
        (λ rest. decided_in chunks.new.items ++ rest.back.items
        ≡ decided_in chunks.old.items ++ chunk.back.items) }
    ensures sized { OnOk result (AreSized chunk_len size chunks.new.items) }
    ensures capacity { IfOk result (λ rest. chunk_len rest < size) }
{
    if !ends && chunk.front.len().saturating_add(chunk.back.len()) < size {
        return Ok(chunk);
    }
    chunks.push(chunk)?;
    Ok(empty_chunk(alloc))
}

/// Puts what is left of the last chunk after the others.
pub(crate) fn last_laid_by<F: Tree>(
    size: usize,
    chunks: &mut Vec<Chunk<F>>,
    chunk: Chunk<F>,
) -> Result<(), AllocError>
    requires size { chunk_len chunk ≤ size }
    requires sized { AreSized chunk_len size chunks.old.items }
    ensures fronts { OnOk result (seen_in chunks.new.items
        ≡ seen_in chunks.old.items ++ chunk.front.items) }
    ensures backs { OnOk result (decided_in chunks.new.items
        ≡ decided_in chunks.old.items ++ chunk.back.items) }
    ensures sized { OnOk result (AreSized chunk_len size chunks.new.items) }
{
    let _size = size;
    if chunk.front.is_empty() && chunk.back.is_empty() {
        return Ok(());
    }
    chunks.push(chunk)?;
    Ok(())
}
