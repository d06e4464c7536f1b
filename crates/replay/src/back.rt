//! The back floor: a pending reply becomes a reply, with its page out of the cache.

ghost use Rattle.std.specs.Prelude.{◌≡◌, ◌<◌, ◌++◌, true, List, length, map, flat_map, IfOk, OnOk};
ghost use Rattle.std.specs.List.{list_all};
ghost use Rattle.std.specs.Arc.{arc_value};
ghost use Rattle.stage_graph.specs.Helpers.{AreSized};
ghost use Rattle.replay.specs.Chunks.{AreFloorSteps, chunk_len, decided_value, decided_in};
ghost use Rattle.replay.specs.declared.back.BackState.TheVariants.{Pending};
ghost use Rattle.replay.specs.Backs.{slip_of_pending, pending_elsewhere, is_back, can_render, is_answer, reply_in};
ghost use Rattle.replay.specs.Backs.{reply_to, back_after};

use crate::chunks::{Chunk, ChunkValue, Decided};
use crate::floors::Floors;
use crate::groups::page_len;
use crate::pending::{PendingAnswer, PendingReply};
use crate::serving::{Pricing, Serving, empty_chunk, laid_by, last_laid_by};
use page_cache::{Page, PageCache};
use paths::{Snapshot, Tree};
use responses::{Reply, ResponseKind, SharedPage, Slip, render};
use stage_graph::{Before, Carries, Gate, Unrun};
use std::alloc::{AllocError, Global};
use std::sync::{Arc, Mutex, Wait};

/// A page of more bytes ends its chunk: it takes as long as many small ones.
const LARGE: usize = 16_384;

/// Stands for a tree in a type where none is named.
#[derive(Drop)]
pub struct Unnamed;

impl Tree for Unnamed {
    ghost use Rattle.std.specs.Prelude.{[]};

    ghost files = { [] };
}

/// How far a reply has come.
#[derive(Drop)]
pub enum BackState<F: Tree> {
    /// All but the page is there.
    Pending(PendingReply<F>),
    /// The page is there.
    Fetched(Slip<F>),
    Rendered(Reply<F>),
}

/// The page of a file: from the cache, or built and kept there.
pub(crate) fn find_page<F: Tree, R: Wait>(
    rt: &R,
    alloc: Global,
    snapshot: &Snapshot,
    cache: &Mutex<PageCache<F>>,
    file: usize,
) -> Result<Arc<Page<F>>, AllocError>
    requires snapshot { snapshot.now ≡ F.files }
    requires file { file < length F.files }
    ensures { IfOk result (λ p. arc_value p ≡ file) }
{
    let found = cache.lock(rt).look(file)?;
    if let Some(page) = found {
        return Ok(page);
    }
    let page = Page::build(alloc, snapshot, file)?;
    let _kept = cache.lock(rt).keep(Arc::try_clone(&page)?);
    Ok(page)
}

impl<'a, F: Tree, K: Pricing, T: Wait> Serving<'a, F, K, T> {
    /// The page of a file: from the cache, or built and kept there.
    fn page(&self, file: usize) -> Result<SharedPage<F>, AllocError>
        requires { file < length F.files }
        ensures { IfOk result (λ p. p ≡ file) }
    {
        let page = find_page(
            self.rt,
            self.server.alloc,
            self.server.snapshot,
            &self.cache,
            file,
        )?;
        Ok(SharedPage::new(page))
    }

    /// Fetches the page of a pending reply, where it needs one.
    fn fetch(&self, pending: PendingReply<F>) -> Result<Slip<F>, AllocError>
        requires { is_answer F.files pending.answer ≡ true }
        ensures ok { IfOk result (λ slip. slip ≡ slip_of_pending pending) }
    {
        let PendingReply {
            number,
            conn,
            date,
            head,
            link,
            answer,
        } = pending;
        let what = match answer {
            PendingAnswer::Ready(what) => what,
            PendingAnswer::Page { file, mtime } => ResponseKind::Page {
                page: self.page(file)?,
                mtime,
            },
        };
        Ok(Slip {
            number,
            conn,
            date,
            head,
            link,
            what,
        })
    }

    /// Does one more step to a reply.
    pub(crate) fn advance(&self, state: BackState<F>) -> Result<BackState<F>, AllocError>
        requires { is_back F.files state ≡ true }
        ensures ok { IfOk result (λ s. s ≡ back_after F.files state) }
        ensures is { IfOk result (λ s. is_back F.files s ≡ true) }
    {
        match state {
            BackState::Pending(pending) => Ok(BackState::Fetched(self.fetch(pending)?)),
            BackState::Fetched(slip) => Ok(BackState::Rendered(render(self.server.alloc, slip)?)),
            BackState::Rendered(reply) => Ok(BackState::Rendered(reply)),
        }
    }
}

/// The pending replies in chunks of at most so many. A large page ends its chunk.
fn back_chunks<F: Tree>(
    alloc: Global,
    snapshot: &Snapshot,
    size: usize,
    pending_replies: Vec<PendingReply<F>>,
) -> Result<Vec<Chunk<F>>, AllocError>
    requires size { 0 < size }
    requires ready { list_all (λ t. is_back F.files (Pending t)) pending_replies.items ≡ true }
    ensures all { IfOk result (λ chunks. map decided_value (decided_in chunks.items)
        ≡ map (λ t. Pending (pending_elsewhere t)) pending_replies.items) }
    ensures sized { IfOk result (λ chunks. AreSized chunk_len size chunks.items) }
{
    let mut chunks = Vec::new(alloc);
    let mut chunk = empty_chunk(alloc);
    for pending in pending_replies {
        let ends = page_len(snapshot, &pending) > LARGE;
        chunk.back.push(Decided {
            state: BackState::Pending(pending),
        })?;
        chunk = laid_by(alloc, size, ends, &mut chunks, chunk)?;
    }
    last_laid_by(size, &mut chunks, chunk)?;
    Ok(chunks)
}

/// The reply of an item, where it is rendered, after others.
fn add_reply<F: Tree>(replies: &mut Vec<Reply<F>>, state: BackState<F>) -> Result<(), AllocError>
    ensures { OnOk result (replies.new.items ≡ replies.old.items ++ reply_in state) }
{
    match state {
        BackState::Rendered(reply) => {
            replies.push(reply)?;
            Ok(())
        }
        BackState::Pending(_) | BackState::Fetched(_) => Ok(()),
    }
}

/// The replies of a chunk, after others.
fn add_replies<F: Tree>(replies: &mut Vec<Reply<F>>, chunk: Chunk<F>) -> Result<(), AllocError>
    ensures { OnOk result
        (replies.new.items ≡ replies.old.items ++ flat_map (λ x. reply_in x.state) chunk.back.items) }
{
    for item in chunk.back {
        let Decided { state, .. } = item;
        add_reply(replies, state)?;
    }
    Ok(())
}

/// The replies of some chunks, of which there are so many.
fn replies_of<F: Tree>(
    alloc: Global,
    count: usize,
    chunks: Vec<Chunk<F>>,
) -> Result<Vec<Reply<F>>, AllocError>
    ensures { IfOk result
        (λ v. v.items ≡ flat_map (λ chunk. flat_map (λ x. reply_in x.state) chunk.back.items) chunks.items) }
{
    let mut replies = Vec::with_capacity(alloc, count)?;
    for chunk in chunks {
        add_replies(&mut replies, chunk)?;
    }
    Ok(replies)
}

/// The pending replies with their pages, by the back floor of the settings.
pub(crate) fn run_back<
    F: Tree,
    K: Pricing,
    Q,
    C: Carries<Chunk = Chunk<F>, Value = ChunkValue, Register = Q>,
    G: Gate,
    T: Wait,
>(
    floors: &Floors<'_, '_, F, K, C, Q, G, T>,
    first: usize,
    pending_replies: Vec<PendingReply<F>>,
) -> Result<Vec<Reply<F>>, Unrun>
    requires can { AreFloorSteps F.files K.tariff C.step C.content C.count }
    requires ready { list_all (λ t. is_back F.files (Pending t)) pending_replies.items ≡ true }
    ensures replies { IfOk result
        (λ v. v.items ≡ map (λ t. reply_to F.files (slip_of_pending t)) pending_replies.items) }
{
    let serving = floors.serving;
    let server = &serving.server;
    let settings = server.settings;
    let plan = settings.back();
    let count = pending_replies.len();
    let size = floors.chunk_size(plan, count);
    let chunks = back_chunks(server.alloc, server.snapshot, size, pending_replies)?;
    let before = Before {
        stages: settings.front().stages(),
        items: first,
    };
    let arrived = floors.run(plan, size, before, chunks)?;
    Ok(replies_of(server.alloc, count, arrived)?)
}
