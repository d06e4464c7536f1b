//! Pending replies in groups whose pages fit into memory.

ghost use Rattle.std.specs.Prelude.{◌≡◌, ◌≤◌, ◌++◌, ◌∷◌, [], sum_by, IfOk, IsTrue};
ghost use Rattle.replay.specs.Groups.{all_of, page_len, page_capacity, AreGroups, AreGroupsFor, Lays};

use crate::pending::{PendingAnswer, PendingReply};
use arrivals::Series;
use page_cache::PageCache;
use paths::{Snapshot, Tree};
use std::alloc::{AllocError, Global};
use std::sync::{Mutex, Wait};

/// How many bytes of pages the replies of a group hold at most, where the cache can't hold the pages of all files.
const MAX_HELD: usize = 33_554_432;

/// How many bytes of fields a page is counted with, besides those of its file: it has fewer.
const FIELDS: usize = 256;

/// How many bytes are copied in the time that a reply takes besides its page.
const REPLY: usize = 512;

/// How many bytes of pages the replies of a group may hold. Where the cache has capacity for the pages of all files,
/// each is in memory once, however many replies share it.
pub(crate) fn page_capacity(snapshot: &Snapshot, cache: usize) -> Option<usize>
    ensures { result ≡ page_capacity snapshot.now cache }
{
    let mut held: usize = 0;
    for file in 0..snapshot.len() {
        let page = snapshot.bytes(file).len() + FIELDS;
        if page > cache - held {
            return Some(MAX_HELD);
        }
        held += page;
    }
    None
}

/// How many bytes of a file the page of a pending reply holds.
pub(crate) fn page_len<F: Tree>(snapshot: &Snapshot, pending: &PendingReply<F>) -> usize
    ensures { result ≡ page_len snapshot.now pending.now }
{
    match &pending.answer {
        PendingAnswer::Page { file, .. } if *file < snapshot.len() => snapshot.bytes(*file).len(),
        _ => 0,
    }
}

/// Puts a group after the others if it is full: what is left of it, and how many bytes of pages that holds.
fn laid_by<F: Tree>(
    alloc: Global,
    groups: &mut Vec<Series<PendingReply<F>>>,
    group: Vec<PendingReply<F>>,
    held: usize,
    is_full: bool,
) -> Result<(Vec<PendingReply<F>>, usize), AllocError>
    ensures all { IfOk result
        (λ left. all_of groups.new.items ++ left.0.items ≡ all_of groups.old.items ++ group.items) }
    ensures lays { IfOk result
        (λ left. Lays is_full groups.old.items group.items held groups.new.items left.0.items left.1) }
{
    if !is_full {
        return Ok((group, held));
    }
    groups.push(Series::from_vec(group))?;
    Ok((Vec::new(alloc), 0))
}

/// Whether the pages of all pending replies fit, each counted as often as a reply needs it.
fn all_fit<F: Tree>(
    snapshot: &Snapshot,
    capacity: usize,
    pending_replies: &[PendingReply<F>],
) -> bool
    ensures { IsTrue result → sum_by (page_len snapshot.now) pending_replies.now ≤ capacity }
{
    let mut held: usize = 0;
    for pending in pending_replies {
        let own = page_len(snapshot, pending);
        if own > capacity - held {
            return false;
        }
        held += own;
    }
    true
}

/// How much work a group is at most, in bytes that are copied: what its replies cost besides their pages, and all their
/// pages.
fn most_work_of<F: Tree>(snapshot: &Snapshot, pending_replies: &[PendingReply<F>]) -> usize {
    let mut work: usize = 0;
    for pending in pending_replies {
        let page = page_len(snapshot, pending);
        work = work.saturating_add(REPLY).saturating_add(page);
    }
    work
}

/// How much work a group is, in bytes that are copied: what its replies cost besides their pages, and the pages that
/// aren't in the cache when the group is begun, each counted as often as a reply needs it. Where it is less than `much`
/// with the pages that are in the cache, these count too.
pub(crate) fn work_of<F: Tree, R: Wait>(
    rt: &R,
    snapshot: &Snapshot,
    cache: &Mutex<PageCache<F>>,
    much: usize,
    pending_replies: &[PendingReply<F>],
) -> usize {
    let most = most_work_of(snapshot, pending_replies);
    if most < much {
        return most;
    }
    let pages = cache.lock(rt);
    let mut work: usize = 0;
    for pending in pending_replies {
        work = work.saturating_add(REPLY);
        if let PendingAnswer::Page { file, .. } = &pending.answer {
            if !pages.holds(*file) {
                work = work.saturating_add(page_len(snapshot, pending));
            }
        }
    }
    work
}

/// The pending replies in one group.
fn one_group<F: Tree>(
    alloc: Global,
    pending_replies: Vec<PendingReply<F>>,
) -> Result<Vec<Series<PendingReply<F>>>, AllocError>
    ensures { IfOk result (λ groups. groups.items ≡ pending_replies.items ∷ []) }
{
    let mut whole = Vec::with_capacity(alloc, 1)?;
    whole.push(Series::from_vec(pending_replies))?;
    Ok(whole)
}

/// The pending replies in groups, one after another: the pages of a group take no more than `capacity` bytes, or are
/// one alone, and it ends only where the next one doesn't fit. Without a `capacity` there is one group.
pub(crate) fn groups_of<F: Tree>(
    alloc: Global,
    snapshot: &Snapshot,
    capacity: Option<usize>,
    pending_replies: Vec<PendingReply<F>>,
) -> Result<Vec<Series<PendingReply<F>>>, AllocError>
    ensures all { IfOk result (λ groups. all_of groups.items ≡ pending_replies.items) }
    ensures groups { IfOk result
        (λ groups. AreGroupsFor (page_len snapshot.now) capacity groups.items) }
{
    match capacity {
        Some(capacity) if !all_fit(snapshot, capacity, &pending_replies) => {
            divided(alloc, snapshot, capacity, pending_replies)
        }
        _ => one_group(alloc, pending_replies),
    }
}

/// The pending replies in groups whose pages take no more than `capacity` bytes, or are one alone.
fn divided<F: Tree>(
    alloc: Global,
    snapshot: &Snapshot,
    capacity: usize,
    pending_replies: Vec<PendingReply<F>>,
) -> Result<Vec<Series<PendingReply<F>>>, AllocError>
    ensures all { IfOk result (λ groups. all_of groups.items ≡ pending_replies.items) }
    ensures groups { IfOk result
        (λ groups. AreGroups (page_len snapshot.now) capacity groups.items) }
{
    let mut groups = Vec::new(alloc);
    let mut group = Vec::new(alloc);
    let mut held: usize = 0;
    for pending in pending_replies {
        let own = page_len(snapshot, &pending);
        let is_full = own > capacity.saturating_sub(held);
        let (mut left, before) = laid_by(alloc, &mut groups, group, held, is_full)?;
        left.push(pending)?;
        group = left;
        held = before + own;
    }
    groups.push(Series::from_vec(group))?;
    Ok(groups)
}
