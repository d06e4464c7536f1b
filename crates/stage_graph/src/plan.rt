//! A plan: how steps are cut into stages, with their workers and the capacities of their queues.

ghost use Rattle.std.specs.Prelude.{◌≡◌, ℕ, ◌*◌, ◌<◌, ◌≤◌, length, nat_le, nat_eq, ◌&&◌, ◌||◌, IfOk, OnOk, ◌++◌};
ghost use Rattle.std.specs.Prelude.{replicate, None, IsTrue};
ghost use Rattle.stage_graph.specs.Floors.{idle_before};
ghost use Rattle.stage_graph.specs.After.{last_cut};
ghost use Rattle.stage_graph.specs.PlanFaults.{plan_fault, AnswersFault};
ghost use Rattle.stage_graph.specs.Layouts.{layout_of, is_rising, are_within, posts_of, IsPlan, stages, workers};
ghost use Rattle.stage_graph.specs.Layouts.{stage_at, cut_at, capacity_at, IsChunkSize};
ghost use Rattle.stage_graph.specs.Through.{IsFloorInChunks};

use stage_queue::Memory;
use std::alloc::{AllocError, Global};
use std::marker::Model;
use thiserror::Error;

/// How the steps of a chain are cut into stages, how many workers each stage has, and how many items its queue
/// holds. Workers are numbered through the stages, from 0. Contracts see a plan as its layout.
#[derive(Drop)]
pub struct Plan {
    cuts: Vec<usize>,
    posts: Vec<usize>,
    capacities: Vec<usize>,
}

impl Model for Plan {
    ghost use Rattle.stage_graph.specs.Layouts.{Layout, IsPlan, HasCapacity};

    ghost Value = { Layout };

    ghost view = { λ p. record { cuts = p.cuts.items; posts = p.posts.items; capacities = p.capacities.items } };

    ghost invariant = { λ p. IsPlan
        (record { cuts = p.cuts.items; posts = p.posts.items; capacities = p.capacities.items })
        × HasCapacity (record { cuts = p.cuts.items; posts = p.posts.items; capacities = p.capacities.items }) };
}

/// Why there is no plan: the first of these, in this order.
#[derive(Clone, Copy, PartialEq, Eq, Debug, Error)]
pub enum PlanFault {
    /// There is no cut.
    #[error("a plan has at least one stage")]
    Empty,
    /// The cuts don't rise strictly from at least 1.
    #[error("the cuts of a plan rise strictly from at least 1")]
    Order,
    /// There are not as many numbers of workers as cuts, or one is not from 1 to 16.
    #[error("each stage has from 1 to 16 workers")]
    Workers,
    /// There are not as many capacities as cuts, or one is not from 1 to 4,096.
    #[error("each queue has a capacity from 1 to 4096")]
    Capacity,
    /// Memory ran out.
    #[error("out of memory")]
    Memory,
}

impl Plan {
    /// The plan whose stage s ends where `cuts[s]` steps are done, with `worker_counts[s]` workers and a queue of
    /// `capacities[s]` items.
    pub fn new(
        alloc: Global,
        cuts: &[usize],
        worker_counts: &[usize],
        capacities: &[usize],
    ) -> Result<Plan, PlanFault>
        ensures ok { IfOk result (λ p. p ≡ layout_of cuts.now worker_counts.now capacities.now) }
        ensures fault { AnswersFault (plan_fault cuts.now worker_counts.now capacities.now) result }
    {
        if let Some(fault) = plan_fault(cuts, worker_counts, capacities) {
            return Err(fault);
        }
        match laid_out(alloc, cuts, worker_counts, capacities) {
            Ok(plan) => Ok(plan),
            Err(_) => Err(PlanFault::Memory),
        }
    }

    /// The same plan again.
    pub fn try_clone(&self, alloc: Global) -> Result<Plan, Memory>
        ensures { IfOk result (λ p. p ≡ self.now) }
    {
        let cuts = Vec::from_slice(alloc, &self.cuts)?;
        let posts = Vec::from_slice(alloc, &self.posts)?;
        let capacities = Vec::from_slice(alloc, &self.capacities)?;
        Ok(Plan {
            cuts,
            posts,
            capacities,
        })
    }

    // The plan of the floor on which items travel in chunks of at most so many: each queue has capacity for one chunk
    // at least, and for no more items than before.
    pub(crate) fn in_chunks(&self, alloc: Global, size: usize) -> Result<Plan, Memory>
        requires { IsChunkSize self.now size }
        ensures { IfOk result (IsFloorInChunks self.now size) }
    {
        let cuts = Vec::from_slice(alloc, &self.cuts)?;
        let posts = Vec::from_slice(alloc, &self.posts)?;
        let mut capacities = Vec::with_capacity(alloc, self.capacities.len())?;
        for capacity in &self.capacities {
            capacities.push_reserved(chunks_within(*capacity, size));
        }
        Ok(Plan {
            cuts,
            posts,
            capacities,
        })
    }

    /// The least capacity of a queue, or this number if that is less: a chunk of so many items fits into each queue.
    pub fn least_capacity(&self, most: usize) -> usize
        requires { 0 < most }
        ensures { IsChunkSize self.now result }
    {
        let mut least = most;
        for stage in 0..self.capacities.len() {
            least = least.min(self.capacities[stage]);
        }
        least
    }

    // Whether both are one plan.
    pub(crate) fn is_same(&self, other: &Plan) -> bool
        ensures { IsTrue result → self.now ≡ other.now }
    {
        self.cuts.as_slice() == other.cuts.as_slice()
            && self.posts.as_slice() == other.posts.as_slice()
            && self.capacities.as_slice() == other.capacities.as_slice()
    }

    /// How many stages there are.
    pub fn stages(&self) -> usize
        ensures count { result ≡ stages self.now }
        ensures plan { IsPlan self.now }
    {
        self.cuts.len()
    }

    /// How many steps are done after the last stage.
    pub fn steps(&self) -> usize
        ensures { result ≡ last_cut self.now }
    {
        self.cuts[self.cuts.len() - 1]
    }

    /// How many workers there are, in all stages together.
    pub fn workers(&self) -> usize
        ensures { result ≡ workers self.now }
    {
        self.posts.len()
    }

    /// The stage of a worker.
    pub fn stage(&self, worker: usize) -> usize
        requires { worker < workers self.now }
        ensures stage { result ≡ stage_at self.now worker }
        ensures bound { result < stages self.now }
    {
        self.posts[worker]
    }

    /// How many steps are done where a stage ends.
    pub fn cut(&self, stage: usize) -> usize
        requires { stage < stages self.now }
        ensures { result ≡ cut_at self.now stage }
    {
        self.cuts[stage]
    }

    /// How many items the queue of a stage holds.
    pub fn capacity(&self, stage: usize) -> usize
        requires { stage < stages self.now }
        ensures { result ≡ capacity_at self.now stage }
    {
        self.capacities[stage]
    }

    // Whether no worker of a stage before this one has a number in its slot.
    pub(crate) fn is_idle_before(&self, stage: usize, worker_slots: &[Option<usize>]) -> bool
        requires { length worker_slots.now ≡ workers self.now }
        ensures { result ≡ idle_before stage self.now.posts worker_slots.now }
    {
        for worker in 0..self.posts.len() {
            if !is_idle(stage, self.posts[worker], worker_slots[worker].is_none()) {
                return false;
            }
        }
        true
    }
}

fn is_idle(stage: usize, post: usize, free: bool) -> bool
    ensures { result ≡ (nat_le stage post || free) }
{
    stage <= post || free
}

fn plan_fault(cuts: &[usize], worker_counts: &[usize], capacities: &[usize]) -> Option<PlanFault>
    ensures { result ≡ plan_fault cuts.now worker_counts.now capacities.now }
{
    if cuts.is_empty() {
        return Some(PlanFault::Empty);
    }
    if !is_rising(cuts) {
        return Some(PlanFault::Order);
    }
    if !are_within(16, cuts.len(), worker_counts) {
        return Some(PlanFault::Workers);
    }
    if !are_within(4096, cuts.len(), capacities) {
        return Some(PlanFault::Capacity);
    }
    None
}

fn is_rising(cuts: &[usize]) -> bool
    ensures { result ≡ is_rising 0 cuts.now }
{
    let mut before = 0;
    for cut in cuts {
        if *cut <= before {
            return false;
        }
        before = *cut;
    }
    true
}

fn are_within(limit: usize, count: usize, numbers: &[usize]) -> bool
    ensures { result ≡ (nat_eq (length numbers.now) count && are_within limit numbers.now) }
{
    numbers.len() == count && all_within(limit, numbers)
}

fn all_within(limit: usize, numbers: &[usize]) -> bool
    ensures { result ≡ are_within limit numbers.now }
{
    numbers.iter().all(|n| 0 < *n && *n <= limit)
}

// The plan of lists that have no fault.
fn laid_out(
    alloc: Global,
    cuts: &[usize],
    worker_counts: &[usize],
    capacities: &[usize],
) -> Result<Plan, AllocError>
    requires { plan_fault cuts.now worker_counts.now capacities.now ≡ None }
    ensures { IfOk result (λ p. p ≡ layout_of cuts.now worker_counts.now capacities.now) }
{
    let cuts = Vec::from_slice(alloc, cuts)?;
    let posts = posts_of(alloc, worker_counts)?;
    let capacities = Vec::from_slice(alloc, capacities)?;
    Ok(Plan {
        cuts,
        posts,
        capacities,
    })
}

// The stage of each worker.
fn posts_of(alloc: Global, worker_counts: &[usize]) -> Result<Vec<usize>, AllocError>
    ensures { IfOk result (λ v. v.items ≡ posts_of 0 worker_counts.now) }
{
    let mut posts = Vec::new(alloc);
    for stage in 0..worker_counts.len() {
        add_workers(&mut posts, stage, worker_counts[stage])?;
    }
    Ok(posts)
}

fn add_workers(posts: &mut Vec<usize>, stage: usize, worker_count: usize) -> Result<(), AllocError>
    ensures { OnOk result (posts.new.items ≡ posts.old.items ++ replicate worker_count stage) }
{
    for _ in 0..worker_count {
        posts.push(stage)?;
    }
    Ok(())
}

// How many chunks of this size have no more items than that.
fn chunks_within(capacity: usize, size: usize) -> usize
    requires { (0 < size) × (size ≤ capacity) }
    ensures some { 0 < result }
    ensures fits { result * size ≤ capacity }
{
    capacity / size
}
