//! A floor run by threads.

ghost use Rattle.std.specs.Prelude.{◌≡◌, ℕ, map, true, IfOk, IfErr};
ghost use Rattle.std.specs.List.{range_with_len};
ghost use Rattle.stage_graph.specs.Layouts.{IsPlan};
ghost use Rattle.stage_graph.specs.Floors.{standing, all_left};
ghost use Rattle.stage_graph.specs.After.{with_steps, last_cut};
ghost use Rattle.stage_graph.specs.Through.{IsStopped, IsWhole, HasGoneThrough};

use crate::helpers::{Helpers, beside, end};
use crate::{Chain, Event, Floor, Named, Plan, Run, RunName, Unrun};
use std::alloc::Global;
use std::sync::Wait;
use std::thread::Threads;

/// Is notified of where items go. It is called without the floor's lock.
pub trait Gate {
    /// An item was taken by a worker of a stage, which works on it next.
    fn enter(&self, stage: usize, number: usize);

    /// An item was given on, or sent back, by a worker of a stage. The worker may have its next item by then, which
    /// enters after this call.
    fn left(&self, stage: usize, number: usize);

    /// Whether it never holds an item: whether each of its calls returns without waiting for another. Then items may
    /// travel together, and a worker's next item may enter before it is notified that the last one left.
    fn is_open(&self) -> bool {
        false
    }

    /// Whether there is no gate: whether none of its calls does anything, so that they need not be made.
    fn is_absent(&self) -> bool {
        false
    }

    /// A floor of this plan has ended, on which so many items went through all stages, in chunks. This is its history;
    /// an event's number is that of a chunk.
    fn ended(&self, _plan: &Plan, _count: usize, _history: &[Event])
        requires { HasGoneThrough _plan.now _count _history.now }
    {}
}

/// A gate that does nothing.
#[derive(Drop)]
pub struct NoGate;

impl Gate for NoGate {
    fn enter(&self, _stage: usize, _number: usize) {}

    fn left(&self, _stage: usize, _number: usize) {}

    fn is_open(&self) -> bool {
        true
    }

    fn is_absent(&self) -> bool {
        true
    }
}

/// Runs a floor to its end: every item goes through all steps of the chain, by the workers of the plan, for which
/// there are as many threads, the calling one among them.
///
/// A thread that is free takes an item at the last stage that has one and a worker whose slot is empty, works up to
/// the stage's cut and gives it on. Who finds the next queue full waits until it isn't. Where the chain refuses a
/// step, or the next queue is full on a stopped floor, the item is sent back. Where a thread can't be started, there
/// is one fewer, and the floor goes on. It may wait.
pub fn run_floor<
    C: Chain + Sync,
    N: RunName + Send + Sync,
    G: Gate + Sync,
    R: Threads + Wait + Sync,
>(
    rt: &R,
    alloc: Global,
    plan: Plan,
    chain: &C,
    items: Vec<C::Item>,
    gate: &G,
) -> Result<Run<C, N>, Unrun>
where
    C::Item: Send,
    requires plan { plan ≡ N.plan }
    requires fresh { map (λ x. (C.Item.number_of x, C.Item.done_of x)) items.items
        ≡ map (with_steps 0) (range_with_len 0 N.count) }
    requires cut { last_cut N.plan ≡ C.steps }
    ensures whole { IfOk result (λ r. IsWhole N.plan N.count r) }
    ensures stopped { IfErr result (IsStopped N.plan N.count) }
{
    let own = plan.try_clone(alloc)?;
    let count = items.len();
    let helper_count = plan.workers().saturating_sub(1);
    let floor = Floor::<C, N>::open(alloc, plan, items)?;
    let helpers = Helpers::new(rt, alloc, chain, gate);
    helpers.lay(floor.into_held())?;
    let held = beside(&helpers, helper_count, &mut || helpers.moved());
    end::<C, N>(&own, count, held)
}

// The run of a floor that all workers have left.
pub(crate) fn ended<C: Chain, N: RunName>(floor: Floor<C, N>) -> Result<Run<C, N>, Unrun>
    requires plan { IsPlan N.plan }
    requires left { all_left (standing N.plan N.count floor) ≡ true }
    ensures whole { IfOk result (λ r. IsWhole N.plan N.count r) }
    ensures stopped { IfErr result (IsStopped N.plan N.count) }
{
    floor.close()
}
