//! The core of a floor: where each item is, and the history that brought it there.

ghost use Rattle.std.specs.Prelude.{◌≡◌, ℕ, ◌+◌, ◌<◌, ◌≤◌, List, [], ◌∷◌, ◌++◌, length, IfOk, OnOk, OnErr, IfErr, Some};
ghost use Rattle.std.specs.Prelude.{None, is_some, nat_le, take, map, ◌*◌, ◌^◌, IfSome, true, false};
ghost use Rattle.std.specs.Option.{is_none};
ghost use Rattle.std.specs.List.{list_all, range_with_len};
ghost use Rattle.stage_graph.specs.After.{with_steps, last_cut};
ghost use Rattle.stage_graph.specs.Steps.{value_of};
ghost use Rattle.stage_graph.specs.Counts.{places_of, KeepsBounds, takes_of, feeds_of, gives_of};
ghost use Rattle.stage_graph.specs.Layouts.{Layout, IsPlan, stages, workers, stage_at, cut_at, cut_before, capacity_at};
ghost use Rattle.stage_graph.specs.Layouts.{is_last};
ghost use Rattle.stage_graph.specs.Floors.{standing, queue_at, worker_slot_at, has_left, is_nil, idle_before};
ghost use Rattle.stage_graph.specs.Floors.{is_drained, is_at, first, is_allowed, feed_cause, take_cause, give_cause};
ghost use Rattle.stage_graph.specs.Floors.{back_cause, leave_cause, halt_cause, is_legal_from_opening, all_left};
ghost use Rattle.stage_graph.specs.Floors.{all_done};
ghost use Rattle.stage_graph.specs.Floors.{has_stop};
ghost use Rattle.stage_graph.specs.Through.{IsWhole};

mod causes;
mod events;
mod held;

use crate::{Chain, Event, History, Named, Plan, Unrun};
pub(crate) use held::{Held, Picked};
use stage_queue::{Memory, Queue, Slots};
use std::alloc::Global;
use std::collections::VecDeque;
use std::marker::{Brand, Model, PhantomData};

/// Names a run: its plan, and how many items it has. A caller picks both at a call with `Brand`.
pub trait RunName {
    ghost plan: { Layout };

    ghost count: { ℕ };
}

impl RunName for Brand {
    ghost use Rattle.stage_graph.specs.Layouts.{no_layout};

    ghost plan = { no_layout };

    ghost count = { 0 };
}

/// A floor: a backlog, a queue for each stage, a slot for each worker, the done items by number, and the items that
/// were sent back. Contracts see it as its history, which its state follows from.
///
/// Every call on it is refused for the first cause that holds, and then changes nothing, or it has the effect of its
/// event, which is then the last of the history. None takes memory.
#[derive(Drop)]
pub struct Floor<C: Chain, N: RunName> {
    plan: Plan,
    backlog: VecDeque<C::Item>,
    queues: Vec<Queue<C::Item>>,
    worker_slots: Vec<Option<usize>>,
    slots: Slots<C::Item>,
    returned: Vec<C::Item>,
    stopped: bool,
    left: Vec<bool>,
    history: Vec<Event>,
    of: PhantomData<N>,
}

impl<C: Chain, N: RunName> Model for Floor<C, N> {
    ghost use Rattle.std.specs.Prelude.{◌≡◌, ℕ, ◌≤◌, List, vec_capacity};
    ghost use Rattle.std.specs.VecDeque.{deque_capacity};
    ghost use Rattle.stage_graph.specs.declared.event.Event.{Event};
    ghost use Rattle.stage_graph.specs.Floors.{most_events};
    ghost use Rattle.stage_graph.specs.After.{FloorAfter};

    ghost Value = { List Event };

    ghost view = { λ f. f.history.items };

    ghost invariant = { λ f.
        FloorAfter (λ x. (C.Item.number_of x, C.Item.done_of x)) N.plan N.count f.history.items
        (record {
          backlog = f.backlog.items;
          queues = f.queues.items;
          worker_slots = f.worker_slots.items;
          slots = f.slots;
          returned = f.returned.items;
          stopped = f.stopped;
          left = f.left.items;
        })
        × (f.plan ≡ N.plan)
        × (most_events N.plan N.count ≤ vec_capacity f.history)
        × (N.count ≤ vec_capacity f.returned) };
}

impl<C: Chain, N: RunName> Floor<C, N> {
    /// The floor on which the items wait, numbered from 0 with no step done. It reserves all that later calls on
    /// it grow. A refusal drops the items.
    pub fn open(alloc: Global, plan: Plan, items: Vec<C::Item>) -> Result<Floor<C, N>, Memory>
        requires plan { plan ≡ N.plan }
        requires fresh { map (λ x. (C.Item.number_of x, C.Item.done_of x)) items.items
            ≡ map (with_steps 0) (range_with_len 0 N.count) }
        ensures { IfOk result (λ f. f ≡ []) }
    {
        let count = items.len();
        let stages = plan.stages();
        let workers = plan.workers();
        let Some(events) = most_events(count, stages, workers) else {
            return Err(Memory);
        };
        let mut queues = Vec::with_capacity(alloc, stages)?;
        for stage in 0..stages {
            queues.push_reserved(Queue::new(alloc, plan.capacity(stage))?);
        }
        let mut worker_slots = Vec::with_capacity(alloc, workers)?;
        let mut left = Vec::with_capacity(alloc, workers)?;
        for _worker in 0..workers {
            worker_slots.push_reserved(None);
            left.push_reserved(false);
        }
        let slots = Slots::new(alloc, count)?;
        let returned = Vec::with_capacity(alloc, count)?;
        let history = Vec::with_capacity(alloc, events)?;
        Ok(Floor {
            plan,
            backlog: VecDeque::from_vec(items),
            queues,
            worker_slots,
            slots,
            returned,
            stopped: false,
            left,
            history,
            of: PhantomData,
        })
    }

    /// The accepted events. They are a legal history, each number is in exactly one place of the floor to which it
    /// leads, and it keeps all bounds.
    pub fn history(&self) -> &[Event]
        ensures history { result.now ≡ self.now }
        ensures legal { is_legal_from_opening N.plan N.count self.now ≡ true }
        ensures places { (x : ℕ) → x < N.count
            → places_of (standing N.plan N.count self.now) x ≡ 1 }
        ensures stopped { (standing N.plan N.count self.now).stopped ≡ has_stop self.now }
        ensures bounds { KeepsBounds N.plan N.count self.now }
    {
        &self.history
    }

    /// Ends a floor that all workers have left: a run exactly where every item is done, and else `Stopped`.
    pub fn close(self) -> Result<Run<C, N>, Unrun>
        requires { all_left (standing N.plan N.count self) ≡ true }
        ensures run { IfOk result
            (λ r. (r ≡ self) × (all_done (standing N.plan N.count self) ≡ true)) }
        ensures stopped { IfErr result
            (λ u. (u ≡ Unrun.Stopped self) × (all_done (standing N.plan N.count self) ≡ false)
            × (has_stop self ≡ true)) }
        ensures legal { is_legal_from_opening N.plan N.count self ≡ true }
        ensures bounds { KeepsBounds N.plan N.count self }
    {
        let Floor { slots, history, .. } = self;
        if slots.is_full() {
            Ok(Run {
                items: slots.into_list(),
                history,
                of: PhantomData,
            })
        } else {
            Err(Unrun::Stopped(History::from(history)))
        }
    }

    /// Whether the floor is stopped: whether its history has a `Back` or a `Halt`.
    pub fn stopped(&self) -> bool
        ensures stopped { result ≡ (standing N.plan N.count self.now).stopped }
        ensures history { result ≡ has_stop self.now }
    {
        self.stopped
    }

    /// Whether all workers have left.
    pub fn all_left(&self) -> bool
        ensures { result ≡ all_left (standing N.plan N.count self.now) }
    {
        self.left.iter().all(|left| *left)
    }

    // How many workers there are.
    pub(crate) fn workers(&self) -> usize
        ensures { result ≡ workers N.plan }
    {
        self.plan.workers()
    }

    // The stage of a worker, and the steps that are done where it ends.
    pub(crate) fn place(&self, worker: usize) -> (usize, usize)
        requires { worker < workers N.plan }
        ensures stage { (result.0 ≡ stage_at N.plan worker) × (result.0 < stages N.plan) }
        ensures cut { result.1 ≡ cut_at N.plan (stage_at N.plan worker) }
        ensures bound { result.1 ≤ last_cut N.plan }
    {
        let stage = self.plan.stage(worker);
        (stage, self.plan.cut(stage))
    }
}

/// A floor that ended with every item done. `Floor::close` alone makes one. Contracts see it as its history.
#[derive(Drop)]
pub struct Run<C: Chain, N: RunName> {
    items: Vec<C::Item>,
    history: Vec<Event>,
    of: PhantomData<N>,
}

impl<C: Chain, N: RunName> Model for Run<C, N> {
    ghost use Rattle.std.specs.Prelude.{◌≡◌, ℕ, List, map, true};
    ghost use Rattle.std.specs.List.{range_with_len};
    ghost use Rattle.stage_graph.specs.declared.event.Event.{Event};
    ghost use Rattle.stage_graph.specs.Floors.{standing, is_legal_from_opening, all_left, all_done};
    ghost use Rattle.stage_graph.specs.After.{with_steps, last_cut};
    ghost use Rattle.stage_graph.specs.Layouts.{IsPlan};

    ghost Value = { List Event };

    ghost view = { λ r. r.history.items };

    ghost invariant = { λ r.
        IsPlan N.plan
        × (map (λ x. (C.Item.number_of x, C.Item.done_of x)) r.items.items
        ≡ map (with_steps (last_cut N.plan)) (range_with_len 0 N.count))
        × (is_legal_from_opening N.plan N.count r.history.items ≡ true)
        × (all_left (standing N.plan N.count r.history.items) ≡ true)
        × (all_done (standing N.plan N.count r.history.items) ≡ true) };
}

impl<C: Chain, N: RunName> Run<C, N> {
    /// The accepted events. They are a legal history after which all workers have left and every item is done; each
    /// item was fed once, and taken and given once at each stage; and it keeps all bounds.
    pub fn history(&self) -> &[Event]
        ensures history { result.now ≡ self.now }
        ensures whole { IsWhole N.plan N.count self.now }
    {
        self.history.as_slice()
    }

    /// The items by number, each with the chain's value of its own input.
    pub fn into_items(self) -> Vec<C::Item>
        ensures items { map (λ x. (C.Item.number_of x, C.Item.done_of x)) result.items
            ≡ map (with_steps (last_cut N.plan)) (range_with_len 0 N.count) }
        ensures values { map C.content result.items
            ≡ map (λ k. value_of C.step (last_cut N.plan) (C.input_at k)) (range_with_len 0 N.count) }
    {
        let Run { items, .. } = self;
        items
    }

    // The items by number, and the accepted events.
    pub(crate) fn into_parts(self) -> (Vec<C::Item>, History)
        ensures history { result.1 ≡ self }
        ensures whole { IsWhole N.plan N.count result.1 }
    {
        let Run { items, history, .. } = self;
        (items, History::from(history))
    }
}

// The greatest length of a history.
fn most_events(count: usize, stages: usize, workers: usize) -> Option<usize>
    ensures { IfSome result (λ n. n ≡ count * (1 + 2 * stages) + workers + 1) }
{
    let moves = count.checked_mul(stages.checked_mul(2)?.checked_add(1)?)?;
    moves.checked_add(workers)?.checked_add(1)
}

// Puts a value at the end of a queue that isn't full.
fn put<T: Drop>(queue: &mut Queue<T>, value: T)
    requires { nat_le queue.old.1 (length queue.old.0) ≡ false }
    ensures { queue.new ≡ (queue.old.0 ++ value ∷ [], queue.old.1) }
{
    let _full = queue.push(value);
}
