//! A floor that any thread may move on: its plan and the number of its items are known by its value, and not by a name.

ghost use Rattle.std.specs.Prelude.{◌≡◌, ◌≤◌, ◌<◌, length, IsTrue, IfSome, IfNone, IfOk};
ghost use Rattle.stage_graph.specs.Layouts.{workers};
ghost use Rattle.stage_graph.specs.Helpers.{FloorRecord};

use super::{Floor, RunName};
use crate::{Chain, Event, Named, Plan};
use stage_queue::{Queue, Slots};
use std::collections::VecDeque;
use std::marker::{Model, PhantomData};

/// A floor between two sections. Contracts see it as its plan, how many items it has, and its history.
#[derive(Drop)]
pub(crate) struct Held<C: Chain> {
    plan: Plan,
    backlog: VecDeque<C::Item>,
    queues: Vec<Queue<C::Item>>,
    worker_slots: Vec<Option<usize>>,
    slots: Slots<C::Item>,
    returned: Vec<C::Item>,
    stopped: bool,
    left: Vec<bool>,
    history: Vec<Event>,
}

impl<C: Chain> Model for Held<C> {
    ghost use Rattle.std.specs.Prelude.{◌≤◌, length, vec_capacity};
    ghost use Rattle.stage_graph.specs.Floors.{most_events};
    ghost use Rattle.stage_graph.specs.After.{FloorAfter};
    ghost use Rattle.stage_graph.specs.Helpers.{FloorRecord};

    ghost Value = { FloorRecord };

    ghost view = { λ h. record { plan = h.plan; count = length h.slots; history = h.history.items } };

    ghost invariant = { λ h.
        FloorAfter (λ x. (C.Item.number_of x, C.Item.done_of x)) h.plan (length h.slots) h.history.items
        (record {
          backlog = h.backlog.items;
          queues = h.queues.items;
          worker_slots = h.worker_slots.items;
          slots = h.slots;
          returned = h.returned.items;
          stopped = h.stopped;
          left = h.left.items;
        })
        × (most_events h.plan (length h.slots) ≤ vec_capacity h.history)
        × (length h.slots ≤ vec_capacity h.returned) };
}

/// A chunk in the slot of a worker, with the worker's stage, and the steps that are done where the stage ends. It can't
/// be dropped: who has it works on it.
pub(crate) struct Picked<C: Chain> {
    pub(crate) worker: usize,
    pub(crate) stage: usize,
    pub(crate) cut: usize,
    pub(crate) item: C::Item,
    ghost begun: { C.Item.done_of item ≤ cut },
}

impl<C: Chain> Held<C> {
    /// The floor under a name.
    pub(crate) fn into_floor<N: RunName>(self) -> Floor<C, N>
        requires plan { self.plan ≡ N.plan }
        requires count { self.count ≡ N.count }
        ensures { result ≡ self.history }
    {
        let Held {
            plan,
            backlog,
            queues,
            worker_slots,
            slots,
            returned,
            stopped,
            left,
            history,
        } = self;
        Floor {
            plan,
            backlog,
            queues,
            worker_slots,
            slots,
            returned,
            stopped,
            left,
            history,
            of: PhantomData,
        }
    }

    /// Whether this is a floor of the plan, on which there are so many items.
    pub(crate) fn is_of(&self, plan: &Plan, count: usize) -> bool
        ensures { IsTrue result → (self.now.plan ≡ plan.now) × (self.now.count ≡ count) }
    {
        self.slots.len() == count && self.plan.is_same(plan)
    }

    /// How many workers there are.
    pub(crate) fn workers(&self) -> usize {
        self.worker_slots.len()
    }

    /// Whether it is stopped.
    pub(crate) fn is_stopped(&self) -> bool {
        self.stopped
    }

    /// Whether no worker has an item, and none is to come.
    pub(crate) fn is_over(&self) -> bool {
        self.worker_slots
            .iter()
            .all(|worker_slot| worker_slot.is_none())
            && (self.stopped || self.slots.is_full())
    }
}

impl<C: Chain, N: RunName> Floor<C, N> {
    /// The floor without its name.
    pub(crate) fn into_held(self) -> Held<C>
        ensures { result ≡ record { plan = N.plan; count = N.count; history = self } }
    {
        let Floor {
            plan,
            backlog,
            queues,
            worker_slots,
            slots,
            returned,
            stopped,
            left,
            history,
            ..
        } = self;
        Held {
            plan,
            backlog,
            queues,
            worker_slots,
            slots,
            returned,
            stopped,
            left,
            history,
        }
    }

    /// A worker takes an item, if it may.
    pub(crate) fn pick(&mut self, worker: usize) -> Option<Picked<C>>
        requires { worker < workers N.plan }
    {
        let Ok(item) = self.take(worker) else {
            return None;
        };
        let stage = self.plan.stage(worker);
        let cut = self.plan.cut(stage);
        Some(Picked {
            worker,
            stage,
            cut,
            item,
        })
    }

    /// Whether some worker may take an item.
    pub(crate) fn has_work(&self) -> bool {
        for worker in 0..self.plan.workers() {
            if self.take_cause(worker).is_none() {
                return true;
            }
        }
        false
    }
}
