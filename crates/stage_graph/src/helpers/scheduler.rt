//! The scheduler that the threads share: the floor that lies there, and who sleeps.

use super::sections::{Looked, back, give, look};
use crate::Chain;
use crate::floor::{Held, Picked};
use std::alloc::Global;
use std::mem::replace;
use std::sync::Wait;

/// What lies under the lock. Each method is a section, or the end of one: it tells whom to wake once the lock is
/// free.
#[derive(Drop)]
pub(super) struct Scheduler<C: Chain> {
    floor: Option<Held<C>>,
    /// Whether no floor is to come.
    closed: bool,
    /// How many helpers sleep that no notification is on its way to.
    idle: usize,
    /// How many threads wait for space in a queue.
    crowded: usize,
    /// Whether the calling thread sleeps, and no notification is on its way to it.
    awaited: bool,
    /// Whether a gate that may hold items is yet to be notified that a worker's last one has left. The worker has no
    /// next one before.
    inside: Vec<bool>,
}

/// Whom to wake.
#[derive(Clone, Copy)]
pub(super) struct Calls {
    pub(super) helper: bool,
    pub(super) lead: bool,
    pub(super) crowd: bool,
}

/// Nobody is to be woken.
pub(super) const NOBODY: Calls = Calls {
    helper: false,
    lead: false,
    crowd: false,
};

impl<C: Chain> Scheduler<C> {
    pub(super) fn new(alloc: Global) -> Scheduler<C> {
        Scheduler {
            floor: None,
            closed: false,
            idle: 0,
            crowded: 0,
            awaited: false,
            inside: Vec::new(alloc),
        }
    }

    /// Puts a floor on the scheduler, on which no worker has had an item.
    pub(super) fn open(&mut self, held: Held<C>, inside: Vec<bool>) {
        self.floor = Some(held);
        self.inside = inside;
    }

    /// No floor is to come.
    pub(super) fn close(&mut self) {
        self.closed = true;
    }

    pub(super) fn is_closed(&self) -> bool {
        self.closed
    }

    /// Whether the floor has ended and the gate knows it, or none lies there.
    pub(super) fn is_over(&self) -> bool {
        match &self.floor {
            Some(held) => held.is_over() && self.inside.iter().all(|inside| !*inside),
            None => true,
        }
    }

    /// Records that the gate is yet to be notified that a worker's item has left, or that it was.
    pub(super) fn record_inside(&mut self, worker: usize, inside: bool) {
        if let Some(recorded) = self.inside.get_mut(worker) {
            *recorded = inside;
        }
    }

    fn is_stopped(&self) -> bool {
        match &self.floor {
            Some(held) => held.is_stopped(),
            None => false,
        }
    }

    /// Takes the floor from the scheduler.
    pub(super) fn take_floor(&mut self) -> Option<Held<C>> {
        replace(&mut self.floor, None)
    }

    /// Picks a chunk, if there is one for which a worker is free.
    pub(super) fn pick<R: Wait>(&mut self, rt: &R) -> (Option<Picked<C>>, Calls) {
        let Some(held) = self.take_floor() else {
            return (None, NOBODY);
        };
        let Looked { held, picked, more } = look(rt, held, &self.inside);
        self.floor = Some(held);
        let calls = self.calls_after(picked.is_some(), more);
        (picked, calls)
    }

    /// Whom to wake where a chunk was taken from a queue, and where there is more work.
    fn calls_after(&mut self, took: bool, more: bool) -> Calls {
        let crowd = took && self.crowded > 0;
        if crowd {
            self.crowded = 0;
        }
        let helper = more && self.idle > 0;
        if helper {
            self.idle = self.idle.saturating_sub(1);
        }
        let lead = more && !helper && self.awaited;
        if lead {
            self.awaited = false;
        }
        Calls {
            helper,
            lead,
            crowd,
        }
    }

    /// Gives a chunk on. It is left where the next queue is full.
    pub(super) fn give(&mut self, worker: usize, item: C::Item) -> Option<C::Item> {
        let Some(held) = self.take_floor() else {
            return None;
        };
        let (held, left) = give(held, worker, item);
        self.floor = Some(held);
        left
    }

    /// Sends a chunk back, which stops the floor.
    pub(super) fn back(&mut self, worker: usize, item: C::Item) {
        if let Some(held) = self.take_floor() {
            self.floor = Some(back(held, worker, item));
        }
    }

    /// Whom to wake where a chunk went on or back. Who gave it looks for more itself, unless the gate may hold it
    /// before. On a stopped floor all that wait for a queue are to send their chunks back.
    pub(super) fn calls_at_end(&mut self, may_be_held: bool) -> Calls {
        let crowd = self.crowded > 0 && self.is_stopped();
        if crowd {
            self.crowded = 0;
        }
        let helper = may_be_held && self.idle > 0;
        if helper {
            self.idle = self.idle.saturating_sub(1);
        }
        let lead = self.awaited && (may_be_held || self.is_over());
        if lead {
            self.awaited = false;
        }
        Calls {
            helper,
            lead,
            crowd,
        }
    }

    /// A helper goes to sleep.
    pub(super) fn record_idle(&mut self) {
        self.idle = self.idle.saturating_add(1);
    }

    /// A thread waits for space in a queue.
    pub(super) fn record_crowded(&mut self) {
        self.crowded = self.crowded.saturating_add(1);
    }

    /// The calling thread goes to sleep, or is awake again.
    pub(super) fn record_awaited(&mut self, awaited: bool) {
        self.awaited = awaited;
    }
}
