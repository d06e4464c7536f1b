//! Why an event is refused.
ghost use Rattle.std.specs.Prelude.{◌≡◌, ℕ, ◌+◌, ◌<◌, ◌≤◌, List, [], ◌∷◌, ◌++◌, length, IfOk, OnOk, OnErr, IfErr, Some};
ghost use Rattle.std.specs.Prelude.{None, is_some, nat_le, take, map, ◌*◌, ◌^◌, IfSome, true, false};
ghost use Rattle.std.specs.Option.{is_none};
ghost use Rattle.std.specs.List.{list_all, range_with_len};
ghost use Rattle.stage_graph.specs.After.{with_steps, last_cut};
ghost use Rattle.stage_graph.specs.Steps.{value_of};
ghost use Rattle.stage_graph.specs.Counts.{places_of, KeepsBounds, takes_of, feeds_of, gives_of};
ghost use Rattle.stage_graph.specs.Layouts.{Layout, IsPlan, stages, workers, stage_at, cut_at, cut_before, capacity_at};
ghost use Rattle.stage_graph.specs.Layouts.{is_last};
ghost use Rattle.stage_graph.specs.Floors.{standing, queue_at, worker_slot_at, has_left, is_nil, idle_before};
ghost use Rattle.stage_graph.specs.Floors.{is_drained, is_at, first, is_allowed, feed_cause, take_cause, give_cause};
ghost use Rattle.stage_graph.specs.Floors.{back_cause, leave_cause, halt_cause, is_legal_from_opening, all_left};
ghost use Rattle.stage_graph.specs.Floors.{all_done};
ghost use Rattle.stage_graph.specs.Floors.{has_stop};

use super::{Floor, RunName};
use crate::{Cause, Chain, Event, Named};

impl<C: Chain, N: RunName> Floor<C, N> {
    pub(super) fn has_no_backlog(&self) -> bool
        ensures { result ≡ is_nil (standing N.plan N.count self.now).backlog }
    {
        self.backlog.is_empty()
    }

    pub(super) fn is_queue_empty(&self, stage: usize) -> bool
        requires { stage < stages N.plan }
        ensures { result ≡ is_nil (queue_at (standing N.plan N.count self.now) stage) }
    {
        self.queues[stage].is_empty()
    }

    pub(super) fn is_queue_full(&self, stage: usize) -> bool
        requires { stage < stages N.plan }
        ensures { result ≡ nat_le (capacity_at N.plan stage)
            (length (queue_at (standing N.plan N.count self.now) stage)) }
    {
        self.queues[stage].is_full()
    }

    pub(super) fn has_left(&self, worker: usize) -> bool
        requires { worker < workers N.plan }
        ensures { result ≡ has_left (standing N.plan N.count self.now) worker }
    {
        self.left[worker]
    }

    pub(super) fn is_busy(&self, worker: usize) -> bool
        requires { worker < workers N.plan }
        ensures { result ≡ is_some (worker_slot_at (standing N.plan N.count self.now) worker) }
    {
        self.worker_slots[worker].is_some()
    }

    pub(super) fn holds(&self, worker: usize, number: usize) -> bool
        requires { worker < workers N.plan }
        ensures { result ≡ is_at (worker_slot_at (standing N.plan N.count self.now) worker) number }
    {
        match self.worker_slots[worker] {
            Some(held) => held == number,
            None => false,
        }
    }

    pub(super) fn feed_cause(&self) -> Option<Cause>
        ensures { result ≡ feed_cause N.plan (standing N.plan N.count self.now) }
    {
        if self.stopped {
            return Some(Cause::Stopped);
        }
        if self.has_no_backlog() {
            return Some(Cause::Empty);
        }
        if self.is_queue_full(0) {
            return Some(Cause::Full);
        }
        None
    }

    pub(super) fn take_cause(&self, worker: usize) -> Option<Cause>
        requires { worker < workers N.plan }
        ensures { result ≡ take_cause N.plan (standing N.plan N.count self.now) worker }
    {
        if self.has_left(worker) {
            return Some(Cause::Gone);
        }
        if self.is_busy(worker) {
            return Some(Cause::Busy);
        }
        if self.stopped {
            return Some(Cause::Stopped);
        }
        if self.is_queue_empty(self.plan.stage(worker)) {
            return Some(Cause::Empty);
        }
        None
    }

    pub(super) fn give_cause(&self, worker: usize, number: usize, steps: usize) -> Option<Cause>
        requires { worker < workers N.plan }
        ensures { result
            ≡ give_cause N.plan (standing N.plan N.count self.now) worker number steps }
    {
        let stage = self.plan.stage(worker);
        if !self.holds(worker, number) || steps != self.plan.cut(stage) {
            return Some(Cause::NotHeld);
        }
        if stage + 1 == self.plan.stages() {
            return None;
        }
        if self.is_queue_full(stage + 1) {
            return Some(Cause::Full);
        }
        None
    }

    pub(super) fn back_cause(&self, worker: usize, number: usize) -> Option<Cause>
        requires { worker < workers N.plan }
        ensures { result ≡ back_cause (standing N.plan N.count self.now) worker number }
    {
        if self.holds(worker, number) {
            None
        } else {
            Some(Cause::NotHeld)
        }
    }

    // Whether no item can come to a worker of a stage any more: none waits or is held before the stage's end.
    pub(crate) fn is_drained(&self, stage: usize) -> bool
        requires { stage < stages N.plan }
        ensures { result ≡ is_drained N.plan (standing N.plan N.count self.now) stage }
    {
        self.has_no_backlog()
            && self.are_queues_empty(stage)
            && self.plan.is_idle_before(stage, &self.worker_slots)
    }

    pub(super) fn are_queues_empty(&self, stage: usize) -> bool
        requires { stage < stages N.plan }
        ensures { result
            ≡ list_all is_nil (take (stage + 1) (standing N.plan N.count self.now).queues) }
    {
        let _stages = self.plan.stages();
        for k in 0..stage + 1 {
            if !self.is_queue_empty(k) {
                return false;
            }
        }
        true
    }

    pub(super) fn leave_cause(&self, worker: usize) -> Option<Cause>
        requires { worker < workers N.plan }
        ensures { result ≡ leave_cause N.plan (standing N.plan N.count self.now) worker }
    {
        if self.has_left(worker) {
            return Some(Cause::Gone);
        }
        if self.is_busy(worker) {
            return Some(Cause::Busy);
        }
        if self.stopped || self.is_drained(self.plan.stage(worker)) {
            None
        } else {
            Some(Cause::Early)
        }
    }

    // Whether the first item of the backlog has this number.
    pub(super) fn is_next(&self, number: usize) -> bool
        ensures { result ≡ is_at (first (standing N.plan N.count self.now).backlog) number }
    {
        match self.backlog.front() {
            Some(item) => item.number() == number,
            None => false,
        }
    }

    // Whether the first item of a queue has this number.
    pub(super) fn is_first(&self, stage: usize, number: usize) -> bool
        requires { stage < stages N.plan }
        ensures { result
            ≡ is_at (first (queue_at (standing N.plan N.count self.now) stage)) number }
    {
        let queue = &self.queues[stage];
        match queue.front() {
            Some(item) => item.number() == number,
            None => false,
        }
    }

    // Whether an event is allowed now.
    pub(crate) fn is_allowed(&self, event: Event) -> bool
        ensures { result ≡ is_allowed N.plan (standing N.plan N.count self.now) event }
    {
        let workers = self.plan.workers();
        match event {
            Event::Feed(number) => self.feed_cause().is_none() && self.is_next(number),
            Event::Take(worker, number) => {
                worker < workers
                    && self.take_cause(worker).is_none()
                    && self.is_first(self.plan.stage(worker), number)
            }
            Event::Give(worker, number) => worker < workers && self.may_give(worker, number),
            Event::Back(worker, number) => {
                worker < workers && self.back_cause(worker, number).is_none()
            }
            Event::Leave(worker) => worker < workers && self.leave_cause(worker).is_none(),
            Event::Halt => !self.stopped,
        }
    }

    pub(super) fn may_give(&self, worker: usize, number: usize) -> bool
        requires { worker < workers N.plan }
        ensures { result ≡ is_none
            (give_cause N.plan (standing N.plan N.count self.now) worker number
            (cut_at N.plan (stage_at N.plan worker))) }
    {
        let (_, cut) = self.place(worker);
        self.give_cause(worker, number, cut).is_none()
    }
}
