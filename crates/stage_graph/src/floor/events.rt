//! The six events of a floor.
ghost use Rattle.std.specs.Prelude.{◌≡◌, ℕ, ◌+◌, ◌<◌, ◌≤◌, List, [], ◌∷◌, ◌++◌, length, IfOk, OnOk, OnErr, IfErr, Some};
ghost use Rattle.std.specs.Prelude.{None, is_some, nat_le, take, map, ◌*◌, ◌^◌, IfSome, true, false};
ghost use Rattle.std.specs.Option.{is_none};
ghost use Rattle.std.specs.List.{list_all, range_with_len};
ghost use Rattle.stage_graph.specs.After.{with_steps, last_cut};
ghost use Rattle.stage_graph.specs.Steps.{value_of};
ghost use Rattle.stage_graph.specs.Counts.{places_of, KeepsBounds, takes_of, feeds_of, gives_of};
ghost use Rattle.stage_graph.specs.Layouts.{Layout, IsPlan, stages, workers, stage_at, cut_at, cut_before, capacity_at};
ghost use Rattle.stage_graph.specs.Layouts.{is_last};
ghost use Rattle.stage_graph.specs.Floors.{standing, queue_at, worker_slot_at, has_left, is_nil, idle_before};
ghost use Rattle.stage_graph.specs.Floors.{is_drained, is_at, first, is_allowed, feed_cause, take_cause, give_cause};
ghost use Rattle.stage_graph.specs.Floors.{back_cause, leave_cause, halt_cause, is_legal_from_opening, all_left};
ghost use Rattle.stage_graph.specs.Floors.{all_done};
ghost use Rattle.stage_graph.specs.Floors.{has_stop};

use super::{Floor, RunName, put};
use crate::{Cause, Chain, Event, Named};

impl<C: Chain, N: RunName> Floor<C, N> {
    /// The first item of the backlog goes into the first queue.
    pub fn feed(&mut self) -> Result<(), Cause>
        ensures ok { OnOk result
            ((n : ℕ) × (is_allowed N.plan (standing N.plan N.count self.old) (Event.Feed n) ≡ true)
            × (self.new ≡ self.old ++ Event.Feed n ∷ [])) }
        ensures err { IfErr result
            (λ c. (self.new ≡ self.old) × (feed_cause N.plan (standing N.plan N.count self.old) ≡ Some c)) }
    {
        if let Some(cause) = self.feed_cause() {
            return Err(cause);
        }
        let Some(item) = self.backlog.pop_front() else {
            return Err(Cause::Empty);
        };
        let number = item.number();
        put(&mut self.queues[0], item);
        self.history.push_reserved(Event::Feed(number));
        Ok(())
    }

    /// The first item of the worker's queue goes into its slot.
    pub fn take(&mut self, worker: usize) -> Result<C::Item, Cause>
        requires { worker < workers N.plan }
        ensures ok { IfOk result
            (λ x. (is_allowed N.plan (standing N.plan N.count self.old) (Event.Take worker (C.Item.number_of x)) ≡ true)
            × (self.new ≡ self.old ++ Event.Take worker (C.Item.number_of x) ∷ [])) }
        ensures steps { IfOk result
            (λ x. C.Item.done_of x ≡ cut_before N.plan (stage_at N.plan worker)) }
        ensures content { IfOk result
            (λ x. C.content x ≡ value_of C.step (cut_before N.plan (stage_at N.plan worker))
            (C.input_at (C.Item.number_of x))) }
        ensures err { IfErr result
            (λ c. (self.new ≡ self.old) × (take_cause N.plan (standing N.plan N.count self.old) worker ≡ Some c)) }
    {
        if let Some(cause) = self.take_cause(worker) {
            return Err(cause);
        }
        let stage = self.plan.stage(worker);
        let Some(item) = self.queues[stage].pop() else {
            return Err(Cause::Empty);
        };
        let number = item.number();
        self.worker_slots[worker] = Some(number);
        self.history.push_reserved(Event::Take(worker, number));
        Ok(item)
    }

    /// The item goes from the worker's slot to the next queue, or is done after the last stage.
    pub fn give(&mut self, worker: usize, item: C::Item) -> Result<(), (Cause, C::Item)>
        requires { worker < workers N.plan }
        ensures ok { OnOk result
            ((is_allowed N.plan (standing N.plan N.count self.old) (Event.Give worker (C.Item.number_of item)) ≡ true)
            × (self.new ≡ self.old ++ Event.Give worker (C.Item.number_of item) ∷ [])) }
        ensures err { IfErr result
            (λ e. (self.new ≡ self.old)
            × (give_cause N.plan (standing N.plan N.count self.old) worker (C.Item.number_of item) (C.Item.done_of item)
            ≡ Some e.0) × (e.1 ≡ item)) }
    {
        let number = item.number();
        if let Some(cause) = self.give_cause(worker, number, item.done()) {
            return Err((cause, item));
        }
        if self.plan.stage(worker) + 1 == self.plan.stages() {
            self.finish(worker, item);
        } else {
            self.pass_on(worker, item);
        }
        Ok(())
    }

    // The item is done.
    fn finish(&mut self, worker: usize, item: C::Item)
        requires worker { worker < workers N.plan }
        requires last { is_last N.plan (stage_at N.plan worker) ≡ true }
        requires cause { give_cause N.plan (standing N.plan N.count self.old) worker
            (C.Item.number_of item)
            (C.Item.done_of item) ≡ None }
        ensures { self.new ≡ self.old ++ Event.Give worker (C.Item.number_of item) ∷ [] }
    {
        let number = item.number();
        let _placed = self.slots.place(number, item);
        self.worker_slots[worker] = None;
        self.history.push_reserved(Event::Give(worker, number));
    }

    // The item goes into the next queue.
    fn pass_on(&mut self, worker: usize, item: C::Item)
        requires worker { worker < workers N.plan }
        requires more { is_last N.plan (stage_at N.plan worker) ≡ false }
        requires cause { give_cause N.plan (standing N.plan N.count self.old) worker
            (C.Item.number_of item)
            (C.Item.done_of item) ≡ None }
        ensures { self.new ≡ self.old ++ Event.Give worker (C.Item.number_of item) ∷ [] }
    {
        let number = item.number();
        let next = self.plan.stage(worker) + 1;
        put(&mut self.queues[next], item);
        self.worker_slots[worker] = None;
        self.history.push_reserved(Event::Give(worker, number));
    }

    /// The item goes from the worker's slot to the returned items, and the floor is stopped.
    pub fn back(&mut self, worker: usize, item: C::Item) -> Result<(), (Cause, C::Item)>
        requires { worker < workers N.plan }
        ensures ok { OnOk result
            ((is_allowed N.plan (standing N.plan N.count self.old) (Event.Back worker (C.Item.number_of item)) ≡ true)
            × (self.new ≡ self.old ++ Event.Back worker (C.Item.number_of item) ∷ [])) }
        ensures err { IfErr result
            (λ e. (self.new ≡ self.old)
            × (back_cause (standing N.plan N.count self.old) worker (C.Item.number_of item) ≡ Some e.0)
            × (e.1 ≡ item)) }
    {
        let number = item.number();
        if let Some(cause) = self.back_cause(worker, number) {
            return Err((cause, item));
        }
        self.returned.push_reserved(item);
        self.worker_slots[worker] = None;
        self.stopped = true;
        self.history.push_reserved(Event::Back(worker, number));
        Ok(())
    }

    /// The worker leaves.
    pub fn leave(&mut self, worker: usize) -> Result<(), Cause>
        requires { worker < workers N.plan }
        ensures ok { OnOk result
            ((is_allowed N.plan (standing N.plan N.count self.old) (Event.Leave worker) ≡ true)
            × (self.new ≡ self.old ++ Event.Leave worker ∷ [])) }
        ensures err { IfErr result
            (λ c. (self.new ≡ self.old) × (leave_cause N.plan (standing N.plan N.count self.old) worker ≡ Some c)) }
    {
        if let Some(cause) = self.leave_cause(worker) {
            return Err(cause);
        }
        self.left[worker] = true;
        self.history.push_reserved(Event::Leave(worker));
        Ok(())
    }

    /// The floor is stopped.
    pub fn halt(&mut self) -> Result<(), Cause>
        ensures ok { OnOk result
            ((is_allowed N.plan (standing N.plan N.count self.old) Event.Halt ≡ true)
            × (self.new ≡ self.old ++ Event.Halt ∷ [])) }
        ensures err { IfErr result
            (λ c. (self.new ≡ self.old) × (halt_cause (standing N.plan N.count self.old) ≡ Some c)) }
    {
        if self.stopped {
            return Err(Cause::Stopped);
        }
        self.stopped = true;
        self.history.push_reserved(Event::Halt);
        Ok(())
    }
}
