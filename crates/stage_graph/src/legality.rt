//! Whether a history is legal, by playing it again.

ghost use Rattle.std.specs.Prelude.{◌≡◌, ℕ, ◌+◌, ◌<◌, ◌≤◌, ◌++◌, [], ◌∷◌, length, map, true, false, IfOk, OnOk};
ghost use Rattle.std.specs.List.{range_with_len};
ghost use Rattle.stage_graph.specs.Layouts.{stages, workers, stage_at, cut_at, cut_before};
ghost use Rattle.stage_graph.specs.Floors.{standing, is_allowed, IsVerdict};
ghost use Rattle.stage_graph.specs.After.{with_steps};

use crate::{Chain, Event, Floor, Named, Plan, RunName};
use stage_queue::Memory;
use std::alloc::{AllocError, Global};
use std::marker::Brand;

/// Whether a history is legal, or else the place of its first event that isn't allowed.
#[derive(Clone, Copy, PartialEq, Eq, Debug)]
pub enum Checked {
    Legal,
    Illegal(usize),
}

// An item that is its number and its steps alone.
#[derive(Drop)]
struct Mark {
    number: usize,
    done: usize,
}

impl Named for Mark {
    ghost number_of = { λ m. m.number };

    ghost done_of = { λ m. m.done };

    fn number(&self) -> usize {
        self.number
    }

    fn done(&self) -> usize {
        self.done
    }
}

// A chain of one step, which does nothing.
#[derive(Drop)]
struct Marking;

impl Chain for Marking {
    type Item = Mark;

    type Value = u64;

    ghost steps = { 1 };

    ghost step = { λ k x. x };

    ghost input_at = { λ n. 0 };

    ghost content = { λ m. 0 };

    fn steps(&self) -> usize {
        1
    }

    fn work(&self, item: Mark) -> Result<Mark, Mark> {
        let Mark { number, done } = item;
        Ok(Mark {
            number,
            done: done + 1,
        })
    }

    ghost use Rattle.stage_graph.specs.Steps.{value_of-same};

    ghost holds = { λ m. value_of-same m.done };
}

impl<N: RunName> Floor<Marking, N> {
    // One event, which is allowed.
    fn apply(&mut self, event: Event)
        requires { is_allowed N.plan (standing N.plan N.count self.old) event ≡ true }
        ensures { self.new ≡ self.old ++ event ∷ [] }
    {
        match event {
            Event::Feed(_) => {
                let _fed = self.feed();
            }
            Event::Take(worker, _) => {
                let _taken = self.take(worker);
            }
            Event::Give(worker, number) => {
                let (_, done) = self.place(worker);
                let _given = self.give(worker, Mark { number, done });
            }
            Event::Back(worker, number) => {
                let _back = self.back(worker, Mark { number, done: 0 });
            }
            Event::Leave(worker) => {
                let _left = self.leave(worker);
            }
            Event::Halt => {
                let _halted = self.halt();
            }
        }
    }
}

fn marks(alloc: Global, count: usize) -> Result<Vec<Mark>, AllocError>
    ensures { IfOk result
        (λ v. map (λ m. (m.number, m.done)) v.items ≡ map (with_steps 0) (range_with_len 0 count)) }
{
    let mut all = Vec::with_capacity(alloc, count)?;
    for number in 0..count {
        all.push_reserved(Mark { number, done: 0 });
    }
    Ok(all)
}

fn replay_with<N: RunName>(
    alloc: Global,
    plan: Plan,
    count: usize,
    history: &[Event],
) -> Result<Checked, Memory>
    requires plan { plan ≡ N.plan }
    requires count { count ≡ N.count }
    ensures { IfOk result (IsVerdict plan count history.now) }
{
    let mut floor = Floor::<Marking, N>::open(alloc, plan, marks(alloc, count)?)?;
    for place in 0..history.len() {
        let event = history[place];
        if !floor.is_allowed(event) {
            return Ok(Checked::Illegal(place));
        }
        floor.apply(event);
    }
    Ok(Checked::Legal)
}

/// Whether a history is legal from the opening floor of `count` items.
pub fn replay_history(
    alloc: Global,
    plan: Plan,
    count: usize,
    history: &[Event],
) -> Result<Checked, Memory>
    ensures { IfOk result (IsVerdict plan count history.now) }
{
    replay_with::<Brand>(alloc, plan, count, history)
}
