//! What a thread does to a floor under the lock in one go: a section.

ghost use Rattle.std.specs.Prelude.{◌≡◌, ◌<◌, IfOk, IfErr, IfSome};
ghost use Rattle.stage_graph.specs.Layouts.{workers};
ghost use Rattle.stage_graph.specs.Through.{IsStopped, IsWhole};

use crate::floor::{Held, Picked};
use crate::run::ended;
use crate::{Cause, Chain, Floor, Plan, Run, RunName, Unrun};
use std::marker::Brand;
use std::sync::Wait;

/// A floor after a look for work: what was picked, and whether there is more beside it.
pub(super) struct Looked<C: Chain> {
    pub(super) held: Held<C>,
    pub(super) picked: Option<Picked<C>>,
    pub(super) more: bool,
}

/// Takes an item for a worker of the last stage that has one and a worker whose slot is empty, and whose last item has
/// left. Feeds the items that fit into the first queue.
pub(super) fn look<C: Chain, R: Wait>(rt: &R, held: Held<C>, inside: &[bool]) -> Looked<C> {
    look_on::<C, Brand, R>(rt, held, inside)
}

fn look_on<C: Chain, N: RunName, R: Wait>(rt: &R, held: Held<C>, inside: &[bool]) -> Looked<C>
    requires name { (held.plan ≡ N.plan) × (held.count ≡ N.count) }
{
    let mut floor = held.into_floor::<N>();
    feed_all(rt, &mut floor);
    let picked = pick_last(&mut floor, inside);
    feed_all(rt, &mut floor);
    let more = picked.is_some() && floor.has_work();
    Looked {
        held: floor.into_held(),
        picked,
        more,
    }
}

/// Feeds the items that fit into the first queue.
fn feed_all<C: Chain, N: RunName, R: Wait>(rt: &R, floor: &mut Floor<C, N>) {
    for _ in rt.forever() {
        if floor.feed().is_err() {
            return;
        }
    }
    unreachable!()
}

/// Takes an item for the last worker that may have one.
fn pick_last<C: Chain, N: RunName>(floor: &mut Floor<C, N>, inside: &[bool]) -> Option<Picked<C>> {
    let count = floor.workers();
    for before in 0..count {
        match pick_for(floor, inside, count - 1 - before) {
            Some(picked) => return Some(picked),
            None => {}
        }
    }
    None
}

/// Takes an item for a worker, if its last one has left and it may have one.
fn pick_for<C: Chain, N: RunName>(
    floor: &mut Floor<C, N>,
    inside: &[bool],
    worker: usize,
) -> Option<Picked<C>>
    requires { worker < workers N.plan }
{
    if inside.get(worker) == Some(&true) {
        return None;
    }
    floor.pick(worker)
}

/// The floor after an item was given on, and the item where the next queue is full, until there is a take from it.
/// On a stopped floor it is sent back then.
pub(super) fn give<C: Chain>(
    held: Held<C>,
    worker: usize,
    item: C::Item,
) -> (Held<C>, Option<C::Item>)
    ensures { IfSome result.1 (λ x. x ≡ item) }
{
    give_on::<C, Brand>(held, worker, item)
}

fn give_on<C: Chain, N: RunName>(
    held: Held<C>,
    worker: usize,
    item: C::Item,
) -> (Held<C>, Option<C::Item>)
    requires name { (held.plan ≡ N.plan) × (held.count ≡ N.count) }
    ensures { IfSome result.1 (λ x. x ≡ item) }
{
    let mut floor = held.into_floor::<N>();
    let left = give_or_back(&mut floor, worker, item);
    (floor.into_held(), left)
}

/// Gives the item on. It is left where the next queue is full; what is refused for another cause, or on a stopped
/// floor, is sent back.
fn give_or_back<C: Chain, N: RunName>(
    floor: &mut Floor<C, N>,
    worker: usize,
    item: C::Item,
) -> Option<C::Item>
    ensures { IfSome result (λ x. x ≡ item) }
{
    if worker >= floor.workers() {
        let _halted = floor.halt();
        return None;
    }
    match floor.give(worker, item) {
        Ok(()) => None,
        Err((cause, item)) => {
            if cause == Cause::Full && !floor.stopped() {
                return Some(item);
            }
            send_back(floor, worker, item);
            None
        }
    }
}

/// The floor after an item was sent back.
pub(super) fn back<C: Chain>(held: Held<C>, worker: usize, item: C::Item) -> Held<C> {
    back_on::<C, Brand>(held, worker, item)
}

fn back_on<C: Chain, N: RunName>(held: Held<C>, worker: usize, item: C::Item) -> Held<C>
    requires name { (held.plan ≡ N.plan) × (held.count ≡ N.count) }
{
    let mut floor = held.into_floor::<N>();
    send_back(&mut floor, worker, item);
    floor.into_held()
}

/// Sends the item back, which stops the floor. What isn't in the worker's slot is dropped, and the floor is halted.
fn send_back<C: Chain, N: RunName>(floor: &mut Floor<C, N>, worker: usize, item: C::Item) {
    if worker >= floor.workers() {
        let _halted = floor.halt();
        return;
    }
    if floor.back(worker, item).is_err() {
        let _halted = floor.halt();
    }
}

/// All workers leave the floor of this plan and of so many items, on which nothing is left to do, and it is closed. Out
/// of memory where there is none or another one, or something is left to do.
pub(crate) fn end<C: Chain, N: RunName>(
    plan: &Plan,
    count: usize,
    held: Option<Held<C>>,
) -> Result<Run<C, N>, Unrun>
    requires plan { plan.now ≡ N.plan }
    requires count { count ≡ N.count }
    ensures whole { IfOk result (λ r. IsWhole N.plan N.count r) }
    ensures stopped { IfErr result (IsStopped N.plan N.count) }
{
    let Some(held) = held else {
        return Err(Unrun::Memory);
    };
    if !held.is_of(plan, count) {
        return Err(Unrun::Memory);
    }
    let _stages = plan.stages();
    let mut floor = held.into_floor::<N>();
    for worker in 0..floor.workers() {
        let _left = floor.leave(worker);
    }
    if !floor.all_left() {
        return Err(Unrun::Memory);
    }
    ended(floor)
}
