//! Helper threads that stay for a whole call, and move one floor after another.

ghost use Rattle.std.specs.Prelude.{◌≡◌, ◌<◌, ◌≤◌, IfOk, IfErr};
ghost use denote.Param.Send.{IsSync};

mod chunk;
mod passage;
mod scheduler;
mod sections;

use crate::floor::{Held, Picked};
use crate::{Chain, Gate, Named, Span};
pub use chunk::Travel;
pub use passage::{Arrived, Before};
use scheduler::{Calls, Scheduler};
pub(crate) use sections::end;
use std::alloc::{AllocError, Global};
use std::sync::{Condvar, Mutex, MutexGuard, Wait};
use std::thread::{Threads, join, join_mut};

/// Threads that run floors, one after another, by the same chain and with the same gate: the calling one, and those
/// that [`beside`] starts, which sleep at the scheduler's lock while there is no work.
///
/// Who sleeps where: a helper that found no work at `called`; a thread with a chunk that found the next queue full at
/// `not_full`; the calling thread, which found no work on a floor that hasn't ended, at `over`. A thread that is free
/// picks a chunk at the last stage that has one and a worker whose slot is empty, works up to the stage's cut, gives
/// the chunk on, and picks again. Where the gate may hold a chunk, a worker has no next one before the gate was
/// notified that its last one has left; who notified it looks next. So who gave a chunk on looks next, and takes it or
/// another one; and who picks wakes one that sleeps where there is more work. So nobody sleeps at `called` or `over`
/// while there is work that no thread which was woken, or looks next, will find. A take makes a queue not full, and
/// wakes all that wait for that. None of these sleeps for good: of the last queue before which one does, each chunk was
/// left by a thread that looked next, from the last stage on, and took it, unless the slots of that stage's workers
/// were full; who held those gave them on, since nobody sleeps beyond, and looked in turn. The last chunk that goes on
/// or back ends the floor, and who gave it, or notified the gate that it has left, wakes the calling thread.
#[derive(Drop)]
pub struct Helpers<'a, C: Chain, G, R> {
    rt: &'a R,
    alloc: Global,
    chain: &'a C,
    gate: &'a G,
    scheduler: Mutex<Scheduler<C>>,
    called: Condvar,
    not_full: Condvar,
    over: Condvar,
}

/// What the calling thread finds at the scheduler.
enum Turn<C: Chain> {
    Work(Picked<C>),
    Over(Option<Held<C>>),
}

impl<'a, C: Chain, G, R> Helpers<'a, C, G, R> {
    /// The calling thread alone.
    pub fn new(rt: &'a R, alloc: Global, chain: &'a C, gate: &'a G) -> Helpers<'a, C, G, R> {
        Helpers {
            rt,
            alloc,
            chain,
            gate,
            scheduler: Mutex::new(Scheduler::new(alloc)),
            called: Condvar::new(),
            not_full: Condvar::new(),
            over: Condvar::new(),
        }
    }

    /// Wakes those that are to be woken, once the lock is free.
    fn wake(&self, calls: Calls) {
        if calls.helper {
            self.called.notify_one();
        }
        if calls.lead {
            self.over.notify_one();
        }
        if calls.crowd {
            self.not_full.notify_all();
        }
    }
}

impl<'a, C: Chain, G: Gate, R: Wait> Helpers<'a, C, G, R> {
    /// The next chunk for a helper; none once the scheduler is closed.
    fn next(&self) -> Option<Picked<C>> {
        let mut scheduler = self.scheduler.lock(self.rt);
        for _ in self.rt.forever() {
            let (picked, calls) = scheduler.pick(self.rt);
            match picked {
                Some(picked) => {
                    drop(scheduler);
                    self.wake(calls);
                    return Some(picked);
                }
                None => {}
            }
            if scheduler.is_closed() {
                return None;
            }
            scheduler.record_idle();
            scheduler = self.called.wait(self.rt, scheduler);
        }
        unreachable!()
    }

    /// The next chunk for the calling thread, or the floor, once it has ended.
    fn turn(&self) -> Turn<C> {
        let mut scheduler = self.scheduler.lock(self.rt);
        for _ in self.rt.forever() {
            let (picked, calls) = scheduler.pick(self.rt);
            match picked {
                Some(picked) => {
                    drop(scheduler);
                    self.wake(calls);
                    return Turn::Work(picked);
                }
                None => {}
            }
            if scheduler.is_over() {
                return Turn::Over(scheduler.take_floor());
            }
            scheduler.record_awaited(true);
            scheduler = self.over.wait(self.rt, scheduler);
            scheduler.record_awaited(false);
        }
        unreachable!()
    }

    /// Tells the gate that these items enter a stage.
    fn enter_all(&self, stage: usize, span: Span) {
        for number in span.first..span.end {
            self.gate.enter(span.stages.wrapping_add(stage), number);
        }
    }

    /// Tells the gate that these items have left a stage.
    fn left_all(&self, stage: usize, span: Span) {
        for number in span.first..span.end {
            self.gate.left(span.stages.wrapping_add(stage), number);
        }
    }

    /// Gives a chunk on that has the steps up to its worker's cut done, once the next queue isn't full.
    fn give(&self, worker: usize, cut: usize, item: C::Item)
        requires { C.Item.done_of item ≡ cut }
    {
        let _cut = cut;
        let mut item = item;
        let mut scheduler = self.scheduler.lock(self.rt);
        for _ in self.rt.forever() {
            item = match scheduler.give(worker, item) {
                Some(item) => item,
                None => {
                    scheduler.record_inside(worker, true);
                    let calls = scheduler.calls_at_end(!self.gate.is_open());
                    drop(scheduler);
                    return self.wake(calls);
                }
            };
            scheduler.record_crowded();
            scheduler = self.not_full.wait(self.rt, scheduler);
        }
        unreachable!()
    }

    /// Sends a chunk back, which stops the floor.
    fn back(&self, worker: usize, item: C::Item) {
        let mut scheduler = self.scheduler.lock(self.rt);
        scheduler.back(worker, item);
        scheduler.record_inside(worker, true);
        let calls = scheduler.calls_at_end(!self.gate.is_open());
        drop(scheduler);
        self.wake(calls);
    }

    /// The gate was notified that a worker's chunk has left: where it may hold one, the worker may have its next one.
    fn free(&self, worker: usize) {
        if self.gate.is_open() {
            return;
        }
        let mut scheduler = self.scheduler.lock(self.rt);
        scheduler.record_inside(worker, false);
        let calls = scheduler.calls_at_end(false);
        drop(scheduler);
        self.wake(calls);
    }

    /// Lays a floor on the scheduler. Where the gate never holds an item, nobody asks what it was notified of.
    pub(crate) fn lay(&self, held: Held<C>) -> Result<(), AllocError> {
        let count = if self.gate.is_open() {
            0
        } else {
            held.workers()
        };
        let mut inside = Vec::with_capacity(self.alloc, count)?;
        for _worker in 0..count {
            inside.push(false)?;
        }
        self.scheduler.lock(self.rt).open(held, inside);
        Ok(())
    }

    /// Moves the floor on the scheduler until it has ended, and takes it from there.
    pub(crate) fn moved(&self) -> Option<Held<C>> {
        for _ in self.rt.forever() {
            match self.turn() {
                Turn::Work(picked) => self.carry(picked),
                Turn::Over(held) => return held,
            }
        }
        unreachable!()
    }

    /// Works on a chunk that was picked, and gives it on.
    fn carry(&self, picked: Picked<C>) {
        let Picked {
            worker,
            stage,
            cut,
            item,
        } = picked;
        let span = self.chain.span(&item);
        self.enter_all(stage, span);
        match work_up(self.chain, item, cut) {
            Ok(item) => self.give(worker, cut, item),
            Err(item) => self.back(worker, item),
        }
        self.left_all(stage, span);
        self.free(worker);
    }
}

/// Works on an item up to a cut. Refused, or where the chain has no more steps, it has those that were done.
fn work_up<C: Chain>(chain: &C, item: C::Item, cut: usize) -> Result<C::Item, C::Item>
    requires { C.Item.done_of item ≤ cut }
    ensures ok { IfOk result
        (λ x. (C.Item.number_of x ≡ C.Item.number_of item) × (C.Item.done_of x ≡ cut)) }
    ensures err { IfErr result (λ x. C.Item.number_of x ≡ C.Item.number_of item) }
{
    let mut item = item;
    for _step in item.done()..cut {
        if item.done() >= chain.steps() {
            return Err(item);
        }
        item = chain.work(item)?;
    }
    Ok(item)
}

/// What threads work on beside the one that leads them, until it closes it.
trait Company {
    /// Works beside the others, until it is closed.
    fn help(&self);

    /// Nothing is to come: who helps ends.
    fn close(&self);
}

impl<'a, C: Chain, G: Gate, R: Wait> Company for Helpers<'a, C, G, R> {
    fn help(&self) {
        for _ in self.rt.forever() {
            match self.next() {
                Some(picked) => self.carry(picked),
                None => return,
            }
        }
        unreachable!()
    }

    fn close(&self) {
        self.scheduler.lock(self.rt).close();
        self.called.notify_all();
    }
}

/// So many helpers, each in a thread of its own but the last.
fn help_all<R: Threads + Sync, H: Company + Sync>(rt: &R, company: &H, helper_count: usize) {
    if helper_count <= 1 {
        company.help();
        return;
    }
    join(
        rt,
        || company.help(),
        ||
            requires { IsSync R.row × IsSync H.row × (1 < helper_count) }
        { help_all(rt, company, helper_count - 1) },
    );
}

/// Calls `lead`, and then closes what others help at.
fn led<H: Company, T, F: FnMut() -> T>(company: &H, lead: &mut F) -> T
    requires { F.pre lead.old }
    ensures { F.step lead.old result lead.new }
{
    let led = lead();
    company.close();
    led
}

/// Calls `lead` in this thread, beside so many helpers in others.
fn led_beside<R: Threads + Sync, H: Company + Sync, T, F: FnMut() -> T>(
    rt: &R,
    company: &H,
    helper_count: usize,
    lead: &mut F,
) -> T
    requires { F.pre lead.old }
    ensures { F.step lead.old result lead.new }
{
    let (_, led) = join_mut(
        rt,
        &mut ||
            requires { IsSync R.row × IsSync H.row }
        { help_all(rt, company, helper_count) },
        &mut || led(company, lead),
    );
    led
}

/// Calls `lead` in this thread, beside so many helpers, each in a thread that lives as long as the call. Then no floor
/// is to come, and they are joined. Where a thread can't be started there is one helper less, and where none can be,
/// the calling thread works alone.
pub fn beside<C: Chain + Sync, G: Gate + Sync, R: Threads + Wait + Sync, T, F: FnMut() -> T>(
    helpers: &Helpers<'_, C, G, R>,
    helper_count: usize,
    lead: &mut F,
) -> T
where
    C::Item: Send,
    requires { F.pre lead.old }
    ensures { F.step lead.old result lead.new }
{
    if helper_count == 0 {
        return led(helpers, lead);
    }
    led_beside(helpers.rt, helpers, helper_count, lead)
}
