//! Plans and the core of a floor, call by call.

ghost use Rattle.std.specs.Prelude.{◌≡◌, length};
ghost use Rattle.stage_graph.specs.Layouts.{workers};

use crate::adding::{Adding, Sums, chain_over, items_of};
use stage_graph::{
    Cause, Chain, Checked, Event, Floor, History, Memory, Named, Plan, PlanFault, Run, RunName,
    Unrun, replay_history,
};
use std::alloc::Global;
use std::marker::Brand;
use std::process::Abort;
use std::test::*;

/// The cuts, numbers of workers and capacities of a plan.
pub type Lists = (&'static [usize], &'static [usize], &'static [usize]);

// A plan that no test has fail unless it is out of memory.
pub fn plan_of(
    alloc: Global,
    cuts: &[usize],
    worker_counts: &[usize],
    capacities: &[usize],
) -> Option<Plan> {
    Plan::new(alloc, cuts, worker_counts, capacities).ok()
}

// The first fault of a plan's lists: its cuts, numbers of workers and capacities.
static FAULTS: [(Lists, Option<PlanFault>); 10] = [
    ((&[], &[17], &[0]), Some(PlanFault::Empty)),
    ((&[2, 2], &[17], &[0]), Some(PlanFault::Order)),
    ((&[0, 1], &[1, 1], &[1, 1]), Some(PlanFault::Order)),
    ((&[1], &[17], &[0]), Some(PlanFault::Workers)),
    ((&[1], &[0], &[1]), Some(PlanFault::Workers)),
    ((&[1], &[1, 1], &[1]), Some(PlanFault::Workers)),
    ((&[1], &[1], &[0]), Some(PlanFault::Capacity)),
    ((&[1], &[1], &[4097]), Some(PlanFault::Capacity)),
    ((&[1, 2], &[1, 1], &[1]), Some(PlanFault::Capacity)),
    ((&[1, 9], &[16, 1], &[4096, 1]), None),
];

#[test]
fn plan_faults_in_order(rt: HostRuntime) {
    for (lists, fault) in &FAULTS {
        let (cuts, worker_counts, capacities) = *lists;
        let found = Plan::new(rt.alloc(), cuts, worker_counts, capacities).err();
        assert_eq!(rt; found, *fault);
    }
}

static FAULT_TEXTS: [(PlanFault, &str); 5] = [
    (PlanFault::Empty, "a plan has at least one stage"),
    (
        PlanFault::Order,
        "the cuts of a plan rise strictly from at least 1",
    ),
    (PlanFault::Workers, "each stage has from 1 to 16 workers"),
    (
        PlanFault::Capacity,
        "each queue has a capacity from 1 to 4096",
    ),
    (PlanFault::Memory, "out of memory"),
];

#[test]
fn plan_faults_say_what_is_wrong(rt: HostRuntime) -> Result<(), Fail> {
    for (fault, want) in &FAULT_TEXTS {
        let text = format!(in rt.alloc(); "{fault}")?;
        assert_eq!(rt; text.as_str(), *want);
    }
    Ok(())
}

#[test]
fn plan_holds_its_lists(rt: HostRuntime) -> Result<(), Fail> {
    let alloc = rt.alloc();
    let plan = Plan::new(alloc, &[1, 4], &[2, 1], &[7, 8])?.try_clone(alloc)?;
    assert_eq!(rt; (plan.stages(), plan.workers(), plan.steps()), (2, 3, 4));
    if plan.workers() == 3 && plan.stages() == 2 {
        assert_eq!(rt; (plan.stage(0), plan.stage(1), plan.stage(2)), (0, 0, 1));
        assert_eq!(rt; (plan.cut(0), plan.cut(1)), (1, 4));
        assert_eq!(rt; (plan.capacity(0), plan.capacity(1)), (7, 8));
    }
    Ok(())
}

// Two items through one stage of one worker, with a queue of one: each event's answer in turn.
fn all_done<C: Chain, N: RunName, R: Abort>(rt: &R, chain: &C, floor: Floor<C, N>) -> Floor<C, N>
    requires { workers N.plan ≡ 1 }
{
    let mut floor = floor;
    assert_eq!(rt; floor.feed(), Ok(()));
    assert_eq!(rt; floor.feed(), Err(Cause::Full));
    let item = taken(rt, &mut floor, 0);
    assert_eq!(rt; floor.take(0).err(), Some(Cause::Busy));
    assert_eq!(rt; floor.leave(0), Err(Cause::Busy));
    let item = match floor.give(0, item) {
        Ok(()) => panic!(rt; "an item was given before its work"),
        Err((cause, item)) => {
            assert_eq!(rt; cause, Cause::NotHeld);
            item
        }
    };
    assert!(rt; floor.give(0, worked(rt, chain, item)).is_ok());
    assert_eq!(rt; floor.leave(0), Err(Cause::Early));
    assert_eq!(rt; floor.feed(), Ok(()));
    let item = taken(rt, &mut floor, 1);
    assert!(rt; floor.give(0, worked(rt, chain, item)).is_ok());
    assert_eq!(rt; floor.feed(), Err(Cause::Empty));
    assert!(rt; !floor.all_left());
    assert_eq!(rt; floor.leave(0), Ok(()));
    assert_eq!(rt; floor.take(0).err(), Some(Cause::Gone));
    assert!(rt; floor.all_left() && !floor.stopped());
    floor
}

// The first item is sent back, which stops the floor.
fn sent_back<C: Chain, N: RunName, R: Abort>(rt: &R, floor: Floor<C, N>) -> Floor<C, N>
    requires { workers N.plan ≡ 1 }
{
    let mut floor = floor;
    assert_eq!(rt; floor.feed(), Ok(()));
    let item = taken(rt, &mut floor, 0);
    assert!(rt; !floor.stopped());
    assert!(rt; floor.back(0, item).is_ok());
    assert!(rt; floor.stopped());
    assert_eq!(rt; floor.feed(), Err(Cause::Stopped));
    assert_eq!(rt; floor.take(0).err(), Some(Cause::Stopped));
    assert_eq!(rt; floor.halt(), Err(Cause::Stopped));
    assert_eq!(rt; floor.leave(0), Ok(()));
    floor
}

// Halted before anything is fed.
fn halted<C: Chain, N: RunName, R: Abort>(rt: &R, floor: Floor<C, N>) -> Floor<C, N>
    requires { workers N.plan ≡ 1 }
{
    let mut floor = floor;
    assert_eq!(rt; floor.halt(), Ok(()));
    assert_eq!(rt; floor.leave(0), Ok(()));
    assert_eq!(rt; floor.leave(0), Err(Cause::Gone));
    floor
}

fn taken<C: Chain, N: RunName, R: Abort>(rt: &R, floor: &mut Floor<C, N>, number: usize) -> C::Item
    requires { workers N.plan ≡ 1 }
{
    match floor.take(0) {
        Ok(item) => {
            assert_eq!(rt; (item.number(), item.done()), (number, 0));
            item
        }
        Err(_) => panic!(rt; "no item was taken"),
    }
}

fn worked<C: Chain, R: Abort>(rt: &R, chain: &C, item: C::Item) -> C::Item {
    assert!(rt; item.done() < chain.steps());
    match chain.work(item) {
        Ok(item) => item,
        Err(_) => panic!(rt; "a step was refused"),
    }
}

// How a floor of the tests is driven.
#[derive(Clone, Copy, PartialEq)]
pub enum Course {
    AllDone,
    SentBack,
    Halted,
}

fn driven<C: Chain, N: RunName, R: Abort>(
    rt: &R,
    alloc: Global,
    chain: &C,
    floor: Floor<C, N>,
    course: Course,
) -> Result<(History, Result<Vec<C::Item>, Unrun>), Memory>
    requires { workers N.plan ≡ 1 }
{
    let floor = match course {
        Course::AllDone => all_done(rt, chain, floor),
        Course::SentBack => sent_back(rt, floor),
        Course::Halted => halted(rt, floor),
    };
    let history = History::from(Vec::from_slice(alloc, floor.history())?);
    assert!(rt; floor.all_left());
    Ok((history, floor.close().map(|run| run.into_items())))
}

fn driven_with<K: Sums + RunName, R: Abort>(
    rt: &R,
    alloc: Global,
    plan: Plan,
    addends: &[u64],
    inputs: &[u64],
    course: Course,
) -> Result<(History, Result<usize, Unrun>), Unrun>
    requires inputs { inputs.now ≡ K.inputs }
    requires addends { addends.now ≡ K.addends }
    requires count { length inputs.now ≡ K.count }
    requires plan { plan ≡ K.plan }
    requires one { workers plan ≡ 1 }
{
    let chain = chain_over::<K>(addends, None);
    let floor = Floor::<Adding<K>, K>::open(alloc, plan, items_of::<K>(alloc, inputs)?)?;
    let (history, items) = driven(rt, alloc, &chain, floor, course)?;
    Ok((history, items.map(|items| items.len())))
}

// The history of a floor of two items that was driven, and how many items its run has.
pub fn history_of<R: Abort>(
    rt: &R,
    alloc: Global,
    course: Course,
) -> Result<(History, Result<usize, Unrun>), Unrun> {
    let Some(plan) = plan_of(alloc, &[1], &[1], &[1]) else {
        return Err(Unrun::Memory);
    };
    assert_eq!(rt; plan.workers(), 1);
    driven_with::<Brand, R>(rt, alloc, plan, &[1], &[5, 6], course)
}

fn checked(alloc: Global, count: usize, history: &[Event]) -> Option<Checked> {
    let plan = plan_of(alloc, &[1], &[1], &[1])?;
    replay_history(alloc, plan, count, history).ok()
}

#[test]
fn floor_events(rt: HostRuntime) -> Result<(), Fail> {
    let alloc = rt.alloc();
    let (history, items) = history_of(&rt, alloc, Course::AllDone)?;
    let wanted = [
        Event::Feed(0),
        Event::Take(0, 0),
        Event::Give(0, 0),
        Event::Feed(1),
        Event::Take(0, 1),
        Event::Give(0, 1),
        Event::Leave(0),
    ];
    assert!(rt; history.as_slice() == wanted.as_slice());
    assert_eq!(rt; items?, 2);
    assert_eq!(rt; checked(alloc, 2, &wanted), Some(Checked::Legal));
    let without_take = [
        Event::Feed(0),
        Event::Give(0, 0),
        Event::Feed(1),
        Event::Take(0, 1),
        Event::Give(0, 1),
        Event::Leave(0),
    ];
    assert_eq!(rt; checked(alloc, 2, &without_take), Some(Checked::Illegal(1)));
    Ok(())
}

#[test]
fn floor_sent_back(rt: HostRuntime) -> Result<(), Fail> {
    let alloc = rt.alloc();
    let (history, items) = history_of(&rt, alloc, Course::SentBack)?;
    let wanted = [
        Event::Feed(0),
        Event::Take(0, 0),
        Event::Back(0, 0),
        Event::Leave(0),
    ];
    assert!(rt; history.as_slice() == wanted.as_slice());
    let Err(Unrun::Stopped(answered)) = items else {
        panic!(rt; "the floor was not stopped");
    };
    assert!(rt; answered.into_vec().as_slice() == wanted.as_slice());
    assert_eq!(rt; checked(alloc, 2, &wanted), Some(Checked::Legal));
    Ok(())
}

#[test]
fn floor_halted(rt: HostRuntime) -> Result<(), Fail> {
    let alloc = rt.alloc();
    let (history, items) = history_of(&rt, alloc, Course::Halted)?;
    let wanted = [Event::Halt, Event::Leave(0)];
    assert!(rt; history.as_slice() == wanted.as_slice());
    assert!(rt; matches!(items, Err(Unrun::Stopped(_))));
    assert_eq!(rt; checked(alloc, 2, &wanted), Some(Checked::Legal));
    Ok(())
}

// Events with a number, a worker or a place that the floor doesn't have are named, and so is the first of several.
static REFUSED: [(&[Event], usize); 7] = [
    (&[Event::Feed(1)], 0),
    (&[Event::Feed(0), Event::Feed(1)], 1),
    (&[Event::Feed(0), Event::Take(1, 0)], 1),
    (&[Event::Feed(0), Event::Take(0, 1)], 1),
    (&[Event::Leave(0), Event::Leave(0)], 0),
    (&[Event::Halt, Event::Leave(0), Event::Leave(0)], 2),
    (&[Event::Halt, Event::Back(0, 0), Event::Halt], 1),
];

#[test]
fn first_refused_event(rt: HostRuntime) {
    let alloc = rt.alloc();
    for (history, place) in &REFUSED {
        assert_eq!(rt; checked(alloc, 2, history), Some(Checked::Illegal(*place)));
    }
    assert_eq!(rt; checked(alloc, 0, &[]), Some(Checked::Legal));
    assert_eq!(rt; checked(alloc, 0, &[Event::Leave(0)]), Some(Checked::Legal));
    assert_eq!(rt; checked(alloc, usize::MAX, &[]), None);
}
