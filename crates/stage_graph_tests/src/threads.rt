//! Floors run by threads.
use crate::adding::{Refusal, sums_of};
use crate::floors::plan_of;
use stage_graph::{Checked, Event, Gate, History, NoGate, Unrun, replay_history};
use std::alloc::Global;
use std::process::Abort;
use std::sync::Wait;
use std::sync::atomic::{AtomicU64, Ordering};
use std::test::*;
use std::thread::Threads;
use std::time::{Clock, Duration};

pub const TABLE: [u64; 3] = [1, 10, 100];

type Sums = Result<(Vec<u64>, History), Unrun>;

fn place_of(history: &[Event], event: Event) -> Option<usize> {
    history.iter().position(|e| *e == event)
}

// The sums of the inputs on a floor of three steps.
pub fn sums<G: Gate + Sync, R: Threads + Wait + Sync>(
    rt: &R,
    alloc: Global,
    lists: (&[usize], &[usize], &[usize]),
    refused: Option<Refusal>,
    inputs: &[u64],
    gate: &G,
) -> Sums {
    let Some(plan) = plan_of(alloc, lists.0, lists.1, lists.2) else {
        return Err(Unrun::Memory);
    };
    if plan.steps() != 3 {
        return Err(Unrun::Memory);
    }
    sums_of(rt, alloc, plan, &[1, 10, 100], refused, inputs, gate)
}

// A step that is refused to each item.
pub fn refusal(step: usize) -> Option<Refusal> {
    Some(Refusal { step, item: None })
}

// Whether a history is legal on a floor, if there is the memory to check it.
pub fn verdict(
    alloc: Global,
    lists: (&[usize], &[usize], &[usize]),
    count: usize,
    history: &History,
) -> Option<bool> {
    let plan = plan_of(alloc, lists.0, lists.1, lists.2)?;
    let checked = replay_history(alloc, plan, count, history.as_slice()).ok()?;
    Some(checked == Checked::Legal)
}

// Whether a history was found to be legal on a floor.
pub fn is_legal(
    alloc: Global,
    lists: (&[usize], &[usize], &[usize]),
    count: usize,
    history: &History,
) -> bool {
    verdict(alloc, lists, count, history) == Some(true)
}

// Counts the items that go in and out.
#[derive(Drop)]
struct Counter {
    entered: AtomicU64,
    left: AtomicU64,
}

impl Gate for Counter {
    fn enter(&self, _stage: usize, _number: usize) {
        self.entered.fetch_add(1, Ordering::SeqCst);
    }

    fn left(&self, _stage: usize, _number: usize) {
        self.left.fetch_add(1, Ordering::SeqCst);
    }
}

// What one thread makes of an input in a loop.
fn by_hand(input: u64) -> u64 {
    let mut value = input;
    for addend in TABLE {
        value = value.wrapping_mul(2).wrapping_add(addend);
    }
    value
}

fn try_plan<R: Threads + Wait + Sync + Abort>(
    rt: &R,
    alloc: Global,
    lists: (&[usize], &[usize], &[usize]),
    inputs: &[u64],
) -> Result<(), Unrun> {
    let gate = Counter {
        entered: AtomicU64::new(0),
        left: AtomicU64::new(0),
    };
    let (values, history) = sums(rt, alloc, lists, None, inputs, &gate)?;
    assert_eq!(rt; values.len(), inputs.len());
    for (value, input) in values.iter().zip(inputs) {
        assert_eq!(rt; *value, by_hand(*input));
    }
    assert!(rt; is_legal(alloc, lists, inputs.len(), &history));
    let passed = (lists.0.len() as u64).wrapping_mul(inputs.len() as u64);
    assert_eq!(rt; gate.entered.load(Ordering::SeqCst), passed);
    assert_eq!(rt; gate.left.load(Ordering::SeqCst), passed);
    Ok(())
}

// A chain of three steps under every cut of it, and one on each side of the limits.
#[test]
fn every_cut(rt: HostRuntime) -> Result<(), Fail> {
    let inputs = [7, 0, 3, u64::MAX, 5, 12, 1 << 62, 4, 9, 2, 8, 6];
    let cuts: [&[usize]; 4] = [&[3], &[1, 3], &[2, 3], &[1, 2, 3]];
    for cuts in cuts {
        for worker_count in 1..5usize {
            for capacity in 1..4usize {
                let stages = cuts.len().min(3);
                let worker_counts = &[worker_count, worker_count, worker_count][..stages];
                let capacities = &[capacity, capacity, capacity][..stages];
                try_plan(&rt, rt.alloc(), (cuts, worker_counts, capacities), &inputs)?;
            }
        }
    }
    try_plan(
        &rt,
        rt.alloc(),
        (&[1, 2, 3], &[16, 1, 4], &[4096, 1, 7]),
        &inputs,
    )?;
    Ok(())
}

// Queues with room for one item, so that who gives one often waits for room: each of many runs ends, with each sum. The
// gate may hold an item, as far as the floor knows.
#[test]
fn many_runs_with_full_queues(rt: HostRuntime) -> Result<(), Fail> {
    let inputs = [3; 64];
    for _ in 0..200 {
        try_plan(
            &rt,
            rt.alloc(),
            (&[1, 2, 3], &[3, 1, 2], &[1, 1, 1]),
            &inputs,
        )?;
    }
    Ok(())
}

// A gate that keeps who enters a later stage busy for a while, so that others find its queue full. It may be open.
#[derive(Drop)]
struct Busy {
    turns: AtomicU64,
    open: bool,
}

impl Gate for Busy {
    fn enter(&self, stage: usize, _number: usize) {
        if stage == 0 {
            return;
        }
        for _ in 0..1000 {
            self.turns.fetch_add(1, Ordering::SeqCst);
        }
    }

    fn left(&self, _stage: usize, _number: usize) {}

    fn is_open(&self) -> bool {
        self.open
    }
}

// The history of a floor of 64 items that was stopped, since one step was refused to one item.
fn stopped_at<R: Threads + Wait + Sync + Abort>(
    rt: &R,
    alloc: Global,
    lists: (&[usize], &[usize], &[usize]),
    refusal: Refusal,
    open: bool,
) -> History {
    let gate = Busy {
        turns: AtomicU64::new(0),
        open,
    };
    match sums(rt, alloc, lists, Some(refusal), &[3; 64], &gate) {
        Err(Unrun::Stopped(history)) => history,
        _ => panic!(rt; "the floor was not stopped"),
    }
}

// Queues with room for one item, and one later item that is refused a step: who waits for room then ends too, and the
// history of each of many runs is legal. The item was sent back once, and not given on.
#[test]
fn many_stopped_runs_with_full_queues(rt: HostRuntime) {
    let lists: (&[usize], &[usize], &[usize]) = (&[1, 2, 3], &[3, 1, 2], &[1, 1, 1]);
    for run in 0..500usize {
        let (step, number) = (run % 3, 8 + run % 50);
        let item = Some(number);
        let history = stopped_at(&rt, rt.alloc(), lists, Refusal { step, item }, run % 2 == 0);
        assert!(rt; is_legal(rt.alloc(), lists, 64, &history));
        let events = history.as_slice();
        let backs = events
            .iter()
            .filter(|e| matches!(e, Event::Back(_, back) if *back == number))
            .count();
        let leaves = events
            .iter()
            .filter(|e| matches!(e, Event::Leave(_)))
            .count();
        assert_eq!(rt; (backs, leaves), (1, 6), "item {number} at step {step}");
    }
}

#[test]
fn no_items(rt: HostRuntime) -> Result<(), Fail> {
    let lists: (&[usize], &[usize], &[usize]) = (&[1, 3], &[2, 1], &[1, 1]);
    let (values, history) = sums(&rt, rt.alloc(), lists, None, &[], &NoGate)?;
    assert!(rt; values.is_empty());
    assert_eq!(rt; history.as_slice().len(), 3);
    assert!(rt; is_legal(rt.alloc(), lists, 0, &history));
    Ok(())
}

// Holds item 0 until item 1 has left, for at most 10,000 turns of a millisecond.
#[derive(Drop)]
struct Hold<R: Clock + Drop> {
    rt: R,
    gone: AtomicU64,
}

impl<R: Clock + Drop> Gate for Hold<R> {
    fn enter(&self, _stage: usize, number: usize) {
        if number != 0 {
            return;
        }
        for _ in 0..10000 {
            if self.gone.load(Ordering::SeqCst) != 0 {
                return;
            }
            let _ = std::thread::sleep(&self.rt, Duration::from_millis(1));
        }
    }

    fn left(&self, _stage: usize, number: usize) {
        if number == 1 {
            self.gone.store(1, Ordering::SeqCst);
        }
    }
}

// The place of an event of either worker, and the worker.
fn by_either(history: &History, of: (Event, Event)) -> Option<(usize, usize)> {
    let events = history.as_slice();
    match (place_of(events, of.0), place_of(events, of.1)) {
        (Some(place), None) => Some((place, 0)),
        (None, Some(place)) => Some((place, 1)),
        _ => None,
    }
}

// Two workers are inside their handlers at once: item 1 is given while item 0 is held.
#[test]
fn two_workers_overlap(rt: HostRuntime) -> Result<(), Fail> {
    let alloc = rt.alloc();
    let gate = Hold {
        rt: rt.clone()?,
        gone: AtomicU64::new(0),
    };
    let lists: (&[usize], &[usize], &[usize]) = (&[3], &[2], &[2]);
    let (values, history) = sums(&rt, alloc, lists, None, &[5, 6], &gate)?;
    assert!(rt; values.as_slice() == [by_hand(5), by_hand(6)].as_slice());
    let takes = |number: usize| {
        by_either(&history, (Event::Take(0, number), Event::Take(1, number)))
    };
    let gives = |number: usize| {
        by_either(&history, (Event::Give(0, number), Event::Give(1, number)))
    };
    let (Some(take0), Some(take1), Some(give1), Some(give0)) = (
        takes(0),
        takes(1),
        gives(1),
        gives(0),
    ) else {
        panic!(rt; "an event is missing or double");
    };
    assert!(rt; take0.0 < take1.0 && take1.0 < give1.0 && give1.0 < give0.0);
    assert!(rt; take0.1 == give0.1 && take1.1 == give1.1 && take0.1 != take1.1);
    assert!(rt; is_legal(alloc, lists, 2, &history));
    Ok(())
}

// The history of a floor whose chain of two steps refuses the second.
fn refused<R: Threads + Wait + Sync>(rt: &R, alloc: Global) -> Sums {
    let Some(plan) = plan_of(alloc, &[2], &[1], &[1]) else {
        return Err(Unrun::Memory);
    };
    if plan.steps() != 2 {
        return Err(Unrun::Memory);
    }
    sums_of(rt, alloc, plan, &[1, 10], refusal(1), &[5], &NoGate)
}

#[test]
fn stopped_floor(rt: HostRuntime) -> Result<(), Fail> {
    let alloc = rt.alloc();
    let Err(Unrun::Stopped(history)) = refused(&rt, alloc) else {
        panic!(rt; "the floor was not stopped");
    };
    let wanted = [
        Event::Feed(0),
        Event::Take(0, 0),
        Event::Back(0, 0),
        Event::Leave(0),
    ];
    assert!(rt; history.as_slice() == wanted.as_slice());
    assert!(rt; is_legal(alloc, (&[2], &[1], &[1]), 1, &history));
    Ok(())
}

// Each step is refused in turn, to many items on a floor with many workers and little room: it stops, and all leave.
#[test]
fn refused_steps(rt: HostRuntime) -> Result<(), Fail> {
    let alloc = rt.alloc();
    let inputs = [3; 50];
    let lists: (&[usize], &[usize], &[usize]) = (&[1, 2, 3], &[3, 2, 2], &[1, 1, 1]);
    for step in 0..3usize {
        let Err(Unrun::Stopped(history)) = sums(&rt, alloc, lists, refusal(step), &inputs, &NoGate)
        else {
            panic!(rt; "the floor was not stopped at step {step}");
        };
        assert!(rt; is_legal(alloc, lists, 50, &history));
        let events = history.as_slice();
        let leaves = events
            .iter()
            .filter(|e| matches!(e, Event::Leave(_)))
            .count();
        let backs = events
            .iter()
            .filter(|e| matches!(e, Event::Back(_, _)))
            .count();
        assert_eq!(rt; leaves, 7);
        assert!(rt; 0 < backs);
    }
    Ok(())
}
