//! Floors that helper threads move, one after another.

ghost use Rattle.std.specs.Prelude.{◌≡◌, ◌+◌, ◌*◌, ◌%◌, ◌^◌, ◌≤◌, ◌<◌, map, length, IfOk};
ghost use Rattle.stage_graph.specs.Helpers.{AreSized};

use crate::floors::{Lists, plan_of};
use crate::threads::verdict;
use stage_graph::{
    Arrived, Before, Event, Gate, Helpers, Naming, NoGate, Opened, Plan, Register, Steps, Travel,
    Unrun, beside,
};
use std::alloc::{AllocError, Global};
use std::marker::{Brand, Model};
use std::process::Abort;
use std::sync::Wait;
use std::sync::atomic::{AtomicU64, Ordering};
use std::test::*;
use std::thread::Threads;
use std::time::{Clock, Duration};

/// Some numbers. Contracts see their list.
#[derive(Drop)]
struct Numbers {
    all: Vec<u64>,
}

impl Model for Numbers {
    ghost use Rattle.std.specs.Prelude.{List, ℕ};

    ghost Value = { List ℕ };

    ghost view = { λ n. n.all.items };
}

/// Step k doubles each number, and adds k. A chunk that begins with a number may be refused a step.
#[derive(Clone, Copy)]
struct Doubling {
    alloc: Global,
    refused: Option<(usize, u64)>,
}

/// Each number doubled, and so much more.
fn doubled(alloc: Global, more: u64, all: &[u64]) -> Result<Vec<u64>, AllocError>
    ensures { IfOk result (λ v. v.items ≡ map (λ x. (x * 2 + more) % 2 ^ 64) all.now) }
{
    let mut new = Vec::with_capacity(alloc, all.len())?;
    for x in all {
        new.push_reserved(x.wrapping_mul(2).wrapping_add(more));
    }
    Ok(new)
}

impl Steps for Doubling {
    type Chunk = Numbers;

    type Value = Numbers;

    ghost step = { λ k xs. map (λ x. (x * 2 + k) % 2 ^ 64) xs };

    ghost content = { λ n. n };

    ghost count = { length };

    fn work(&self, number: usize, chunk: Numbers) -> Option<Numbers> {
        if let Some((step, first)) = self.refused
            && step == number
            && chunk.all.first() == Some(&first)
        {
            return None;
        }
        match doubled(self.alloc, number as u64, &chunk.all) {
            Ok(all) => Some(Numbers { all }),
            Err(_) => None,
        }
    }

    fn len(&self, chunk: &Numbers) -> usize {
        chunk.all.len()
    }
}

/// What three steps make of a number.
fn by_hand(number: u64) -> u64 {
    let mut value = number;
    for step in 0..3u64 {
        value = value.wrapping_mul(2).wrapping_add(step);
    }
    value
}

/// A chunk of one number or more, from `first` on.
fn chunk_from(alloc: Global, first: u64, len: usize) -> Result<Numbers, AllocError>
    ensures { IfOk result (λ n. length n ≡ len) }
{
    let mut all = Vec::with_capacity(alloc, len)?;
    let mut next = first;
    for _ in 0..len {
        all.push_reserved(next);
        next = next.wrapping_add(1);
    }
    Ok(Numbers { all })
}

/// Chunks of so many numbers each, from one to `size`, from `first` on.
fn chunks_from(
    alloc: Global,
    first: u64,
    size: usize,
    lens: &[usize],
) -> Result<Vec<Numbers>, AllocError>
    requires { 0 < size }
    ensures { IfOk result (λ v. AreSized length size v.items) }
{
    let mut chunks = Vec::with_capacity(alloc, lens.len())?;
    let mut next = first;
    for len in lens {
        let len = (*len).max(1).min(size);
        chunks.push(chunk_from(alloc, next, len)?)?;
        next = next.wrapping_add(len as u64);
    }
    Ok(chunks)
}

/// The numbers of a chunk are those of `by_hand`, from a number on. Tells the next number.
fn check_chunk<R: Abort>(rt: &R, chunk: &Numbers, first: u64) -> u64 {
    let mut next = first;
    for value in &chunk.all {
        assert_eq!(rt; *value, by_hand(next));
        next = next.wrapping_add(1);
    }
    next
}

/// A plan, and the same with queues that count chunks of four numbers, laid out by hand.
type Floors = (Lists, Lists);

pub static FLOORS: [Floors; 3] = [
    ((&[3], &[2], &[4]), (&[3], &[2], &[1])),
    ((&[1, 3], &[2, 1], &[9, 4]), (&[1, 3], &[2, 1], &[2, 1])),
    (
        (&[1, 2, 3], &[3, 2, 4], &[64, 8, 4]),
        (&[1, 2, 3], &[3, 2, 4], &[16, 2, 1]),
    ),
];

/// Each of so many chunks is fed, and taken and given at each stage, and the workers leave.
fn events_of(plan: &Plan, chunks: usize) -> usize {
    let moves = plan.stages().saturating_mul(2).saturating_add(1);
    chunks.saturating_mul(moves).saturating_add(plan.workers())
}

/// How many numbers the chunks of a floor have.
static LENS: [&[usize]; 5] = [&[], &[4], &[1, 4], &[3, 4, 2, 1, 4], &[4; 40]];

/// Takes chunks through a floor, and compares them with what is computed by hand. Its history is legal for so many
/// chunks on the floor that was laid out by hand, and not for one more.
fn check_floor<J: Naming, G: Gate, R: Wait + Abort>(
    rt: &R,
    alloc: Global,
    helpers: &Helpers<'_, Travel<Doubling, J>, G, R>,
    register: &mut Register<Numbers, J>,
    floors: &Floors,
    first: u64,
    lens: &[usize],
) -> Result<(), Unrun> {
    let (lists, by_hand) = floors;
    let Some(plan) = plan_of(alloc, lists.0, lists.1, lists.2) else {
        return Err(Unrun::Memory);
    };
    let size = plan.least_capacity(4);
    let chunks = chunks_from(alloc, first, size, lens)?;
    let Arrived { chunks, history } = helpers.run(
        register,
        &plan,
        size,
        Before {
            stages: 0,
            items: 0,
        },
        chunks,
    )?;
    assert_eq!(rt; chunks.len(), lens.len());
    let mut next = first;
    for chunk in &chunks {
        next = check_chunk(rt, chunk, next);
    }
    let events = history.as_slice().len();
    assert_eq!(rt; events, events_of(&plan, lens.len()));
    let legal = verdict(alloc, *by_hand, lens.len(), &history);
    let with_one_more = verdict(alloc, *by_hand, lens.len().saturating_add(1), &history);
    if legal.is_none() || with_one_more.is_none() {
        return Err(Unrun::Memory);
    }
    assert_eq!(rt; (legal, with_one_more), (Some(true), Some(false)));
    Ok(())
}

/// Moves floors of all kinds, one after another, with no chunk, one and many.
fn many_floors<J: Naming, G: Gate, R: Wait + Abort>(
    rt: &R,
    alloc: Global,
    helpers: &Helpers<'_, Travel<Doubling, J>, G, R>,
    register: &mut Register<Numbers, J>,
) -> Result<(), Unrun> {
    for turn in 0..90usize {
        check_floor(
            rt,
            alloc,
            helpers,
            register,
            &FLOORS[turn % 3],
            turn as u64,
            LENS[turn % 5],
        )?;
    }
    Ok(())
}

fn floors_named<J: Naming + Send + Sync, G: Gate + Sync, R: Threads + Wait + Sync + Abort>(
    rt: &R,
    alloc: Global,
    opened: Opened<Numbers>,
    helper_count: usize,
    steps: Doubling,
    gate: &G,
) -> Result<(), Unrun>
    requires { opened ≡ J.book }
{
    let mut register = opened.named::<J>();
    let chain = Travel::<Doubling, J>::new(steps);
    let helpers = Helpers::new(rt, alloc, &chain, gate);
    floors_beside(rt, alloc, helper_count, &helpers, &mut register)
}

fn floors_beside<J: Naming + Send + Sync, G: Gate + Sync, R: Threads + Wait + Sync + Abort>(
    rt: &R,
    alloc: Global,
    helper_count: usize,
    helpers: &Helpers<'_, Travel<Doubling, J>, G, R>,
    register: &mut Register<Numbers, J>,
) -> Result<(), Unrun> {
    beside(
        helpers,
        helper_count,
        &mut || many_floors(rt, alloc, helpers, register),
    )
}

/// Moves many floors, beside so many helpers.
fn floors_by<G: Gate + Sync, R: Threads + Wait + Sync + Abort>(
    rt: &R,
    alloc: Global,
    helper_count: usize,
    steps: Doubling,
    gate: &G,
) -> Result<(), Unrun> {
    floors_named::<Brand, G, R>(rt, alloc, Opened::new(), helper_count, steps, gate)
}

#[test]
fn none_one_and_three_helpers(rt: HostRuntime) -> Result<(), Fail> {
    let alloc = rt.alloc();
    let steps = Doubling {
        alloc,
        refused: None,
    };
    for helper_count in [0, 1, 3] {
        floors_by(&rt, alloc, helper_count, steps, &NoGate)?;
    }
    Ok(())
}

/// A step that is refused stops its floor; the next floor goes on.
#[test]
fn refused_step(rt: HostRuntime) -> Result<(), Fail> {
    let alloc = rt.alloc();
    let steps = Doubling {
        alloc,
        refused: Some((1, 12)),
    };
    for helper_count in [0, 1, 3] {
        match floors_by(&rt, alloc, helper_count, steps, &NoGate) {
            Err(Unrun::Stopped(history)) => {
                let backs = history
                    .as_slice()
                    .iter()
                    .filter(|e| matches!(e, Event::Back(_, _)))
                    .count();
                assert_eq!(rt; backs, 1);
            }
            _ => panic!(rt; "no chunk was sent back"),
        }
    }
    Ok(())
}

/// Counts items and floors.
#[derive(Drop)]
struct Counter {
    entered: AtomicU64,
    left: AtomicU64,
    ended: AtomicU64,
    items: AtomicU64,
}

impl Gate for Counter {
    fn enter(&self, _stage: usize, _number: usize) {
        self.entered.fetch_add(1, Ordering::SeqCst);
    }

    fn left(&self, _stage: usize, _number: usize) {
        self.left.fetch_add(1, Ordering::SeqCst);
    }

    fn is_open(&self) -> bool {
        true
    }

    fn ended(&self, _plan: &Plan, count: usize, _history: &[Event]) {
        self.ended.fetch_add(1, Ordering::SeqCst);
        self.items.fetch_add(count as u64, Ordering::SeqCst);
    }
}

/// Each item enters and leaves each stage, and the gate is notified of each floor's end: of 90, 18 of each of 0, 4, 5,
/// 14 and 160 items: 18 times 183; a third of the floors has one stage, a third two, a third three.
#[test]
fn gate_sees_all(rt: HostRuntime) -> Result<(), Fail> {
    let alloc = rt.alloc();
    let steps = Doubling {
        alloc,
        refused: None,
    };
    for helper_count in [0, 3] {
        let gate = Counter {
            entered: AtomicU64::new(0),
            left: AtomicU64::new(0),
            ended: AtomicU64::new(0),
            items: AtomicU64::new(0),
        };
        floors_by(&rt, alloc, helper_count, steps, &gate)?;
        assert_eq!(rt; gate.ended.load(Ordering::SeqCst), 90);
        assert_eq!(rt; gate.items.load(Ordering::SeqCst), 3294);
        assert_eq!(rt; gate.entered.load(Ordering::SeqCst), 6588);
        assert_eq!(rt; gate.left.load(Ordering::SeqCst), 6588);
    }
    Ok(())
}

/// Holds item 0 until item 4 has left, for at most 10,000 turns of a millisecond.
#[derive(Drop)]
struct Hold<R: Clock + Drop> {
    rt: R,
    gone: AtomicU64,
    in_vain: AtomicU64,
}

impl<R: Clock + Drop> Gate for Hold<R> {
    fn enter(&self, _stage: usize, number: usize) {
        if number != 0 {
            return;
        }
        for _ in 0..10000 {
            if self.gone.load(Ordering::SeqCst) != 0 {
                return;
            }
            let _ = std::thread::sleep(&self.rt, Duration::from_millis(1));
        }
        self.in_vain.fetch_add(1, Ordering::SeqCst);
    }

    fn left(&self, _stage: usize, number: usize) {
        if number == 4 {
            self.gone.store(1, Ordering::SeqCst);
        }
    }
}

/// A floor, how many numbers its chunks have, and how many helpers there are.
#[derive(Clone, Copy)]
struct Trial<'a> {
    helper_count: usize,
    floors: Floors,
    lens: &'a [usize],
}

fn one_named<J: Naming + Send + Sync, G: Gate + Sync, R: Threads + Wait + Sync + Abort>(
    rt: &R,
    alloc: Global,
    opened: Opened<Numbers>,
    steps: Doubling,
    gate: &G,
    trial: Trial<'_>,
) -> Result<(), Unrun>
    requires { opened ≡ J.book }
{
    let mut register = opened.named::<J>();
    let chain = Travel::<Doubling, J>::new(steps);
    let helpers = Helpers::new(rt, alloc, &chain, gate);
    one_beside(rt, alloc, &helpers, &mut register, trial)
}

fn one_beside<J: Naming + Send + Sync, G: Gate + Sync, R: Threads + Wait + Sync + Abort>(
    rt: &R,
    alloc: Global,
    helpers: &Helpers<'_, Travel<Doubling, J>, G, R>,
    register: &mut Register<Numbers, J>,
    trial: Trial<'_>,
) -> Result<(), Unrun> {
    beside(
        helpers,
        trial.helper_count,
        &mut || check_floor(rt, alloc, helpers, register, &trial.floors, 0, trial.lens),
    )
}

/// Moves one floor by helpers of its own. No step is refused.
fn one_floor<G: Gate + Sync, R: Threads + Wait + Sync + Abort>(
    rt: &R,
    alloc: Global,
    gate: &G,
    trial: Trial<'_>,
) -> Result<(), Unrun> {
    let steps = Doubling {
        alloc,
        refused: None,
    };
    one_named::<Brand, G, R>(rt, alloc, Opened::new(), steps, gate, trial)
}

/// A helper works: a chunk is given on while another one is held.
#[test]
fn helper_goes_on(rt: HostRuntime) -> Result<(), Fail> {
    let gate = Hold {
        rt: rt.clone()?,
        gone: AtomicU64::new(0),
        in_vain: AtomicU64::new(0),
    };
    let trial = Trial {
        helper_count: 1,
        floors: FLOORS[0],
        lens: &[4, 4],
    };
    one_floor(&rt, rt.alloc(), &gate, trial)?;
    assert_eq!(rt; gate.in_vain.load(Ordering::SeqCst), 0);
    Ok(())
}

/// Far more chunks than workers and places in the queues.
#[test]
fn many_chunks(rt: HostRuntime) -> Result<(), Fail> {
    for helper_count in [0, 1, 3, 64] {
        let trial = Trial {
            helper_count,
            floors: FLOORS[2],
            lens: &[4; 1250],
        };
        one_floor(&rt, rt.alloc(), &NoGate, trial)?;
    }
    Ok(())
}

/// Queues with room for one chunk, so that who gives one often waits for room: each of many floors ends.
#[test]
fn many_floors_with_full_queues(rt: HostRuntime) -> Result<(), Fail> {
    let floors: Floors = (
        (&[1, 2, 3], &[3, 1, 2], &[4, 4, 4]),
        (&[1, 2, 3], &[3, 1, 2], &[1, 1, 1]),
    );
    for helper_count in 0..200usize {
        let trial = Trial {
            helper_count: helper_count % 4,
            floors,
            lens: &[2; 64],
        };
        one_floor(&rt, rt.alloc(), &NoGate, trial)?;
    }
    Ok(())
}

/// 40 chunks on a floor of two stages.
pub fn growing_floors<R: Threads + Wait + Sync + Abort>(
    rt: &R,
    alloc: Global,
) -> Result<(), Unrun> {
    let trial = Trial {
        helper_count: 2,
        floors: FLOORS[1],
        lens: &[4; 40],
    };
    one_floor(rt, alloc, &NoGate, trial)
}

/// Writes down the calls in their order: a digit of base 16 for each, which is for item n n+1 where it enters, and n+8
/// where it has left.
#[derive(Drop)]
struct Order {
    written: AtomicU64,
}

impl Order {
    fn write(&self, digit: usize) {
        let written = self.written.load(Ordering::SeqCst);
        let more = written.wrapping_mul(16).wrapping_add(digit as u64);
        self.written.store(more, Ordering::SeqCst);
    }
}

impl Gate for Order {
    fn enter(&self, _stage: usize, number: usize) {
        self.write(number.wrapping_add(1));
    }

    fn left(&self, _stage: usize, number: usize) {
        self.write(number.wrapping_add(8));
    }

    fn is_open(&self) -> bool {
        true
    }
}

/// One thread carries chunks on a floor of one stage: the gate sees the items of a chunk enter, one after another, and
/// then leave.
#[test]
fn order_at_the_gate(rt: HostRuntime) -> Result<(), Fail> {
    let orders: [(&[usize], u64); 4] = [
        (&[3, 3, 1], 0x123_89a_456_bcd_7_e),
        (&[1, 3, 3], 0x1_8_234_9ab_567_cde),
        (&[1, 3, 1, 2], 0x1_8_234_9ab_5_c_67_de),
        (&[2, 1, 3, 1], 0x12_89_3_a_456_bcd_7_e),
    ];
    for (lens, wanted) in orders {
        let gate = Order {
            written: AtomicU64::new(0),
        };
        let trial = Trial {
            helper_count: 0,
            floors: ((&[3], &[1], &[64]), (&[3], &[1], &[16])),
            lens,
        };
        one_floor(&rt, rt.alloc(), &gate, trial)?;
        assert_eq!(rt; gate.written.load(Ordering::SeqCst), wanted);
    }
    Ok(())
}

/// An open gate that notes whether two items were ever inside at once. Who is alone waits for another, for at most
/// 5,000 turns of a millisecond, and nobody waits once one did so in vain.
#[derive(Drop)]
struct Meeting<R: Clock + Drop> {
    rt: R,
    inside: AtomicU64,
    met: AtomicU64,
    in_vain: AtomicU64,
}

impl<R: Clock + Drop> Gate for Meeting<R> {
    fn enter(&self, _stage: usize, _number: usize) {
        if 0 < self.inside.fetch_add(1, Ordering::SeqCst) {
            self.met.store(1, Ordering::SeqCst);
        }
        for _ in 0..5000 {
            if self.met.load(Ordering::SeqCst) != 0 || self.in_vain.load(Ordering::SeqCst) != 0 {
                return;
            }
            let _ = std::thread::sleep(&self.rt, Duration::from_millis(1));
        }
        self.in_vain.store(1, Ordering::SeqCst);
    }

    fn left(&self, _stage: usize, _number: usize) {
        self.inside.fetch_sub(1, Ordering::SeqCst);
    }

    fn is_open(&self) -> bool {
        true
    }
}

/// Two threads are inside their handlers at once: chunks of one item each, so that no thread has two inside.
#[test]
fn two_threads_overlap(rt: HostRuntime) -> Result<(), Fail> {
    for helper_count in [1, 3] {
        let gate = Meeting {
            rt: rt.clone()?,
            inside: AtomicU64::new(0),
            met: AtomicU64::new(0),
            in_vain: AtomicU64::new(0),
        };
        let trial = Trial {
            helper_count,
            floors: FLOORS[1],
            lens: &[1; 40],
        };
        one_floor(&rt, rt.alloc(), &gate, trial)?;
        assert_eq!(rt; gate.inside.load(Ordering::SeqCst), 0);
        assert_eq!(rt;
            gate.met.load(Ordering::SeqCst),
            1,
            "two threads were never inside at once"
        );
    }
    Ok(())
}
