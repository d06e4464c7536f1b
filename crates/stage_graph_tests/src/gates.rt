//! Gates that see each enter and leave, on a give and on a back.
use crate::floors::Lists;
use crate::threads::{is_legal, refusal, sums};
use stage_graph::{Gate, Unrun};
use std::sync::atomic::{AtomicU64, Ordering};
use std::test::*;
use std::time::{Clock, Duration};

// Two stages of one worker each, with queues of one.
const LISTS: Lists = (&[1, 3], &[1, 1], &[1, 1]);

// Writes down the calls of each stage in their order: a digit for each, which is for item n 2n+1 where it enters, and
// 2n+2 where it has left. Where a stage has just written this, it waits until the other has written at least that.
#[derive(Drop)]
struct Watch<R: Clock + Drop> {
    rt: R,
    first: AtomicU64,
    second: AtomicU64,
    // what the second stage had written 20 milliseconds after the first item came to the first one
    early: AtomicU64,
    waits: [(usize, u64, u64); 2],
    in_vain: AtomicU64,
}

fn new_watch<R: Clock + Drop>(rt: R, waits: [(usize, u64, u64); 2]) -> Watch<R> {
    Watch {
        rt,
        first: AtomicU64::new(0),
        second: AtomicU64::new(0),
        early: AtomicU64::new(0),
        waits,
        in_vain: AtomicU64::new(0),
    }
}

impl<R: Clock + Drop> Watch<R> {
    fn record(&self, stage: usize, digit: u64) {
        let (own, other) = match stage {
            0 => (&self.first, &self.second),
            _ => (&self.second, &self.first),
        };
        let written = own
            .load(Ordering::SeqCst)
            .wrapping_mul(10)
            .wrapping_add(digit);
        own.store(written, Ordering::SeqCst);
        for (at, this, that) in self.waits {
            if (at, this) == (stage, written) && !self.reaches(other, that) {
                self.in_vain.fetch_add(1, Ordering::SeqCst);
            }
        }
    }

    // Waits for at most 10,000 turns of a millisecond.
    fn reaches(&self, other: &AtomicU64, that: u64) -> bool {
        for _ in 0..10000 {
            if that <= other.load(Ordering::SeqCst) {
                return true;
            }
            let _ = std::thread::sleep(&self.rt, Duration::from_millis(1));
        }
        false
    }

    fn written(&self) -> (u64, u64, u64, u64) {
        (
            self.first.load(Ordering::SeqCst),
            self.second.load(Ordering::SeqCst),
            self.early.load(Ordering::SeqCst),
            self.in_vain.load(Ordering::SeqCst),
        )
    }
}

impl<R: Clock + Drop> Gate for Watch<R> {
    fn enter(&self, stage: usize, number: usize) {
        self.record(stage, (number as u64).wrapping_mul(2).wrapping_add(1));
        if (stage, number) == (0, 0) {
            let _ = std::thread::sleep(&self.rt, Duration::from_millis(20));
            self.early
                .store(self.second.load(Ordering::SeqCst), Ordering::SeqCst);
        }
    }

    fn left(&self, stage: usize, number: usize) {
        self.record(stage, (number as u64).wrapping_mul(2).wrapping_add(2));
    }
}

// An item enters before it is given on, and has left after that: the second stage has it then.
#[test]
fn gate_at_a_give(rt: HostRuntime) -> Result<(), Fail> {
    let gate = new_watch(rt.clone()?, [(0, 12, 1), (0, 1234, 123)]);
    let (values, history) = sums(&rt, rt.alloc(), LISTS, None, &[5, 6], &gate)?;
    assert_eq!(rt; gate.written(), (1234, 1234, 0, 0));
    assert_eq!(rt; values.len(), 2);
    assert!(rt; is_legal(rt.alloc(), LISTS, 2, &history));
    Ok(())
}

// Item 0 is refused in the second stage, once item 2 waits in the first. It has left after its back, which stops the
// floor: only then item 2 is sent back too.
#[test]
fn gate_at_a_back(rt: HostRuntime) -> Result<(), Fail> {
    let gate = new_watch(rt.clone()?, [(1, 1, 12345), (1, 12, 123456)]);
    let Err(Unrun::Stopped(history)) = sums(&rt, rt.alloc(), LISTS, refusal(1), &[5, 6, 7], &gate)
    else {
        panic!(rt; "the floor was not stopped");
    };
    assert_eq!(rt; gate.written(), (123456, 12, 0, 0));
    assert!(rt; is_legal(rt.alloc(), LISTS, 3, &history));
    Ok(())
}

// Counts the items that are inside one stage, and the most that ever were. Each stays a while when it leaves.
#[derive(Drop)]
struct Inside {
    stage: usize,
    inside: AtomicU64,
    most: AtomicU64,
    turns: AtomicU64,
}

impl Gate for Inside {
    fn enter(&self, stage: usize, _number: usize) {
        if stage == self.stage {
            let others = self.inside.fetch_add(1, Ordering::SeqCst);
            self.most
                .fetch_max(others.wrapping_add(1), Ordering::SeqCst);
        }
    }

    fn left(&self, stage: usize, _number: usize) {
        if stage == self.stage {
            for _ in 0..1000 {
                self.turns.fetch_add(1, Ordering::SeqCst);
            }
            self.inside.fetch_sub(1, Ordering::SeqCst);
        }
    }
}

// A worker's next item enters once its last one has left: never more are inside a stage than it has workers.
#[test]
fn no_more_inside_than_workers(rt: HostRuntime) -> Result<(), Fail> {
    let lists: Lists = (&[1, 2, 3], &[3, 1, 2], &[2, 1, 4]);
    for (stage, workers) in [3, 1, 2].iter().enumerate() {
        for _ in 0..20 {
            let gate = Inside {
                stage,
                inside: AtomicU64::new(0),
                most: AtomicU64::new(0),
                turns: AtomicU64::new(0),
            };
            let (_, history) = sums(&rt, rt.alloc(), lists, None, &[7; 40], &gate)?;
            assert!(rt; is_legal(rt.alloc(), lists, 40, &history));
            assert_eq!(rt; gate.inside.load(Ordering::SeqCst), 0);
            assert!(rt; gate.most.load(Ordering::SeqCst) <= *workers);
        }
    }
    Ok(())
}
