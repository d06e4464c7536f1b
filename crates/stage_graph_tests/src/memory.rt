//! Out of memory: `checks/refuse_growths.py` refuses each growth of these tests in turn.

use crate::floors::{Course, Lists, history_of};
use crate::helpers::{FLOORS, growing_floors};
use crate::threads::{sums, verdict};
use stage_graph::{Checked, Event, NoGate, Plan, PlanFault, Unrun, replay_history};
use std::alloc::Global;
use std::process::Abort;

/// A plan that lacks memory says so.
fn check_plan<R: Abort>(rt: &R, alloc: Global) {
    match Plan::new(alloc, &[1, 3], &[2, 1], &[4, 1]) {
        Ok(plan) => assert_eq!(rt; (plan.stages(), plan.workers()), (2, 3)),
        Err(fault) => assert_eq!(rt; fault, PlanFault::Memory),
    }
}

/// A floor that lacks memory never opens; one that is open has room for all of its events.
fn check_floor<R: Abort>(rt: &R, alloc: Global) {
    match history_of(rt, alloc, Course::AllDone) {
        Ok((history, items)) => {
            assert_eq!(rt; history.as_slice().len(), 7);
            assert!(rt; matches!(items, Ok(2)));
        }
        Err(unrun) => assert!(rt; matches!(unrun, Unrun::Memory)),
    }
}

/// A check of a history that lacks memory says so.
fn check_history<R: Abort>(rt: &R, alloc: Global) {
    let Ok(plan) = Plan::new(alloc, &[1], &[1], &[1]) else {
        return;
    };
    let history = [
        Event::Feed(0),
        Event::Take(0, 0),
        Event::Back(0, 0),
        Event::Leave(0),
    ];
    if let Ok(checked) = replay_history(alloc, plan, 2, &history) {
        assert_eq!(rt; checked, Checked::Legal);
    }
}

#[test]
fn each_growth_refused(rt: HostRuntime) {
    let alloc = rt.alloc();
    check_plan(&rt, alloc);
    check_floor(&rt, alloc);
    check_history(&rt, alloc);
}

/// A floor run by threads, whose chain takes no memory: out of memory before the first item was taken, or all are done.
/// Where a thread can't be started, the others go on.
#[test]
fn each_growth_refused_of_threads(rt: HostRuntime) {
    let alloc = rt.alloc();
    let lists: Lists = (&[1, 3], &[2, 2], &[1, 2]);
    match sums(&rt, alloc, lists, None, &[5, 6, 7], &NoGate) {
        Ok((values, history)) => {
            assert_eq!(rt; values.as_slice(), [164, 172, 180].as_slice());
            assert_eq!(rt; history.as_slice().len(), 19);
        }
        Err(unrun) => assert!(rt; matches!(unrun, Unrun::Memory)),
    }
}

/// Floors that helper threads move, whose steps take memory: all chunks arrive, or memory ran out, or the floor was
/// stopped by a step that was refused it, and its history is legal.
#[test]
fn each_growth_refused_of_helpers(rt: HostRuntime) {
    let alloc = rt.alloc();
    match growing_floors(&rt, alloc) {
        Ok(()) | Err(Unrun::Memory) => {}
        Err(Unrun::Stopped(history)) => {
            let events = history.as_slice();
            assert!(rt; events.iter().any(|e| matches!(e, Event::Back(_, _))));
            assert!(rt; verdict(alloc, FLOORS[1].1, 40, &history) != Some(false));
        }
    }
}
