//! A queue and slots of two, and no room at all.

use stage_queue::{Memory, Placing, Queue, Slots};
use std::test::*;

/// What is pushed, or that a value is popped; what comes back; and then the front and the length.
type QueueStep = (Option<u64>, Option<u64>, Option<u64>, usize);

static QUEUE_STEPS: [QueueStep; 8] = [
    (Some(1), None, Some(1), 1),
    (Some(2), None, Some(1), 2),
    (Some(3), Some(3), Some(1), 2),
    (None, Some(1), Some(2), 1),
    (Some(4), None, Some(2), 2),
    (None, Some(2), Some(4), 1),
    (None, Some(4), None, 0),
    (None, None, None, 0),
];

#[test]
fn queue_of_two(rt: HostRuntime) -> Result<(), Fail> {
    let mut queue = Queue::new(rt.alloc(), 2)?;
    for (pushed, back, front, len) in QUEUE_STEPS.iter() {
        let answer = match pushed {
            Some(value) => queue.push(*value).err(),
            None => queue.pop(),
        };
        let found = (queue.front().copied(), queue.len());
        assert_eq!(rt; (answer, found), (*back, (*front, *len)));
        let ends = (queue.is_empty(), queue.is_full(), queue.capacity());
        assert_eq!(rt; ends, (*len == 0, *len == 2, 2));
    }
    Ok(())
}

/// A place, the value for it, and why it is refused.
type SlotStep = (usize, char, Option<(Placing, char)>);

static SLOT_STEPS: [SlotStep; 4] = [
    (1, 'b', None),
    (1, 'c', Some((Placing::Double, 'c'))),
    (2, 'c', Some((Placing::Stranger, 'c'))),
    (0, 'a', None),
];

#[test]
fn two_slots(rt: HostRuntime) -> Result<(), Fail> {
    let mut slots = Slots::new(rt.alloc(), 2)?;
    assert_eq!(rt; slots.len(), 2);
    for (place, value, refused) in SLOT_STEPS.iter() {
        assert!(rt; !slots.is_full());
        assert_eq!(rt; slots.place(*place, *value).err(), *refused);
    }
    assert!(rt; slots.is_full());
    if slots.is_full() {
        assert!(rt; slots.into_list().as_slice() == ['a', 'b'].as_slice());
    }
    Ok(())
}

// A room that no memory can hold is refused, and taken for out of memory.
#[test]
fn room_past_all_memory(rt: HostRuntime) -> Result<(), Fail> {
    let queue: Result<Queue<u64>, Memory> = Queue::new(rt.alloc(), usize::MAX);
    assert_eq!(rt; queue.err(), Some(Memory));
    let slots: Result<Slots<u64>, Memory> = Slots::new(rt.alloc(), usize::MAX);
    assert_eq!(rt; slots.err(), Some(Memory));
    Ok(())
}

#[test]
fn the_text_of_out_of_memory(rt: HostRuntime) -> Result<(), Fail> {
    let fault = Memory;
    let shown = format!(in rt.alloc(); "{fault}")?;
    assert_eq!(rt; shown.as_str(), "out of memory");
    Ok(())
}

// Out of memory: `checks/refuse_growths.py` refuses each growth in turn. Room that there is serves all later calls.
#[test]
fn each_growth_refused(rt: HostRuntime) {
    if let Ok(mut queue) = Queue::new(rt.alloc(), 2) {
        assert_eq!(rt;
            (queue.push(1u64), queue.push(2), queue.push(3)),
            (Ok(()), Ok(()), Err(3))
        );
    }
    if let Ok(mut slots) = Slots::new(rt.alloc(), 2) {
        assert_eq!(rt;
            (slots.place(1, 'b'), slots.place(0, 'a')),
            (Ok(()), Ok(()))
        );
        if slots.is_full() {
            assert!(rt; slots.into_list().as_slice() == ['a', 'b'].as_slice());
        }
    }
}
