//! The events of a floor, what refuses one, and a history of them.

ghost use Rattle.std.specs.Prelude.{◌≡◌, length};

use std::marker::Model;

/// What happens on a floor. The numbers of `Take`, `Give` and `Back` are those of the worker and of the item.
#[derive(Clone, Copy, PartialEq, Eq, Debug)]
pub enum Event {
    /// The item of this number, the first of the backlog, goes into the first queue.
    Feed(usize),
    /// The worker takes the first item of its stage's queue into its slot.
    Take(usize, usize),
    /// The worker gives the item in its slot to the next queue, or to the done items after the last stage.
    Give(usize, usize),
    /// The worker sends the item in its slot back, and the floor is stopped.
    Back(usize, usize),
    /// The worker leaves.
    Leave(usize),
    /// The floor is stopped.
    Halt,
}

/// Why an event is refused.
#[derive(Clone, Copy, PartialEq, Eq, Debug)]
pub enum Cause {
    /// The floor is stopped.
    Stopped,
    /// There is no item where the event would take one.
    Empty,
    /// The queue where the event would put an item is full.
    Full,
    /// The worker has left.
    Gone,
    /// The worker has an item in its slot.
    Busy,
    /// The item is not the one in the worker's slot, or it has not exactly its stage's steps done.
    NotHeld,
    /// The floor is not stopped, and an item may still come to the worker.
    Early,
}

/// The accepted events of a floor, from its opening on. Contracts see them as their list.
#[derive(Drop, Debug)]
pub struct History {
    events: Vec<Event>,
}

impl Model for History {
    ghost use Rattle.std.specs.Prelude.{List};
    ghost use Rattle.stage_graph.specs.declared.event.Event.{Event};

    ghost Value = { List Event };

    ghost view = { λ h. h.events.items };
}

impl From<Vec<Event>> for History {
    ghost from_gives = { λ events h. h ≡ events.items };

    fn from(events: Vec<Event>) -> History {
        History { events }
    }
}

impl History {
    pub fn as_slice(&self) -> &[Event]
        ensures { result.now ≡ self.now }
    {
        self.events.as_slice()
    }

    /// The events. It takes no memory.
    pub fn into_vec(self) -> Vec<Event>
        ensures { result.items ≡ self }
    {
        let History { events } = self;
        events
    }
}
