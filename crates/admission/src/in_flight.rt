//! The admitted requests of a tier whose responses aren't complete yet.

ghost use Rattle.std.specs.Prelude.{◌≡◌, ◌<◌, [], drop, map, option_map, slice_get};
ghost use Rattle.std.specs.Prelude.{IfSome, IfNone, OnOk, OnErr};
ghost use Rattle.std.specs.BinaryHeap.{heap_items, IsHeap};
ghost use Rattle.admission.specs.Standing.{AllFrom, completions, with_response};
ghost use Rattle.admission.specs.InFlight.{due_of, response_cmp, Leads, Follows};

use crate::MAX_OFFERS;
use std::alloc::{AllocError, Global};
use std::cmp::Reverse;
use std::collections::{BinaryHeap, VecDeque};
use std::marker::Model;

/// A response that isn't complete yet.
#[derive(Clone, Copy, PartialEq, Eq, PartialOrd, Ord, Drop)]
pub(crate) struct Response {
    /// The tick at which it is complete.
    pub(crate) completion: u64,
    /// How many requests of its tier were admitted before its own.
    number: u64,
    /// How long it took then.
    pub(crate) sample: u64,
}

/// The responses that aren't complete yet. Contracts see them in the order of their completions, of two at one tick
/// the one that was admitted first.
#[derive(Drop)]
pub(crate) struct InFlight {
    /// Those that were added in their order.
    queue: VecDeque<Response>,
    /// When the last of them is complete.
    latest: u64,
    /// The others.
    others: BinaryHeap<Reverse<Response>>,
    /// How many requests were admitted.
    pub(crate) admitted: u64,
}

impl Model for InFlight {
    ghost use Rattle.std.specs.BinaryHeap.{heap_items};
    ghost use Rattle.admission.specs.Standing.{Flight};
    ghost use Rattle.admission.specs.InFlight.{flight_of, IsFlight};

    ghost Value = { Flight };

    ghost view = { λ f. flight_of f.admitted f.queue.items (heap_items f.others) };

    ghost invariant = { λ f. IsFlight f.admitted f.latest f.queue.items (heap_items f.others) };
}

/// The first of the queue, where it comes before the others.
fn leading(queue: &VecDeque<Response>, others: &BinaryHeap<Reverse<Response>>) -> Option<Response>
    requires { IsHeap (λ (x y : Reverse Response). response_cmp y.0 x.0) (heap_items others.now) }
    ensures leads { IfSome result (λ first. Leads queue.now.items (heap_items others.now) first) }
    ensures follows { IfNone result (Follows queue.now.items (heap_items others.now)) }
{
    let Some(first) = queue.front() else {
        return None;
    };
    let Some(other) = others.peek() else {
        return Some(*first);
    };
    if *first < other.0 {
        return Some(*first);
    }
    None
}

impl InFlight {
    /// No request was admitted yet.
    pub(crate) fn new(alloc: Global) -> Self
        ensures { result ≡ record { admitted = 0; responses = [] } }
    {
        InFlight {
            queue: VecDeque::new(alloc),
            latest: 0,
            others: BinaryHeap::new(alloc),
            admitted: 0,
        }
    }

    /// The one that is complete first.
    pub(crate) fn next(&self) -> Option<Response>
        ensures next { option_map due_of result ≡ slice_get self.now.responses 0 }
        ensures least { IfSome result
            (λ next. AllFrom next.completion (completions self.now.responses)) }
    {
        if let Some(first) = leading(&self.queue, &self.others) {
            return Some(first);
        }
        match self.others.peek() {
            Some(next) => Some(next.0),
            None => None,
        }
    }

    /// Takes that one out.
    pub(crate) fn take(&mut self)
        ensures { self.new
            ≡ record { admitted = self.old.admitted; responses = drop 1 self.old.responses } }
    {
        if let Some(_) = leading(&self.queue, &self.others) {
            self.queue.pop_front();
            return;
        }
        self.others.pop();
    }

    /// Adds an admitted request, whose response is complete at `completion` and took `sample` ticks then.
    pub(crate) fn add(&mut self, completion: u64, sample: u64) -> Result<(), AllocError>
        requires { self.old.admitted < MAX_OFFERS }
        ensures ok { OnOk result (self.new
            ≡ with_response self.old (record { completion = completion; sample = sample })) }
        ensures err { OnErr result (self.new ≡ self.old) }
    {
        let response = Response {
            completion,
            number: self.admitted,
            sample,
        };
        if self.latest <= completion {
            self.queue.push_back(response)?;
            self.latest = completion;
            self.admitted += 1;
            return Ok(());
        }
        self.others.push(Reverse(response))?;
        self.admitted += 1;
        Ok(())
    }
}
