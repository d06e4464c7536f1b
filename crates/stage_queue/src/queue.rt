//! A queue with a capacity.

ghost use Rattle.std.specs.Prelude.{◌≡◌, ◌≤◌, ◌++◌, [], ◌∷◌, length, drop, IfOk, OnOk, IfErr, slice_get, nat_eq};
ghost use Rattle.std.specs.Prelude.{nat_le, is_err};
ghost use Rattle.std.specs.Option.{option_copied};

use crate::Memory;
use std::alloc::Global;
use std::collections::VecDeque;
use std::marker::Model;

/// A first-in, first-out queue with a capacity. Contracts see the pair of its list and its capacity.
///
/// The room for `capacity` values is reserved once, by `new`.
#[derive(Drop)]
pub struct Queue<T> {
    items: VecDeque<T>,
    capacity: usize,
}

impl<T> Model for Queue<T> {
    ghost use Rattle.std.specs.Prelude.{List, ℕ, ◌≤◌, length};
    ghost use Rattle.std.specs.VecDeque.{deque_capacity};

    ghost Value = { List T × ℕ };

    ghost view = { λ q. (q.items.items, q.capacity) };

    ghost invariant = { λ q. (length q.items.items ≤ q.capacity) × (q.capacity ≤ deque_capacity q.items) };
}

impl<T> Queue<T> {
    /// An empty queue with room for `capacity` values.
    pub fn new(alloc: Global, capacity: usize) -> Result<Queue<T>, Memory>
        ensures { IfOk result (λ q. q ≡ ([], capacity)) }
    {
        let items = VecDeque::with_capacity(alloc, capacity)?;
        Ok(Queue { items, capacity })
    }

    /// How many values wait.
    pub fn len(&self) -> usize
        ensures len { result ≡ length self.now.0 }
        ensures bound { result ≤ self.now.1 }
    {
        let _capacity = self.capacity;
        self.items.len()
    }

    /// How many values fit.
    pub fn capacity(&self) -> usize
        ensures { result ≡ self.now.1 }
    {
        self.capacity
    }

    pub fn is_empty(&self) -> bool
        ensures { result ≡ nat_eq (length self.now.0) 0 }
    {
        self.items.is_empty()
    }

    pub fn is_full(&self) -> bool
        ensures { result ≡ nat_le self.now.1 (length self.now.0) }
    {
        self.capacity <= self.items.len()
    }

    /// Puts a value at the end. It is handed back exactly when the queue is full, which then stays as it was.
    pub fn push(&mut self, value: T) -> Result<(), T>
        ensures ok { OnOk result (self.new ≡ (self.old.0 ++ value ∷ [], self.old.1)) }
        ensures err { IfErr result (λ x. (x ≡ value) × (self.new ≡ self.old)) }
        ensures full { is_err result ≡ nat_le self.old.1 (length self.old.0) }
    {
        if self.is_full() {
            return Err(value);
        }
        match self.items.push_back(value) {
            Ok(()) => Ok(()),
            Err(failed) => Err(failed.value),
        }
    }

    /// The value that `pop` would take.
    pub fn front(&self) -> Option<&T>
        ensures { option_copied result ≡ slice_get self.now.0 0 }
    {
        self.items.front()
    }

    /// Takes the value that has waited longest, if there is one.
    pub fn pop(&mut self) -> Option<T>
        ensures value { result ≡ slice_get self.old.0 0 }
        ensures rest { self.new ≡ (drop 1 self.old.0, self.old.1) }
    {
        self.items.pop_front()
    }
}
