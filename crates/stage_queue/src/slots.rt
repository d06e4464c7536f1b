//! Places by numbers, each filled once.

ghost use Rattle.std.specs.Prelude.{◌≡◌, length, IfOk, OnOk, IfErr, slice_set, replicate, map, is_some, true};
ghost use Rattle.std.specs.List.{list_all};
ghost use Rattle.stage_queue.specs.Placed.{placing_fault, fault_of};

use crate::Memory;
use std::alloc::Global;
use std::marker::Model;

/// Why a value was not placed.
#[derive(Clone, Copy, PartialEq, Eq, Debug)]
pub enum Placing {
    /// The number is not below the number of slots.
    Stranger,
    /// The slot of this number is filled.
    Double,
}

/// A map from the numbers below n, each of which has a value or none. Contracts see the list of n options.
///
/// The room for the values and for their list is reserved once, by `new`.
#[derive(Drop)]
pub struct Slots<T> {
    slots: Vec<Option<T>>,
    list: Vec<T>,
}

impl<T> Model for Slots<T> {
    ghost use Rattle.std.specs.Prelude.{List, ◌≤◌, ◌≡◌, [], length, Option, vec_capacity};

    ghost Value = { List (Option T) };

    ghost view = { λ s. s.slots.items };

    ghost invariant = { λ s. (s.list.items ≡ []) × (length s.slots.items ≤ vec_capacity s.list) };
}

impl<T: Drop> Slots<T> {
    /// `n` slots with no value.
    pub fn new(alloc: Global, n: usize) -> Result<Slots<T>, Memory>
        ensures { IfOk result (λ s. s ≡ replicate n None) }
    {
        let mut slots = Vec::with_capacity(alloc, n)?;
        let list = Vec::with_capacity(alloc, n)?;
        for _ in 0..n {
            slots.push_reserved(None);
        }
        Ok(Slots { slots, list })
    }

    /// How many slots there are, filled or not.
    pub fn len(&self) -> usize
        ensures { result ≡ length self.now }
    {
        self.slots.len()
    }

    /// Fills the slot of a number. The value is handed back, and nothing changes, where the number is a
    /// `Stranger`, or else its slot is a `Double`.
    pub fn place(&mut self, number: usize, value: T) -> Result<(), (Placing, T)>
        ensures ok { OnOk result (self.new ≡ slice_set self.old number (Some value)) }
        ensures err { IfErr result (λ e. (e.1 ≡ value) × (self.new ≡ self.old)) }
        ensures fault { placing_fault self.old number ≡ fault_of result }
    {
        if number >= self.slots.len() {
            return Err((Placing::Stranger, value));
        }
        if self.slots[number].is_some() {
            return Err((Placing::Double, value));
        }
        self.slots[number] = Some(value);
        Ok(())
    }

    /// Whether every slot is filled.
    pub fn is_full(&self) -> bool
        ensures { result ≡ list_all is_some self.now }
    {
        self.slots.iter().all(|slot| slot.is_some())
    }

    /// The values by number.
    pub fn into_list(self) -> Vec<T>
        requires { list_all is_some self ≡ true }
        ensures { map Some result.items ≡ self }
    {
        let Slots { slots, mut list } = self;
        for slot in slots {
            if let Some(value) = slot {
                list.push_reserved(value);
            }
        }
        list
    }
}
