//! The servers: when each of them is free.

ghost use Rattle.std.specs.Prelude.{◌≡◌, ℕ, ◌+◌, ◌<◌, ◌≤◌, List, [], ◌∷◌, drop, replicate, IfOk, OnOk};
ghost use Rattle.std.specs.BinaryHeap.{heap_items, heap_len, heap_capacity};
ghost use Rattle.admission.specs.Reference.{insert_sorted, sorted};
ghost use Rattle.admission.specs.Standing.{first_free, AllFrom};
ghost use Rattle.admission.specs.Servers.{ticks_of, AreOthers, IsOrdered};

use crate::MAX_SERVERS;
use std::alloc::{AllocError, Global};
use std::cmp::Reverse;
use std::collections::BinaryHeap;
use std::marker::Model;

/// When each server is free. Contracts see these ticks from the least to the greatest.
#[derive(Drop)]
pub(crate) struct Servers {
    /// When the first of them is free.
    first: u64,
    /// When each of the others is, with room for one more; of a single server there are none.
    others: BinaryHeap<Reverse<u64>>,
}

impl Model for Servers {
    ghost use Rattle.std.specs.Prelude.{ℕ, List, ◌∷◌};
    ghost use Rattle.std.specs.BinaryHeap.{heap_items, heap_len, heap_capacity};
    ghost use Rattle.admission.specs.Reference.{sorted};
    ghost use Rattle.admission.specs.Servers.{AreOthers, ticks_of};

    ghost Value = { List ℕ };

    ghost view = { λ s. s.first ∷ sorted (ticks_of (heap_items s.others)) };

    ghost invariant = { λ s. AreOthers s.first (heap_items s.others) (heap_len s.others) (heap_capacity s.others) };
}

/// Takes the least tick out of a heap and puts a later one in.
fn exchange(others: &mut BinaryHeap<Reverse<u64>>, finish: u64) -> u64
    requires order { IsOrdered (heap_items others.old) }
    requires some { 1 ≤ heap_len others.old }
    requires room { heap_len others.old < heap_capacity others.old }
    ensures ticks { result ∷ sorted (ticks_of (heap_items others.new))
        ≡ insert_sorted finish (sorted (ticks_of (heap_items others.old))) }
    ensures order { IsOrdered (heap_items others.new) }
    ensures least { AllFrom result (ticks_of (heap_items others.new)) }
    ensures len { heap_len others.new ≡ heap_len others.old }
    ensures capacity { heap_capacity others.old ≤ heap_capacity others.new }
{
    let Ok(()) = others.push(Reverse(finish)) else {
        unreachable!()
    };
    let Some(Reverse(least)) = others.pop() else {
        unreachable!()
    };
    least
}

/// Makes room for that many ticks, and puts in zeros, one fewer.
fn fill(others: &mut BinaryHeap<Reverse<u64>>, servers: usize) -> Result<(), AllocError>
    requires none { (heap_items others.old ≡ []) × (heap_len others.old ≡ 0) }
    requires order { IsOrdered (heap_items others.old) }
    requires some { 1 ≤ servers }
    ensures ticks { OnOk result
        (0 ∷ sorted (ticks_of (heap_items others.new)) ≡ replicate servers 0) }
    ensures order { OnOk result (IsOrdered (heap_items others.new)) }
    ensures len { OnOk result (heap_len others.new + 1 ≡ servers) }
    ensures capacity { OnOk result (servers ≤ heap_capacity others.new) }
{
    others.reserve(servers)?;
    for _ in 1..servers {
        let Ok(()) = others.push(Reverse(0)) else {
            unreachable!()
        };
    }
    Ok(())
}

impl Servers {
    /// That many servers, all of them free from tick 0 on.
    pub(crate) fn new(alloc: Global, servers: u64) -> Result<Self, AllocError>
        requires { (1 ≤ servers) × (servers ≤ MAX_SERVERS) }
        ensures { IfOk result (λ free. free ≡ replicate servers 0) }
    {
        let mut others = BinaryHeap::new(alloc);
        if servers > 1 {
            fill(&mut others, servers as usize)?;
        }
        Ok(Servers { first: 0, others })
    }

    /// When the first of them is free.
    pub(crate) fn first(&self) -> u64
        ensures { result ≡ first_free self.now }
    {
        self.first
    }

    /// Has the first of them serve until this tick.
    pub(crate) fn take(&mut self, finish: u64)
        requires { first_free self.old ≤ finish }
        ensures { self.new ≡ drop 1 (insert_sorted finish self.old) }
    {
        if self.others.is_empty() {
            self.first = finish;
        } else {
            self.first = exchange(&mut self.others, finish);
        }
    }
}
