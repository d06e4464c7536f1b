//! A chain whose value is a sum.

ghost use Rattle.std.specs.Prelude.{◌≡◌, ℕ, ◌+◌, ◌*◌, ◌%◌, ◌^◌, ◌<◌, List, IfOk, slice_index, map, length};
ghost use Rattle.stage_graph.specs.Steps.{value_of};
ghost use Rattle.stage_graph.specs.After.{last_cut, with_steps};
ghost use Rattle.std.specs.List.{range_with_len};

use stage_graph::{Chain, Gate, History, Named, Plan, Run, RunName, Unrun, run_floor};
use std::alloc::Global;
use std::marker::{Brand, PhantomData};
use std::sync::Wait;
use std::thread::Threads;

// Names the inputs of a run, and the table of its chain.
pub trait Sums {
    ghost inputs: { List ℕ };

    ghost addends: { List ℕ };
}

impl Sums for Brand {
    ghost use Rattle.std.specs.Prelude.{[]};

    ghost inputs = { [] };

    ghost addends = { [] };
}

#[derive(Drop)]
pub struct Sum<K: Sums> {
    number: usize,
    done: usize,
    value: u64,
    of: PhantomData<K>,
    pub ghost own: { value
        ≡ value_of (λ k x. (x * 2 + slice_index K.addends k) % 2 ^ 64) done (slice_index K.inputs number) },
}

impl<K: Sums> Named for Sum<K> {
    ghost number_of = { λ s. s.number };

    ghost done_of = { λ s. s.done };

    fn number(&self) -> usize {
        self.number
    }

    fn done(&self) -> usize {
        self.done
    }
}

// A step that is refused to one item, or to each where none is named.
#[derive(Clone, Copy)]
pub struct Refusal {
    pub step: usize,
    pub item: Option<usize>,
}

impl Refusal {
    // Whether an item is refused its next step.
    fn meets<K: Sums>(&self, item: &Sum<K>) -> bool {
        self.step == item.done && (self.item.is_none() || self.item == Some(item.number))
    }
}

// A chain that borrows: step k doubles, and adds entry k of a table. One step may be set to be refused.
#[derive(Drop)]
pub struct Adding<'a, K: Sums> {
    addends: &'a [u64],
    refused: Option<Refusal>,
    of: PhantomData<K>,
    pub ghost table: { addends.now ≡ K.addends },
}

impl<'a, K: Sums> Chain for Adding<'a, K> {
    type Item = Sum<K>;

    type Value = u64;

    ghost steps = { length K.addends };

    ghost step = { λ k x. (x * 2 + slice_index K.addends k) % 2 ^ 64 };

    ghost input_at = { λ n. slice_index K.inputs n };

    ghost content = { λ s. s.value };

    fn steps(&self) -> usize {
        self.addends.len()
    }

    fn work(&self, item: Sum<K>) -> Result<Sum<K>, Sum<K>> {
        if let Some(refusal) = self.refused
            && refusal.meets(&item)
        {
            return Err(item);
        }
        let Sum {
            number,
            done,
            value,
            of,
        } = item;
        Ok(Sum {
            number,
            done: done + 1,
            value: value.wrapping_mul(2).wrapping_add(self.addends[done]),
            of,
        })
    }

    ghost holds = { λ x. x.own };
}

// The items of the inputs, with no step done.
pub fn items_of<K: Sums>(alloc: Global, inputs: &[u64]) -> Result<Vec<Sum<K>>, Unrun>
    requires { inputs.now ≡ K.inputs }
    ensures fresh { IfOk result
        (λ v. map (λ x. (x.number, x.done)) v.items ≡ map (with_steps 0) (range_with_len 0 (length inputs.now))) }
    ensures len { IfOk result (λ v. length v.items ≡ length inputs.now) }
{
    let mut items = Vec::with_capacity(alloc, inputs.len())?;
    for i in 0..inputs.len() {
        items.push_reserved(new_item(i, inputs[i]));
    }
    Ok(items)
}

fn new_item<K: Sums>(number: usize, value: u64) -> Sum<K>
    requires { value ≡ slice_index K.inputs number }
    ensures { (result.number ≡ number) × (result.done ≡ 0) }
{
    Sum {
        number,
        done: 0,
        value,
        of: PhantomData,
    }
}

// The values of the items.
fn values_of<K: Sums>(alloc: Global, items: Vec<Sum<K>>) -> Result<Vec<u64>, Unrun>
    ensures { IfOk result (λ v. v.items ≡ map (λ x. x.value) items.items) }
{
    let mut values = Vec::with_capacity(alloc, items.len())?;
    for item in &items {
        values.push_reserved(item.value);
    }
    Ok(values)
}

pub fn chain_over<'a, K: Sums>(addends: &'a [u64], refused: Option<Refusal>) -> Adding<'a, K>
    requires { addends.now ≡ K.addends }
{
    Adding {
        addends,
        refused,
        of: PhantomData,
    }
}

fn sums_with<K: Sums + RunName + Send + Sync, G: Gate + Sync, R: Threads + Wait + Sync>(
    rt: &R,
    alloc: Global,
    plan: Plan,
    addends: &[u64],
    refused: Option<Refusal>,
    inputs: &[u64],
    gate: &G,
) -> Result<(Vec<u64>, History), Unrun>
    requires inputs { inputs.now ≡ K.inputs }
    requires addends { addends.now ≡ K.addends }
    requires count { length inputs.now ≡ K.count }
    requires plan { plan ≡ K.plan }
    requires cut { last_cut plan ≡ length addends.now }
    ensures { IfOk result
        (λ r. r.0.items ≡ map
        (value_of (λ k x. (x * 2 + slice_index addends.now k) % 2 ^ 64) (length addends.now)) inputs.now) }
{
    let items = items_of::<K>(alloc, inputs)?;
    let chain = chain_over::<K>(addends, refused);
    let run = run_floor::<Adding<K>, K, G, R>(rt, alloc, plan, &chain, items, gate)?;
    let (items, history) = parts_of(alloc, run)?;
    let values = values_of(alloc, items)?;
    Ok((values, history))
}

// The items of a run and its history.
fn parts_of<C: Chain, N: RunName>(
    alloc: Global,
    run: Run<C, N>,
) -> Result<(Vec<C::Item>, History), Unrun>
    ensures { IfOk result
        (λ r. map C.content r.0.items
        ≡ map (λ k. value_of C.step (last_cut N.plan) (C.input_at k)) (range_with_len 0 N.count)) }
{
    let history = Vec::from_slice(alloc, run.history())?;
    Ok((run.into_items(), History::from(history)))
}

// The sums of all inputs by the chain over a table, and the history of the run.
pub fn sums_of<G: Gate + Sync, R: Threads + Wait + Sync>(
    rt: &R,
    alloc: Global,
    plan: Plan,
    addends: &[u64],
    refused: Option<Refusal>,
    inputs: &[u64],
    gate: &G,
) -> Result<(Vec<u64>, History), Unrun>
    requires { last_cut plan ≡ length addends.now }
    ensures { IfOk result
        (λ r. r.0.items ≡ map
        (value_of (λ k x. (x * 2 + slice_index addends.now k) % 2 ^ 64) (length addends.now)) inputs.now) }
{
    sums_with::<Brand, G, R>(rt, alloc, plan, addends, refused, inputs, gate)
}
