//! Chunks that helpers take through a floor, and the floor's history.

ghost use Rattle.std.specs.Prelude.{◌≡◌, ◌+◌, ◌<◌, ◌≤◌, List, Some, map, length, IfOk, IfErr, IfSome};
ghost use Rattle.std.specs.List.{range_with_len, sum_by};
ghost use Rattle.stage_graph.specs.After.{last_cut, with_steps};
ghost use Rattle.stage_graph.specs.Helpers.{AreSized};
ghost use Rattle.stage_graph.specs.Layouts.{IsChunkSize};
ghost use Rattle.stage_graph.specs.Steps.{value_of};
ghost use Rattle.stage_graph.specs.Through.{IsStopped, IsWhole, HasGoneThrough, IsStoppedInChunks};

use super::Helpers;
use super::chunk::{Travel, Traveller, set_out};
use super::sections::end;
use crate::notes::{Naming, Note, Register};
use crate::{Floor, Gate, History, Plan, Run, RunName, Span, Steps, Unrun};
use std::alloc::{AllocError, Global};
use std::marker::Brand;
use std::sync::Wait;

/// Chunks that went through a floor, and the floor's history.
#[derive(Drop)]
pub struct Arrived<T> {
    /// The chunks, in their order.
    pub chunks: Vec<T>,
    /// The accepted events. An event's number is that of a chunk.
    pub history: History,
}

/// From where the gate counts: how many stages come before those of the floor, and how many items before its own.
#[derive(Clone, Copy)]
pub struct Before {
    pub stages: usize,
    pub items: usize,
}

/// How many items are in some chunks; none where that is more than a `usize` holds.
fn count_of<S: Steps>(steps: &S, chunks: &[S::Chunk]) -> Option<usize>
    ensures { IfSome result (λ n. n ≡ sum_by S.count chunks.now) }
{
    let mut count = 0usize;
    for chunk in chunks {
        count = count.checked_add(steps.len(chunk))?;
    }
    Some(count)
}

/// A chunk with no step done, noted, and its note.
fn note_one<S: Steps, J: Naming>(
    register: &mut Register<S::Chunk, J>,
    number: usize,
    chunk: S::Chunk,
    span: Span,
) -> Result<(Traveller<S, J>, Note<S::Chunk, J>), AllocError>
    ensures fresh { IfOk result (λ r. (r.0.number ≡ number) × (r.0.done ≡ 0)) }
    ensures note { IfOk result (λ r. r.1 ≡ Some chunk) }
{
    let note = register.note(&chunk)?;
    let again = note.again();
    Ok((set_out(number, chunk, note, span), again))
}

/// The chunks with no step done, each noted, and the notes.
fn noted<S: Steps, J: Naming>(
    steps: &S,
    alloc: Global,
    register: &mut Register<S::Chunk, J>,
    before: Before,
    chunks: Vec<S::Chunk>,
) -> Result<(Vec<Traveller<S, J>>, Vec<Note<S::Chunk, J>>), AllocError>
    ensures fresh { IfOk result (λ r. map (λ x. (x.number, x.done)) r.0.items
        ≡ map (with_steps 0) (range_with_len 0 (length chunks.items))) }
    ensures notes { IfOk result (λ r. r.1.items ≡ map Some chunks.items) }
{
    let mut items = Vec::with_capacity(alloc, chunks.len())?;
    let mut notes = Vec::with_capacity(alloc, chunks.len())?;
    let mut first = before.items;
    for chunk in chunks {
        let number = items.len();
        let end = first.saturating_add(steps.len(&chunk));
        let span = Span {
            stages: before.stages,
            first,
            end,
        };
        let (item, note) = note_one(register, number, chunk, span)?;
        items.push_reserved(item);
        notes.push_reserved(note);
        first = end;
    }
    Ok((items, notes))
}

/// The chunks of a floor that has ended, each with so many steps done. Out of memory where one isn't the noted one, or
/// not as many came as were noted.
fn taken_out<S: Steps, J: Naming>(
    alloc: Global,
    done: usize,
    items: Vec<Traveller<S, J>>,
    notes: &[Note<S::Chunk, J>],
) -> Result<Vec<S::Chunk>, Unrun>
    ensures values { (noted : List S.Chunk) → notes.now ≡ map Some noted
        → IfOk result (λ v. map S.content v.items ≡ map (λ x. value_of S.step done (S.content x)) noted) }
    ensures memory { IfErr result (λ u. u ≡ Unrun.Memory) }
{
    let mut chunks = Vec::with_capacity(alloc, notes.len())?;
    for item in items {
        let Some(note) = notes.get(chunks.len()) else {
            return Err(Unrun::Memory);
        };
        let Some(chunk) = item.arrived(done, note) else {
            return Err(Unrun::Memory);
        };
        chunks.push_reserved(chunk);
    }
    if chunks.len() != notes.len() {
        return Err(Unrun::Memory);
    }
    Ok(chunks)
}

impl<'a, S: Steps, J: Naming, G: Gate, R: Wait> Helpers<'a, Travel<S, J>, G, R> {
    /// Takes chunks through a floor of the plan: each through all steps, each queue with a capacity for as many chunks
    /// as have no more items than the plan's queue has capacity for. Gives them in their order, each with the steps'
    /// value of its own content, and the floor's history, which the gate sees too. The gate counts from `before` on.
    ///
    /// The calling thread works beside the helpers that [`beside`](super::beside) started; where there are none it
    /// takes each step itself. It may wait.
    ///
    /// # Errors
    ///
    /// `Memory`, and `Stopped` with the history of the floor where a step was refused it.
    pub fn run(
        &self,
        register: &mut Register<S::Chunk, J>,
        plan: &Plan,
        size: usize,
        before: Before,
        chunks: Vec<S::Chunk>,
    ) -> Result<Arrived<S::Chunk>, Unrun>
        requires size { IsChunkSize plan.now size }
        requires chunks { AreSized S.count size chunks.items }
        ensures values { IfOk result (λ r. map S.content r.chunks.items
            ≡ map (λ x. value_of S.step (last_cut plan.now) (S.content x)) chunks.items) }
        ensures history { IfOk result
            (λ r. HasGoneThrough plan.now (sum_by S.count chunks.items) r.history) }
        ensures stopped { IfErr result (IsStoppedInChunks plan.now (sum_by S.count chunks.items)) }
    {
        let Some(count) = count_of(self.chain.steps(), &chunks) else {
            return Err(Unrun::Memory);
        };
        let floor = plan.in_chunks(self.alloc, size)?;
        let arrived = self.run_on::<Brand>(register, floor, before, chunks)?;
        self.gate.ended(plan, count, arrived.history.as_slice());
        Ok(arrived)
    }

    /// Takes chunks through a floor whose queues count chunks.
    fn run_on<N: RunName>(
        &self,
        register: &mut Register<S::Chunk, J>,
        floor: Plan,
        before: Before,
        chunks: Vec<S::Chunk>,
    ) -> Result<Arrived<S::Chunk>, Unrun>
        requires plan { floor ≡ N.plan }
        requires count { length chunks.items ≡ N.count }
        ensures values { IfOk result (λ r. map S.content r.chunks.items
            ≡ map (λ x. value_of S.step (last_cut floor) (S.content x)) chunks.items) }
        ensures whole { IfOk result (λ r. IsWhole N.plan N.count r.history) }
        ensures stopped { IfErr result (IsStopped N.plan N.count) }
    {
        let done = floor.steps();
        let (items, notes) = noted(self.chain.steps(), self.alloc, register, before, chunks)?;
        let run = self.run_items::<N>(floor, items)?;
        let (items, history) = run.into_parts();
        let chunks = taken_out(self.alloc, done, items, &notes)?;
        Ok(Arrived { chunks, history })
    }

    /// Moves a floor to its end.
    fn run_items<N: RunName>(
        &self,
        floor: Plan,
        items: Vec<Traveller<S, J>>,
    ) -> Result<Run<Travel<S, J>, N>, Unrun>
        requires plan { floor ≡ N.plan }
        requires fresh { map (λ x. (x.number, x.done)) items.items
            ≡ map (with_steps 0) (range_with_len 0 N.count) }
        ensures whole { IfOk result (λ r. IsWhole N.plan N.count r) }
        ensures stopped { IfErr result (IsStopped N.plan N.count) }
    {
        let own = floor.try_clone(self.alloc)?;
        let count = items.len();
        let opened = Floor::<Travel<S, J>, N>::open(self.alloc, floor, items)?;
        self.lay(opened.into_held())?;
        end::<Travel<S, J>, N>(&own, count, self.moved())
    }
}
