//! A chunk on its way through a floor.

ghost use Rattle.std.specs.Prelude.{◌≡◌, ◌+◌, ◌-◌, ◌^◌, ◌<◌, Some, IfOk, IfErr, IfSome};
ghost use Rattle.stage_graph.specs.Steps.{value_of};

use crate::notes::{Naming, Note};
use crate::{Chain, Named, Span, Steps};
use std::marker::PhantomData;

/// A chunk on its way through a floor: what is left of it, how many steps are done, and the note of how it was before.
#[derive(Drop)]
pub struct Traveller<S: Steps, J: Naming> {
    number: usize,
    done: usize,
    /// The chunk, or nothing once a step was refused.
    chunk: Option<S::Chunk>,
    note: Note<S::Chunk, J>,
    span: Span,
    of: PhantomData<S::Value>,
    ghost worked: { (x y : S.Chunk) → chunk ≡ Some x → note ≡ Some y
        → S.content x ≡ value_of S.step done (S.content y) },
}

impl<S: Steps, J: Naming> Named for Traveller<S, J> {
    ghost number_of = { λ x. x.number };

    ghost done_of = { λ x. x.done };

    fn number(&self) -> usize {
        self.number
    }

    fn done(&self) -> usize {
        self.done
    }
}

/// Steps as a chain: one step of a chunk is one step of the chain, which has no last one. A chunk knows itself what was
/// done to it.
#[derive(Drop)]
pub struct Travel<S, J> {
    steps: S,
    of: PhantomData<J>,
}

impl<S, J> Travel<S, J> {
    pub fn new(steps: S) -> Travel<S, J> {
        Travel {
            steps,
            of: PhantomData,
        }
    }

    pub(super) fn steps(&self) -> &S {
        &self.steps
    }
}

impl<S: Steps, J: Naming> Chain for Travel<S, J> {
    type Item = Traveller<S, J>;

    type Value = u64;

    ghost steps = { 2 ^ 64 - 1 };

    ghost step = { λ k x. x };

    ghost input_at = { λ n. 0 };

    ghost content = { λ x. 0 };

    fn steps(&self) -> usize {
        usize::MAX
    }

    fn work(&self, item: Traveller<S, J>) -> Result<Traveller<S, J>, Traveller<S, J>> {
        item.step(&self.steps)
    }

    fn span(&self, item: &Traveller<S, J>) -> Span {
        item.span
    }

    ghost use Rattle.stage_graph.specs.Steps.{value_of-same};

    ghost holds = { λ x. value_of-same x.done };
}

/// A chunk that was noted, with no step done.
pub(crate) fn set_out<S: Steps, J: Naming>(
    number: usize,
    chunk: S::Chunk,
    note: Note<S::Chunk, J>,
    span: Span,
) -> Traveller<S, J>
    requires { note ≡ Some chunk }
    ensures { (result.number ≡ number) × (result.done ≡ 0) }
{
    Traveller {
        number,
        done: 0,
        chunk: Some(chunk),
        note,
        span,
        of: PhantomData,
    }
}

impl<S: Steps, J: Naming> Traveller<S, J> {
    /// The chunk with so many steps done, if it is the one of this note.
    pub(crate) fn arrived(self, done: usize, note: &Note<S::Chunk, J>) -> Option<S::Chunk>
        ensures { IfSome result (λ x. (y : S.Chunk) → note.now ≡ Some y
            → S.content x ≡ value_of S.step done (S.content y)) }
    {
        let Traveller {
            done: have,
            chunk,
            note: own,
            ..
        } = self;
        if have != done {
            return None;
        }
        if !own.is_same(note) {
            return None;
        }
        chunk
    }

    /// Does one more step.
    fn step(self, steps: &S) -> Result<Traveller<S, J>, Traveller<S, J>>
        requires { self.done < 2 ^ 64 - 1 }
        ensures ok { IfOk result (λ x. (x.number ≡ self.number) × (x.done ≡ self.done + 1)) }
        ensures err { IfErr result (λ x. (x.number ≡ self.number) × (x.done ≡ self.done)) }
    {
        let Traveller {
            number,
            done,
            chunk,
            note,
            span,
            of,
        } = self;
        let Some(chunk) = chunk else {
            return Err(gone(number, done, note, span));
        };
        match steps.work(done, chunk) {
            Some(chunk) => Ok(Traveller {
                number,
                done: done + 1,
                chunk: Some(chunk),
                note,
                span,
                of,
            }),
            None => Err(gone(number, done, note, span)),
        }
    }
}

/// A chunk to which a step was refused.
fn gone<S: Steps, J: Naming>(
    number: usize,
    done: usize,
    note: Note<S::Chunk, J>,
    span: Span,
) -> Traveller<S, J>
    ensures { (result.number ≡ number) × (result.done ≡ done) }
{
    Traveller {
        number,
        done,
        chunk: None,
        note,
        span,
        of: PhantomData,
    }
}
