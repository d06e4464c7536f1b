//! What takes chunks through floors.

ghost use Rattle.std.specs.Prelude.{◌≡◌, ℕ, map, IfOk};
ghost use Rattle.stage_graph.specs.After.{last_cut};
ghost use Rattle.stage_graph.specs.Helpers.{AreSized};
ghost use Rattle.stage_graph.specs.Layouts.{IsChunkSize};
ghost use Rattle.stage_graph.specs.Steps.{value_of};

use crate::{Before, Gate, Helpers, Naming, Plan, Register, Steps, Travel, Unrun};
use std::sync::Wait;

/// What takes chunks through floors, as helpers do, where its type isn't named.
pub trait Carries {
    type Chunk: Drop;

    type Value;

    /// Where chunks are noted.
    type Register;

    ghost step: { ℕ → Self.Value → Self.Value };

    ghost content: { Self.Chunk → Self.Value };

    ghost count: { Self.Chunk → ℕ };

    /// Takes chunks through a floor of this plan: [`Helpers::run`] without the history.
    fn carry(
        &self,
        register: &mut Self::Register,
        plan: &Plan,
        size: usize,
        before: Before,
        chunks: Vec<Self::Chunk>,
    ) -> Result<Vec<Self::Chunk>, Unrun>
        requires size { IsChunkSize plan.now size }
        requires chunks { AreSized count size chunks.items }
        ensures { IfOk result (λ v. map content v.items
            ≡ map (λ x. value_of step (last_cut plan.now) (content x)) chunks.items) };
}

impl<'a, S: Steps, J: Naming, G: Gate, R: Wait> Carries for Helpers<'a, Travel<S, J>, G, R> {
    type Chunk = S::Chunk;

    type Value = S::Value;

    type Register = Register<S::Chunk, J>;

    ghost step = { S.step };

    ghost content = { S.content };

    ghost count = { S.count };

    fn carry(
        &self,
        register: &mut Register<S::Chunk, J>,
        plan: &Plan,
        size: usize,
        before: Before,
        chunks: Vec<S::Chunk>,
    ) -> Result<Vec<S::Chunk>, Unrun>
        requires size { IsChunkSize plan.now size }
        requires chunks { AreSized S.count size chunks.items }
        ensures { IfOk result (λ v. map S.content v.items
            ≡ map (λ x. value_of S.step (last_cut plan.now) (S.content x)) chunks.items) }
    {
        let arrived = self.run(register, plan, size, before, chunks)?;
        Ok(arrived.chunks)
    }
}
