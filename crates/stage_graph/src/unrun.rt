//! Why a floor has no run.

ghost use Rattle.std.specs.Prelude.{◌≡◌};

use crate::History;
use stage_queue::Memory;
use std::alloc::AllocError;
use thiserror::Error;

/// Why there is no run. The items are dropped.
#[derive(Drop, Debug, Error)]
pub enum Unrun {
    /// Memory ran out: from `run_floor`, before any worker had started; from `Helpers::run` also after the floor.
    #[error("out of memory")]
    Memory,
    /// The floor was stopped. Its history has a `Back` or a `Halt`.
    #[error("the floor was stopped")]
    Stopped(History),
}

impl From<Memory> for Unrun {
    ghost use Rattle.stage_graph.specs.declared.unrun.Unrun.TheVariants.{Memory};

    ghost from_gives = { λ _ u. u ≡ Memory };

    fn from(_refused: Memory) -> Unrun {
        Unrun::Memory
    }
}

impl From<AllocError> for Unrun {
    ghost use Rattle.stage_graph.specs.declared.unrun.Unrun.TheVariants.{Memory};

    ghost from_gives = { λ _ u. u ≡ Memory };

    fn from(_refused: AllocError) -> Unrun {
        Unrun::Memory
    }
}
