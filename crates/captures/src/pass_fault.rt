//! Why a pass over a capture stopped.

ghost use Rattle.std.specs.Prelude.{◌≡◌};

use crate::{CaptureFault, CaptureFaultKind};
use devices::Failed;
use std::alloc::AllocError;
use thiserror::Error;

/// Why a pass over a capture came to no end: an upgrade, a replay, or a table of decisions.
#[derive(Clone, Copy, Debug, PartialEq, Eq, Error)]
pub enum PassFault {
    /// The capture's first fault, or its reader failed.
    #[error("capture: {0}")]
    Capture(CaptureFault),
    /// The message of this number is one too many. An upgrade doesn't look at messages, and never answers it.
    #[error("message {0}: TooMany")]
    TooMany(usize),
    /// The writer failed.
    #[error("a write failed")]
    Write,
    /// There was no memory.
    #[error("no memory")]
    Memory,
}

impl From<AllocError> for PassFault {
    ghost use Rattle.captures.specs.declared.pass_fault.PassFault.TheVariants.{Memory};

    ghost from_gives = { λ refused fault. fault ≡ Memory };

    fn from(_refused: AllocError) -> PassFault {
        PassFault::Memory
    }
}

impl From<Failed> for PassFault {
    ghost use Rattle.captures.specs.declared.pass_fault.PassFault.TheVariants.{Write as Unwritten};

    ghost from_gives = { λ failed fault. fault ≡ Unwritten };

    fn from(_failed: Failed) -> PassFault {
        PassFault::Write
    }
}

impl From<CaptureFault> for PassFault {
    ghost use Rattle.captures.specs.Passes.{pass_fault};

    ghost from_gives = { λ fault reported. reported ≡ pass_fault fault };

    fn from(fault: CaptureFault) -> PassFault {
        match fault.kind {
            CaptureFaultKind::Memory => PassFault::Memory,
            _ => PassFault::Capture(fault),
        }
    }
}
