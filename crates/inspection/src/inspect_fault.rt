//! Why an inspection stopped, and what was found until then.

ghost use Rattle.std.specs.Prelude.{◌≡◌};

use crate::Inspection;
use captures::CaptureFault;
use std::alloc::AllocError;
use thiserror::Error;

/// Why an inspection came to no end.
#[derive(Clone, Copy, Debug, PartialEq, Eq, Error)]
pub enum InspectFault {
    /// The first line of the capture has a fault, or its reader failed there.
    #[error("capture: {0}")]
    FirstLine(CaptureFault),
    /// A record after the first line has the capture's first fault, or the reader failed there. The whole records
    /// before it hold this.
    #[error("capture: {fault}")]
    Stopped {
        held: Inspection,
        fault: CaptureFault,
    },
    /// There was no memory.
    #[error("no memory")]
    Memory,
}

impl From<AllocError> for InspectFault {
    ghost use Rattle.inspection.specs.declared.inspect_fault.InspectFault.TheVariants.{Memory};

    ghost from_gives = { λ refused fault. fault ≡ Memory };

    fn from(_refused: AllocError) -> InspectFault {
        InspectFault::Memory
    }
}
