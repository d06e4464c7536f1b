//! Why a file was not taken.

ghost use Rattle.std.specs.Prelude.{◌≡◌};

use devices::Failed;
use std::alloc::AllocError;
use thiserror::Error;

/// Why a file, the first line or the last line was not written.
#[derive(Clone, Copy, Debug, PartialEq, Eq, Error)]
pub enum WriteFault {
    /// The time is past the greatest, 253,402,300,799 seconds since 1970-01-01.
    #[error("Time")]
    Time,
    /// The file has more than 16,777,216 bytes.
    #[error("Size")]
    Size,
    /// There are 65,536 files already.
    #[error("Count")]
    Count,
    /// The name is empty, longer than 1,024 bytes, or not allowed.
    #[error("Name")]
    Name,
    /// The name doesn't come after the one before it.
    #[error("Order")]
    Order,
    /// The name lies in a folder whose name an earlier file has.
    #[error("Conflict")]
    Conflict,
    /// With this file the text would have more than 1,073,741,824 bytes.
    #[error("Text")]
    Text,
    /// The writer failed.
    #[error("the snapshot can't be written")]
    Write,
    /// There was no memory.
    #[error("no memory")]
    Memory,
}

impl From<AllocError> for WriteFault {
    ghost use Rattle.snapshots.specs.declared.write_fault.WriteFault.TheVariants.{Memory};

    ghost from_gives = { λ refused fault. fault ≡ Memory };

    fn from(_refused: AllocError) -> WriteFault {
        WriteFault::Memory
    }
}

impl From<Failed> for WriteFault {
    ghost use Rattle.snapshots.specs.declared.write_fault.WriteFault.TheVariants.{Write as Unwritten};

    ghost from_gives = { λ failed fault. fault ≡ Unwritten };

    fn from(_failed: Failed) -> WriteFault {
        WriteFault::Write
    }
}
