//! Why what was found in a folder can't be taken.

ghost use Rattle.std.specs.Prelude.{◌≡◌, ◌≤◌, length, IfOk};
ghost use Rattle.faults.specs.FaultLines.{file_fault_name, shown_name};

use crate::fault_line::shown_name;
use std::alloc::{AllocError, Global};

/// Why something that was found in a folder isn't taken into a snapshot.
#[derive(Clone, Copy, Debug, PartialEq, Eq)]
pub enum FileFault {
    /// The time is past the greatest, 253,402,300,799 seconds since 1970-01-01.
    Time,
    /// The file has more than 16,777,216 bytes.
    Size,
    /// There are 65,536 files already.
    Count,
    /// The name is no UTF-8, longer than 1,024 bytes, or not allowed.
    Name,
    /// The name doesn't come after the one before it.
    Order,
    /// The name lies in a folder whose name an earlier file has.
    Conflict,
    /// With this file the text would have more than 1,073,741,824 bytes.
    Text,
    /// It is a symbolic link.
    Link,
    /// It is a pipe, a socket or a device.
    Special,
    /// It isn't what was found under its name, or it doesn't have as many bytes as the system says.
    Changed,
    /// It couldn't be read, or is no longer there.
    Read,
}

impl FileFault {
    /// The word for it in a fault's line.
    pub(crate) fn name(self) -> &'static str
        ensures name { result.now ≡ file_fault_name self }
        ensures short { length result.now ≤ 12 }
    {
        match self {
            FileFault::Time => "Time",
            FileFault::Size => "Size",
            FileFault::Count => "Count",
            FileFault::Name => "Name",
            FileFault::Order => "Order",
            FileFault::Conflict => "Conflict",
            FileFault::Text => "Text",
            FileFault::Link => "Link",
            FileFault::Special => "Special",
            FileFault::Changed => "Changed",
            FileFault::Read => "Read",
        }
    }
}

/// What can't be taken into a snapshot, and why.
#[derive(Debug, PartialEq, Drop)]
pub struct FolderFault {
    /// Its name from the folder on, as a line shows it: with a question mark for each character that acts on a terminal
    /// or on how others are shown.
    pub name: Vec<u8>,
    pub fault: FileFault,
}

impl FolderFault {
    /// The fault of what has this name.
    pub fn new(alloc: Global, name: &str, fault: FileFault) -> Result<FolderFault, AllocError>
        ensures name { IfOk result (λ f. f.name.items ≡ shown_name name.now) }
        ensures fault { IfOk result (λ f. f.fault ≡ fault) }
    {
        Ok(FolderFault {
            name: shown_name(alloc, name)?.into_bytes(),
            fault,
        })
    }
}
