//! What was found in a folder, and how its files are read.

use faults::{Fault, FileFault, Place};
use std::alloc::AllocError;

/// What a file of a folder holds.
#[derive(Drop)]
pub struct Contents {
    /// When it was last changed, in seconds since 1970-01-01.
    pub mtime: u64,
    pub bytes: Vec<u8>,
}

/// What was found in a folder.
#[derive(Drop)]
pub struct Found {
    /// Its name from the folder on, its parts joined by `/`.
    pub name: String,
    /// Why it can't be taken, where that is known already.
    pub fault: Option<FileFault>,
}

/// Why a folder says nothing of a file, whatever the file is.
#[derive(Clone, Copy, Debug, PartialEq, Eq)]
pub enum Unanswered {
    /// There was no memory.
    Memory,
    /// Nothing could be opened, since too many files are open.
    Descriptors,
}

impl From<AllocError> for Unanswered {
    ghost use Rattle.std.specs.Prelude.{◌≡◌};
    ghost use Rattle.runs.specs.declared.folder.Unanswered.TheVariants.{Memory};

    ghost from_gives = { λ _ why. why ≡ Memory };

    fn from(_refused: AllocError) -> Unanswered {
        Unanswered::Memory
    }
}

impl From<Unanswered> for Fault {
    ghost use Rattle.std.specs.Prelude.{◌≡◌};
    ghost use Rattle.runs.specs.Folders.{unanswered};

    ghost from_gives = { λ why fault. fault ≡ unanswered why };

    fn from(why: Unanswered) -> Fault {
        match why {
            Unanswered::Memory => Fault::Memory,
            Unanswered::Descriptors => Fault::Open(Place::Folder),
        }
    }
}

/// A folder whose files can be read.
pub trait Folder {
    ghost use Rattle.std.specs.Prelude.{ℕ, List, IfOk, Result};
    ghost use Rattle.faults.specs.declared.folder_fault.FileFault.{FileFault as AFileFault};
    ghost use Rattle.runs.specs.declared.folder.Contents.{Contents as AContents};

    // what the folder may answer for a name
    ghost answers: { Self → List ℕ → Result AContents AFileFault → Type 0 };

    /// Reads the file of this name, or says why it can't be taken.
    fn read(&self, name: &str) -> Result<Result<Contents, FileFault>, Unanswered>
        ensures { IfOk result (answers self.now name.now) };
}
