//! What holds of each snapshot text, whoever reads it.
ghost use Rattle.std.specs.Prelude.{◌≡◌, ◌⊎◌, ℕ, List};
ghost use Rattle.paths.specs.Snapshots.{IsSnapshotText, BeginsWithSnapshot};
ghost use Rattle.paths.specs.SnapshotFaults.{IsFrontFault, IsFirstFault};
ghost use Rattle.paths.specs.declared.file.File.{File as AFile};
ghost use Rattle.paths.specs.declared.snapshot_fault.SnapshotFault.{SnapshotFault as AFault};

/// A text has one list of files.
pub fn one_snapshot()
    ensures { (bytes : List ℕ) (files others : List AFile) → IsSnapshotText bytes files
        → IsSnapshotText bytes others → files ≡ others }
{}

/// Where a prefix of a text is that of a snapshot, it is that of one list of files, and one rest is after it.
pub fn one_prefix()
    ensures { (bytes : List ℕ) (files others : List AFile) (rest other : List ℕ)
        → BeginsWithSnapshot bytes files rest
        → BeginsWithSnapshot bytes others other → (files ≡ others) × (rest ≡ other) }
{}

/// A snapshot text has no fault.
pub fn no_fault_of_a_snapshot()
    ensures { (bytes : List ℕ) (files : List AFile) (f : AFault) → IsSnapshotText bytes files
        → IsFirstFault bytes f → ⊥ }
{}

/// Nor is a fault in a prefix that is a snapshot text.
pub fn no_fault_of_a_prefix()
    ensures { (bytes : List ℕ) (files : List AFile) (rest : List ℕ) (f : AFault)
        → BeginsWithSnapshot bytes files rest
        → IsFrontFault bytes f → ⊥ }
{}

/// A text has one first fault at most, where a rest may follow the snapshot as where none may.
pub fn one_first_fault()
    ensures { (bytes : List ℕ) (f g : AFault) → IsFirstFault bytes f → IsFirstFault bytes g
        → f ≡ g }
{}

/// Each text is a snapshot's, or has a first fault.
pub fn snapshot_or_fault()
    ensures { (bytes : List ℕ)
        → ((files : List AFile) × IsSnapshotText bytes files)
        ⊎ ((f : AFault) × IsFirstFault bytes f) }
{}

/// A prefix of each text is a snapshot's, or the text has a first fault before a snapshot ends.
pub fn prefix_or_fault()
    ensures { (bytes : List ℕ)
        → ((files : List AFile) × (rest : List ℕ) × BeginsWithSnapshot bytes files rest)
        ⊎ ((f : AFault) × IsFrontFault bytes f) }
{}
