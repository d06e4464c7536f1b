//! What holds of each snapshot's text that was written.
ghost use Rattle.std.specs.Prelude.{◌≡◌, ℕ, List, [], ◌∷◌, ◌++◌, Option, Some, None, true};
ghost use Rattle.paths.specs.declared.file.File.{File as AFile};
ghost use Rattle.paths.specs.Snapshots.{snapshot_text, IsSnapshotText};
ghost use Rattle.paths.specs.SnapshotFaults.{ReadsWhole, IsForeseen, IsFirstFault, is_unforeseen_kind};
ghost use Rattle.paths.specs.declared.snapshot_fault.SnapshotFault.{SnapshotFault as AFault};
ghost use Rattle.snapshots.specs.Keeping.{broken_rule};

/// After files that keep the rules, a file that breaks none keeps them too.
pub fn rules_kept()
    ensures { (files : List AFile) (f : AFile) → IsSnapshotText (snapshot_text files) files
        → broken_rule files f ≡ None → IsSnapshotText (snapshot_text (files ++ f ∷ [])) (files ++ f ∷ []) }
{}

/// Where the files with it keep the rules, a file breaks none.
pub fn none_broken()
    ensures { (files : List AFile) (f : AFile)
        → IsSnapshotText (snapshot_text (files ++ f ∷ [])) (files ++ f ∷ [])
        → broken_rule files f ≡ None }
{}

/// What was written is read back: whoever reads the text of files gets these files, unless a read fails or memory runs
/// out.
pub fn read_back()
    ensures files { (files others : List AFile) (new : Option (List ℕ))
        → IsSnapshotText (snapshot_text files) files
        → ReadsWhole (Some (snapshot_text files)) new others → others ≡ files }
    ensures fault { (files : List AFile) (f : AFault) → IsSnapshotText (snapshot_text files) files
        → IsForeseen IsFirstFault (Some (snapshot_text files)) f → is_unforeseen_kind f.kind ≡ true }
{}
