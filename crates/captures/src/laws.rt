//! What holds of each capture text, whoever reads it.
ghost use Rattle.std.specs.Prelude.{◌≡◌, ℕ, List, ◌⊎◌, false};
ghost use Rattle.captures.specs.Reference.{IsCapture, IsCaptureText, format_of, used_once};
ghost use Rattle.captures.specs.Upgrades.{later, upgraded, IsUpgrade};
ghost use Rattle.captures.specs.declared.version.Version.TheVariants.{One, Two, Traffic};
ghost use Rattle.captures.specs.CaptureFaults.{IsFirstFault};
ghost use Rattle.captures.specs.declared.record.Record.{Record as ARecord};
ghost use Rattle.captures.specs.declared.version.Version.{Version as AVersion};
ghost use Rattle.captures.specs.declared.capture_fault.CaptureFault.{CaptureFault as AFault};

/// A text has one version, one start and one list of records.
pub fn one_capture()
    ensures { (bytes : List ℕ) (v w : AVersion) (s t : ℕ) (rs ss : List ARecord)
        → IsCaptureText v bytes s rs → IsCaptureText w bytes t ss → (v ≡ w) × (s ≡ t) × (rs ≡ ss) }
{}

/// A capture text has no fault.
pub fn no_fault_of_a_capture()
    ensures { (bytes : List ℕ) (v : AVersion) (start : ℕ) (records : List ARecord) (f : AFault)
        → IsCaptureText v bytes start records → IsFirstFault bytes f → ⊥ }
{}

/// A text has one first fault at most.
pub fn one_first_fault()
    ensures { (bytes : List ℕ) (f g : AFault) → IsFirstFault bytes f → IsFirstFault bytes g
        → f ≡ g }
{}

/// Each text is a capture's, or has a first fault.
pub fn capture_or_fault()
    ensures { (bytes : List ℕ)
        → ((v : AVersion) × (start : ℕ) × (records : List ARecord) × IsCaptureText v bytes start records)
        ⊎ ((f : AFault) × IsFirstFault bytes f) }
{}

/// What keeps the rules of version 1 keeps those of version 2.
pub fn records_of_version_one()
    ensures { (start : ℕ) (records : List ARecord) → IsCapture One start records
        → IsCapture Two start records }
{}

/// What keeps the rules of a capture keeps those of traffic.
pub fn records_of_a_capture()
    ensures { (v : AVersion) (start : ℕ) (records : List ARecord) → IsCapture v start records
        → IsCapture Traffic start records }
{}

/// The numbers of a capture's connections are used once: its records are read as they are.
pub fn numbers_of_a_capture()
    ensures { (v : AVersion) (start : ℕ) (records : List ARecord) → (format_of v).used_again ≡ false
        → IsCapture v start records → used_once records ≡ records }
{}

/// The upgraded text is one of the later format, with the same start and the same records.
pub fn upgrade_of_a_capture()
    ensures { (to v : AVersion) (bytes : List ℕ) (start : ℕ) (records : List ARecord)
        → IsCaptureText v bytes start records
        → IsCaptureText (later to v) (upgraded to v start records) start records }
{}

/// An upgraded text given again comes out unchanged.
pub fn upgrade_again()
    ensures { (to : AVersion) (old new again : List ℕ)
        → IsUpgrade to old new → IsUpgrade to new again → again ≡ new }
{}
