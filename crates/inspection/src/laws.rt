//! What holds of each inspection, whoever made it.
ghost use Rattle.std.specs.Prelude.{◌≡◌, ◌+◌, ℕ, false, List, Some, length};
ghost use Rattle.captures.specs.Reference.{format_of, IsCapture};
ghost use Rattle.captures.specs.Captures.{sizes_of};
ghost use Rattle.captures.specs.declared.record.Record.{Record as ARecord};
ghost use Rattle.captures.specs.declared.version.Version.{Version as AVersion};
ghost use Rattle.http_requests.specs.declared.messages.Meaning.{Meaning as AMeaning};
ghost use Rattle.arrivals.specs.Reference.{Arrival, AreArrivals, text_of, messages_of};
ghost use Rattle.inspection.specs.Figures.{received, after_close, unfinished, share_over, every_number};
ghost use Rattle.inspection.specs.Figures.{bytes_after_close, bytes_unfinished, messages_by_kind};
ghost use Rattle.inspection.specs.Inspections.{HoldsAll};
ghost use Rattle.inspection.specs.declared.inspection.Inspection.{Inspection as AnInspection};

/// Two inspections of a capture text are the same.
pub fn one_inspection()
    ensures { (bytes : List ℕ) (i j : AnInspection) → HoldsAll (Some bytes) i
        → HoldsAll (Some bytes) j → i ≡ j }
{}

/// The bytes that came on the connections are those of all pieces.
pub fn bytes_of_all_pieces()
    ensures { (version : AVersion) (start : ℕ) (records : List ARecord)
        → IsCapture version start records
        → (received records).bytes ≡ sizes_of records }
{}

/// In a capture each number names one connection: the shares are those over the texts and messages of the numbers.
pub fn one_connection_of_each_number()
    ensures received { (version : AVersion) (start : ℕ) (records : List ARecord)
        → IsCapture version start records → (format_of version).used_again ≡ false
        → received records ≡ share_over (λ c. length (text_of c records)) every_number }
    ensures after_close { (version : AVersion) (start : ℕ) (records : List ARecord)
        (arrivals : List Arrival)
        → IsCapture version start records → (format_of version).used_again ≡ false
        → AreArrivals records arrivals → after_close records arrivals
        ≡ share_over (λ c. bytes_after_close (text_of c records) (messages_of c arrivals)) every_number }
    ensures unfinished { (version : AVersion) (start : ℕ) (records : List ARecord)
        (arrivals : List Arrival)
        → IsCapture version start records → (format_of version).used_again ≡ false
        → AreArrivals records arrivals → unfinished records arrivals
        ≡ share_over (λ c. bytes_unfinished (text_of c records) (messages_of c arrivals)) every_number }
{}

/// Each request has one method and one version.
pub fn requests_by_kind()
    ensures methods { (whats : List AMeaning)
        → (messages_by_kind whats).requests ≡ (messages_by_kind whats).methods.get
        + (messages_by_kind whats).methods.head + (messages_by_kind whats).methods.other }
    ensures versions { (whats : List AMeaning) → (messages_by_kind whats).requests
        ≡ (messages_by_kind whats).versions.http10 + (messages_by_kind whats).versions.http11 }
{}

/// Each message is a request, or has one fault.
pub fn messages_of_one_kind()
    ensures { (whats : List AMeaning)
        → (messages_by_kind whats).all ≡ (messages_by_kind whats).requests
        + (messages_by_kind whats).faults.too_long + (messages_by_kind whats).faults.block
        + (messages_by_kind whats).faults.host + (messages_by_kind whats).faults.coding
        + (messages_by_kind whats).faults.length + (messages_by_kind whats).faults.body_size }
{}
