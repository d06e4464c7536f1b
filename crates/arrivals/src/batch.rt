//! The next records of a capture.

ghost use Rattle.std.specs.Prelude.{◌≡◌, ◌<◌, ◌++◌, ◌∷◌, [], ℕ, List, Option, IfOk, OnErr, MatchResult};
ghost use Rattle.devices.specs.Devices.{CanFail};
ghost use Rattle.captures.specs.declared.version.Version.{Version as AVersion};
ghost use Rattle.captures.specs.Readers.{ReaderAfter, progress_of, device_of, loan_of};
ghost use Rattle.captures.specs.declared.record.Record.{Record as ARecord};
ghost use Rattle.captures.specs.declared.progress.ReaderState.TheVariants.{Reading};
ghost use Rattle.arrivals.specs.Batches.{ReadOn, CountsEnding, IfMore, HasSize, LosesOne, as_piece, piece_count};

use captures::{CaptureFault, CaptureReader, Record};
use std::alloc::{AllocError, Global};
use std::io::Read;

/// What came after the records of a batch.
#[derive(Drop)]
pub enum Ending {
    /// There may be more records.
    More,
    /// The last line, and the end of the input.
    End,
    /// A fault of the capture.
    Fault(CaptureFault),
}

/// A batch of records, how many of them are pieces, and what came after it.
#[derive(Drop)]
pub struct Batch {
    pub records: Vec<Record>,
    pub pieces: usize,
    pub ending: Ending,
}

/// How many bytes of pieces are enough for a batch.
const ENOUGH_BYTES: usize = 16_777_216;

/// 1 for a piece, 0 for another record.
fn pieces_in(next: &Record) -> usize
    ensures { result ≡ as_piece next.now }
{
    match next {
        Record::Piece { .. } => 1,
        Record::End { .. } | Record::Tier { .. } => 0,
    }
}

/// Reads the next batch: n pieces, with the other records between them, or fewer where these have 16 MiB, or those
/// before the end of the capture or its fault. Where memory runs out, what was read is lost.
pub fn read_batch<'a, R: Read>(
    alloc: Global,
    capture: &mut CaptureReader<'a, R>,
    pieces: usize,
) -> Result<Batch, AllocError>
    requires reader { CanFail (device_of capture.old) × ((progress_of capture.old).stage ≡ Reading) }
    ensures batch { IfOk result (λ batch.
        ((version : AVersion) (text : Option (List ℕ)) (start : ℕ) (records : List ARecord)
        → ReaderAfter version text start records (progress_of capture.old) (device_of capture.old).bytes
        → ReadOn version text start (records ++ batch.records.items) batch.ending
        (progress_of capture.new) (device_of capture.new).bytes)
        × (batch.pieces ≡ piece_count batch.records.items)
        × HasSize pieces batch.records.items batch.ending) }
    ensures capacity { IfOk result (λ batch. IfMore batch.ending (0 < pieces
        → (progress_of capture.new).capacity < (progress_of capture.old).capacity)) }
    ensures count { MatchResult result
        (λ batch. CountsEnding (device_of capture.old).failures (device_of capture.new).failures batch.ending)
        (λ _. (device_of capture.new).failures ≡ (device_of capture.old).failures) }
    ensures same { loan_of capture.new ≡ loan_of capture.old }
    ensures lacks { OnErr result
        (LosesOne (progress_of capture.old) (device_of capture.old).bytes
        (progress_of capture.new) (device_of capture.new).bytes) }
{
    let mut records = Vec::new(alloc);
    let mut count: usize = 0;
    let mut bytes: usize = 0;
    while count < pieces && bytes < ENOUGH_BYTES {
        let next = match capture.next_record(alloc) {
            Ok(Some(next)) => next,
            Ok(None) => {
                return Ok(Batch {
                    records,
                    pieces: count,
                    ending: Ending::End,
                });
            }
            Err(fault) => {
                return Ok(Batch {
                    records,
                    pieces: count,
                    ending: Ending::Fault(fault),
                });
            }
        };
        count += pieces_in(&next);
        bytes = bytes.saturating_add(next.size());
        records.push(next)?;
    }
    Ok(Batch {
        records,
        pieces: count,
        ending: Ending::More,
    })
}
