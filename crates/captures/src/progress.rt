//! How far a reader of a capture has come, apart from its device.

ghost use Rattle.std.specs.Prelude.{◌≡◌, ◌+◌, ◌<◌, ◌≤◌, ◌-◌, ◌^◌, min, IfNone, IfOk, IfErr, IfSome};
ghost use Rattle.devices.specs.Devices.{CanFail};
ghost use Rattle.devices.specs.Parts.{TookAtMost};
ghost use Rattle.captures.specs.Captures.{longest_record, size_of};
ghost use Rattle.captures.specs.CaptureFaults.{CountsFault};
ghost use Rattle.captures.specs.Readers.{ComesTo, FailsFirst, GivesNext, HasOpened, IsRead, IsOpeningFault};

use crate::headings::{read_header, read_record};
use crate::so_far::SoFar;
use crate::{CaptureFault, CaptureFaultKind, Record, Version};
use devices::Input;
use std::alloc::Global;
use std::io::Read;

/// How far a reader of a capture has come.
#[derive(Clone, Copy, Debug, PartialEq, Eq)]
pub enum ReaderState {
    /// A record or the last line is next.
    Reading,
    /// The last line was read, and the input ended after it.
    Ended,
    /// A fault was met: it stays.
    Failed(CaptureFault),
}

/// The most bytes of a text, before its first line has given the format: those of the longest.
const LONGEST_TEXT: usize = 1_125_899_906_842_624;

/// How far a capture was read.
#[derive(Drop)]
pub struct Progress {
    pub version: Version,
    /// The start of the capture, in seconds since 1970-01-01.
    pub start: u64,
    /// How many bytes the text may still take.
    pub left: usize,
    /// How many bytes further records may bring, with one for each record. `left` is the sharper bound, but it is known
    /// to fall only where the bytes of the device are known; this one falls with each record of any device.
    pub capacity: usize,
    pub so_far: SoFar,
    pub stage: ReaderState,
}

/// How many bytes records may bring after this one, where it may come.
fn capacity_after(capacity: usize, next: &Record) -> Option<usize>
    ensures some { IfSome result (λ following. size_of next.now + 1 + following ≡ capacity) }
    ensures none { IfNone result (capacity ≤ size_of next.now) }
{
    let size = next.size();
    if size < capacity {
        Some(capacity - size - 1)
    } else {
        None
    }
}

impl Progress {
    /// Reads the first line.
    pub(crate) fn open<R: Read>(input: &mut Input<R>) -> Result<Progress, CaptureFault>
        requires { CanFail input.old }
        ensures ok { IfOk result (λ p. HasOpened input.old p input.new) }
        ensures fault { IfErr result (IsOpeningFault input.old.bytes) }
        // Where a read failed, no whole line had been taken.
        ensures failed { IfErr result (λ f. FailsFirst input.old.bytes f input.new.bytes) }
        ensures count { CountsFault input.old.failures input.new.failures result }
        // Of the input no more was taken than a line may have.
        ensures most { TookAtMost 65 input.old.bytes input.new.bytes }
    {
        let mut left = LONGEST_TEXT;
        match read_header(input, &mut left) {
            Ok((version, start)) => {
                let most = version.row().max_text_bytes;
                Ok(Progress {
                    version,
                    start,
                    left: most.saturating_sub(LONGEST_TEXT.saturating_sub(left)),
                    capacity: most,
                    so_far: SoFar::new(),
                    stage: ReaderState::Reading,
                })
            }
            Err(kind) => Err(CaptureFault { at: 0, kind }),
        }
    }

    /// The fault of this kind at record `at`, with which the reading ends.
    fn fail(&mut self, at: usize, kind: CaptureFaultKind) -> CaptureFault
        ensures fault { result ≡ record { at = at; kind = kind } }
        ensures failed { self.new ≡ record self.old { stage = ReaderState.Failed result } }
    {
        let fault = CaptureFault { at, kind };
        self.stage = ReaderState::Failed(fault);
        fault
    }

    /// Reads the next record, or `None` where the capture ends.
    pub(crate) fn take_record<R: Read>(
        &mut self,
        alloc: Global,
        input: &mut Input<R>,
    ) -> Result<Option<Record>, CaptureFault>
        requires failures { CanFail input.old }
        requires stage { self.old.stage ≡ ReaderState.Reading }
        ensures next { GivesNext self.old input.old.bytes result self.new input.new.bytes }
        ensures given { IfOk result (λ next. IfSome next (IsRead self.old self.new)) }
        ensures stands { ComesTo self.old self.new result }
        ensures count { CountsFault input.old.failures input.new.failures result }
        // At most the longest record was taken, and one byte past the limit.
        ensures most { TookAtMost (min longest_record (self.old.left + 1))
            input.old.bytes input.new.bytes }
    {
        let at = self.so_far.count.saturating_add(1);
        match read_record(alloc, input, &mut self.left, self.version, &self.so_far) {
            Ok(Some(record)) => match capacity_after(self.capacity, &record) {
                Some(capacity) => {
                    self.capacity = capacity;
                    self.so_far.add(self.version, &record);
                    Ok(Some(record))
                }
                None => Err(self.fail(at, CaptureFaultKind::TooLarge)),
            },
            Ok(None) => {
                self.stage = ReaderState::Ended;
                Ok(None)
            }
            Err(kind) => Err(self.fail(at, kind)),
        }
    }
}
