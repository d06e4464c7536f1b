//! The reader of a capture, which borrows its device.

ghost use Rattle.std.specs.Prelude.{◌≡◌, ◌<◌, ◌-◌, ◌^◌, ◌+◌, min, IfOk, IfErr, IfSome};
ghost use Rattle.std.specs.Borrow.{sem, RestsIfErr};
ghost use Rattle.devices.specs.Devices.{CanFail};
ghost use Rattle.devices.specs.Parts.{TookAtMost};
ghost use Rattle.devices.specs.contracts.device.Input.{the_row};
ghost use Rattle.captures.specs.Captures.{longest_record};
ghost use Rattle.captures.specs.CaptureFaults.{CountsFault};
ghost use Rattle.captures.specs.Readers.{ComesTo, CountsNext, FailsFirst, GivesNext, HasOpened, IsRead};
ghost use Rattle.captures.specs.Readers.{IsOpeningFault, Repeats};

use crate::progress::{Progress, ReaderState};
use crate::{CaptureFault, Record, Version};
use devices::Input;
use std::alloc::Global;
use std::io::Read;

/// Reads a capture record by record. It holds one record at a time, and its device until it is dropped.
#[derive(Drop)]
pub struct CaptureReader<'a, R: Read> {
    input: &'a mut Input<R>,
    progress: Progress,
}

impl<'a, R: Read> CaptureReader<'a, R> {
    ghost use Rattle.captures.specs.Readers.{progress_of, device_of, loan_of};

    /// Reads the first line.
    pub fn open(input: &'a mut Input<R>) -> Result<CaptureReader<'a, R>, CaptureFault>
        requires { CanFail input.old }
        ensures ok { IfOk result
            (λ reader. HasOpened input.old (progress_of reader) (device_of reader)) }
        ensures same { IfOk result (λ reader. loan_of reader ≡ input.entry.ghost_name) }
        ensures fault { IfErr result (IsOpeningFault input.old.bytes) }
        // At a fault the input is given back; no more was taken from it than a line may have, and where a read failed,
        // no whole line.
        ensures* refused { sem 𝓛
            (RestsIfErr (the_row R.row R.Read) input.entry loan_of result
            (λ last. CountsFault input.old.failures last.failures result
            × IfErr result (λ f. FailsFirst input.old.bytes f last.bytes)
            × TookAtMost 65 input.old.bytes last.bytes)) }
    {
        let progress = Progress::open(input)?;
        Ok(CaptureReader { input, progress })
    }

    /// The version of the format that the capture is in.
    pub fn version(&self) -> Version
        ensures { result ≡ (progress_of self.now).version }
    {
        self.progress.version
    }

    /// When the capture starts, in seconds since 1970-01-01.
    pub fn start(&self) -> u64
        ensures { result ≡ (progress_of self.now).start }
    {
        self.progress.start
    }

    /// Reads the next record, or answers `None` where the last line was read and the input ended after it. From a fault
    /// on, that fault is answered, and nothing is read.
    pub fn next_record(&mut self, alloc: Global) -> Result<Option<Record>, CaptureFault>
        requires { CanFail (device_of self.old) }
        ensures next { GivesNext (progress_of self.old) (device_of self.old).bytes
            result (progress_of self.new) (device_of self.new).bytes }
        ensures given { IfOk result
            (λ next. IfSome next (IsRead (progress_of self.old) (progress_of self.new))) }
        ensures stands { ComesTo (progress_of self.old) (progress_of self.new) result
            × (loan_of self.new ≡ loan_of self.old) }
        ensures again { Repeats (progress_of self.old).stage result
            ((progress_of self.new ≡ progress_of self.old) × (device_of self.new ≡ device_of self.old)) }
        ensures count { CountsNext (progress_of self.old).stage
            (device_of self.old).failures (device_of self.new).failures result }
        // At most the longest record was taken, and one byte past the limit of the text.
        ensures most { TookAtMost (min longest_record ((progress_of self.old).left + 1))
            (device_of self.old).bytes (device_of self.new).bytes }
    {
        match self.progress.stage {
            ReaderState::Reading => self.progress.take_record(alloc, self.input),
            ReaderState::Ended => Ok(None),
            ReaderState::Failed(fault) => Err(fault),
        }
    }
}
