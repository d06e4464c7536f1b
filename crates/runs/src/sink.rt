//! A writer at the end of a run, which gets no write after one that failed.

ghost use Rattle.std.specs.Prelude.{◌≡◌, false, OnOk};
ghost use Rattle.std.specs.Io.KnownBytes.{Keeps};
ghost use Rattle.devices.specs.Devices.{WritesSome, WritesUnlessOver, fresh};

use devices::Failed;
use std::io::Write;
use std::marker::Model;

/// A writer that a run with a buffer is given and gives back, and whether it has failed. A write or a flush that failed
/// is the last: from then on each call answers [`Failed`], and the writer isn't asked again.
///
/// Contracts see the bytes that the writer holds, where these are known, whether it has failed, once at most, and so
/// whether it is over.
#[derive(Drop)]
pub struct Sink<W: Write> {
    writer: W,
    failed: bool,
}

impl<W: Write> Model for Sink<W> {
    ghost use Rattle.devices.specs.Devices.{Device};
    ghost use Rattle.runs.specs.Ports.{once};

    ghost Value = { Device };

    ghost view = { λ s. record { bytes = W.contents s.writer; failures = once s.failed; over = s.failed } };
}

impl<W: Write> Sink<W> {
    /// A writer that has not failed yet.
    pub fn new(writer: W) -> Sink<W>
        ensures { result ≡ fresh (W.contents writer) }
    {
        Sink {
            writer,
            failed: false,
        }
    }

    /// The writer again.
    pub fn into_writer(self) -> W
        ensures { W.contents result ≡ self.bytes }
    {
        self.writer
    }

    /// Whether a write or a flush has failed.
    pub fn has_failed(&self) -> bool
        ensures { result ≡ self.now.over }
    {
        self.failed
    }

    /// Makes one write, and answers how many of the first bytes were taken. A writer that takes none of at least one
    /// byte has failed, and so has one that was interrupted. After a failure no write is made.
    pub(crate) fn write_some(&mut self, bytes: &[u8]) -> Result<usize, Failed>
        ensures bytes { WritesSome self.old.bytes self.new.bytes result bytes.now }
        ensures over { OnOk result (self.old.over ≡ false)
            × WritesUnlessOver self.old self.new result }
    {
        if !self.failed {
            match self.writer.write(bytes) {
                Ok(count) if count > 0 || bytes.is_empty() => return Ok(count),
                _ => (),
            }
        }
        self.failed = true;
        Err(Failed)
    }

    /// Makes one flush. After a failure none is made.
    pub(crate) fn flush(&mut self) -> Result<(), Failed>
        ensures bytes { Keeps self.old.bytes self.new.bytes }
        ensures over { OnOk result (self.old.over ≡ false)
            × WritesUnlessOver self.old self.new result }
    {
        if !self.failed && self.writer.flush().is_ok() {
            return Ok(());
        }
        self.failed = true;
        Err(Failed)
    }
}
