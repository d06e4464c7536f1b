//! A reader that is read up to its end, and no further.

ghost use Rattle.std.specs.Prelude.{◌≡◌, ◌+◌, ◌-◌, ◌<◌, false, OnOk, OnErr};
ghost use Rattle.std.specs.Io.{ReadsAtMost};
ghost use Rattle.std.specs.Io.KnownBytes.{ReadConsumes};
ghost use Rattle.devices.specs.Devices.{ReadsToEnd, fresh, CanFail};

use crate::Failed;
use std::io::Read;
use std::marker::Model;

/// A reader, how often it has failed, and whether it reported its end. Nothing else of this crate holds the reader, and
/// none of its reads comes after the end.
#[derive(Drop)]
pub(crate) struct Source<R: Read> {
    reader: R,
    failures: u64,
    over: bool,
}

impl<R: Read> Model for Source<R> {
    ghost use Rattle.devices.specs.Devices.{Device};

    ghost Value = { Device };

    ghost view = { λ s. record { bytes = R.remaining s.reader; failures = s.failures; over = s.over } };
}

impl<R: Read> Source<R> {
    pub(crate) fn new(reader: R) -> Source<R>
        ensures { result ≡ fresh (R.remaining reader) }
    {
        Source {
            reader,
            failures: 0,
            over: false,
        }
    }

    /// How often a read failed.
    pub(crate) fn failures(&self) -> u64
        ensures { result ≡ self.now.failures }
    {
        self.failures
    }

    /// Whether the reader reported its end.
    pub(crate) fn is_over(&self) -> bool
        ensures { result ≡ self.now.over }
    {
        self.over
    }

    /// Makes one read.
    pub(crate) fn read(&mut self, buffer: &mut [u8]) -> Result<usize, Failed>
        requires healthy { CanFail self.old }
        requires before_the_end { self.old.over ≡ false }
        ensures bound { ReadsAtMost result buffer.new }
        ensures bytes { ReadConsumes self.old.bytes self.new.bytes result buffer.new }
        ensures ok { OnOk result (self.new.failures ≡ self.old.failures) }
        ensures err { OnErr result (self.new.failures ≡ self.old.failures + 1) }
        ensures end { ReadsToEnd self.old self.new result buffer.new }
    {
        match self.reader.read(buffer) {
            Ok(count) => {
                self.over = count == 0 && !buffer.is_empty();
                Ok(count)
            }
            Err(_) => {
                self.failures += 1;
                Err(Failed)
            }
        }
    }
}
