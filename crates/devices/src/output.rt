//! A writer that is lent to a call, and the count of its failures.

ghost use Rattle.std.specs.Prelude.{◌≡◌, ◌+◌, ◌++◌, ◌-◌, ◌<◌, OnOk, OnErr, true, false};
ghost use Rattle.devices.specs.Devices.{WritesSome, WritesProperPrefix, WritesUnlessOver, CountsFailed, fresh, CanFail};

use crate::Failed;
use std::io::Write;
use std::marker::Model;

/// A writer that is lent to a call, and how often it has failed. A write that failed is the last: from then on each
/// call answers [`Failed`], and the writer isn't asked again.
///
/// Contracts see the bytes that the writer holds, where these are known, the count of failures, and whether it is over.
#[derive(Drop)]
pub struct Output<W: Write> {
    writer: W,
    failures: u64,
}

impl<W: Write> Model for Output<W> {
    ghost use Rattle.std.specs.Prelude.{nat_lt};
    ghost use Rattle.devices.specs.Devices.{Device};

    ghost Value = { Device };

    ghost view = { λ o. record {
      bytes = W.contents o.writer;
      failures = o.failures;
      over = nat_lt 0 o.failures;
    } };
}

impl<W: Write> Output<W> {
    /// A writer that has not failed yet.
    pub fn new(writer: W) -> Output<W>
        ensures { result ≡ fresh (W.contents writer) }
    {
        Output {
            writer,
            failures: 0,
        }
    }

    /// The writer again.
    pub fn into_writer(self) -> W
        ensures { W.contents result ≡ self.bytes }
    {
        self.writer
    }

    /// How often a call answered [`Failed`].
    pub fn failures(&self) -> u64
        ensures { result ≡ self.now.failures }
    {
        self.failures
    }

    /// Makes one write, and answers how many of the first bytes were taken. A writer that takes none of at least one
    /// byte has failed, and so has one that was interrupted. After a failure no write is made.
    pub fn write_some(&mut self, bytes: &[u8]) -> Result<usize, Failed>
        requires { CanFail self.old }
        ensures bytes { WritesSome self.old.bytes self.new.bytes result bytes.now }
        ensures ok { OnOk result (self.new.failures ≡ self.old.failures) }
        ensures err { OnErr result (self.new.failures ≡ self.old.failures + 1) }
        ensures over { OnOk result (self.old.over ≡ false)
            × WritesUnlessOver self.old self.new result }
    {
        if self.failures == 0 {
            match self.writer.write(bytes) {
                Ok(count) if count > 0 || bytes.is_empty() => return Ok(count),
                _ => (),
            }
        }
        self.failures += 1;
        Err(Failed)
    }

    /// Writes all the bytes, in as many writes as it takes. At an `Err` a prefix of them was written, and not all.
    pub fn write_all(&mut self, bytes: &[u8]) -> Result<(), Failed>
        requires { CanFail self.old }
        ensures prefix { WritesProperPrefix self.old.bytes self.new.bytes result bytes.now }
        ensures count { CountsFailed self.old.failures self.new.failures result }
        ensures over { WritesUnlessOver self.old self.new result }
    {
        let mut written = 0;
        while written < bytes.len() {
            written += self.write_some(&bytes[written..])?;
        }
        Ok(())
    }

    /// Writes one text and then another.
    pub fn write_both(&mut self, first: &[u8], second: &[u8]) -> Result<(), Failed>
        requires { CanFail self.old }
        ensures prefix { WritesProperPrefix self.old.bytes self.new.bytes result
            (first.now ++ second.now) }
        ensures count { CountsFailed self.old.failures self.new.failures result }
        ensures over { WritesUnlessOver self.old self.new result }
    {
        match self.write_all(first) {
            Ok(()) => self.write_all(second),
            Err(failed) => Err(failed),
        }
    }
}
