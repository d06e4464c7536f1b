//! A reader that is lent to a call, and the count of its failures.

ghost use Rattle.std.specs.Prelude.{◌≡◌, ◌+◌, ◌-◌, ◌<◌, take, length, IfOk, OnOk, OnErr};
ghost use Rattle.std.specs.Io.{ReadsAtMost};
ghost use Rattle.std.specs.Io.KnownBytes.{ReadConsumes};
ghost use Rattle.devices.specs.Devices.{ByteConsumes, ReadsToEnd, ByteToEnd, fresh, CanFail};
ghost use Rattle.devices.specs.Texts.{NoneAfterFeed};

use crate::source::Source;
use crate::window::Window;
use std::io::Read;
use std::marker::Model;
use thiserror::Error;

/// A device failed: it answered an error, or took none of the bytes that it was given.
#[derive(Clone, Copy, Debug, PartialEq, Eq, Error)]
#[error("the device failed")]
pub struct Failed;

/// A reader that is lent to a call, and how often it has failed. The end is the last that is read of it: once the
/// reader reported its end, each call answers the end, and the reader isn't asked again.
///
/// Contracts see the bytes that are ahead, where these are known, the count of failures, and whether it is over. What
/// was read beyond a line's end, where the input reads ahead, waits in a window, and comes before what the reader has
/// left.
#[derive(Drop)]
pub struct Input<R: Read> {
    source: Source<R>,
    window: Window,
    ahead: bool,
}

impl<R: Read> Model for Input<R> {
    ghost use Rattle.std.specs.Io.KnownBytes.{prepend_known};
    ghost use Rattle.devices.specs.Devices.{Device, ahead_unless};

    ghost Value = { Device };

    ghost view = { λ i. record {
      bytes = ahead_unless i.source.over (prepend_known i.window i.source.bytes);
      failures = i.source.failures;
      over = i.source.over;
    } };
}

impl<R: Read> Input<R> {
    /// A reader that has not failed yet. No byte is read ahead of the calls that take it.
    pub fn new(reader: R) -> Input<R>
        ensures { result ≡ fresh (R.remaining reader) }
    {
        Input {
            source: Source::new(reader),
            window: Window::new(),
            ahead: false,
        }
    }

    /// The same, but lines and single bytes are read by fewer reads, of up to 64 bytes: what came beyond them waits for
    /// the input's next calls. It is for a reader that nobody reads on after the input.
    pub fn ahead(reader: R) -> Input<R>
        ensures { result ≡ fresh (R.remaining reader) }
    {
        let mut input = Input::new(reader);
        input.ahead = true;
        input
    }

    /// Whether lines and single bytes may be read with bytes beyond them.
    pub(crate) fn reads_ahead(&self) -> bool {
        self.ahead
    }

    /// How often a call answered [`Failed`].
    pub fn failures(&self) -> u64
        ensures { result ≡ self.now.failures }
    {
        self.source.failures()
    }

    /// Makes one read into the start of `buffer`, and answers how many bytes came. None come at the end of the input
    /// alone, or where the buffer is empty. A read that was interrupted is a failure. Where bytes wait that were read
    /// ahead, these come, and no read is made; nor is one made after the end.
    pub fn read_some(&mut self, buffer: &mut [u8]) -> Result<usize, Failed>
        requires { CanFail self.old }
        ensures bound { ReadsAtMost result buffer.new }
        ensures bytes { ReadConsumes self.old.bytes self.new.bytes result buffer.new }
        ensures ok { OnOk result (self.new.failures ≡ self.old.failures) }
        ensures err { OnErr result (self.new.failures ≡ self.old.failures + 1) }
        ensures end { ReadsToEnd self.old self.new result buffer.new }
    {
        if self.source.is_over() {
            return Ok(0);
        }
        if self.window.is_empty() {
            self.source.read(buffer)
        } else {
            Ok(self.window.take(buffer))
        }
    }

    /// Gives some of the next bytes, at most as many as the buffer holds, and none after a line feed. Where no byte
    /// waits, one read is made first, of up to 64 bytes, but none after the end.
    pub(crate) fn read_to_feed(&mut self, buffer: &mut [u8]) -> Result<usize, Failed>
        requires { CanFail self.old }
        ensures bound { ReadsAtMost result buffer.new }
        ensures bytes { ReadConsumes self.old.bytes self.new.bytes result buffer.new }
        ensures feed { IfOk result (λ n. NoneAfterFeed (take n buffer.new)) }
        ensures ok { OnOk result (self.new.failures ≡ self.old.failures) }
        ensures err { OnErr result (self.new.failures ≡ self.old.failures + 1) }
        ensures end { 0 < length buffer.old → ReadsToEnd self.old self.new result buffer.new }
    {
        if self.source.is_over() {
            return Ok(0);
        }
        if self.window.is_empty() {
            self.window.fill(&mut self.source)?;
        }
        Ok(self.window.take_to_feed(buffer))
    }

    /// Makes one read of one byte, where none waits that was read ahead; `None` at the end of the input, after which no
    /// read is made.
    pub fn read_byte(&mut self) -> Result<Option<u8>, Failed>
        requires { CanFail self.old }
        ensures bytes { ByteConsumes self.old.bytes self.new.bytes result }
        ensures ok { OnOk result (self.new.failures ≡ self.old.failures) }
        ensures err { OnErr result (self.new.failures ≡ self.old.failures + 1) }
        ensures end { ByteToEnd self.old self.new result }
    {
        let mut buffer = [0];
        if self.read_some(&mut buffer)? == 0 {
            return Ok(None);
        }
        Ok(Some(buffer[0]))
    }
}
