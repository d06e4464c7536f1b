//! Bytes that were read ahead of the calls that give them.

ghost use Rattle.std.specs.Prelude.{◌≡◌, ◌==◌, ◌++◌, ◌+◌, ◌-◌, ◌<◌, ◌≤◌, [], take, length, position, IfSome};
ghost use Rattle.std.specs.Prelude.{MatchResult, OnOk, OnErr, false};
ghost use Rattle.std.specs.Io.KnownBytes.{Consumes, Keeps, IsAtEnd};
ghost use Rattle.devices.specs.Reference.{line_feed};
ghost use Rattle.devices.specs.Devices.{CanFail};
ghost use Rattle.devices.specs.Texts.{NoneAfterFeed};

use crate::Failed;
use crate::source::Source;
use std::io::Read;
use std::marker::Model;

/// Bytes that were read ahead, at most 64, of which some wait.
#[derive(Drop)]
pub(crate) struct Window {
    bytes: [u8; 64],
    start: usize,
    end: usize,
}

impl Model for Window {
    ghost use Rattle.std.specs.Prelude.{ℕ, List, take, drop, ◌-◌, ◌≤◌};

    ghost Value = { List ℕ };

    ghost view = { λ w. take (w.end - w.start) (drop w.start w.bytes) };

    ghost invariant = { λ w. (w.start ≤ w.end) × (w.end ≤ 64) };
}

/// Where the first line feed is.
fn first_feed(bytes: &[u8]) -> Option<usize>
    ensures place { result ≡ position (λ b. b == line_feed) bytes.now }
    ensures bound { IfSome result (λ at. at < length bytes.now) }
{
    bytes.iter().position(|byte| *byte == b'\n')
}

/// How many bytes there are up to the first line feed, with it, or in all where there is none.
fn to_feed(bytes: &[u8]) -> usize
    ensures bound { result ≤ length bytes.now }
    ensures some { 0 < length bytes.now → 0 < result }
    ensures feed { NoneAfterFeed (take result bytes.now) }
{
    match first_feed(bytes) {
        Some(feed) => feed + 1,
        None => bytes.len(),
    }
}

impl Window {
    pub(crate) fn new() -> Window
        ensures { result ≡ [] }
    {
        Window {
            bytes: [0; 64],
            start: 0,
            end: 0,
        }
    }

    /// Whether no byte waits.
    pub(crate) fn is_empty(&self) -> bool
        ensures { result ≡ (length self.now == 0) }
    {
        self.start == self.end
    }

    /// The bytes that wait.
    fn as_slice(&self) -> &[u8]
        ensures { result.now ≡ self.now }
    {
        &self.bytes[self.start..self.end]
    }

    /// Makes one read into a window in which no byte waits.
    pub(crate) fn fill<R: Read>(&mut self, source: &mut Source<R>) -> Result<(), Failed>
        requires empty { length self.old ≡ 0 }
        requires healthy { CanFail source.old }
        requires before_the_end { source.old.over ≡ false }
        ensures bytes { MatchResult result
            (λ _. Consumes source.old.bytes source.new.bytes self.new
            × (length self.new ≡ 0 → IsAtEnd source.new.bytes) × (source.new.over ≡ (length self.new == 0)))
            (λ _. Keeps source.old.bytes source.new.bytes × (length self.new ≡ 0) × (source.new.over ≡ false)) }
        ensures ok { OnOk result (source.new.failures ≡ source.old.failures) }
        ensures err { OnErr result (source.new.failures ≡ source.old.failures + 1) }
    {
        self.start = 0;
        self.end = 0;
        self.end = source.read(&mut self.bytes)?;
        Ok(())
    }

    /// Gives the first bytes that wait.
    fn give(&mut self, count: usize, buffer: &mut [u8])
        requires waiting { count ≤ length self.old }
        requires buffer { count ≤ length buffer.old }
        ensures { self.old ≡ take count buffer.new ++ self.new }
    {
        buffer[..count].copy_from_slice(&self.bytes[self.start..self.start + count]);
        self.start += count;
    }

    /// Gives bytes that wait, as many as the buffer holds.
    pub(crate) fn take(&mut self, buffer: &mut [u8]) -> usize
        ensures bound { result ≤ length buffer.new }
        ensures bytes { self.old ≡ take result buffer.new ++ self.new }
        ensures some { 0 < length self.old → 0 < length buffer.new → 0 < result }
    {
        let count = buffer.len().min(self.as_slice().len());
        self.give(count, buffer);
        count
    }

    /// Gives bytes that wait, as many as the buffer holds, and none after a line feed.
    pub(crate) fn take_to_feed(&mut self, buffer: &mut [u8]) -> usize
        ensures bound { result ≤ length buffer.new }
        ensures bytes { self.old ≡ take result buffer.new ++ self.new }
        ensures some { 0 < length self.old → 0 < length buffer.new → 0 < result }
        ensures feed { NoneAfterFeed (take result buffer.new) }
    {
        let waiting = self.as_slice();
        let most = buffer.len().min(waiting.len());
        let count = to_feed(&waiting[..most]);
        self.give(count, buffer);
        count
    }
}
