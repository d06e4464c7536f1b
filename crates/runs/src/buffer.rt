//! A buffer before a writer of the program, which tries no failed write again.

ghost use Rattle.runs.specs.Ports.{front_of, IsPrefix};
ghost use Rattle.std.specs.Prelude.{◌≡◌, ◌≤◌, [], length, take, true, false, OnOk, MatchBool};
ghost use Rattle.std.specs.Io.KnownBytes.{Appends, Keeps, append_known};
ghost use Rattle.std.specs.Vec.{vec_capacity};
ghost use Rattle.devices.specs.Devices.{WritesSome, WritesUnlessOver};

use crate::sink::Sink;
use devices::Failed;
use std::io;
use std::io::Write;
use std::marker::{Brand, PhantomData};

/// What a device held before a run.
pub trait Initial {
    ghost use Rattle.std.specs.Prelude.{ℕ, List, Option};

    ghost initial: { Option (List ℕ) };
}

impl Initial for Brand {
    ghost use Rattle.std.specs.Prelude.{None};

    ghost initial = { None };
}

/// A device that holds what it held before the run, and after it what was written since.
#[derive(Drop)]
pub struct Device<N: Initial, W: Write> {
    pub sink: Sink<W>,
    pub(crate) of: PhantomData<N>,
    ghost begins: { front_of N.initial sink.bytes ≡ N.initial },
}

impl<N: Initial, W: Write> Device<N, W> {
    /// A device that nothing was written to yet.
    pub fn new(sink: Sink<W>) -> Device<N, W>
        requires { sink.bytes ≡ N.initial }
        ensures { result.sink ≡ sink }
    {
        Device {
            sink,
            of: PhantomData,
        }
    }

    /// The sink again.
    pub fn into_sink(self) -> Sink<W>
        ensures same { result ≡ self.sink }
        ensures begins { front_of N.initial result.bytes ≡ N.initial }
    {
        self.sink
    }

    /// Makes one write, unless one has failed.
    fn write(&mut self, bytes: &[u8]) -> Result<usize, Failed>
        ensures bytes { WritesSome self.old.sink.bytes self.new.sink.bytes result bytes.now }
        ensures over { OnOk result (self.old.sink.over ≡ false)
            × WritesUnlessOver self.old.sink self.new.sink result }
    {
        self.sink.write_some(bytes)
    }

    /// Makes one flush, unless a write has failed.
    fn flush(&mut self) -> Result<(), Failed>
        ensures bytes { Keeps self.old.sink.bytes self.new.sink.bytes }
        ensures over { OnOk result (self.old.sink.over ≡ false)
            × WritesUnlessOver self.old.sink self.new.sink result }
    {
        self.sink.flush()
    }

    /// Writes until all is written or a write fails, which no other follows; how many bytes were written, and whether
    /// all.
    fn write_out(&mut self, bytes: &[u8]) -> (usize, bool)
        ensures bound { result.0 ≤ length bytes.now }
        ensures all { result.1 ≡ true → result.0 ≡ length bytes.now }
        ensures bytes { Appends self.old.sink.bytes self.new.sink.bytes (take result.0 bytes.now) }
        ensures over { MatchBool result.1
            (self.new.sink.over ≡ self.old.sink.over) (self.new.sink.over ≡ true) }
    {
        let mut written = 0;
        while written < bytes.len() {
            match self.write(&bytes[written..]) {
                Ok(count) => written += count,
                Err(_) => return (written, false),
            }
        }
        (written, true)
    }
}

/// The capacity of the buffer before a device, in bytes.
pub const BUFFER_BYTES: usize = 65_536;

/// A buffer before a device. Each write is made once: one that was interrupted has failed, as any other. What was not
/// written waits on, and [`Buffered::finish`] alone ends the buffer: nothing is written where it is dropped.
#[derive(Drop)]
pub struct Buffered<N: Initial, W: Write> {
    pub device: Device<N, W>,
    pub waiting: Vec<u8>,
}

impl<N: Initial, W: Write> Buffered<N, W> {
    /// A buffer in which nothing waits, of this capacity.
    pub fn new(device: Device<N, W>, waiting: Vec<u8>) -> Buffered<N, W>
        requires { waiting.items ≡ [] }
        ensures device { result.device ≡ device }
        ensures waiting { result.waiting.items ≡ [] }
    {
        Buffered { device, waiting }
    }

    /// Writes what waits, until a write fails; whether all was written. What wasn't waits on.
    fn empty(&mut self) -> bool
        ensures all { result ≡ true → self.new.waiting.items ≡ [] }
        ensures bytes { Keeps
            (append_known self.old.device.sink.bytes self.old.waiting.items)
            (append_known self.new.device.sink.bytes self.new.waiting.items) }
        ensures over { MatchBool result
            (self.new.device.sink.over ≡ self.old.device.sink.over) (self.new.device.sink.over ≡ true) }
        ensures capacity { vec_capacity self.new.waiting ≡ vec_capacity self.old.waiting }
    {
        let (written, all) = self.device.write_out(&self.waiting);
        if all {
            self.waiting.clear();
        } else {
            let len = self.waiting.len();
            self.waiting.copy_within(written..len, 0);
            self.waiting.truncate(len - written);
        }
        all
    }

    /// Writes what waits where it is due, and flushes the device; whether it was due and that was done.
    fn write_rest(&mut self, due: bool) -> bool
        ensures due { result ≡ true → due ≡ true }
        ensures kept { due ≡ false → self.new.device.sink ≡ self.old.device.sink }
        ensures all { result ≡ true → self.new.waiting.items ≡ [] }
        ensures bytes { Keeps
            (append_known self.old.device.sink.bytes self.old.waiting.items)
            (append_known self.new.device.sink.bytes self.new.waiting.items) }
        ensures over { due ≡ true → MatchBool result
            (self.new.device.sink.over ≡ false) (self.new.device.sink.over ≡ true) }
    {
        due && self.empty() && self.device.flush().is_ok()
    }

    /// The device, and whether all that waited was written, where it was due. Else nothing more is written. It wasn't
    /// written though it was due only where the device failed.
    pub fn finish(mut self, due: bool) -> (Sink<W>, bool)
        ensures due { result.1 ≡ true → due ≡ true }
        ensures kept { due ≡ false → result.0 ≡ self.device.sink }
        ensures all { result.1 ≡ true
            → Keeps (append_known self.device.sink.bytes self.waiting.items) result.0.bytes }
        ensures part { IsPrefix N.initial
            (append_known self.device.sink.bytes self.waiting.items) result.0.bytes }
        ensures over { due ≡ true
            → MatchBool result.1 (result.0.over ≡ false) (result.0.over ≡ true) }
    {
        let done = self.write_rest(due);
        let Buffered { device, waiting: _ } = self;
        (device.into_sink(), done)
    }
}

impl<N: Initial, W: Write> Write for Buffered<N, W> {
    ghost use Rattle.std.specs.Io.KnownBytes.{WriteAppends, append_known};
    ghost use Rattle.std.specs.Io.{WritesAtMost};
    ghost use Rattle.std.specs.Prelude.{◌≡◌, ◌≤◌, ◌<◌, ◌+◌, Ok, OnErr, length};
    ghost use Rattle.std.specs.Vec.{vec_capacity};

    ghost contents = { λ b. append_known b.device.sink.bytes b.waiting.items };

    fn write(&mut self, bytes: &[u8]) -> io::Result<usize>
        ensures bound { WritesAtMost result bytes.now }
        ensures bytes { WriteAppends
            (append_known self.old.device.sink.bytes self.old.waiting.items)
            (append_known self.new.device.sink.bytes self.new.waiting.items) result bytes.now }
        // In a buffer whose capacity was reserved, what ends below it is taken, and nothing is refused unless the
        // device has failed.
        ensures takes { 65536 ≤ vec_capacity self.old.waiting
            → length self.old.waiting.items + length bytes.now < 65536 → result ≡ Ok (length bytes.now) }
        ensures refuses { 65536 ≤ vec_capacity self.old.waiting
            → OnErr result (self.new.device.sink.over ≡ true) }
        ensures capacity { vec_capacity self.old.waiting ≤ vec_capacity self.new.waiting }
    {
        if self.waiting.len() >= BUFFER_BYTES && !self.empty() {
            return Err(io::Error::other("unwritten"));
        }
        if self.waiting.is_empty() && bytes.len() >= BUFFER_BYTES {
            return match self.device.write(bytes) {
                Ok(count) => Ok(count),
                Err(_) => Err(io::Error::other("unwritten")),
            };
        }
        let count = bytes
            .len()
            .min(BUFFER_BYTES - self.waiting.len().min(BUFFER_BYTES));
        self.waiting.extend_from_slice(&bytes[..count])?;
        Ok(count)
    }

    fn flush(&mut self) -> io::Result<()> {
        if self.empty() && self.device.flush().is_ok() {
            Ok(())
        } else {
            Err(io::Error::other("unwritten"))
        }
    }
}
