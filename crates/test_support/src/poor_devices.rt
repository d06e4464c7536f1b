//! Devices that give or take a few bytes a call, fail at one of their calls, and count them all. The failure
//! is an interruption: what tries a call again does so at that kind of failure first.
ghost use Rattle.std.specs.Prelude.{◌≡◌};

use std::io;
use std::io::{ErrorKind, Read, Write};

/// A reader over memory.
#[derive(Drop)]
pub struct Flaky<'a> {
    /// What it has left.
    pub bytes: &'a [u8],
    /// The most bytes that a read gives.
    pub size: usize,
    /// How many reads are made before the one that fails.
    pub good: usize,
    /// How many reads were made.
    pub calls: usize,
}

impl<'a> Flaky<'a> {
    /// A reader of these bytes that was not read yet.
    pub fn new(bytes: &'a [u8], size: usize, good: usize) -> Flaky<'a>
        ensures bytes { result.bytes.now ≡ bytes.now }
        ensures size { result.size ≡ size }
        ensures good { result.good ≡ good }
        ensures calls { result.calls ≡ 0 }
    {
        Flaky {
            bytes,
            size,
            good,
            calls: 0,
        }
    }
}

impl<'a> Read for Flaky<'a> {
    fn read(&mut self, buffer: &mut [u8]) -> io::Result<usize> {
        self.calls = self.calls.wrapping_add(1);
        if self.calls == self.good.wrapping_add(1) {
            return Err(io::Error::from(ErrorKind::Interrupted));
        }
        let count = buffer.len().min(self.size).min(self.bytes.len());
        buffer[..count].copy_from_slice(&self.bytes[..count]);
        self.bytes = &self.bytes[count..];
        Ok(count)
    }
}

/// A writer over memory.
#[derive(Drop)]
pub struct Slow<'a> {
    /// What it has taken.
    pub taken: &'a mut Vec<u8>,
    /// The most bytes that a write takes.
    pub size: usize,
    /// How many writes are made before the one that fails.
    pub good: usize,
    /// How many writes were made.
    pub calls: usize,
}

impl<'a> Slow<'a> {
    /// A writer to this vector that was not written to yet.
    pub fn new(taken: &'a mut Vec<u8>, size: usize, good: usize) -> Slow<'a>
        ensures taken { result.taken.now ≡ taken.old }
        ensures same { result.taken.ghost_name ≡ taken.entry.ghost_name }
        ensures size { result.size ≡ size }
        ensures good { result.good ≡ good }
        ensures calls { result.calls ≡ 0 }
    {
        Slow {
            taken,
            size,
            good,
            calls: 0,
        }
    }
}

impl<'a> Write for Slow<'a> {
    fn write(&mut self, bytes: &[u8]) -> io::Result<usize> {
        self.calls = self.calls.wrapping_add(1);
        if self.calls == self.good.wrapping_add(1) {
            return Err(io::Error::from(ErrorKind::Interrupted));
        }
        let count = bytes.len().min(self.size);
        self.taken.extend_from_slice(&bytes[..count])?;
        Ok(count)
    }

    fn flush(&mut self) -> io::Result<()> {
        Ok(())
    }
}

/// A writer that takes all, keeps nothing and counts the bytes.
#[derive(Drop)]
pub struct Counted {
    /// How many bytes were written.
    pub bytes: usize,
}

impl Write for Counted {
    fn write(&mut self, bytes: &[u8]) -> io::Result<usize> {
        self.bytes = self.bytes.saturating_add(bytes.len());
        Ok(bytes.len())
    }

    fn flush(&mut self) -> io::Result<()> {
        Ok(())
    }
}
