//! Reading lines, bytes and runs of a text of limited size.

ghost use Rattle.std.specs.Prelude.{◌≡◌, ◌≢◌, ℕ, ◌+◌, ◌-◌, ◌<◌, ◌≤◌, ◌==◌, ◌++◌, [], ◌∷◌, true, false, is_some};
ghost use Rattle.std.specs.Prelude.{take, length, min, nat_lt, IfOk, IfErr};
ghost use Rattle.std.specs.List.{before_first};
ghost use Rattle.devices.specs.Reference.{line_feed};
ghost use Rattle.devices.specs.Devices.{CanFail};
ghost use Rattle.devices.specs.Texts.{NoneAfterFeed, Gives, Counts, TakesSome, Fills, is_unforeseen, byte_at, line_at};
ghost use Rattle.devices.specs.Texts.{run_at, ended, ahead_of, failures_in};
ghost use Rattle.devices.specs.Parts.{TookPart, TookAtMost, FailsAtOnce, FailsWithin};

use crate::{Bytes, Failed, Input};
use std::alloc::Global;
use std::io::Read;
use std::marker::Model;
use thiserror::Error;

/// Why a part of a text could not be read.
#[derive(Clone, Copy, Debug, PartialEq, Eq, Error)]
pub enum Stop {
    /// The first 65 bytes of a line hold no line feed.
    #[error("a line is too long")]
    TooLong,
    /// The input ended before the part did.
    #[error("the input ended too early")]
    Cut,
    /// The part goes on past the greatest size of a text.
    #[error("the text is too large")]
    TooLarge,
    /// The device failed.
    #[error("a read failed")]
    Read,
    /// There was no memory for the part.
    #[error("out of memory")]
    Memory,
}

/// The bytes of a line, at most 65, kept without memory of its own.
#[derive(Drop)]
pub struct Line {
    bytes: [u8; 65],
    len: usize,
}

impl Model for Line {
    ghost use Rattle.std.specs.Prelude.{ℕ, List, take, ◌≤◌};

    ghost Value = { List ℕ };

    ghost view = { λ l. take l.len l.bytes };

    ghost invariant = { λ l. l.len ≤ 65 };
}

impl Line {
    pub(crate) fn new() -> Line
        ensures { result ≡ [] }
    {
        Line {
            bytes: [0; 65],
            len: 0,
        }
    }

    pub fn as_slice(&self) -> &[u8]
        ensures { result.now ≡ self.now }
    {
        &self.bytes[..self.len]
    }

    fn push(&mut self, byte: u8)
        requires { length self.old < 65 }
        ensures { self.new ≡ self.old ++ byte ∷ [] }
    {
        self.bytes[self.len] = byte;
        self.len += 1;
    }

    /// Takes the bytes up to a line feed, and tells whether one was there.
    pub(crate) fn push_to_feed(&mut self, bytes: &[u8]) -> bool
        requires { length self.old + length bytes.now ≤ 65 }
        ensures line { self.new ≡ self.old ++ before_first (λ b. b == line_feed) bytes.now }
        ensures feed { result
            ≡ nat_lt (length (before_first (λ b. b == line_feed) bytes.now)) (length bytes.now) }
    {
        for byte in bytes {
            if *byte == b'\n' {
                return true;
            }
            self.push(*byte);
        }
        false
    }
}

/// Tells why a text that may take no more bytes ends: it is too large if one byte further is there, and cut if it is
/// not.
fn look_further<R: Read>(input: &mut Input<R>) -> Stop
    requires { CanFail input.old }
    ensures stop { is_some input.old.bytes ≡ true → is_unforeseen result ≡ false
        → result ≡ ended (ahead_of input.old.bytes 0) }
    // A read that failed took nothing.
    ensures part { result ≡ Stop.Read → is_some input.old.bytes ≡ true
        → TookPart (λ part. part ≡ []) input.old.bytes 0 input.new.bytes 0 }
    ensures count { input.new.failures ≡ input.old.failures + failures_in result }
    // It takes no memory.
    ensures memory { result ≢ Stop.Memory }
    // At most one byte was taken.
    ensures most { TookAtMost 1 input.old.bytes input.new.bytes }
{
    match input.read_byte() {
        Ok(Some(_)) => Stop::TooLarge,
        Ok(None) => Stop::Cut,
        Err(Failed) => Stop::Read,
    }
}

/// Makes one read of a text that may take `left` more bytes, and answers how many came, at least one. Where the text
/// may take none, one byte further is looked for: the text is too large if it is there, and cut if it is not.
pub(crate) fn read_some_of<R: Read>(
    input: &mut Input<R>,
    left: &mut usize,
    buffer: &mut [u8],
) -> Result<usize, Stop>
    requires healthy { CanFail input.old }
    requires buffer { 0 < length buffer.old }
    ensures some { TakesSome input.old.bytes left.old input.new.bytes left.new buffer.new result }
    // A read that failed took nothing.
    ensures part { FailsAtOnce Stop.Read input.old.bytes left.old input.new.bytes left.new result }
    ensures count { Counts input.old.failures input.new.failures result }
    // It takes no memory.
    ensures memory { IfErr result (λ e. e ≢ Stop.Memory) }
    // At most one byte further was taken.
    ensures most { IfErr result (λ _. TookAtMost 1 input.old.bytes input.new.bytes) }
{
    if *left == 0 {
        return Err(look_further(input));
    }
    let want = buffer.len().min(*left);
    match input.read_some(&mut buffer[..want]) {
        Ok(0) => Err(Stop::Cut),
        Ok(count) => {
            *left -= count;
            Ok(count)
        }
        Err(Failed) => Err(Stop::Read),
    }
}

/// Takes some of the next bytes of a text that may take `left` more bytes, none of them after a line feed, and answers
/// how many, at least one. Where no byte waits, one read is made, which may read ahead.
fn read_to_feed_of<R: Read>(
    input: &mut Input<R>,
    left: &mut usize,
    buffer: &mut [u8],
) -> Result<usize, Stop>
    requires healthy { CanFail input.old }
    requires buffer { 0 < length buffer.old }
    ensures some { TakesSome input.old.bytes left.old input.new.bytes left.new buffer.new result }
    ensures feed { IfOk result (λ n. NoneAfterFeed (take n buffer.new)) }
    // A read that failed took nothing.
    ensures part { FailsAtOnce Stop.Read input.old.bytes left.old input.new.bytes left.new result }
    ensures count { Counts input.old.failures input.new.failures result }
    // It takes no memory.
    ensures memory { IfErr result (λ e. e ≢ Stop.Memory) }
    // At most one byte further was taken.
    ensures most { IfErr result (λ _. TookAtMost 1 input.old.bytes input.new.bytes) }
{
    if *left == 0 {
        return Err(look_further(input));
    }
    let most = buffer.len().min(*left);
    match input.read_to_feed(&mut buffer[..most]) {
        Ok(0) => Err(Stop::Cut),
        Ok(came) => {
            *left -= came;
            Ok(came)
        }
        Err(Failed) => Err(Stop::Read),
    }
}

/// Takes some of the next bytes as [`read_some_of`] does, and reads ahead where the input does.
fn read_next_of<R: Read>(
    input: &mut Input<R>,
    left: &mut usize,
    buffer: &mut [u8],
) -> Result<usize, Stop>
    requires healthy { CanFail input.old }
    requires buffer { 0 < length buffer.old }
    ensures some { TakesSome input.old.bytes left.old input.new.bytes left.new buffer.new result }
    // A read that failed took nothing.
    ensures part { FailsAtOnce Stop.Read input.old.bytes left.old input.new.bytes left.new result }
    ensures count { Counts input.old.failures input.new.failures result }
    // It takes no memory.
    ensures memory { IfErr result (λ e. e ≢ Stop.Memory) }
    // At most one byte further was taken.
    ensures most { IfErr result (λ _. TookAtMost 1 input.old.bytes input.new.bytes) }
{
    if input.reads_ahead() {
        read_to_feed_of(input, left, buffer)
    } else {
        read_some_of(input, left, buffer)
    }
}

/// Reads the next byte of a text that may take `left` more bytes.
pub fn read_byte_of<R: Read>(input: &mut Input<R>, left: &mut usize) -> Result<u8, Stop>
    requires { CanFail input.old }
    ensures byte { Gives is_unforeseen byte_at
        input.old.bytes left.old input.new.bytes left.new result }
    // A read that failed took nothing.
    ensures part { FailsAtOnce Stop.Read input.old.bytes left.old input.new.bytes left.new result }
    ensures count { Counts input.old.failures input.new.failures result }
    // It takes no memory.
    ensures memory { IfErr result (λ e. e ≢ Stop.Memory) }
    // At most one byte was taken.
    ensures most { TookAtMost 1 input.old.bytes input.new.bytes }
{
    let mut buffer = [0];
    match read_next_of(input, left, &mut buffer) {
        Ok(_) => Ok(buffer[0]),
        Err(stop) => Err(stop),
    }
}

/// Reads the next line of a text that may take `left` more bytes, byte by byte, and leaves what follows its line feed.
pub fn read_line<R: Read>(input: &mut Input<R>, left: &mut usize) -> Result<Line, Stop>
    requires { CanFail input.old }
    ensures line { Gives is_unforeseen line_at
        input.old.bytes left.old input.new.bytes left.new result }
    // Where a read failed, no whole line had been taken.
    ensures part { FailsWithin Stop.Read Stop.Cut line_at
        input.old.bytes left.old input.new.bytes left.new result }
    ensures count { Counts input.old.failures input.new.failures result }
    // It takes no memory.
    ensures memory { IfErr result (λ e. e ≢ Stop.Memory) }
    // At most 65 bytes were taken, and one byte past the limit.
    ensures most { TookAtMost (min 65 (left.old + 1)) input.old.bytes input.new.bytes }
{
    let mut line = Line::new();
    for _ in 0..65usize {
        match read_byte_of(input, left) {
            Ok(b'\n') => return Ok(line),
            Ok(byte) => line.push(byte),
            Err(stop) => return Err(stop),
        }
    }
    Err(Stop::TooLong)
}

/// The same by as few reads as the device allows, of an input that reads ahead.
pub(crate) fn read_line_ahead<R: Read>(input: &mut Input<R>, left: &mut usize) -> Result<Line, Stop>
    requires { CanFail input.old }
    ensures line { Gives is_unforeseen line_at
        input.old.bytes left.old input.new.bytes left.new result }
    // Where a read failed, no whole line had been taken.
    ensures part { FailsWithin Stop.Read Stop.Cut line_at
        input.old.bytes left.old input.new.bytes left.new result }
    ensures count { Counts input.old.failures input.new.failures result }
    // It takes no memory.
    ensures memory { IfErr result (λ e. e ≢ Stop.Memory) }
    // At most 65 bytes were taken, and one byte past the limit.
    ensures most { TookAtMost (min 65 (left.old + 1)) input.old.bytes input.new.bytes }
{
    let mut bytes = [0; 65];
    let mut len = 0;
    while len < 65 {
        match read_to_feed_of(input, left, &mut bytes[len..]) {
            Ok(count) => {
                len += count;
                if bytes[len - 1] == b'\n' {
                    return Ok(Line {
                        bytes,
                        len: len - 1,
                    });
                }
            }
            Err(stop) => return Err(stop),
        }
    }
    Err(Stop::TooLong)
}

/// Fills the buffer with the next bytes of a text that may take `left` more bytes.
fn fill<R: Read>(input: &mut Input<R>, left: &mut usize, buffer: &mut [u8]) -> Result<(), Stop>
    requires { CanFail input.old }
    ensures run { Fills input.old.bytes left.old input.new.bytes left.new buffer.new result }
    // Where a read failed, no whole run had been taken.
    ensures part { FailsWithin Stop.Read Stop.Cut (run_at (length buffer.new))
        input.old.bytes left.old input.new.bytes left.new result }
    ensures count { Counts input.old.failures input.new.failures result }
    // It takes no memory.
    ensures memory { IfErr result (λ e. e ≢ Stop.Memory) }
    // At most so many bytes were taken, and one byte past the limit.
    ensures most { TookAtMost (min (length buffer.new) (left.old + 1))
        input.old.bytes input.new.bytes }
{
    let mut filled = 0;
    while filled < buffer.len() {
        match read_some_of(input, left, &mut buffer[filled..]) {
            Ok(more) => filled += more,
            Err(stop) => return Err(stop),
        }
    }
    Ok(())
}

/// Reads the next `count` bytes of a text that may take `left` more bytes. The buffer is made before the first read.
pub fn read_run<R: Read>(
    alloc: Global,
    input: &mut Input<R>,
    left: &mut usize,
    count: usize,
) -> Result<Bytes, Stop>
    requires { CanFail input.old }
    ensures run { Gives is_unforeseen (run_at count)
        input.old.bytes left.old input.new.bytes left.new result }
    // Where a read failed, no whole run had been taken.
    ensures part { FailsWithin Stop.Read Stop.Cut (run_at count)
        input.old.bytes left.old input.new.bytes left.new result }
    // Where there was no memory, nothing had been taken.
    ensures lacks { FailsAtOnce Stop.Memory
        input.old.bytes left.old input.new.bytes left.new result }
    ensures length { IfOk result (λ run. length run ≡ count) }
    ensures count { Counts input.old.failures input.new.failures result }
    // At most so many bytes were taken, and one byte past the limit.
    ensures most { TookAtMost (min count (left.old + 1)) input.old.bytes input.new.bytes }
{
    let Ok(mut bytes) = vec![in alloc; 0; count] else {
        return Err(Stop::Memory);
    };
    match fill(input, left, &mut bytes) {
        Ok(()) => Ok(Bytes::from_vec(bytes)),
        Err(stop) => Err(stop),
    }
}
