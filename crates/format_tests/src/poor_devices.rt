//! One call is one read or one write of the device, whatever comes of it, and none after the end or a failed write.
use devices::{Failed, Input, Output, Stop, read_byte_of, read_line, read_long_line};
use std::io;
use std::io::{ErrorKind, Read, Write};
use std::process::Abort;
use test_support::Flaky;

/// A writer that takes n bytes at once, fails at its second write, and counts its writes.
#[derive(Drop)]
struct Narrow {
    size: usize,
    kind: ErrorKind,
    calls: usize,
}

impl Narrow {
    fn new(size: usize, kind: ErrorKind) -> Narrow {
        Narrow {
            size,
            kind,
            calls: 0,
        }
    }
}

impl Write for Narrow {
    fn write(&mut self, bytes: &[u8]) -> io::Result<usize> {
        self.calls = self.calls.wrapping_add(1);
        if self.calls == 2 {
            return Err(io::Error::from(self.kind));
        }
        Ok(bytes.len().min(self.size))
    }

    fn flush(&mut self) -> io::Result<()> {
        Ok(())
    }
}

/// A reader that goes on after its end, as a terminal may, and counts its reads.
#[derive(Drop)]
struct Resuming {
    left: &'static [u8],
    ended: bool,
    calls: usize,
}

impl Read for Resuming {
    fn read(&mut self, capacity: &mut [u8]) -> io::Result<usize> {
        self.calls = self.calls.wrapping_add(1);
        if self.left.is_empty() && !self.ended {
            self.ended = true;
            self.left = b"cd\n";
            return Ok(0);
        }
        let count = capacity.len().min(self.left.len());
        capacity[..count].copy_from_slice(&self.left[..count]);
        self.left = &self.left[count..];
        Ok(count)
    }
}

/// Whether four calls are answered so: bytes, an interruption, bytes again, and the end of the input, after which no
/// read is made; and how many reads were made.
fn four_reads() -> (bool, usize) {
    let mut device = Flaky::new(b"abc", 2, 1);
    let mut input = Input::new(&mut device);
    let mut capacity = [0; 4];
    let some = (input.read_some(&mut capacity), capacity, input.failures());
    let failed = (input.read_some(&mut capacity), input.failures());
    let last = (input.read_some(&mut capacity), capacity, input.failures());
    let end = (
        input.read_some(&mut capacity),
        input.read_byte(),
        input.failures(),
    );
    drop(input);
    let are_right = some == (Ok(2), *b"ab\0\0", 0)
        && failed == (Err(Failed), 1)
        && last == (Ok(1), *b"cb\0\0", 1)
        && end == (Ok(0), Ok(None), 1);
    (are_right, device.calls)
}

#[test]
fn one_read_a_call(rt: HostRuntime) {
    assert!(rt; four_reads() == (true, 4));
}

/// The same byte by byte.
fn four_bytes() -> (bool, usize) {
    let mut device = Flaky::new(b"ab", 9, 1);
    let mut input = Input::new(&mut device);
    let first = (input.read_byte(), input.read_byte());
    let second = (input.read_byte(), input.read_byte());
    let failures = input.failures();
    drop(input);
    let are_right = first == (Ok(Some(b'a')), Err(Failed))
        && second == (Ok(Some(b'b')), Ok(None))
        && failures == 1;
    (are_right, device.calls)
}

#[test]
fn one_read_a_byte(rt: HostRuntime) {
    assert!(rt; four_bytes() == (true, 4));
}

/// Whether an input gives a line, and then the end, whatever is asked for; and how many reads were made.
fn reads_at_the_end(rt: &impl Abort, ahead: bool) -> (bool, usize) {
    let mut device = Resuming {
        left: b"a\nb",
        ended: false,
        calls: 0,
    };
    let mut input = if ahead {
        Input::ahead(&mut device)
    } else {
        Input::new(&mut device)
    };
    let mut left = 100usize;
    let first = read_line(&mut input, &mut left).is_ok();
    let second = read_line(&mut input, &mut left).err();
    let third = read_line(&mut input, &mut left).err();
    assert!(rt; input.failures() == 0);
    let byte = (read_byte_of(&mut input, &mut left), input.read_byte());
    let mut capacity = [7; 2];
    let some = (input.read_some(&mut capacity), capacity, input.failures());
    drop(input);
    let are_right = first
        && (second, third) == (Some(Stop::Cut), Some(Stop::Cut))
        && byte == (Err(Stop::Cut), Ok(None))
        && some == (Ok(0), [7; 2], 0);
    (are_right, device.calls)
}

/// Once the end was reported nothing is read, whether the input reads ahead or not.
#[test]
fn nothing_read_after_the_end(rt: HostRuntime) {
    for (ahead, reads) in [(false, 4), (true, 2)] {
        assert!(rt; reads_at_the_end(&rt, ahead) == (true, reads));
    }
}

/// How many of 640 empty lines are read before the end, how many reads are made of them and of it, and how many bytes
/// of 1,000 may be taken then.
fn reads_of_lines(rt: &impl Abort, ahead: bool) -> (usize, usize, usize) {
    let text = [b'\n'; 640];
    let mut device = Flaky::new(&text, 1_000, 1_000);
    let mut input = if ahead {
        Input::ahead(&mut device)
    } else {
        Input::new(&mut device)
    };
    let mut left = 1_000usize;
    let mut lines = 0usize;
    for _ in 0..641 {
        assert!(rt; input.failures() == 0);
        match read_line(&mut input, &mut left) {
            Ok(line) if line.as_slice().is_empty() => lines = lines.wrapping_add(1),
            Err(Stop::Cut) if lines == 640 => (),
            _ => lines = usize::MAX,
        }
    }
    drop(input);
    (lines, device.calls, left)
}

/// An input that reads ahead makes a read for each 64 bytes of a text of lines, and one that doesn't makes one a byte;
/// each meets the end by one more.
#[test]
fn reads_of_a_text_of_lines(rt: HostRuntime) {
    for (ahead, reads) in [(false, 641), (true, 11)] {
        assert!(rt; reads_of_lines(&rt, ahead) == (640, reads, 360));
    }
}

/// The shortest rest of a line is read at once: 7 bytes, 5 more of a piece's line, and then one at a time.
#[test]
fn reads_of_a_line_that_announces(rt: HostRuntime) {
    for (text, reads) in [
        ("stop 1\n", 1),
        ("stop 12\n", 2),
        ("piece 0 0 1\n", 2),
        ("piece 0 0 12\n", 3),
    ] {
        let mut device = Flaky::new(text.as_bytes(), 1_000, 1_000);
        let mut input = Input::new(&mut device);
        let mut left = 1_000usize;
        assert!(rt; read_long_line(&mut input, &mut left, 7, b"piece ", 12).is_ok());
        assert!(rt; device.calls == reads, "{text}");
    }
}

/// A read into an empty buffer isn't the end.
#[test]
fn no_room_is_no_end(rt: HostRuntime) {
    let mut device = Flaky::new(b"a", 9, 9);
    let mut input = Input::new(&mut device);
    assert!(rt; input.read_some(&mut []) == Ok(0));
    assert!(rt; input.read_byte() == Ok(Some(b'a')));
    assert!(rt; device.calls == 2);
}

/// Whether some bytes are written, then a failure of this kind is met, and then no more is written; and how many writes
/// were made.
fn writes_and_a_failure(kind: ErrorKind) -> (bool, usize) {
    let mut device = Narrow::new(2, kind);
    let mut output = Output::new(&mut device);
    let first = (output.write_some(b"abc"), output.failures());
    let failed = (output.write_some(b"c"), output.failures());
    let second = (output.write_some(b"c"), output.failures());
    let none = (output.write_some(b""), output.failures());
    let both = (output.write_both(b"d", b"e"), output.failures());
    let all = output.write_all(b"");
    drop(output);
    let are_right = (first, failed) == ((Ok(2), 0), (Err(Failed), 1))
        && (second, none) == ((Err(Failed), 2), (Err(Failed), 3))
        && (both, all) == ((Err(Failed), 4), Ok(()));
    (are_right, device.calls)
}

/// Some bytes, a failure of either kind, and more to write after it: one write each, and none after the failure.
#[test]
fn one_write_a_call(rt: HostRuntime) {
    for kind in [ErrorKind::Interrupted, ErrorKind::Other] {
        assert!(rt; writes_and_a_failure(kind) == (true, 2));
    }
}

/// None of no bytes is no failure, and one write.
#[test]
fn a_write_of_no_bytes(rt: HostRuntime) {
    let mut device = Narrow::new(2, ErrorKind::Other);
    let mut output = Output::new(&mut device);
    assert!(rt; (output.write_some(b""), output.failures()) == (Ok(0), 0));
    assert!(rt; device.calls == 1);
}

/// A writer that takes none of some bytes has failed, and isn't asked again.
#[test]
fn a_write_of_none(rt: HostRuntime) {
    let mut device = Narrow::new(0, ErrorKind::Other);
    let mut output = Output::new(&mut device);
    let failed = (output.write_some(b"abc"), output.failures());
    assert!(rt; failed == (Err(Failed), 1));
    assert!(rt; device.calls == 1);
}
