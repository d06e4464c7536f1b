//! The greatest sizes and numbers, and those one past them.
ghost use Rattle.std.specs.Prelude.{◌<◌, ◌-◌, ◌^◌};
ghost use Rattle.devices.specs.Devices.{CanFail};

use devices::Output;
use snapshots::{SnapshotWriter, WriteFault};
use std::alloc::{AllocError, AllocGlobal, Global};
use std::io::Write;
use std::process::Abort;
use std::test::Fail;
use test_support::Counted;

/// Writes n files with these bytes, and then one with those.
fn write_numbered<W: Write>(
    alloc: Global,
    output: &mut Output<W>,
    count: u32,
    bytes: &[u8],
    last: &[u8],
) -> Result<(), WriteFault>
    requires { CanFail output.old }
{
    let mut writer = SnapshotWriter::begin(alloc, output)?;
    for number in 100_000..count.saturating_add(100_000) {
        let name = format!(in alloc; "{number}")?;
        writer.add(output, name.as_bytes(), 0, bytes)?;
    }
    writer.add(output, b"last", 0, last)?;
    writer.finish(output)
}

/// What the writing of n files of this size and then one of that comes to, and how many bytes were written.
fn written(
    alloc: Global,
    count: u32,
    size: usize,
    last: usize,
) -> Result<(Result<(), WriteFault>, usize), AllocError> {
    let bytes = vec![in alloc; b'a'; size]?;
    let last = vec![in alloc; b'b'; last]?;
    let mut device = Counted { bytes: 0 };
    let mut output = Output::new(&mut device);
    let result = write_numbered(alloc, &mut output, count, &bytes, &last);
    drop(output);
    Ok((result, device.bytes))
}

/// What the writing of one file comes to, with a name of these bytes, so many times.
fn answer(alloc: Global, name: &[u8], times: usize) -> Result<(), WriteFault> {
    let name = name.repeat(alloc, times)?;
    let mut output = Output::new(Counted { bytes: 0 });
    let mut writer = SnapshotWriter::begin(alloc, &mut output)?;
    writer.add(&mut output, &name, 0, b"")
}

static NAMES: [(&[u8], usize, Result<(), WriteFault>); 3] = [
    (b"a", 1_024, Ok(())),
    (b"a", 1_025, Err(WriteFault::Name)),
    (b"\xc3(", 1, Err(WriteFault::Name)),
];

#[test]
fn names(rt: HostRuntime) {
    for (name, times, want) in &NAMES {
        assert!(rt; answer(rt.alloc(), name, *times) == *want, "{times}");
    }
}

/// How many files, of which size, how many bytes the last one after them has, and what the writing of all comes to,
/// with the bytes that are written.
type Row = (u32, usize, usize, Result<(), WriteFault>, usize);

fn check(rt: &(impl Abort + AllocGlobal), rows: &[Row]) -> Result<(), Fail> {
    for (count, size, last, result, bytes) in rows {
        let came = written(rt.alloc(), *count, *size, *last)?;
        assert!(rt;
            came == (*result, *bytes),
            "{count} files and one of {last}"
        );
    }
    Ok(())
}

/// A file of 16,777,216 bytes, and one with a byte more: 18 bytes, the file's 24 beside its own, and the last line's 6.
static SIZES: [Row; 2] = [
    (0, 0, 16_777_216, Ok(()), 16_777_264),
    (0, 0, 16_777_217, Err(WriteFault::Size), 18),
];

#[test]
fn sizes(rt: HostRuntime) -> Result<(), Fail> {
    check(&rt, &SIZES)
}

/// 65,536 files, and one more: 18 bytes, 65,535 files of 19, one of 17 and the last line's 10.
static COUNTS: [Row; 2] = [
    (65_535, 0, 0, Ok(()), 1_245_210),
    (65_536, 0, 0, Err(WriteFault::Count), 1_245_202),
];

#[test]
fn counts(rt: HostRuntime) -> Result<(), Fail> {
    check(&rt, &COUNTS)
}

/// A text of 1,073,741,824 bytes, and one with a byte more: 18 bytes, 63 files with 26 bytes beside their own, the last
/// with 24, and the last line's 7.
static TEXTS: [Row; 2] = [
    (63, 16_777_216, 16_775_529, Ok(()), 1_073_741_824),
    (
        63,
        16_777_216,
        16_775_530,
        Err(WriteFault::Text),
        1_056_966_264,
    ),
];

#[test]
fn texts(rt: HostRuntime) -> Result<(), Fail> {
    check(&rt, &TEXTS)
}
