//! Writes that fail.
use crate::writing::{Entry, files_of, write_files};
use devices::Output;
use paths::File;
use snapshots::WriteFault;
use std::alloc::Global;
use std::test::Fail;
use test_support::Slow;

static FILES: [Entry; 2] = [("a.txt", 784_111_777, "hi\n"), ("b", 0, "")];

static TEXT: &str = "haboob-snapshot 1\nfile 784111777 5 3\na.txt\nhi\n\nfile 0 1 0\nb\n\nend 2\n";

/// What the writing of files comes to; how often the output failed, and how many writes were made; and how much of the
/// text stands, where nothing else does.
type Came = (Result<(), WriteFault>, (u64, usize), Option<usize>);

/// Writes these files to a device that fails after so many writes.
fn run(alloc: Global, files: &[File], good: usize) -> Came {
    let mut taken = Vec::new(alloc);
    let mut device = Slow::new(&mut taken, 4, good);
    let mut output = Output::new(&mut device);
    let result = write_files(alloc, &mut output, files);
    let failures = output.failures();
    drop(output);
    let calls = (failures, device.calls);
    drop(device);
    let stands = TEXT.as_bytes().starts_with(&taken).then_some(taken.len());
    (result, calls, stands)
}

/// How much stands where the write failed that comes after so many.
fn written_before(came: &Came, good: usize) -> Option<usize> {
    match came {
        (Err(WriteFault::Write), (1, calls), stands) if *calls == good.wrapping_add(1) => *stands,
        _ => None,
    }
}

/// Each write fails in turn, by an interruption: no write is made after it, and a prefix stands.
#[test]
fn writes_failing(rt: HostRuntime) -> Result<(), Fail> {
    let files = files_of(rt.alloc(), &FILES)?;
    let mut last = 0;
    for good in 0..1000usize {
        let came = run(rt.alloc(), &files, good);
        if last > 60 && came == (Ok(()), (0, good), Some(TEXT.len())) {
            return Ok(());
        }
        match written_before(&came, good) {
            Some(stands) => last = stands,
            None => assert!(rt; false, "{good}"),
        }
    }
    assert!(rt; false, "no run met all its writes");
    Ok(())
}
