//! Out of memory: `checks/refuse_growths.py` refuses each growth in turn.
ghost use Rattle.devices.specs.Devices.{CanFail};

use devices::Output;
use snapshots::{SnapshotWriter, WriteFault};
use std::alloc::Global;
use std::io::Write;
use test_support::Counted;

/// What a snapshot of one file comes to, and of its first line, its file and its last line how many were begun before.
fn write<W: Write>(alloc: Global, output: &mut Output<W>) -> (usize, Result<(), WriteFault>)
    requires { CanFail output.old }
{
    match SnapshotWriter::begin(alloc, output) {
        Ok(mut writer) => match writer.add(output, b"a.txt", 784_111_777, b"hi\n") {
            Ok(()) => (2, writer.finish(output)),
            Err(fault) => (1, Err(fault)),
        },
        Err(fault) => (0, Err(fault)),
    }
}

/// A growth that is refused is answered so, with no byte written; else the answers are right.
#[test]
fn each_growth_refused(rt: HostRuntime) {
    let mut device = Counted { bytes: 0 };
    let mut output = Output::new(&mut device);
    let result = write(rt.alloc(), &mut output);
    drop(output);
    let want = match result {
        (2, Ok(())) => 53,
        (2, Err(WriteFault::Memory)) => 47,
        (1, Err(WriteFault::Memory)) => 18,
        _ => usize::MAX,
    };
    assert_eq!(rt; device.bytes, want);
}
