//! A caller of the reader, who collects the records. What it promises follows from the reader's clauses alone: the
//! bytes of the input were the text of just these records, or the fault is the first of the text.
ghost use Rattle.std.specs.Prelude.{◌≡◌, ◌<◌, ◌-◌, ◌^◌, [], true, IfOk, IfErr};
ghost use Rattle.std.specs.Option.{is_some, unwrap_or};
ghost use Rattle.devices.specs.Devices.{CanFail};
ghost use Rattle.captures.specs.Reference.{IsCaptureText};
ghost use Rattle.captures.specs.CaptureFaults.{IsForeseen, IsFirstFault, CountsFault};

use captures::{CaptureFault, CaptureFaultKind, CaptureReader, Record, Version};
use devices::Input;
use std::alloc::Global;
use std::io::Read;

/// The version, the start and the records of a whole capture.
pub fn collect<R: Read>(
    alloc: Global,
    input: &mut Input<R>,
) -> Result<(Version, u64, Vec<Record>), CaptureFault>
    requires { CanFail input.old }
    ensures ok { IfOk result
        (λ all. is_some input.old.bytes ≡ true → IsCaptureText all.0 (unwrap_or input.old.bytes []) all.1 all.2.items) }
    ensures fault { IfErr result (IsForeseen IsFirstFault input.old.bytes) }
    ensures count { CountsFault input.old.failures input.new.failures result }
{
    let mut reader = match CaptureReader::open(input) {
        Ok(reader) => reader,
        Err(fault) => return Err(fault),
    };
    let version = reader.version();
    let start = reader.start();
    let mut records = Vec::new(alloc);
    loop {
        match reader.next_record(alloc) {
            Ok(Some(record)) => match records.push(record) {
                Ok(()) => continue,
                Err(_) => {
                    let at = records.len();
                    let kind = CaptureFaultKind::Memory;
                    return Err(CaptureFault { at, kind });
                }
            },
            Ok(None) => return Ok((version, start, records)),
            Err(fault) => return Err(fault),
        }
    }
}
