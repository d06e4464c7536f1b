//! A text becomes one of a later format.

ghost use Rattle.std.specs.Prelude.{◌<◌, ◌-◌, ◌^◌, OnOk, IfErr};
ghost use Rattle.devices.specs.Devices.{CanFail, CountsBy};
ghost use Rattle.captures.specs.Upgrades.{Upgrades, Leaves};
ghost use Rattle.captures.specs.Passes.{reader_failures, writer_failures};

use crate::record_writer::{write_first_line, write_last_line, write_record};
use crate::{CaptureReader, PassFault, Version};
use devices::{Input, Output};
use std::alloc::Global;
use std::io::{Read, Write};

/// Writes a text in the later of its format and the one asked for, with the same start and the same records: it reads a
/// record, writes it, and goes on. The last line is written after the end of the input was met.
///
/// # Errors
///
/// `Capture` with the capture's first fault, or where its reader failed: the first line and the whole records before
/// the fault stand then, or nothing where the fault is in the first line. `Write` where the writer failed, and
/// `Memory`: a prefix stands.
pub fn upgrade<R: Read, W: Write>(
    alloc: Global,
    reader: &mut Input<R>,
    writer: &mut Output<W>,
    to: Version,
) -> Result<(), PassFault>
    requires reading { CanFail reader.old }
    requires writing { CanFail writer.old }
    ensures ok { OnOk result (Upgrades to reader.old.bytes writer.old.bytes writer.new.bytes) }
    // After a capture's fault, the first line and the whole records before it stand; else a prefix of what was due.
    ensures fault { IfErr result
        (Leaves to reader.old.bytes reader.new.bytes writer.old.bytes writer.new.bytes) }
    // A device is reported only where it failed in this call.
    ensures reads { CountsBy reader_failures reader.old.failures reader.new.failures result }
    ensures writes { CountsBy writer_failures writer.old.failures writer.new.failures result }
{
    let mut capture = match CaptureReader::open(reader) {
        Ok(capture) => capture,
        Err(fault) => return Err(PassFault::from(fault)),
    };
    let version = to.later(capture.version());
    write_first_line(alloc, writer, version, capture.start())?;
    let mut count = 0;
    loop {
        let next = match capture.next_record(alloc) {
            Ok(Some(next)) => next,
            Ok(None) => break,
            Err(fault) => return Err(PassFault::from(fault)),
        };
        write_record(alloc, writer, &next)?;
        count += 1;
    }
    write_last_line(alloc, writer, count)
}
