//! Reading recorded traffic to its end, and counting what it holds.

ghost use Rattle.std.specs.Prelude.{◌≡◌, ◌-◌, ◌<◌, ◌^◌, List, OnOk, IfOk, IfErr};
ghost use Rattle.devices.specs.Devices.{CanFail, CountsBy};
ghost use Rattle.captures.specs.Reference.{connection_of};
ghost use Rattle.captures.specs.declared.record.Record.{Record as ARecord};
ghost use Rattle.arrivals.specs.Connections.{IsNumber};
ghost use Rattle.arrivals.specs.Reference.{Arrival};
ghost use Rattle.inspection.specs.Running.{Holds, HoldsMore, HasCapacityFor, IsNoEarlier};
ghost use Rattle.inspection.specs.Inspections.{HoldsAll, Stops, reader_failures, stop_of};

use crate::found::{Found, inspection_of};
use crate::{InspectFault, Inspection};
use arrivals::Connections;
use captures::{CaptureFault, CaptureFaultKind, CaptureReader, Record};
use devices::Input;
use std::alloc::{AllocError, Global};
use std::io::Read;

/// Reads one more record: keeps what it holds.
fn take_record(
    alloc: Global,
    next: &Record,
    connections: &mut Connections,
    found: &mut Found,
) -> Result<(), AllocError>
    requires capacity { (records : List ARecord) × (arrivals : List Arrival)
        × Holds records arrivals connections.old found.old × HasCapacityFor records next.now }
    requires number { IsNumber (connection_of next.now) }
    ensures { OnOk result ((records : List ARecord) (arrivals : List Arrival)
        → Holds records arrivals connections.old found.old → IsNoEarlier records next.now
        → HoldsMore records arrivals next.now connections.new found.new) }
{
    match next {
        Record::End { tick, conn } => {
            connections.end(usize::from(*conn));
            found.take_end(*tick, *conn);
            Ok(())
        }
        Record::Tier { .. } => {
            found.take_tier();
            Ok(())
        }
        Record::Piece { tick, conn, bytes } => {
            let bytes = bytes.as_slice();
            let mut messages = Vec::new(alloc);
            connections.read_piece(alloc, usize::from(*conn), bytes, &mut messages)?;
            found.take_piece(*tick, *conn, bytes, &messages)
        }
    }
}

/// The fault of a record after the first line, with what the records before it hold.
fn stopped(held: Inspection, fault: CaptureFault) -> InspectFault
    ensures { result ≡ stop_of held fault }
{
    match fault.kind {
        CaptureFaultKind::Memory => InspectFault::Memory,
        _ => InspectFault::Stopped { held, fault },
    }
}

/// Reads a capture or a text of traffic, record by record, and answers what it holds. It keeps what the open
/// connections need, and 32 bytes for each number, however many connections it names one after the other.
///
/// # Errors
///
/// `FirstLine` where the first line has the capture's first fault, or its reader failed there. `Stopped` where a record
/// after it has, or its reader failed: the figures are those of the whole records before the fault. `Memory`.
pub fn inspect<R: Read>(alloc: Global, reader: &mut Input<R>) -> Result<Inspection, InspectFault>
    requires { CanFail reader.old }
    ensures ok { IfOk result (HoldsAll reader.old.bytes) }
    // After a fault of the capture, the figures are those of the whole records before it.
    ensures stops { IfErr result (Stops reader.old.bytes reader.new.bytes) }
    // The reader is reported only where it failed in this call.
    ensures reads { CountsBy reader_failures reader.old.failures reader.new.failures result }
{
    let mut capture = match CaptureReader::open(reader) {
        Ok(capture) => capture,
        Err(fault) => return Err(InspectFault::FirstLine(fault)),
    };
    let mut connections = Connections::new(alloc);
    let mut found = Found::new(alloc);
    loop {
        let next = match capture.next_record(alloc) {
            Ok(Some(next)) => next,
            Ok(None) => break,
            Err(fault) => {
                let held = inspection_of(capture.version(), capture.start(), &found);
                return Err(stopped(held, fault));
            }
        };
        take_record(alloc, &next, &mut connections, &mut found)?;
    }
    Ok(inspection_of(capture.version(), capture.start(), &found))
}
