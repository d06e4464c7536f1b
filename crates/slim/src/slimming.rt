//! A capture becomes its slim text.

ghost use Rattle.std.specs.Prelude.{◌<◌, ◌-◌, ◌^◌, ◌≡◌, ◌+◌, ◌≤◌, ◌∷◌, ◌++◌, [], List, length, flat_map, codes};
ghost use Rattle.std.specs.Prelude.{decimal, OnOk, IfOk, IfErr, IfSome, IfNone};
ghost use Rattle.devices.specs.Devices.{CanFail, CountsBy, WritesPrefix};
ghost use Rattle.captures.specs.Passes.{reader_failures, writer_failures, IsWriteOrMemory};
ghost use Rattle.captures.specs.Reference.{connection_of, first_line, format_of, record_text};
ghost use Rattle.captures.specs.Captures.{size_of, sizes_of};
ghost use Rattle.captures.specs.CaptureFaults.{longest_text};
ghost use Rattle.captures.specs.declared.record.Record.{Record as ARecord};
ghost use Rattle.captures.specs.declared.record.Record.TheVariants.{Piece};
ghost use Rattle.captures.specs.declared.capture_fault.CaptureFaultKind.TheVariants as kinds;
ghost use Rattle.captures.specs.declared.pass_fault.PassFault.TheVariants as passes;
ghost use Rattle.arrivals.specs.Connections.{IsNumber};
ghost use Rattle.arrivals.specs.Reference.{Arrival};
ghost use Rattle.slim.specs.Slims.{Leaves, Slims, slim_record};
ghost use Rattle.slim.specs.Steps.{whats_kept, Stands, StandsMore};

use crate::blocks::kept_block;
use crate::capacities::{capacity_after, capacity_after_first, last_line_size};
use crate::queries::Queries;
use arrivals::Connections;
use captures::{
    CaptureFault, CaptureFaultKind, CaptureReader, PassFault, Record, Version, write_first_line,
    write_last_line, write_record,
};
use devices::{Bytes, Input, Output};
use http_requests::Message;
use std::alloc::{AllocError, Global};
use std::io::{Read, Write};

/// Adds the slim pieces of the messages that arrive with a piece.
fn push_pieces(
    alloc: Global,
    tick: u64,
    conn: u16,
    messages: &[Message],
    queries: Queries,
    slim: &mut Vec<Record>,
) -> Result<(), AllocError>
    ensures { OnOk result (slim.new.items
        ≡ slim.old.items ++ slim_record (whats_kept queries messages.now) (Piece tick conn [])) }
{
    for message in messages {
        let bytes = Bytes::from_vec(kept_block(alloc, &message.what, queries)?);
        slim.push(Record::Piece { tick, conn, bytes })?;
    }
    Ok(())
}

/// Reads one more record, and answers its slim records. `messages` is a buffer for its messages.
fn slim_record(
    alloc: Global,
    next: &Record,
    connections: &mut Connections,
    messages: &mut Vec<Message>,
    queries: Queries,
) -> Result<Vec<Record>, AllocError>
    requires capacity { (records : List ARecord) × (arrivals : List Arrival)
        × Stands queries records arrivals connections.old
        × (sizes_of records + size_of next.now ≤ longest_text) }
    requires number { IsNumber (connection_of next.now) }
    ensures { IfOk result (λ slim. (records : List ARecord) (arrivals : List Arrival)
        → Stands queries records arrivals connections.old
        → StandsMore queries records arrivals next.now slim.items connections.new) }
{
    let mut slim = Vec::new(alloc);
    match next {
        Record::Piece { tick, conn, bytes } => {
            messages.clear();
            connections.read_piece(alloc, usize::from(*conn), bytes.as_slice(), messages)?;
            push_pieces(alloc, *tick, *conn, messages, queries, &mut slim)?;
        }
        Record::End { tick, conn } => {
            connections.end(usize::from(*conn));
            slim.push(Record::End {
                tick: *tick,
                conn: *conn,
            })?;
        }
        Record::Tier { conn, tier } => {
            slim.push(Record::Tier {
                conn: *conn,
                tier: *tier,
            })?;
        }
    }
    Ok(slim)
}

/// Writes records.
fn write_records<W: Write>(
    alloc: Global,
    writer: &mut Output<W>,
    records: &[Record],
) -> Result<(), PassFault>
    requires { CanFail writer.old }
    ensures prefix { WritesPrefix
        writer.old.bytes writer.new.bytes result (flat_map record_text records.now) }
    ensures count { CountsBy writer_failures writer.old.failures writer.new.failures result }
    ensures own { IfErr result IsWriteOrMemory }
{
    for record in records {
        write_record(alloc, writer, record)?;
    }
    Ok(())
}

/// There is no room for what stands for record `at`, or for the last line, which is the record after all others.
fn too_large(at: usize) -> PassFault
    ensures { result ≡ passes.Capture (record { at = at; kind = kinds.TooLarge }) }
{
    PassFault::Capture(CaptureFault {
        at,
        kind: CaptureFaultKind::TooLarge,
    })
}

/// Writes the slim text of a capture or of a traffic text, in the later of its format and the one asked for: it reads a
/// record, writes what stands for it, and goes on. The last line is written after the end of the input was met. What is
/// kept is what the open connections need. Targets lose their query where `queries` are dropped.
///
/// # Errors
///
/// `Capture` with the capture's first fault, or where its reader failed: the first line and the slim records of the
/// whole records before the fault stand then, or nothing where the fault is in the first line. So they do where the
/// slim text grows longer than its format allows, which is `Capture` with `TooLarge` at the record that brings too
/// much. `Write` where the writer failed, and `Memory`: a prefix stands.
pub fn slim<R: Read, W: Write>(
    alloc: Global,
    reader: &mut Input<R>,
    writer: &mut Output<W>,
    to: Version,
    queries: Queries,
) -> Result<(), PassFault>
    requires reading { CanFail reader.old }
    requires writing { CanFail writer.old }
    ensures ok { OnOk result (Slims queries to reader.old.bytes writer.old.bytes writer.new.bytes) }
    // After a capture's fault, and where the slim text is too large, the slim records of the whole records before it
    // stand; else a prefix of what was due.
    ensures fault { IfErr result
        (Leaves queries to reader.old.bytes reader.new.bytes writer.old.bytes writer.new.bytes) }
    // A device is reported only where it failed in this call.
    ensures reads { CountsBy reader_failures reader.old.failures reader.new.failures result }
    ensures writes { CountsBy writer_failures writer.old.failures writer.new.failures result }
{
    let mut capture = match CaptureReader::open(reader) {
        Ok(capture) => capture,
        Err(fault) => return Err(PassFault::from(fault)),
    };
    let version = to.later(capture.version());
    write_first_line(alloc, writer, version, capture.start())?;
    let mut capacity = capacity_after_first(version, capture.start());
    let mut connections = Connections::new(alloc);
    let mut messages = Vec::new(alloc);
    let mut at = 1;
    let mut count = 0;
    loop {
        let next = match capture.next_record(alloc) {
            Ok(Some(next)) => next,
            Ok(None) => break,
            Err(fault) => return Err(PassFault::from(fault)),
        };
        let more = slim_record(alloc, &next, &mut connections, &mut messages, queries)?;
        let Some(left) = capacity_after(capacity, &more) else {
            return Err(too_large(at));
        };
        write_records(alloc, writer, &more)?;
        capacity = left;
        at += 1;
        count += more.len();
    }
    if capacity < last_line_size(count) {
        return Err(too_large(at));
    }
    write_last_line(alloc, writer, count)
}
