//! The table of decisions of a capture.

ghost use Rattle.std.specs.Prelude.{◌≡◌, ◌-◌, ◌<◌, ◌^◌, IfOk, IfErr};
ghost use Rattle.devices.specs.Devices.{CanFail, CountsBy};
ghost use Rattle.reference.specs.Outcomes.{Leaves};
ghost use Rattle.captures.specs.Passes.{reader_failures, writer_failures};
ghost use Rattle.reference.specs.Explaining.{Explains, row_texts};

use crate::plain::replay_writing;
use crate::rows::Rows;
use crate::{ReplayFault, Settings};
use devices::{Input, Output};
use paths::{Snapshot, Tree};
use reference::Outcome;
use std::alloc::Global;
use std::io::{Read, Write};

/// Decides on the messages of a capture as a replay does, and writes no reply: a table in CSV, with a heading and a row
/// for each message in the order of their arrival. The outcome is that of the replay. The heading is written before
/// anything is read, and each row before the next record is read; no page is built, and no reply rendered.
///
/// # Errors
///
/// As [`crate::plain_replay`]: `Capture` with the capture's first fault, or where its reader failed; `TooMany` at the
/// first message beyond those that its format allows; `Write` where the writer failed; `Memory`. The rows of the
/// messages of earlier records are written.
pub fn explain_replay<F: Tree, R: Read, W: Write>(
    alloc: Global,
    snapshot: &Snapshot,
    settings: &Settings,
    reader: &mut Input<R>,
    writer: &mut Output<W>,
) -> Result<Outcome, ReplayFault>
    requires snapshot { snapshot.now ≡ F.files }
    requires devices { CanFail reader.old × CanFail writer.old }
    // After a fault of the capture, the rows of the messages of the whole records before it are written; after too
    // many messages, those of the messages within the limit; else a prefix of the whole text.
    ensures fault { IfErr result (Leaves (row_texts F.files settings.now.served)
        reader.old.bytes reader.new.bytes writer.old.bytes writer.new.bytes) }
    // A device is reported only where it failed in this call.
    ensures reads { CountsBy reader_failures reader.old.failures reader.new.failures result }
    ensures writes { CountsBy writer_failures writer.old.failures writer.new.failures result }
    ensures ok { IfOk result
        (Explains F.files settings.now.served reader.old.bytes writer.old.bytes writer.new.bytes) }
{
    replay_writing::<Rows, F, R, W>(alloc, snapshot, settings, reader, writer)
}
