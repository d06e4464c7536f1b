//! The program without arguments: a snapshot and after it a capture, replayed from one input.

ghost use Rattle.std.specs.Prelude.{◌≡◌, ◌⊎◌, ◌-◌, ◌<◌, ◌^◌, false, OnOk, IfErr};
ghost use Rattle.captures.specs.Passes.{AttributesReads};
ghost use Rattle.devices.specs.Devices.{CanFail, CountsBy};
ghost use Rattle.program.specs.Bundles.{AfterSnapshot, BundleSays, HoldsCapture, IsBundleFault, IsProgramFault};
ghost use Rattle.runs.specs.Failures.{reader_failures, writer_failures};
ghost use Rattle.program.specs.Bundles.{WritesAnswer};
ghost use Rattle.runs.specs.Ports.{Reads, Runs, Reports, reports_write, is_cut, port};

use devices::{Input, Output};
use faults::{Fault, Place};
use paths::Snapshot;
use replay::plain_replay;
use runs::{Job, Sink, buffered_input, run_attributing, run_buffered};
use settings::default_settings;
use std::alloc::Global;
use std::io::{Read, Write};
use std::marker::Brand;

/// Replays the capture that stands after a snapshot in the same input, with default settings on one thread.
///
/// # Errors
///
/// `Snapshot` with the snapshot's first fault, or where its reader failed, and then nothing is written; else `Replay`
/// with the fault of the replay; `Memory` where there is none for the settings, and then nothing is written. No other
/// fault.
pub fn run_bundle<R: Read, W: Write>(
    alloc: Global,
    input: &mut Input<R>,
    output: &mut Output<W>,
) -> Result<(), Fault>
    requires reading { CanFail input.old }
    requires writing { CanFail output.old }
    ensures ok { OnOk result
        (AfterSnapshot input.old.bytes (WritesAnswer output.old.bytes output.new.bytes)) }
    ensures fault { IfErr result
        (IsBundleFault (port input.old input.new) (port output.old output.new)) }
    // A device is reported only where it failed in this call.
    ensures reads { CountsBy reader_failures input.old.failures input.new.failures result }
    ensures writes { CountsBy writer_failures output.old.failures output.new.failures result }
{
    let files = Snapshot::read_front(alloc, input)?;
    let settings = default_settings(alloc)?;
    plain_replay::<Brand, R, W>(alloc, &files, &settings, input, output)?;
    Ok(())
}

/// A bundle to replay.
#[derive(Drop)]
struct Bundle<R: Read + Drop> {
    alloc: Global,
    input: Input<R>,
}

impl<R: Read + Drop> Job for Bundle<R> {
    ghost use Rattle.std.specs.Prelude.{◌-◌, ◌<◌, ◌^◌};
    ghost use Rattle.devices.specs.Devices.{CanFail};
    ghost use Rattle.runs.specs.Failures.{reader_failures};
    ghost use Rattle.program.specs.Bundles.{BundleSays};
    ghost use Rattle.runs.specs.Ports.{Attributing, is_cut, port};

    ghost ready = { λ job. CanFail job.input };

    ghost says = { λ before after. Attributing reader_failures is_cut BundleSays (port before.input after.input) };

    fn run<W: Write>(&mut self, output: &mut Output<W>) -> Result<(), Fault> {
        run_bundle(self.alloc, &mut self.input, output)
    }
}

/// Replays the capture after a snapshot, as [`run_bundle`] does, with a buffer before the output, and gives input and
/// output back. Each device is reported only where it failed in this call.
///
/// # Errors
///
/// Those of [`run_bundle`]; `Memory` where there is none for the buffer, and then nothing is written, or for what is to
/// wait in it; `Write` of the replies where what the buffer held at the end couldn't be written: it was due before any
/// other fault.
pub fn bundle_into<R: Read + Drop, W: Write + Drop>(
    alloc: Global,
    input: Input<R>,
    output: Sink<W>,
) -> (Result<(), Fault>, Input<R>, Sink<W>)
    requires reading { CanFail input }
    requires writing { output.over ≡ false }
    ensures device { Reports Place.Replies (Runs Place.Replies (BundleSays (port input result.1))
        output.bytes result.2.bytes) result.0 }
    ensures reads { AttributesReads reader_failures is_cut input.failures result.1.failures result.0 }
    ensures writes { result.2.over ≡ reports_write Place.Replies result.0 }
{
    let (ran, job, output) = run_attributing(
        alloc,
        Bundle { alloc, input },
        Place::Replies,
        output,
    );
    (ran, job.input, output)
}

/// Replays the capture after a snapshot from a reader to a writer, with a buffer before each, and gives the
/// writer back.
///
/// # Errors
///
/// Those of [`run_bundle`]; `Memory` where there is none for the buffers, and then nothing is written; `Write` of the
/// replies where what the buffer held at the end couldn't be written: it was due before any other fault.
pub fn run_program<R: Read + Drop, W: Write + Drop>(
    alloc: Global,
    reader: R,
    writer: W,
) -> (Result<(), Fault>, W)
    ensures device { Runs Place.Replies (Reads BundleSays (R.remaining reader))
        (W.contents writer) (W.contents result.1) result.0 }
    // Where the bytes of the input are known, they were a snapshot's text and a capture's, or a fault is their first.
    ensures ok { OnOk result.0 (AfterSnapshot (R.remaining reader) HoldsCapture) }
    ensures fault { IfErr result.0 (IsProgramFault (R.remaining reader)) }
{
    match buffered_input(alloc, reader) {
        Ok(input) => {
            let sink = Sink::new(writer);
            let (ran, _, sink) = run_buffered(alloc, Bundle { alloc, input }, Place::Replies, sink);
            (ran, sink.into_writer())
        }
        Err(fault) => (Err(fault), writer),
    }
}
