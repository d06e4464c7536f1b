//! A replay or a table of decisions, and its report: with and without a buffer before each device.

ghost use Rattle.std.specs.Prelude.{◌≡◌, ◌⊎◌, ◌-◌, ◌<◌, ◌^◌, [], false, OnOk, IfErr};
ghost use Rattle.std.specs.Io.KnownBytes.{Appends};
ghost use Rattle.devices.specs.Devices.{CanFail, CountsBy};
ghost use Rattle.report.specs.Reports.{report_text};
ghost use Rattle.program.specs.Bundles.{HoldsCapture};
ghost use Rattle.runs.specs.Ports.{AtDevices, AttributesWrites, RunsAtBoth, Reports, reports_write, port};
ghost use Rattle.runs.specs.Ports.{IsReportFault};
ghost use Rattle.program.specs.Replays.{Attributes, AttributesAllReads, FilesSays, ReportsBoth, IsFilesFault};
ghost use Rattle.program.specs.Replays.{IsReplayFault, OfSnapshot, ReplaySays, Replays, ports};
ghost use Rattle.runs.specs.Failures.{report_failures};

use crate::wanted::{Wanted, run_wanted};
use devices::{Input, Output};
use faults::{Fault, Place};
use paths::Snapshot;
use replay::{Outcome, Settings};
use report::ReportFault;
use runs::{
    BUFFER_BYTES, Initial, Sink, buffered, buffered_input, finish_output, is_due, reported,
};
use std::alloc::Global;
use std::io::{Read, Write};
use std::marker::Brand;
use std::sync::Wait;
use std::thread::Threads;

/// Writes the report of an outcome.
fn write_report<O: Write>(alloc: Global, outcome: Outcome, out: &mut Output<O>) -> Result<(), Fault>
    requires { CanFail out.old }
    ensures ok { OnOk result (Appends out.old.bytes out.new.bytes (report_text outcome)) }
    ensures fault { IfErr result (IsReportFault (report_text outcome) (port out.old out.new)) }
    ensures count { CountsBy report_failures out.old.failures out.new.failures result }
{
    match report::write_report(alloc, outcome, out) {
        Ok(()) => Ok(()),
        Err(ReportFault::Write) => Err(Fault::Write(Place::Report)),
        Err(ReportFault::Memory) => Err(Fault::Memory),
    }
}

/// Replays a capture against a snapshot, writes what is wanted of its messages, and then the report of what it has come
/// to.
///
/// # Errors
///
/// `Snapshot` with the snapshot's first fault, or where its reader failed, and then nothing is written; else `Replay`
/// with the fault of the replay, and then no report is written. After a whole answer, `Memory` where there is none for
/// the report, and then nothing of it is written; `Write` of the report where its writer failed. No other fault.
pub fn run_replay<T: Threads + Wait + Sync, S: Read, C: Read, W: Write, O: Write>(
    rt: &T,
    alloc: Global,
    settings: &Settings,
    wanted: Wanted,
    snapshot: &mut Input<S>,
    capture: &mut Input<C>,
    written: &mut Output<W>,
    out: &mut Output<O>,
) -> Result<(), Fault>
    requires inputs { CanFail snapshot.old × CanFail capture.old }
    requires outputs { CanFail written.old × CanFail out.old }
    ensures ok { OnOk result (Replays wanted settings.now
        (ports snapshot.old snapshot.new capture.old capture.new written.old written.new out.old out.new)) }
    ensures fault { IfErr result (IsReplayFault wanted settings.now
        (ports snapshot.old snapshot.new capture.old capture.new written.old written.new out.old out.new)) }
    ensures reports_write { Attributes wanted
        (ports snapshot.old snapshot.new capture.old capture.new written.old written.new out.old out.new)
        result }
{
    let files = Snapshot::read(alloc, snapshot)?;
    let outcome = run_wanted::<Brand, T, C, W>(
        rt, alloc, wanted, &files, settings, capture, written,
    )?;
    write_report(alloc, outcome, out)
}

/// Runs over buffers that were made. After a fault, no more of the report is written.
fn run_over_buffers<
    M: Initial,
    N: Initial,
    T: Threads + Wait + Sync,
    S: Read,
    C: Read,
    W: Write + Drop,
    O: Write + Drop,
>(
    rt: &T,
    alloc: Global,
    settings: &Settings,
    wanted: Wanted,
    snapshot: &mut Input<S>,
    capture: &mut Input<C>,
    written: Sink<W>,
    report: Sink<O>,
    waiting: Vec<u8>,
    report_waiting: Vec<u8>,
) -> (Result<(), Fault>, Sink<W>, Sink<O>)
    requires inputs { CanFail snapshot.old × CanFail capture.old }
    requires written { written.bytes ≡ M.initial }
    requires report { report.bytes ≡ N.initial }
    requires waiting { waiting.items ≡ [] }
    requires report_waiting { report_waiting.items ≡ [] }
    ensures stands { AtDevices (ReplaySays wanted settings.now
        (port snapshot.old snapshot.new) (port capture.old capture.new))
        written.bytes result.1.bytes report.bytes result.2.bytes result.0 }
    ensures reads { AttributesAllReads wanted
        (port snapshot.old snapshot.new) (port capture.old capture.new) result.0 }
    ensures writes { ReportsBoth result.1.over result.2.over result.0 }
{
    let mut replies = buffered::<M, W>(written, waiting);
    let mut rest = buffered::<N, O>(report, report_waiting);
    let ran = run_replay(
        rt,
        alloc,
        settings,
        wanted,
        snapshot,
        capture,
        &mut replies,
        &mut rest,
    );
    let due = is_due(Place::Replies, &ran);
    let (ran, written) = finish_output(replies, Place::Replies, due, ran);
    let due = ran.is_ok();
    let (ran, report) = finish_output(rest, Place::Report, due, ran);
    (ran, written, report)
}

/// Runs with a buffer before each output.
fn run_buffered<T: Threads + Wait + Sync, S: Read, C: Read, W: Write + Drop, O: Write + Drop>(
    rt: &T,
    alloc: Global,
    settings: &Settings,
    wanted: Wanted,
    snapshot: &mut Input<S>,
    capture: &mut Input<C>,
    written: Sink<W>,
    report: Sink<O>,
) -> (Result<(), Fault>, Sink<W>, Sink<O>)
    requires inputs { CanFail snapshot.old × CanFail capture.old }
    requires written { written.over ≡ false }
    requires report { report.over ≡ false }
    ensures stands { RunsAtBoth (ReplaySays wanted settings.now
        (port snapshot.old snapshot.new) (port capture.old capture.new))
        written.bytes result.1.bytes report.bytes result.2.bytes result.0 }
    ensures reads { AttributesAllReads wanted
        (port snapshot.old snapshot.new) (port capture.old capture.new) result.0 }
    ensures writes { ReportsBoth result.1.over result.2.over result.0 }
{
    let (Ok(waiting), Ok(report_waiting)) = (
        Vec::with_capacity(alloc, BUFFER_BYTES),
        Vec::with_capacity(alloc, BUFFER_BYTES),
    ) else {
        return (Err(Fault::Memory), written, report);
    };
    run_over_buffers::<Brand, Brand, T, S, C, W, O>(
        rt,
        alloc,
        settings,
        wanted,
        snapshot,
        capture,
        written,
        report,
        waiting,
        report_waiting,
    )
}

/// The devices of a replay or of a table of decisions.
#[derive(Drop)]
pub struct Devices<S: Read + Drop, C: Read + Drop, W: Write + Drop, O: Write + Drop> {
    pub snapshot: Input<S>,
    pub capture: Input<C>,
    /// Where what is wanted of the messages is written.
    pub written: Sink<W>,
    pub report: Sink<O>,
}

/// Replays a capture against a snapshot, as [`run_replay`] does, with a buffer before each output, and gives the
/// devices back. Each is reported only where it failed in this call.
///
/// # Errors
///
/// Those of [`run_replay`]; `Memory` where there is none for the buffers, and then nothing is written, or for what is
/// to wait in them; `Write` of the replies (or the rows) or of the report where what its buffer held at the end
/// couldn't be written. The replies were due before any other fault; after one, no more of the report is written.
pub fn replay_into<
    T: Threads + Wait + Sync,
    S: Read + Drop,
    C: Read + Drop,
    W: Write + Drop,
    O: Write + Drop,
>(
    rt: &T,
    alloc: Global,
    settings: &Settings,
    wanted: Wanted,
    devices: Devices<S, C, W, O>,
) -> (Result<(), Fault>, Devices<S, C, W, O>)
    requires reading { CanFail devices.snapshot × CanFail devices.capture }
    requires writing { (devices.written.over ≡ false) × (devices.report.over ≡ false) }
    ensures device { Reports Place.Report (Reports Place.Replies (RunsAtBoth
        (ReplaySays wanted settings.now
        (port devices.snapshot result.1.snapshot) (port devices.capture result.1.capture))
        devices.written.bytes result.1.written.bytes
        devices.report.bytes result.1.report.bytes)) result.0 }
    ensures reads { AttributesAllReads wanted
        (port devices.snapshot result.1.snapshot) (port devices.capture result.1.capture) result.0 }
    ensures writes { result.1.written.over ≡ reports_write Place.Replies result.0 }
    ensures report { AttributesWrites Place.Report result.1.report.over result.0 }
{
    let Devices {
        mut snapshot,
        mut capture,
        written,
        report,
    } = devices;
    let (ran, written, report) = run_buffered(
        rt,
        alloc,
        settings,
        wanted,
        &mut snapshot,
        &mut capture,
        written,
        report,
    );
    let ran = reported(Place::Replies, ran, written.has_failed());
    let ran = reported(Place::Report, ran, report.has_failed());
    let devices = Devices {
        snapshot,
        capture,
        written,
        report,
    };
    (ran, devices)
}

/// Replays a capture against a snapshot, with a buffer before each device, writes what is wanted of its messages, and
/// the report to `out`, and gives both writers back.
///
/// # Errors
///
/// Those of [`run_replay`]; `Memory` where there is none for the buffers, and then nothing is written; `Write` of the
/// replies (or the rows) or of the report where what its buffer held at the end couldn't be written. The replies were
/// due before any other fault; after one, no more of the report is written.
pub fn run_files<
    T: Threads + Wait + Sync,
    S: Read + Drop,
    C: Read + Drop,
    W: Write + Drop,
    O: Write + Drop,
>(
    rt: &T,
    alloc: Global,
    settings: &Settings,
    wanted: Wanted,
    snapshot: S,
    capture: C,
    written: W,
    out: O,
) -> (Result<(), Fault>, W, O)
    ensures device { RunsAtBoth
        (FilesSays wanted settings.now (S.remaining snapshot) (C.remaining capture))
        (W.contents written) (W.contents result.1) (O.contents out) (O.contents result.2) result.0 }
    // Where the bytes of the inputs are known, they were a snapshot's text and a capture's, or a fault is their first.
    ensures ok { OnOk result.0 (OfSnapshot (S.remaining snapshot)
        (λ files. HoldsCapture files (C.remaining capture))) }
    ensures fault { IfErr result.0 (IsFilesFault (S.remaining snapshot) (C.remaining capture)) }
{
    let Ok(mut snapshot) = buffered_input(alloc, snapshot) else {
        return (Err(Fault::Memory), written, out);
    };
    let Ok(mut capture) = buffered_input(alloc, capture) else {
        return (Err(Fault::Memory), written, out);
    };
    let (ran, written, report) = run_buffered(
        rt,
        alloc,
        settings,
        wanted,
        &mut snapshot,
        &mut capture,
        Sink::new(written),
        Sink::new(out),
    );
    (ran, written.into_writer(), report.into_writer())
}
