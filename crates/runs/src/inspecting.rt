//! What a capture holds, written out.

ghost use Rattle.std.specs.Prelude.{◌≡◌, ◌⊎◌, ◌-◌, ◌<◌, ◌^◌, false, OnOk, IfErr};
ghost use Rattle.std.specs.Io.KnownBytes.{Appends};
ghost use Rattle.devices.specs.Devices.{CanFail, CountsBy};
ghost use Rattle.devices.specs.Reference.{WhereKnown};
ghost use Rattle.inspection.specs.Texts.{inspection_text};
ghost use Rattle.captures.specs.Passes.{AttributesReads};
ghost use Rattle.runs.specs.Inspecting.{is_unreported, Inspects, IsInspectFault, IsInspectFilesFault, InspectSays};
ghost use Rattle.runs.specs.Ports.{Reads, Runs, Reports, reports_write, port, IsReportFault};
ghost use Rattle.runs.specs.Failures.{capture_failures, report_failures};
ghost use Rattle.runs.specs.Upgrading.{IsTextOfSomeFormat};

use crate::running::{Job, buffered_input, run_attributing, run_buffered};
use crate::sink::Sink;
use captures::PassFault;
use devices::{Input, Output};
use faults::{Fault, Place};
use inspection::{InspectFault, Inspection, inspect, inspection_text};
use std::alloc::Global;
use std::io::{Read, Write};

/// Writes the text of an inspection.
fn write_inspection<W: Write>(
    alloc: Global,
    inspection: &Inspection,
    output: &mut Output<W>,
) -> Result<(), Fault>
    requires { CanFail output.old }
    ensures ok { OnOk result
        (Appends output.old.bytes output.new.bytes (inspection_text inspection.now)) }
    ensures fault { IfErr result
        (IsReportFault (inspection_text inspection.now) (port output.old output.new)) }
    ensures count { CountsBy report_failures output.old.failures output.new.failures result }
{
    let text = inspection_text(alloc, inspection)?;
    match output.write_all(text.as_bytes()) {
        Ok(()) => Ok(()),
        Err(_) => Err(Fault::Write(Place::Report)),
    }
}

/// Writes what a capture holds, as a text.
///
/// # Errors
///
/// `Replay` with the capture's first fault, or where its reader failed, as a replay reports it: the text of what the
/// whole records before the fault hold is written first, and nothing where the fault is in the first line. `Write` of
/// the report where the writer failed: a prefix stands. `Memory`, and then nothing is written. No other fault.
pub fn run_inspect<R: Read, W: Write>(
    alloc: Global,
    input: &mut Input<R>,
    output: &mut Output<W>,
) -> Result<(), Fault>
    requires reading { CanFail input.old }
    requires writing { CanFail output.old }
    ensures ok { OnOk result (Inspects (port input.old input.new) (port output.old output.new)) }
    ensures fault { IfErr result
        (IsInspectFault (port input.old input.new) (port output.old output.new)) }
    // A device is reported only where it failed in this call. A read that failed may not be reported: where a write
    // fails after it, or there is no memory.
    ensures reads { AttributesReads capture_failures is_unreported
        input.old.failures input.new.failures result }
    ensures writes { CountsBy report_failures output.old.failures output.new.failures result }
{
    match inspect(alloc, input) {
        Ok(inspection) => write_inspection(alloc, &inspection, output),
        Err(InspectFault::FirstLine(fault)) => Err(Fault::Replay(PassFault::Capture(fault))),
        Err(InspectFault::Stopped { held, fault }) => {
            write_inspection(alloc, &held, output)?;
            Err(Fault::Replay(PassFault::Capture(fault)))
        }
        Err(InspectFault::Memory) => Err(Fault::Memory),
    }
}

/// A capture to inspect.
#[derive(Drop)]
struct Inspecting<R: Read + Drop> {
    alloc: Global,
    input: Input<R>,
}

impl<R: Read + Drop> Job for Inspecting<R> {
    ghost use Rattle.std.specs.Prelude.{◌-◌, ◌<◌, ◌^◌};
    ghost use Rattle.devices.specs.Devices.{CanFail};
    ghost use Rattle.runs.specs.Inspecting.{InspectSays, is_unreported};
    ghost use Rattle.runs.specs.Ports.{Attributing, port};
    ghost use Rattle.runs.specs.Failures.{capture_failures};

    ghost ready = { λ job. CanFail job.input };

    ghost says = { λ before after. Attributing capture_failures is_unreported InspectSays
        (port before.input after.input) };

    fn run<W: Write>(&mut self, output: &mut Output<W>) -> Result<(), Fault> {
        run_inspect(self.alloc, &mut self.input, output)
    }
}

/// Writes what a capture holds, as [`run_inspect`] does, with a buffer before the output, and gives input and output
/// back. Each device is reported only where it failed in this call.
///
/// # Errors
///
/// Those of [`run_inspect`]; `Memory` where there is none for the buffer, and then nothing is written, or for what is
/// to wait in it; `Write` of the report where what the buffer held at the end couldn't be written: it was due before
/// any other fault.
pub fn inspect_into<R: Read + Drop, W: Write + Drop>(
    alloc: Global,
    input: Input<R>,
    output: Sink<W>,
) -> (Result<(), Fault>, Input<R>, Sink<W>)
    requires reading { CanFail input }
    requires writing { output.over ≡ false }
    ensures device { Reports Place.Report (Runs Place.Report (InspectSays (port input result.1))
        output.bytes result.2.bytes) result.0 }
    ensures reads { AttributesReads capture_failures is_unreported
        input.failures result.1.failures result.0 }
    ensures writes { result.2.over ≡ reports_write Place.Report result.0 }
{
    let (ran, job, output) = run_attributing(
        alloc,
        Inspecting { alloc, input },
        Place::Report,
        output,
    );
    (ran, job.input, output)
}

/// Writes what a capture holds, with a buffer before each device, and gives the writer back.
///
/// # Errors
///
/// Those of [`run_inspect`]; `Memory` where there is none for the buffers, and then nothing is written; `Write` of the
/// report where what its buffer held at the end couldn't be written: it was due before any other fault.
pub fn inspect_files<R: Read + Drop, W: Write + Drop>(
    alloc: Global,
    reader: R,
    writer: W,
) -> (Result<(), Fault>, W)
    ensures device { Runs Place.Report (Reads InspectSays (R.remaining reader))
        (W.contents writer) (W.contents result.1) result.0 }
    // Where the bytes of the input are known, they were a capture's text, or a fault is their first.
    ensures ok { OnOk result.0 (WhereKnown (R.remaining reader) IsTextOfSomeFormat) }
    ensures fault { IfErr result.0 (IsInspectFilesFault (R.remaining reader)) }
{
    match buffered_input(alloc, reader) {
        Ok(input) => {
            let sink = Sink::new(writer);
            let (ran, _, sink) = run_buffered(
                alloc,
                Inspecting { alloc, input },
                Place::Report,
                sink,
            );
            (ran, sink.into_writer())
        }
        Err(fault) => (Err(fault), writer),
    }
}
