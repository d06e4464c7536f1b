//! The settings in force, written out.

ghost use Rattle.std.specs.Prelude.{◌≡◌, ◌⊎◌, ◌-◌, ◌<◌, ◌^◌, false, OnOk, IfErr};
ghost use Rattle.devices.specs.Devices.{CanFail, CountsBy};
ghost use Rattle.settings.specs.WrittenOut.{AreSettings};
ghost use Rattle.runs.specs.InForce.{IsSettingsFault, SettingsSays, WritesSettings};
ghost use Rattle.runs.specs.Ports.{Runs, Reports, reports_write, port};
ghost use Rattle.runs.specs.Failures.{report_failures};

use crate::running::{Job, run_attributing};
use crate::sink::Sink;
use devices::Output;
use faults::{Fault, Place};
use settings::settings_text;
use std::alloc::Global;
use std::io::Write;

/// Writes out the settings of a document (docs/FORMATS.md, "Settings"), each key with the value that is in force. No
/// bytes give the default settings.
///
/// # Errors
///
/// `Settings` with the document's first fault, or where there is no memory, and then nothing is written. `Write` of the
/// report where the writer failed: a prefix stands. No other fault.
pub fn run_settings<W: Write>(
    alloc: Global,
    document: &[u8],
    output: &mut Output<W>,
) -> Result<(), Fault>
    requires { CanFail output.old }
    ensures ok { OnOk result (WritesSettings document.now (port output.old output.new)) }
    ensures fault { IfErr result (IsSettingsFault document.now (port output.old output.new)) }
    // The writer is reported only where it failed in this call.
    ensures writes { CountsBy report_failures output.old.failures output.new.failures result }
    ensures settings { OnOk result (AreSettings document.now) }
{
    let text = settings_text(alloc, document)?;
    match output.write_all(text.as_bytes()) {
        Ok(()) => Ok(()),
        Err(_) => Err(Fault::Write(Place::Report)),
    }
}

/// A document whose settings are to be written out.
#[derive(Drop)]
struct Document<'a> {
    alloc: Global,
    bytes: &'a [u8],
}

impl<'a> Job for Document<'a> {
    ghost use Rattle.runs.specs.InForce.{SettingsSays};

    ghost ready = { λ job. Unit {0} };

    ghost says = { λ before after. SettingsSays before.bytes.now };

    fn run<W: Write>(&mut self, output: &mut Output<W>) -> Result<(), Fault> {
        run_settings(self.alloc, self.bytes, output)
    }
}

/// Writes out the settings of a document, as [`run_settings`] does, with a buffer before the output, and gives it back.
/// It is reported only where it failed in this call.
///
/// # Errors
///
/// Those of [`run_settings`]; `Memory` where there is none for the buffer, and then nothing is written, or for what is
/// to wait in it; `Write` of the report where what the buffer held at the end couldn't be written.
pub fn settings_into<W: Write + Drop>(
    alloc: Global,
    document: &[u8],
    output: Sink<W>,
) -> (Result<(), Fault>, Sink<W>)
    requires writing { output.over ≡ false }
    ensures device { Reports Place.Report (Runs Place.Report (SettingsSays document.now)
        output.bytes result.1.bytes) result.0 }
    ensures writes { result.1.over ≡ reports_write Place.Report result.0 }
{
    let job = Document {
        alloc,
        bytes: document,
    };
    let (ran, _, output) = run_attributing(alloc, job, Place::Report, output);
    (ran, output)
}
