//! The slim text of a capture, without a buffer before its output and with one.

ghost use Rattle.std.specs.Prelude.{◌≡◌, ◌⊎◌, ◌-◌, ◌<◌, ◌^◌, false, OnOk, IfErr};
ghost use Rattle.captures.specs.Passes.{AttributesReads};
ghost use Rattle.slim.specs.Slims.{Slims};
ghost use Rattle.devices.specs.Devices.{CanFail, CountsBy};
ghost use Rattle.runs.specs.Failures.{reader_failures, writer_failures};
ghost use Rattle.faults.specs.declared.fault.Place.TheVariants as Place;
ghost use Rattle.runs.specs.Ports.{Runs, Reports, reports_write, is_cut, port};
ghost use Rattle.runs.specs.Slimming.{IsSlimFault, SlimSays};

use crate::rewriting::{Pass, rewrite_into};
use crate::sink::Sink;
use captures::Version;
use devices::{Input, Output};
use faults::Fault;
use slim::{Queries, slim};
use std::alloc::Global;
use std::io::{Read, Write};

/// Writes the slim text of a capture or of traffic, in the format `to` or its own where that is later: without what no
/// answer depends on. Targets lose their query where `queries` are dropped.
///
/// # Errors
///
/// `Slim` with the capture's first fault, or where its reader failed: the first line and the slim records of the whole
/// records before the fault stand then, or nothing where the fault is in the first line. `Slim` with `Write` where the
/// writer failed, and with `Memory`: a prefix stands. No other fault.
pub fn run_slim<R: Read, W: Write>(
    alloc: Global,
    input: &mut Input<R>,
    output: &mut Output<W>,
    to: Version,
    queries: Queries,
) -> Result<(), Fault>
    requires reading { CanFail input.old }
    requires writing { CanFail output.old }
    ensures ok { OnOk result (Slims queries to input.old.bytes output.old.bytes output.new.bytes) }
    ensures fault { IfErr result
        (IsSlimFault queries to (port input.old input.new) (port output.old output.new)) }
    // A device is reported only where it failed in this call.
    ensures reads { CountsBy reader_failures input.old.failures input.new.failures result }
    ensures writes { CountsBy writer_failures output.old.failures output.new.failures result }
{
    match slim(alloc, input, output, to, queries) {
        Ok(()) => Ok(()),
        Err(fault) => Err(Fault::Slim(fault)),
    }
}

/// Writes the slim text of a capture or of traffic, as [`run_slim`] does, with a buffer before the
/// output, and gives input and output back. Each device is reported only where it failed in this call.
///
/// # Errors
///
/// Those of [`run_slim`]; `Memory` where there is none for the buffer, and then nothing is written, or for what is to
/// wait in it; `Write` of the output where what the buffer held at the end couldn't be written: it was due before any
/// other fault.
pub fn slim_into<R: Read + Drop, W: Write + Drop>(
    alloc: Global,
    input: Input<R>,
    output: Sink<W>,
    to: Version,
    queries: Queries,
) -> (Result<(), Fault>, Input<R>, Sink<W>)
    requires reading { CanFail input }
    requires writing { output.over ≡ false }
    ensures device { Reports Place.Output
        (Runs Place.Output (SlimSays queries to (port input result.1)) output.bytes result.2.bytes)
        result.0 }
    ensures reads { AttributesReads reader_failures is_cut
        input.failures result.1.failures result.0 }
    ensures writes { result.2.over ≡ reports_write Place.Output result.0 }
{
    rewrite_into(alloc, Pass::Slim(queries), input, output, to)
}
