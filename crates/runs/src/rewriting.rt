//! A pass that writes a capture anew, with a buffer before its output.

ghost use Rattle.std.specs.Prelude.{◌≡◌, ◌⊎◌, ◌-◌, ◌<◌, ◌^◌, false};
ghost use Rattle.captures.specs.Passes.{AttributesReads};
ghost use Rattle.devices.specs.Devices.{CanFail};
ghost use Rattle.runs.specs.Failures.{reader_failures};
ghost use Rattle.runs.specs.Ports.{Runs, Reports, reports_write, is_cut, port};
ghost use Rattle.runs.specs.Slimming.{PassSays};

use crate::running::{Job, run_attributing};
use crate::sink::Sink;
use crate::slimming::run_slim;
use crate::upgrading::run_upgrade;
use captures::Version;
use devices::{Input, Output};
use faults::{Fault, Place};
use slim::Queries;
use std::alloc::Global;
use std::io::{Read, Write};

/// How a capture is written anew.
#[derive(Clone, Copy, Debug)]
pub(crate) enum Pass {
    Upgrade,
    Slim(Queries),
}

/// A capture to write anew.
#[derive(Drop)]
struct Rewriting<R: Read + Drop> {
    alloc: Global,
    pass: Pass,
    input: Input<R>,
    to: Version,
}

impl<R: Read + Drop> Job for Rewriting<R> {
    ghost use Rattle.std.specs.Prelude.{◌-◌, ◌<◌, ◌^◌};
    ghost use Rattle.devices.specs.Devices.{CanFail};
    ghost use Rattle.runs.specs.Failures.{reader_failures};
    ghost use Rattle.runs.specs.Ports.{Attributing, is_cut, port};
    ghost use Rattle.runs.specs.Slimming.{PassSays};

    ghost ready = { λ job. CanFail job.input };

    ghost says = { λ before after. Attributing reader_failures is_cut (PassSays before.pass before.to)
        (port before.input after.input) };

    fn run<W: Write>(&mut self, output: &mut Output<W>) -> Result<(), Fault> {
        match self.pass {
            Pass::Upgrade => run_upgrade(self.alloc, &mut self.input, output, self.to),
            Pass::Slim(queries) => run_slim(self.alloc, &mut self.input, output, self.to, queries),
        }
    }
}

/// Does a pass with a buffer before the output, and gives input and output back. Each device is reported only where it
/// failed in this call.
///
/// # Errors
///
/// Those of the pass; `Memory` where there is none for the buffer, and then nothing is written, or for what is to wait
/// in it; `Write` of the output where what the buffer held at the end couldn't be written: it was due before any other
/// fault.
pub(crate) fn rewrite_into<R: Read + Drop, W: Write + Drop>(
    alloc: Global,
    pass: Pass,
    input: Input<R>,
    output: Sink<W>,
    to: Version,
) -> (Result<(), Fault>, Input<R>, Sink<W>)
    requires reading { CanFail input }
    requires writing { output.over ≡ false }
    ensures device { Reports Place.Output (Runs Place.Output (PassSays pass to (port input result.1))
        output.bytes result.2.bytes) result.0 }
    ensures reads { AttributesReads reader_failures is_cut
        input.failures result.1.failures result.0 }
    ensures writes { result.2.over ≡ reports_write Place.Output result.0 }
{
    let job = Rewriting {
        alloc,
        pass,
        input,
        to,
    };
    let (ran, job, output) = run_attributing(alloc, job, Place::Output, output);
    (ran, job.input, output)
}
