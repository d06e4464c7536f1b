//! A run with a buffer before its output.

ghost use Rattle.std.specs.Prelude.{◌≡◌, [], true, false, IfOk, IfErr};
ghost use Rattle.devices.specs.Devices.{fresh};
ghost use Rattle.runs.specs.Ports.{AtDevice, IsReported, RunsJob, Finishes, Reports, reports_write, is_due};

use crate::buffer::{BUFFER_BYTES, Buffered, Device, Initial};
use crate::sink::Sink;
use captures::{PassFault, UpgradeFault};
use devices::{Input, Output};
use faults::{Fault, Place};
use std::alloc::Global;
use std::io::{BufReader, Read, Write};
use std::marker::Brand;

/// What is to be done at one output. The inputs are its own.
pub trait Job {
    ghost use Rattle.std.specs.Prelude.{Result, ◌-◌, ◌<◌, ◌^◌};
    ghost use Rattle.devices.specs.Devices.{CanFail};
    ghost use Rattle.faults.specs.declared.fault.Fault.{Fault as AFault};
    ghost use Rattle.runs.specs.Ports.{Port, port};

    // its input can be read
    ghost ready: { Self → Type 0 };

    // what it says of itself, before and after, and of the output
    ghost says: { Self → Self → Port → Result Unit AFault → Type 0 };

    /// Does it at an output that was lent.
    fn run<W: Write>(&mut self, output: &mut Output<W>) -> Result<(), Fault>
        requires input { ready self.old }
        requires output { CanFail output.old }
        ensures { says self.old self.new (port output.old output.new) result };
}

/// Whether more may be written at this place after a run: no write has failed there.
pub fn is_due(place: Place, ran: &Result<(), Fault>) -> bool
    ensures { result ≡ is_due place ran.now }
{
    match (place, ran) {
        (Place::Replies, Err(Fault::Replay(PassFault::Write)))
        | (Place::Replies, Err(Fault::Write(Place::Replies)))
        | (Place::Output, Err(Fault::Upgrade(UpgradeFault::Write)))
        | (Place::Output, Err(Fault::Slim(PassFault::Write)))
        | (Place::Output, Err(Fault::Write(Place::Output)))
        | (Place::Report, Err(Fault::Write(Place::Report))) => false,
        _ => true,
    }
}

/// A reader with a buffer before it, as the input of a run.
///
/// # Errors
///
/// `Memory` where there is none for the buffer.
pub fn buffered_input<R: Read + Drop>(
    alloc: Global,
    reader: R,
) -> Result<Input<BufReader<R>>, Fault>
    ensures input { IfOk result (λ input. input ≡ fresh (R.remaining reader)) }
    ensures refused { IfErr result (λ fault. fault ≡ Fault.Memory) }
{
    match BufReader::with_capacity(alloc, BUFFER_BYTES, reader) {
        Ok(reader) => Ok(Input::ahead(reader)),
        Err(_) => Err(Fault::Memory),
    }
}

/// An output with a buffer before its device, of this capacity.
pub fn buffered<N: Initial, W: Write>(sink: Sink<W>, waiting: Vec<u8>) -> Output<Buffered<N, W>>
    requires initial { sink.bytes ≡ N.initial }
    requires waiting { waiting.items ≡ [] }
    ensures { result ≡ fresh N.initial }
{
    Output::new(Buffered::<N, W>::new(Device::new(sink), waiting))
}

/// Writes what the buffer before a device still holds, where it is due, and gives the device back. Where it was due and
/// the device failed, that is the fault.
pub fn finish_output<N: Initial, W: Write + Drop>(
    output: Output<Buffered<N, W>>,
    place: Place,
    due: bool,
    ran: Result<(), Fault>,
) -> (Result<(), Fault>, Sink<W>)
    ensures stands { Finishes due place N.initial output.bytes result.1.bytes ran result.0 }
    ensures failed { due ≡ true → result.1.over ≡ true → result.0 ≡ Err (Fault.Write place) }
{
    let (sink, done) = output.into_writer().finish(due);
    if due && !done {
        (Err(Fault::Write(place)), sink)
    } else {
        (ran, sink)
    }
}

/// Does a job over a buffer that was made.
fn run_job<N: Initial, J: Job, W: Write + Drop>(
    job: &mut J,
    place: Place,
    sink: Sink<W>,
    waiting: Vec<u8>,
) -> (Result<(), Fault>, Sink<W>)
    requires ready { J.ready job.old }
    requires initial { sink.bytes ≡ N.initial }
    requires waiting { waiting.items ≡ [] }
    ensures stands { AtDevice place (J.says job.old job.new) sink.bytes result.1.bytes result.0 }
    ensures failed { reports_write place (Err (Fault.Write place)) ≡ true → result.1.over ≡ true
        → reports_write place result.0 ≡ true }
{
    let mut output = buffered::<N, W>(sink, waiting);
    let ran = job.run(&mut output);
    let due = is_due(place, &ran);
    finish_output(output, place, due, ran)
}

/// Does a job with a buffer before its output, and gives job and output back.
///
/// # Errors
///
/// Those of the job; `Memory` where there is none for the buffer, and then nothing is written; `Write` of this place
/// where what the buffer held at the end couldn't be written: it was due before any other fault.
pub fn run_buffered<J: Job + Drop, W: Write + Drop>(
    alloc: Global,
    job: J,
    place: Place,
    sink: Sink<W>,
) -> (Result<(), Fault>, J, Sink<W>)
    requires ready { J.ready job }
    requires place { reports_write place (Err (Fault.Write place)) ≡ true }
    requires healthy { sink.over ≡ false }
    ensures stands { RunsJob place J.says job result.1 sink.bytes result.2.bytes result.0 }
    ensures failed { result.2.over ≡ true → reports_write place result.0 ≡ true }
{
    match Vec::with_capacity(alloc, BUFFER_BYTES) {
        Ok(waiting) => {
            let mut job = job;
            let (ran, sink) = run_job::<Brand, J, W>(&mut job, place, sink, waiting);
            (ran, job, sink)
        }
        Err(_) => (Err(Fault::Memory), job, sink),
    }
}

/// What is reported of what a run came to. A buffer refuses bytes where its device failed, and where there is no memory
/// for what is to wait: so where a write failed and the device didn't, that is reported.
pub fn reported(place: Place, ran: Result<(), Fault>, failed: bool) -> Result<(), Fault>
    ensures { IsReported place failed ran result }
{
    if is_due(place, &ran) || failed {
        ran
    } else {
        Err(Fault::Memory)
    }
}

/// Does a job with a buffer before its output, and reports the device only where it failed.
///
/// # Errors
///
/// Those of [`run_buffered`], but `Memory` where the buffer had none for what was to wait in it.
pub fn run_attributing<J: Job + Drop, W: Write + Drop>(
    alloc: Global,
    job: J,
    place: Place,
    sink: Sink<W>,
) -> (Result<(), Fault>, J, Sink<W>)
    requires ready { J.ready job }
    requires place { reports_write place (Err (Fault.Write place)) ≡ true }
    requires healthy { sink.over ≡ false }
    ensures stands { Reports place
        (RunsJob place J.says job result.1 sink.bytes result.2.bytes) result.0 }
    ensures writes { result.2.over ≡ reports_write place result.0 }
{
    let (ran, job, sink) = run_buffered(alloc, job, place, sink);
    (reported(place, ran, sink.has_failed()), job, sink)
}
