//! What a run writes of each message of a capture, and the engine that writes it.

ghost use Rattle.std.specs.Prelude.{◌≡◌, ◌-◌, ◌<◌, ◌^◌, IfOk, IfErr};
ghost use Rattle.devices.specs.Devices.{CanFail, CountsBy};
ghost use Rattle.reference.specs.Outcomes.{Leaves};
ghost use Rattle.captures.specs.Passes as passes;
ghost use Rattle.runs.specs.Ports.{port};
ghost use Rattle.program.specs.Replays.{HasWritten, unreported_by, wanted_of};

use command_line::Engine;
use devices::{Input, Output};
use paths::{Snapshot, Tree};
use replay::{Outcome, ReplayFault, Settings, explain_replay, plain_replay, staged_replay};
use stage_graph::NoGate;
use std::alloc::Global;
use std::io::{Read, Write};
use std::sync::Wait;
use std::thread::Threads;

/// What a run writes of each message of a capture.
#[derive(Clone, Copy, Debug, PartialEq, Eq)]
pub enum Wanted {
    /// Its reply, which this engine makes.
    Replies(Engine),
    /// Its row in a table of decisions.
    Rows,
}

/// Replays a capture against a snapshot, and writes what is wanted of its messages.
pub(crate) fn run_wanted<F: Tree + Send + Sync, T: Threads + Wait + Sync, C: Read, W: Write>(
    rt: &T,
    alloc: Global,
    wanted: Wanted,
    files: &Snapshot,
    settings: &Settings,
    capture: &mut Input<C>,
    written: &mut Output<W>,
) -> Result<Outcome, ReplayFault>
    requires files { files.now ≡ F.files }
    requires devices { CanFail capture.old × CanFail written.old }
    ensures fault { IfErr result (Leaves (wanted_of wanted F.files settings.now.served)
        capture.old.bytes capture.new.bytes written.old.bytes written.new.bytes) }
    ensures reads { passes.AttributesReads passes.reader_failures (unreported_by wanted)
        capture.old.failures capture.new.failures result }
    ensures writes { CountsBy passes.writer_failures
        written.old.failures written.new.failures result }
    ensures ok { IfOk result (HasWritten wanted F.files settings.now.served
        capture.old.bytes (port written.old written.new)) }
{
    match wanted {
        Wanted::Replies(engine) => match engine {
            Engine::Plain => plain_replay::<F, C, W>(alloc, files, settings, capture, written),
            Engine::Staged => staged_replay::<F, NoGate, T, C, W>(
                rt, alloc, files, settings, &NoGate, capture, written,
            ),
        },
        Wanted::Rows => explain_replay::<F, C, W>(alloc, files, settings, capture, written),
    }
}
