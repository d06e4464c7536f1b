//! The plain engine: one thread, message by message.

ghost use Rattle.std.specs.Prelude.{◌≡◌, ◌<◌, ◌^◌, List, IfOk, IfErr};
ghost use Rattle.devices.specs.Devices.{CanFail, CountsBy};
ghost use Rattle.captures.specs.Passes.{reader_failures, writer_failures};
ghost use Rattle.paths.specs.declared.file.File.{File};
ghost use Rattle.reference.specs.Reference.{Terms, summary_of, tallies_of, tally_of, Answers};
ghost use Rattle.arrivals.specs.Reference.{Arrival};
ghost use Rattle.reference.specs.Texts.{reply_texts};
ghost use Rattle.reference.specs.Outcomes.{Leaves};
ghost use Rattle.replay.specs.Serving.{DeciderAfter, WritesWhole};
ghost use Rattle.admission.specs.Reference.{Offer, pools_of};
ghost use Rattle.admission.specs.After.{ControllerAfter};
ghost use Rattle.admission.specs.Standing.{station_of};

use crate::decider::Decider;
use crate::engine::{Engine, answer_next};
use crate::format::Format;
use crate::replies::Replies;
use crate::server::Server;
use crate::source::FromSnapshot;
use crate::{ReplayFault, Settings, Summary, Tally};
use admission::{Control, Controller, PoolFigures};
use arrivals::{Connections, Series, Tiers};
use captures::{CaptureReader, Version};
use devices::{Input, Output};
use paths::{Snapshot, Tree};
use reference::Outcome;
use responses::HeadRenderer;
use std::alloc::Global;
use std::io::{Read, Write};
use std::marker::PhantomData;

/// How many requests of a tier were admitted, and how many rejected.
fn counted(controller: &Controller, tier: u8) -> (u64, u64)
    requires { tier < 4 }
    ensures { (offers : List Offer) → ControllerAfter offers controller.now
        → (result.0 ≡ (tally_of (station_of controller.now) offers tier).admitted)
        × (result.1 ≡ (tally_of (station_of controller.now) offers tier).rejected) }
{
    (controller.admitted(tier), controller.rejected(tier))
}

/// A tier's counts with its controls.
fn tally(counted: (u64, u64), controls: Vec<Control>) -> Tally
    ensures { result
        ≡ record { admitted = counted.0; rejected = counted.1; controls = controls.items } }
{
    Tally {
        admitted: counted.0,
        rejected: counted.1,
        controls: Series::from_vec(controls),
    }
}

/// What became of the requests of each tier, and what the pools have done. The controls and the figures are taken, and
/// not copied.
fn figures_of(controller: Controller) -> ([Tally; 4], Series<PoolFigures>)
    ensures tiers { (offers : List Offer) → ControllerAfter offers controller
        → result.0 ≡ tallies_of (station_of controller) offers }
    ensures pools { (offers : List Offer) → ControllerAfter offers controller
        → result.1 ≡ pools_of (station_of controller) offers }
{
    let of_zero = counted(&controller, 0);
    let of_one = counted(&controller, 1);
    let of_two = counted(&controller, 2);
    let of_three = counted(&controller, 3);
    let (controls, pools) = controller.into_parts();
    let [zero, one, two, three] = controls;
    let tiers = [
        tally(of_zero, zero),
        tally(of_one, one),
        tally(of_two, two),
        tally(of_three, three),
    ];
    (tiers, Series::from_vec(pools))
}

/// The outcome of the replay so far.
pub(crate) fn outcome_of(version: Version, decider: Decider) -> Outcome
    ensures version { result.version ≡ version }
    ensures rejected { result.rejected ≡ decider.totals.rejected }
    ensures summary { (files : List File) (terms : Terms) (arrivals : List Arrival)
        → DeciderAfter files terms arrivals decider → result.summary ≡ summary_of files terms arrivals }
{
    let totals = decider.totals;
    let (tiers, pools) = figures_of(decider.controller);
    Outcome {
        version,
        rejected: totals.rejected,
        summary: Summary {
            counts: totals.counts,
            bypassed: totals.bypassed,
            samples: totals.samples,
            tiers,
            pools,
        },
    }
}

/// Replays a capture on one thread: each message is decided on and written, in the order of their arrival, before the
/// next record is read. The first line is written before anything is read, the last one after the end of the input.
pub(crate) fn replay_writing<T: Format, F: Tree, R: Read, W: Write>(
    alloc: Global,
    snapshot: &Snapshot,
    settings: &Settings,
    reader: &mut Input<R>,
    writer: &mut Output<W>,
) -> Result<Outcome, ReplayFault>
    requires snapshot { snapshot.now ≡ F.files }
    requires devices { CanFail reader.old × CanFail writer.old }
    ensures fault { IfErr result (Leaves (T.texts F.files settings.now.served)
        reader.old.bytes reader.new.bytes writer.old.bytes writer.new.bytes) }
    ensures reads { CountsBy reader_failures reader.old.failures reader.new.failures result }
    ensures writes { CountsBy writer_failures writer.old.failures writer.new.failures result }
    ensures ok { IfOk result
        (WritesWhole (T.texts F.files settings.now.served) F.files settings.now.served
        reader.old.bytes writer.old.bytes writer.new.bytes) }
{
    T::begin(settings, writer)?;
    let mut capture = match CaptureReader::open(reader) {
        Ok(capture) => capture,
        Err(fault) => return Err(ReplayFault::from(fault)),
    };
    let server = Server::<F> {
        alloc,
        snapshot,
        settings,
        tree: PhantomData,
    };
    let version = capture.version();
    let connections = Connections::new(alloc);
    let tiers = Tiers::new(alloc);
    let decider = Decider::new(alloc, settings, capture.start(), version.max_messages())?;
    let mut engine = Engine {
        heads: HeadRenderer::new(alloc),
        source: FromSnapshot,
        messages: Vec::new(alloc),
        connections,
        tiers,
        decider,
    };
    while answer_next::<T, F, FromSnapshot, R, W>(
        &server,
        &mut engine,
        &mut capture,
        writer,
    )?.is_some()
    {}
    let answered = engine.decider.totals.answered;
    let outcome = outcome_of(version, engine.decider);
    T::finish(alloc, writer, answered)?;
    Ok(outcome)
}

/// Replays a capture on one thread: each message is answered, in the order of their arrival, before the next record is
/// read. The first line of the replies is written before anything is read, the last one after the end of the input.
///
/// # Errors
///
/// `Capture` with the capture's first fault, or where its reader failed; `TooMany` at the first message beyond those
/// that its format allows (1,048,576 in a capture); `Write` where the writer failed; `Memory`. The replies to the
/// messages of earlier records are written.
pub fn plain_replay<F: Tree, R: Read, W: Write>(
    alloc: Global,
    snapshot: &Snapshot,
    settings: &Settings,
    reader: &mut Input<R>,
    writer: &mut Output<W>,
) -> Result<Outcome, ReplayFault>
    requires snapshot { snapshot.now ≡ F.files }
    requires devices { CanFail reader.old × CanFail writer.old }
    // After a fault of the capture, the replies of the messages of the whole records before it are written; after too
    // many messages, those of the messages within the limit; else a prefix of the whole text.
    ensures fault { IfErr result (Leaves (reply_texts F.files settings.now.served)
        reader.old.bytes reader.new.bytes writer.old.bytes writer.new.bytes) }
    // A device is reported only where it failed in this call.
    ensures reads { CountsBy reader_failures reader.old.failures reader.new.failures result }
    ensures writes { CountsBy writer_failures writer.old.failures writer.new.failures result }
    ensures ok { IfOk result
        (Answers F.files settings.now.served reader.old.bytes writer.old.bytes writer.new.bytes) }
{
    replay_writing::<Replies, F, R, W>(alloc, snapshot, settings, reader, writer)
}
