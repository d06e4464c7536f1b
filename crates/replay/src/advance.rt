//! The steps of the staged engine: the next record, or the next batch, is read and answered.

ghost use Rattle.std.specs.Prelude.{◌≡◌, ◌<◌, ◌^◌, ◌⊎◌, true, IfOk, IfErr, OnOk};
ghost use Rattle.devices.specs.Devices.{CanFail, CountsBy};
ghost use Rattle.captures.specs.Readers.{progress_of, device_of, loan_of};
ghost use Rattle.captures.specs.Passes.{AttributesReads, leaves_reads_unreported, reader_failures, writer_failures};
ghost use Rattle.reference.specs.Outcomes.{IfTooMany, IfCutShort, IsOwn};
ghost use Rattle.reference.specs.Texts.{reply_texts};
ghost use Rattle.replay.specs.Floors.{served_by};
ghost use Rattle.replay.specs.Between.{GoesOn, IsBetween, StopsFrom, place_of};
ghost use Rattle.replay.specs.Chunks.{AreFloorSteps};
ghost use Rattle.replay.specs.Steps.{AnswersBatch, AnswersBatchInPart, FillsWithBatch, MayServeBatch};
ghost use Rattle.replay.specs.States.{state_of};

use crate::ReplayFault;
use crate::chunks::{Chunk, ChunkValue};
use crate::engine::{Engine, answer_next};
use crate::floors::Floors;
use crate::load::Load;
use crate::parts::serve_parts;
use crate::replies::Replies;
use crate::serving::Pricing;
use crate::source::Source;
use arrivals::{Batch, Ending, cut_all, gather, parts_of, read_batch};
use captures::{CaptureReader, Record};
use devices::Output;
use paths::Tree;
use stage_graph::{Carries, Gate};
use std::io::{Read, Write};
use std::sync::Wait;
use std::thread::Threads;

/// Answers the messages that arrive with the records of a batch. Their pieces are cut ahead of their turn, side by
/// side; the messages are answered in the order of their arrival.
fn serve_batch<
    F: Tree,
    K: Pricing,
    Q,
    C: Carries<Chunk = Chunk<F>, Value = ChunkValue, Register = Q>,
    G: Gate,
    T: Threads + Wait + Sync,
    S,
    W: Write,
>(
    floors: &Floors<'_, '_, F, K, C, Q, G, T>,
    load: &mut Load,
    engine: &mut Engine<S>,
    records: Vec<Record>,
    writer: &mut Output<W>,
) -> Result<(), ReplayFault>
    requires can { AreFloorSteps F.files K.tariff C.step C.content C.count }
    requires next { MayServeBatch F.files (served_by floors.now) records.items (state_of engine.old) }
    requires device { CanFail writer.old }
    ensures ok { OnOk result
        (AnswersBatch F.files (served_by floors.now) records.items (state_of engine.old) (state_of engine.new)
        writer.old.bytes writer.new.bytes) }
    ensures stops { IfErr result (λ f. IfTooMany f (λ n. (n ≡ engine.old.decider.most)
        × FillsWithBatch F.files (served_by floors.now) records.items (state_of engine.old)
        writer.old.bytes writer.new.bytes))
        × IfErr result (λ f. IfCutShort f ((writer.new.bytes ≡ writer.old.bytes)
        ⊎ AnswersBatchInPart F.files (served_by floors.now) records.items (state_of engine.old)
        writer.old.bytes writer.new.bytes)) }
    ensures faults { CountsBy writer_failures writer.old.failures writer.new.failures result
        × IfErr result IsOwn }
{
    let serving = floors.serving;
    let alloc = serving.server.alloc;
    let cuts = cut_all(serving.rt, alloc, floors.threads, records)?;
    let pieces = gather(alloc, cuts, &mut engine.connections, &mut engine.tiers)?;
    let parts = parts_of(alloc, pieces)?;
    serve_parts(floors, load, parts, &mut engine.decider, writer)
}

/// Reads the next batch, and answers the messages that arrive with it. Answers whether there may be more.
fn serve_next_batch<
    F: Tree,
    K: Pricing,
    Q,
    C: Carries<Chunk = Chunk<F>, Value = ChunkValue, Register = Q>,
    G: Gate,
    T: Threads + Wait + Sync,
    S,
    R: Read,
    W: Write,
>(
    floors: &Floors<'_, '_, F, K, C, Q, G, T>,
    load: &mut Load,
    engine: &mut Engine<S>,
    capture: &mut CaptureReader<'_, R>,
    writer: &mut Output<W>,
) -> Result<bool, ReplayFault>
    requires can { AreFloorSteps F.files K.tariff C.step C.content C.count }
    requires between { IsBetween
        (reply_texts F.files (served_by floors.now)) F.files (served_by floors.now)
        (place_of capture.old engine.old writer.old.bytes) }
    requires devices { CanFail (device_of capture.old) × CanFail writer.old }
    ensures on { IfOk result (λ more.
        (more ≡ true → (progress_of capture.new).capacity < (progress_of capture.old).capacity)
        × GoesOn (reply_texts F.files (served_by floors.now)) F.files (served_by floors.now)
        (place_of capture.old engine.old writer.old.bytes) more
        (place_of capture.new engine.new writer.new.bytes)) }
    ensures fault { IfErr result
        (StopsFrom (reply_texts F.files (served_by floors.now)) F.files (served_by floors.now)
        (place_of capture.old engine.old writer.old.bytes)
        (place_of capture.new engine.new writer.new.bytes)) }
    ensures devices { (loan_of capture.new ≡ loan_of capture.old)
        × AttributesReads reader_failures leaves_reads_unreported
        (device_of capture.old).failures (device_of capture.new).failures result
        × CountsBy writer_failures writer.old.failures writer.new.failures result }
{
    let server = &floors.serving.server;
    let most = server.settings.batch();
    let batch = read_batch(server.alloc, capture, most)?;
    let Batch {
        records,
        pieces,
        ending,
    } = batch;
    serve_batch(floors, load, engine, records, writer)?;
    load.judge(most, pieces);
    match ending {
        Ending::More => Ok(true),
        Ending::End => Ok(false),
        Ending::Fault(fault) => Err(ReplayFault::from(fault)),
    }
}

/// Takes a step: reads the next batch, where messages go through floors, or the next record, whose messages are
/// answered one after another. Answers whether there may be more.
pub(crate) fn serve_next<
    F: Tree,
    K: Pricing,
    Q,
    C: Carries<Chunk = Chunk<F>, Value = ChunkValue, Register = Q>,
    G: Gate,
    T: Threads + Wait + Sync,
    S: Source<F>,
    R: Read,
    W: Write,
>(
    floors: &Floors<'_, '_, F, K, C, Q, G, T>,
    load: &mut Load,
    engine: &mut Engine<S>,
    capture: &mut CaptureReader<'_, R>,
    writer: &mut Output<W>,
) -> Result<bool, ReplayFault>
    requires can { AreFloorSteps F.files K.tariff C.step C.content C.count }
    requires between { IsBetween
        (reply_texts F.files (served_by floors.now)) F.files (served_by floors.now)
        (place_of capture.old engine.old writer.old.bytes) }
    requires devices { CanFail (device_of capture.old) × CanFail writer.old }
    ensures on { IfOk result (λ more.
        (more ≡ true → (progress_of capture.new).capacity < (progress_of capture.old).capacity)
        × GoesOn (reply_texts F.files (served_by floors.now)) F.files (served_by floors.now)
        (place_of capture.old engine.old writer.old.bytes) more
        (place_of capture.new engine.new writer.new.bytes)) }
    ensures fault { IfErr result
        (StopsFrom (reply_texts F.files (served_by floors.now)) F.files (served_by floors.now)
        (place_of capture.old engine.old writer.old.bytes)
        (place_of capture.new engine.new writer.new.bytes)) }
    ensures devices { (loan_of capture.new ≡ loan_of capture.old)
        × AttributesReads reader_failures leaves_reads_unreported
        (device_of capture.old).failures (device_of capture.new).failures result
        × CountsBy writer_failures writer.old.failures writer.new.failures result }
{
    if floors.are_used(load.pays) {
        return serve_next_batch(floors, load, engine, capture, writer);
    }
    let server = &floors.serving.server;
    let settings = server.settings;
    let next = answer_next::<Replies, F, S, R, W>(server, engine, capture, writer)?;
    if let Some(Record::Piece { .. }) = next {
        load.add_piece(settings.batch(), &engine.messages);
    }
    Ok(next.is_some())
}
