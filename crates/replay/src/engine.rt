//! What both engines do with one record: it is read, and the messages that arrive with it are answered.

ghost use Rattle.std.specs.Prelude.{◌≡◌, ◌<◌, ◌⊎◌, is_some, true, IfOk, IfErr, OnOk};
ghost use Rattle.devices.specs.Devices.{CanFail, CountsBy};
ghost use Rattle.captures.specs.Passes.{reader_failures, writer_failures};
ghost use Rattle.captures.specs.Readers.{progress_of, device_of, loan_of};
ghost use Rattle.reference.specs.Outcomes.{IfTooMany, IfCutShort, IsOwn};
ghost use Rattle.replay.specs.Between.{GoesOn, IsBetween, StopsFrom, place_of};
ghost use Rattle.replay.specs.States.{state_of};
ghost use Rattle.replay.specs.Steps.{AnswersRecord, AnswersRecordInPart, FillsWithRecord, MayAnswer};

use crate::ReplayFault;
use crate::decider::Decider;
use crate::format::{Format, answer_all};
use crate::server::Server;
use crate::source::Source;
use arrivals::{Connections, Origin, Tiers};
use captures::{CaptureReader, Record};
use devices::Output;
use http_requests::Message;
use paths::Tree;
use responses::HeadRenderer;
use std::io::{Read, Write};

/// What an engine has come to between two records, and its buffers.
#[derive(Drop)]
pub struct Engine<S> {
    /// Renders the heads of replies.
    pub heads: HeadRenderer,
    /// Where the bytes of files come from.
    pub source: S,
    /// The messages of the last piece.
    pub messages: Vec<Message>,
    pub connections: Connections,
    pub tiers: Tiers,
    pub decider: Decider,
}

/// Answers the messages that arrive with a record, so many in all at most.
fn answer<T: Format, F: Tree, S: Source<F>, W: Write>(
    server: &Server<'_, F>,
    engine: &mut Engine<S>,
    next: &Record,
    writer: &mut Output<W>,
) -> Result<(), ReplayFault>
    requires next { MayAnswer (T.texts F.files server.now.served) F.files server.now.served
        next.now (state_of engine.old) }
    requires device { CanFail writer.old }
    ensures ok { OnOk result
        (AnswersRecord (T.texts F.files server.now.served) F.files server.now.served next.now
        (state_of engine.old) (state_of engine.new)
        writer.old.bytes writer.new.bytes) }
    ensures stops { IfErr result (λ f. IfTooMany f (λ n. (n ≡ engine.old.decider.most)
        × FillsWithRecord (T.texts F.files server.now.served) F.files server.now.served
        next.now (state_of engine.old) writer.old.bytes writer.new.bytes))
        × IfErr result (λ f. IfCutShort f ((writer.new.bytes ≡ writer.old.bytes)
        ⊎ AnswersRecordInPart (T.texts F.files server.now.served) F.files server.now.served
        next.now (state_of engine.old) writer.old.bytes writer.new.bytes)) }
    ensures faults { CountsBy writer_failures writer.old.failures writer.new.failures result
        × IfErr result IsOwn }
{
    match next {
        Record::End { conn, .. } => {
            engine.connections.end(usize::from(*conn));
            engine.tiers.end(*conn);
            Ok(())
        }
        Record::Tier { conn, tier } => {
            engine.tiers.give(*conn, *tier)?;
            Ok(())
        }
        Record::Piece { tick, conn, bytes } => {
            engine.messages.clear();
            engine.connections.read_piece(
                server.alloc,
                usize::from(*conn),
                bytes.as_slice(),
                &mut engine.messages,
            )?;
            let origin = Origin {
                conn: *conn,
                tick: *tick,
                tier: engine.tiers.of(*conn),
            };
            answer_all::<T, F, S, W>(
                server,
                &mut engine.heads,
                &mut engine.source,
                origin,
                &engine.messages,
                &mut engine.decider,
                writer,
            )
        }
    }
}

/// Reads the next record and answers the messages that arrive with it: the record, or nothing at the end.
pub(crate) fn answer_next<T: Format, F: Tree, S: Source<F>, R: Read, W: Write>(
    server: &Server<'_, F>,
    engine: &mut Engine<S>,
    capture: &mut CaptureReader<'_, R>,
    writer: &mut Output<W>,
) -> Result<Option<Record>, ReplayFault>
    requires between { IsBetween (T.texts F.files server.now.served) F.files server.now.served
        (place_of capture.old engine.old writer.old.bytes) }
    requires devices { CanFail (device_of capture.old) × CanFail writer.old }
    ensures on { IfOk result (λ next.
        (is_some next ≡ true → (progress_of capture.new).capacity < (progress_of capture.old).capacity)
        × GoesOn (T.texts F.files server.now.served) F.files server.now.served
        (place_of capture.old engine.old writer.old.bytes) (is_some next)
        (place_of capture.new engine.new writer.new.bytes)) }
    ensures fault { IfErr result
        (StopsFrom (T.texts F.files server.now.served) F.files server.now.served
        (place_of capture.old engine.old writer.old.bytes)
        (place_of capture.new engine.new writer.new.bytes)) }
    ensures devices { (loan_of capture.new ≡ loan_of capture.old)
        × CountsBy reader_failures (device_of capture.old).failures (device_of capture.new).failures result
        × CountsBy writer_failures writer.old.failures writer.new.failures result }
{
    let next = match capture.next_record(server.alloc) {
        Ok(Some(next)) => next,
        Ok(None) => return Ok(None),
        Err(fault) => return Err(ReplayFault::from(fault)),
    };
    answer::<T, F, S, W>(server, engine, &next, writer)?;
    Ok(Some(next))
}
