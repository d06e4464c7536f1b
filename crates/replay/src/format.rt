//! What an engine writes, seen as a first line, a text for each message, and a last line.

ghost use Rattle.std.specs.Prelude.{◌≡◌, ◌<◌, ◌≤◌, ◌-◌, ◌+◌, ◌^◌, List, OnOk, OnErr, IfErr, ℕ, length, take};
ghost use Rattle.std.specs.Io.KnownBytes.{Appends};
ghost use Rattle.devices.specs.Devices.{CanFail, CountsBy, AppendsPrefix};
ghost use Rattle.paths.specs.declared.file.File.{File};
ghost use Rattle.reference.specs.Reference.{Terms};
ghost use Rattle.captures.specs.Passes.{writer_failures, IsWriteOrMemory};
ghost use Rattle.reference.specs.Texts.{Texts, AreTexts};
ghost use Rattle.replay.specs.Steps.{DecidesNext, DecidesPiece, MayCome, WritesNext, WritesNextInPart, WritesPiece};
ghost use Rattle.replay.specs.Steps.{WritesPieceInPart};
ghost use Rattle.reference.specs.Outcomes.{IsOwn, IfTooMany, IfCutShort};

use crate::decider::Decider;
use crate::server::Server;
use crate::source::Source;
use crate::{MAX_MESSAGES, ReplayFault, Settings};
use arrivals::Origin;
use devices::Output;
use http_requests::{Meaning, Message};
use paths::Tree;
use responses::HeadRenderer;
use std::alloc::Global;
use std::io::Write;

/// What a replay writes of the messages of a capture, one after another: their replies, or the rows of a table.
/// `texts` are what is written.
pub(crate) trait Format {
    ghost use Rattle.std.specs.Prelude.{List};
    ghost use Rattle.paths.specs.declared.file.File.{File};
    ghost use Rattle.reference.specs.Reference.{Terms};
    ghost use Rattle.reference.specs.Texts.{Texts};

    ghost texts: { List File → Terms → Texts };

    /// Writes what comes before all messages.
    fn begin<W: Write>(settings: &Settings, writer: &mut Output<W>) -> Result<(), ReplayFault>
        requires { CanFail writer.old }
        // Each text is written from the first line to the last.
        ensures texts { (files : List File) (terms : Terms) → AreTexts (texts files terms) }
        ensures written { OnOk result ((files : List File)
            → Appends writer.old.bytes writer.new.bytes (texts files settings.now.served).first) }
        ensures part { OnErr result
            ((files : List File) → AppendsPrefix writer.old.bytes writer.new.bytes
            (texts files settings.now.served).first) }
        ensures failures { CountsBy writer_failures writer.old.failures writer.new.failures result }
        ensures own { IfErr result IsWriteOrMemory };

    /// Decides on the next message, counts it, and writes its text. `heads` renders the head of a reply, and `source`
    /// has the bytes of its file.
    fn write_message<F: Tree, S: Source<F>, W: Write>(
        server: &Server<'_, F>,
        heads: &mut HeadRenderer,
        source: &mut S,
        origin: Origin,
        what: &Meaning,
        decider: &mut Decider,
        writer: &mut Output<W>,
    ) -> Result<(), ReplayFault>
        requires next { MayCome F.files server.now.served origin decider.old
            × (decider.old.totals.answered < MAX_MESSAGES) }
        requires device { CanFail writer.old }
        ensures stands { OnOk result
            (DecidesNext F.files server.now.served origin what.now decider.old decider.new) }
        ensures written { OnOk result
            (WritesNext (texts F.files server.now.served) F.files server.now.served
            origin what.now decider.old writer.old.bytes writer.new.bytes) }
        ensures part { OnErr result
            (WritesNextInPart (texts F.files server.now.served) F.files server.now.served
            origin what.now decider.old writer.old.bytes writer.new.bytes) }
        ensures faults { CountsBy writer_failures writer.old.failures writer.new.failures result
            × IfErr result IsWriteOrMemory };

    /// Writes what comes after n messages, where these are all.
    fn finish<W: Write>(
        alloc: Global,
        writer: &mut Output<W>,
        count: usize,
    ) -> Result<(), ReplayFault>
        requires { CanFail writer.old }
        ensures written { OnOk result
            ((files : List File) (terms : Terms) → Appends writer.old.bytes writer.new.bytes
            ((texts files terms).last count)) }
        ensures part { OnErr result
            ((files : List File) (terms : Terms) → AppendsPrefix writer.old.bytes writer.new.bytes
            ((texts files terms).last count)) }
        ensures failures { CountsBy writer_failures writer.old.failures writer.new.failures result }
        ensures own { IfErr result IsWriteOrMemory };
}

/// Answers the messages that ended in a piece, in their order, up to the limit of messages.
pub(crate) fn answer_all<T: Format, F: Tree, S: Source<F>, W: Write>(
    server: &Server<'_, F>,
    heads: &mut HeadRenderer,
    source: &mut S,
    origin: Origin,
    messages: &[Message],
    decider: &mut Decider,
    writer: &mut Output<W>,
) -> Result<(), ReplayFault>
    requires texts { AreTexts (T.texts F.files server.now.served) }
    requires next { MayCome F.files server.now.served origin decider.old
        × (decider.old.totals.answered ≤ decider.old.most) }
    requires device { CanFail writer.old }
    ensures ok { OnOk result
        (DecidesPiece F.files server.now.served origin messages.now decider.old decider.new
        × WritesPiece (T.texts F.files server.now.served) F.files server.now.served
        origin messages.now decider.old writer.old.bytes writer.new.bytes) }
    ensures stops { IfErr result
        (λ f. IfTooMany f (λ n. (n ≡ decider.old.most) × (i : ℕ) × (i < length messages.now)
        × (decider.old.totals.answered + i ≡ decider.old.most)
        × WritesPiece (T.texts F.files server.now.served) F.files server.now.served
        origin (take i messages.now) decider.old writer.old.bytes writer.new.bytes))
        × IfErr result (λ f. IfCutShort f ((i : ℕ) × (i ≤ length messages.now)
        × (decider.old.totals.answered + i ≤ decider.old.most)
        × WritesPieceInPart (T.texts F.files server.now.served) F.files server.now.served
        origin (take i messages.now) decider.old writer.old.bytes writer.new.bytes)) }
    ensures faults { CountsBy writer_failures writer.old.failures writer.new.failures result
        × IfErr result IsOwn }
{
    for message in messages {
        if decider.totals.answered == decider.most {
            return Err(ReplayFault::TooMany(decider.most));
        }
        T::write_message::<F, S, W>(
            server,
            heads,
            source,
            origin,
            &message.what,
            decider,
            writer,
        )?;
    }
    Ok(())
}
