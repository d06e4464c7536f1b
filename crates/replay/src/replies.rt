//! What a replay writes of its messages: replies.

ghost use Rattle.std.specs.Prelude.{OnOk, OnErr, IfErr};
ghost use Rattle.std.specs.Io.KnownBytes.{Appends};
ghost use Rattle.devices.specs.Devices.{CanFail, CountsBy, AppendsPrefix};
ghost use Rattle.reference.specs.Reference.{first_line, last_line};
ghost use Rattle.captures.specs.Passes.{IsWriteOrMemory, writer_failures};

use crate::decider::{Decider, decide_next};
use crate::format::Format;
use crate::lookup::look_up;
use crate::pending::answer_pending;
use crate::server::Server;
use crate::source::Source;
use crate::{ReplayFault, Settings};
use arrivals::Origin;
use devices::Output;
use http_requests::Meaning;
use paths::Tree;
use responses::HeadRenderer;
use std::alloc::Global;
use std::io::Write;

/// Writes the line before the replies.
pub(crate) fn write_first_line<W: Write>(writer: &mut Output<W>) -> Result<(), ReplayFault>
    requires { CanFail writer.old }
    ensures written { OnOk result (Appends writer.old.bytes writer.new.bytes first_line) }
    ensures part { OnErr result (AppendsPrefix writer.old.bytes writer.new.bytes first_line) }
    ensures failures { CountsBy writer_failures writer.old.failures writer.new.failures result }
    ensures own { IfErr result IsWriteOrMemory }
{
    writer.write_all(b"haboob-replies 1\n")?;
    Ok(())
}

/// Writes the line after n replies.
pub(crate) fn write_last_line<W: Write>(
    alloc: Global,
    writer: &mut Output<W>,
    count: usize,
) -> Result<(), ReplayFault>
    requires { CanFail writer.old }
    ensures written { OnOk result (Appends writer.old.bytes writer.new.bytes (last_line count)) }
    ensures part { OnErr result
        (AppendsPrefix writer.old.bytes writer.new.bytes (last_line count)) }
    ensures failures { CountsBy writer_failures writer.old.failures writer.new.failures result }
    ensures own { IfErr result IsWriteOrMemory }
{
    let line = format!(in alloc; "stop {count}\n")?;
    writer.write_all(line.as_bytes())?;
    Ok(())
}

/// Of each message its reply is written.
pub(crate) struct Replies;

impl Format for Replies {
    ghost use Rattle.reference.specs.Texts.{reply_texts};

    ghost texts = { reply_texts };

    fn begin<W: Write>(_settings: &Settings, writer: &mut Output<W>) -> Result<(), ReplayFault> {
        write_first_line(writer)
    }

    fn write_message<F: Tree, S: Source<F>, W: Write>(
        server: &Server<'_, F>,
        heads: &mut HeadRenderer,
        source: &mut S,
        origin: Origin,
        what: &Meaning,
        decider: &mut Decider,
        writer: &mut Output<W>,
    ) -> Result<(), ReplayFault> {
        let lookup = look_up(server, what)?;
        let pending = decide_next(server, origin, what, lookup, decider)?;
        answer_pending(server, heads, source, pending, writer)
    }

    fn finish<W: Write>(
        alloc: Global,
        writer: &mut Output<W>,
        count: usize,
    ) -> Result<(), ReplayFault> {
        write_last_line(alloc, writer, count)
    }
}
