//! A message that was decided on, with its pending answer, and its answer by one thread.

ghost use Rattle.std.specs.Prelude.{◌≡◌, slice_get, ◌<◌, ◌≤◌, ◌-◌, ◌+◌, ◌^◌, [], true, length, OnOk, IfErr, OnErr};
ghost use Rattle.responses.specs.Reference.{status_of, statuses, record_text};
ghost use Rattle.replay.specs.Backs.{response_of, slip_of_pending, reply_to, is_back, can_render};
ghost use Rattle.std.specs.Io.KnownBytes.{Appends};
ghost use Rattle.devices.specs.Devices.{CanFail, CountsBy, AppendsPrefix};
ghost use Rattle.paths.specs.Snapshots.{max_time};
ghost use Rattle.captures.specs.Passes.{writer_failures, IsWriteOrMemory};
ghost use Rattle.replay.specs.declared.back.BackState.TheVariants.{Pending};

use crate::ReplayFault;
use crate::answers::known_file;
use crate::server::Server;
use crate::source::Source;
use devices::Output;
use paths::Tree;
use responses::{HeadRenderer, OK_PLACE, Persistence, ResponseKind, Slip, render, write_reply};
use std::alloc::Global;
use std::io::Write;

/// How a message is to be answered: with a page that is still to be fetched, or with all else.
#[derive(Drop)]
pub enum PendingAnswer<F: Tree> {
    /// The page of a file.
    Page {
        file: usize,
        /// When the file was last changed, in seconds since 1970-01-01.
        mtime: u64,
    },
    Ready(ResponseKind<F>),
}

impl<F: Tree> PendingAnswer<F> {
    /// The place of the code of its status in `STATUS_CODES`.
    pub(crate) fn status_place(&self) -> usize
        ensures { slice_get statuses result ≡ Some (status_of (response_of self.now)) }
    {
        match self {
            PendingAnswer::Page { .. } => OK_PLACE,
            PendingAnswer::Ready(response) => response.status_place(),
        }
    }
}

/// A message that was decided on: all that its reply follows from, but for the page. Contracts see it as the slip of
/// that reply.
#[derive(Drop)]
pub struct PendingReply<F: Tree> {
    pub number: usize,
    pub conn: usize,
    pub date: u64,
    pub head: bool,
    pub link: Persistence,
    pub answer: PendingAnswer<F>,
}

/// Renders and writes the reply of a slip.
pub(crate) fn give_ready<F: Tree, W: Write>(
    alloc: Global,
    slip: Slip<F>,
    writer: &mut Output<W>,
) -> Result<(), ReplayFault>
    requires can { can_render slip ≡ true }
    requires failures { CanFail writer.old }
    ensures written { OnOk result
        (Appends writer.old.bytes writer.new.bytes (record_text (reply_to F.files slip))) }
    ensures part { OnErr result
        (AppendsPrefix writer.old.bytes writer.new.bytes (record_text (reply_to F.files slip))) }
    ensures failures { CountsBy writer_failures writer.old.failures writer.new.failures result }
    ensures own { IfErr result IsWriteOrMemory }
{
    let reply = render(alloc, slip)?;
    write_reply(writer, &reply)?;
    Ok(())
}

/// Answers a message that was decided on.
pub(crate) fn answer_pending<F: Tree, S: Source<F>, W: Write>(
    server: &Server<'_, F>,
    heads: &mut HeadRenderer,
    source: &mut S,
    pending: PendingReply<F>,
    writer: &mut Output<W>,
) -> Result<(), ReplayFault>
    requires ready { is_back F.files (Pending pending) ≡ true }
    requires failures { CanFail writer.old }
    ensures written { OnOk result (Appends writer.old.bytes writer.new.bytes
        (record_text (reply_to F.files (slip_of_pending pending)))) }
    ensures part { OnErr result (AppendsPrefix writer.old.bytes writer.new.bytes
        (record_text (reply_to F.files (slip_of_pending pending)))) }
    ensures failures { CountsBy writer_failures writer.old.failures writer.new.failures result }
    ensures own { IfErr result IsWriteOrMemory }
{
    let PendingReply {
        number,
        conn,
        date,
        head,
        link,
        answer,
    } = pending;
    match answer {
        PendingAnswer::Page { file, mtime } => {
            let slip = Slip {
                number,
                conn,
                date,
                head,
                link,
                what: known_file(server.snapshot, file, mtime),
            };
            source.give::<W>(server, heads, &slip, file, writer)
        }
        PendingAnswer::Ready(what) => {
            let slip = Slip {
                number,
                conn,
                date,
                head,
                link,
                what,
            };
            give_ready(server.alloc, slip, writer)
        }
    }
}
