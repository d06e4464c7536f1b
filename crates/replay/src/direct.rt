//! Messages that the calling thread serves by itself, one after another, without floors.

ghost use Rattle.std.specs.Prelude.{◌≡◌, true, OnOk, OnErr, IfOk, IfErr};
ghost use Rattle.std.specs.List.{list_all};
ghost use Rattle.std.specs.Io.KnownBytes.{Appends};
ghost use Rattle.devices.specs.Devices.{CanFail, CountsBy, AppendsPrefix};
ghost use Rattle.captures.specs.Passes.{writer_failures, IsWriteOrMemory};
ghost use Rattle.replay.specs.Backs.{is_back};
ghost use Rattle.replay.specs.Groups.{records_of};
ghost use Rattle.replay.specs.Steps.{ArePending, DecidesComing, MayServe};
ghost use Rattle.replay.specs.declared.back.BackState.TheVariants.{Pending};

use crate::ReplayFault;
use crate::decider::{Decider, decide_next};
use crate::lookup::look_up;
use crate::pending::{PendingReply, answer_pending};
use crate::server::Server;
use crate::source::FromCache;
use arrivals::Incoming;
use devices::Output;
use page_cache::PageCache;
use paths::Tree;
use responses::HeadRenderer;
use std::alloc::AllocError;
use std::io::Write;
use std::sync::{Mutex, Wait};

/// Looks messages up and decides on them, one after another.
pub(crate) fn decide_in_turn<F: Tree>(
    server: &Server<'_, F>,
    messages: Vec<Incoming>,
    decider: &mut Decider,
) -> Result<Vec<PendingReply<F>>, AllocError>
    requires next { MayServe F.files server.now.served messages.items decider.old }
    ensures stands { OnOk result
        (DecidesComing F.files server.now.served messages.items decider.old decider.new) }
    ensures slips { IfOk result
        (λ v. ArePending F.files server.now.served messages.items decider.old v.items) }
    ensures ready { IfOk result (λ v. list_all (λ t. is_back F.files (Pending t)) v.items ≡ true) }
{
    let mut pending_replies = Vec::with_capacity(server.alloc, messages.len())?;
    for message in messages {
        let lookup = look_up(server, &message.what)?;
        let pending = decide_next(server, message.origin, &message.what, lookup, decider)?;
        pending_replies.push(pending)?;
    }
    Ok(pending_replies)
}

/// Answers messages that were decided on, one after another, with pages from the cache.
pub(crate) fn answer_each<F: Tree, R: Wait, W: Write>(
    server: &Server<'_, F>,
    rt: &R,
    cache: &Mutex<PageCache<F>>,
    pending_replies: Vec<PendingReply<F>>,
    writer: &mut Output<W>,
) -> Result<(), ReplayFault>
    requires ready { list_all (λ t. is_back F.files (Pending t)) pending_replies.items ≡ true }
    requires failures { CanFail writer.old }
    ensures written { OnOk result
        (Appends writer.old.bytes writer.new.bytes (records_of F.files pending_replies.items)) }
    ensures part { OnErr result
        (AppendsPrefix writer.old.bytes writer.new.bytes (records_of F.files pending_replies.items)) }
    ensures failures { CountsBy writer_failures writer.old.failures writer.new.failures result }
    ensures own { IfErr result IsWriteOrMemory }
{
    let mut heads = HeadRenderer::new(server.alloc);
    let mut source = FromCache { rt, cache };
    for pending in pending_replies {
        answer_pending(server, &mut heads, &mut source, pending, writer)?;
    }
    Ok(())
}
