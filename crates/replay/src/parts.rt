//! A batch: both floors, the decisions between them, and the writing.

ghost use Rattle.std.specs.Prelude.{◌≡◌, ◌≤◌, ◌+◌, List, flat_map, length, IfOk, IfErr, OnOk, OnErr, true};
ghost use Rattle.std.specs.List.{list_all};
ghost use Rattle.replay.specs.Floors.{served_by};
ghost use Rattle.replay.specs.Chunks.{AreFloorSteps};
ghost use Rattle.replay.specs.Backs.{is_back};
ghost use Rattle.replay.specs.declared.back.BackState.TheVariants.{Pending};
ghost use Rattle.replay.specs.Groups.{records_of};
ghost use Rattle.responses.specs.Reference.{record_text};
ghost use Rattle.arrivals.specs.Reference.{Arrival};
ghost use Rattle.arrivals.specs.Parts.{joined};
ghost use Rattle.reference.specs.Outcomes.{IsOwn, IfTooMany, IfCutShort};
ghost use Rattle.captures.specs.Passes.{writer_failures, IsWriteOrMemory};
ghost use Rattle.replay.specs.Steps.{DecidesComing, ArePending, WritesComing, WritesComingInPart};
ghost use Rattle.replay.specs.Steps.{FillsWithComing, AnswersComingInPart, MayServe};
ghost use Rattle.replay.specs.Coming.{Upcoming};
ghost use Rattle.std.specs.Io.KnownBytes.{Appends};
ghost use Rattle.devices.specs.Devices.{CanFail, CountsBy, AppendsPrefix};

use crate::ReplayFault;
use crate::back::run_back;
use crate::chunks::{Chunk, ChunkValue};
use crate::decider::{Decider, decide_all};
use crate::direct::{answer_each, decide_in_turn};
use crate::floors::Floors;
use crate::front::run_front;
use crate::groups::{groups_of, work_of};
use crate::load::{ANSWERING_PAYS, LOOKING_PAYS, Load, targets_len};
use crate::pending::PendingReply;
use crate::serving::Pricing;
use arrivals::{Incoming, Series};
use devices::Output;
use paths::Tree;
use responses::{Reply, write_reply};
use stage_graph::{Carries, Gate, Unrun};
use std::io::Write;
use std::sync::Wait;

/// The fault of a replay whose floor has no run: it was out of memory.
fn of_unrun(_unrun: Unrun) -> ReplayFault
    ensures { result ≡ ReplayFault.Memory }
{
    ReplayFault::Memory
}

/// Writes replies, in their order.
fn write_replies<F: Tree, W: Write>(
    replies: &[Reply<F>],
    writer: &mut Output<W>,
) -> Result<(), ReplayFault>
    requires { CanFail writer.old }
    ensures written { OnOk result
        (Appends writer.old.bytes writer.new.bytes (flat_map record_text replies.now)) }
    ensures part { OnErr result
        (AppendsPrefix writer.old.bytes writer.new.bytes (flat_map record_text replies.now)) }
    ensures failures { CountsBy writer_failures writer.old.failures writer.new.failures result }
    ensures own { IfErr result IsWriteOrMemory }
{
    for reply in replies {
        write_reply(writer, reply)?;
    }
    Ok(())
}

/// Answers a group of messages that were decided on: their pages are fetched and their replies rendered by a floor, and
/// written in their order; or each is answered before the next.
fn answer_group<
    F: Tree,
    K: Pricing,
    Q,
    C: Carries<Chunk = Chunk<F>, Value = ChunkValue, Register = Q>,
    G: Gate,
    T: Wait,
    W: Write,
>(
    floors: &Floors<'_, '_, F, K, C, Q, G, T>,
    load: &mut Load,
    group: Vec<PendingReply<F>>,
    writer: &mut Output<W>,
) -> Result<(), ReplayFault>
    requires can { AreFloorSteps F.files K.tariff C.step C.content C.count }
    requires ready { list_all (λ t. is_back F.files (Pending t)) group.items ≡ true }
    requires device { CanFail writer.old }
    ensures written { OnOk result
        (Appends writer.old.bytes writer.new.bytes (records_of F.files group.items)) }
    ensures part { OnErr result
        (AppendsPrefix writer.old.bytes writer.new.bytes (records_of F.files group.items)) }
    ensures faults { CountsBy writer_failures writer.old.failures writer.new.failures result
        × IfErr result IsWriteOrMemory }
{
    let first = match group.first() {
        Some(pending) => pending.number,
        None => return Ok(()),
    };
    let serving = floors.serving;
    let server = &serving.server;
    let cache = &serving.cache;
    let work = work_of(serving.rt, server.snapshot, cache, ANSWERING_PAYS, &group);
    load.work = load.work.max(work);
    if !floors.are_used(work >= ANSWERING_PAYS) {
        return answer_each(server, serving.rt, cache, group, writer);
    }
    match run_back(floors, first, group) {
        Ok(replies) => write_replies(&replies, writer),
        Err(unrun) => Err(of_unrun(unrun)),
    }
}

/// Answers messages that were decided on, a group of them at a time, so that memory holds the pages of one.
fn answer_all_pending<
    F: Tree,
    K: Pricing,
    Q,
    C: Carries<Chunk = Chunk<F>, Value = ChunkValue, Register = Q>,
    G: Gate,
    T: Wait,
    W: Write,
>(
    floors: &Floors<'_, '_, F, K, C, Q, G, T>,
    load: &mut Load,
    pending_replies: Vec<PendingReply<F>>,
    writer: &mut Output<W>,
) -> Result<(), ReplayFault>
    requires can { AreFloorSteps F.files K.tariff C.step C.content C.count }
    requires ready { list_all (λ t. is_back F.files (Pending t)) pending_replies.items ≡ true }
    requires device { CanFail writer.old }
    ensures written { OnOk result
        (Appends writer.old.bytes writer.new.bytes (records_of F.files pending_replies.items)) }
    ensures part { OnErr result
        (AppendsPrefix writer.old.bytes writer.new.bytes (records_of F.files pending_replies.items)) }
    ensures faults { CountsBy writer_failures writer.old.failures writer.new.failures result
        × IfErr result IsWriteOrMemory }
{
    let serving = floors.serving;
    let server = &serving.server;
    for group in groups_of(
        server.alloc,
        server.snapshot,
        floors.capacity,
        pending_replies,
    )? {
        answer_group(floors, load, group.into_vec(), writer)?;
    }
    Ok(())
}

/// Looks messages up and decides on them: a floor looks them up, and then they are decided on in their order; or each
/// is looked up and decided on before the next.
fn decide_messages<
    F: Tree,
    K: Pricing,
    Q,
    C: Carries<Chunk = Chunk<F>, Value = ChunkValue, Register = Q>,
    G: Gate,
    T: Wait,
>(
    floors: &Floors<'_, '_, F, K, C, Q, G, T>,
    load: &mut Load,
    messages: Vec<Incoming>,
    decider: &mut Decider,
) -> Result<Vec<PendingReply<F>>, ReplayFault>
    requires can { AreFloorSteps F.files K.tariff C.step C.content C.count }
    requires next { MayServe F.files (served_by floors.now) messages.items decider.old }
    ensures stands { OnOk result
        (DecidesComing F.files (served_by floors.now) messages.items decider.old decider.new) }
    ensures slips { IfOk result
        (λ v. ArePending F.files (served_by floors.now) messages.items decider.old v.items) }
    ensures ready { IfOk result (λ v. list_all (λ t. is_back F.files (Pending t)) v.items ≡ true) }
    ensures memory { IfErr result (λ f. f ≡ ReplayFault.Memory) }
{
    let serving = floors.serving;
    let server = &serving.server;
    let targets = targets_len(&messages);
    load.targets = load.targets.max(targets);
    if !floors.are_used(targets >= LOOKING_PAYS) {
        return Ok(decide_in_turn(server, messages, decider)?);
    }
    match run_front(floors, decider.totals.answered, messages) {
        Ok(lookups) => Ok(decide_all(server, lookups, decider)?),
        Err(unrun) => Err(of_unrun(unrun)),
    }
}

/// Serves messages within the limit: they are looked up, decided on, and answered.
fn serve_few<
    F: Tree,
    K: Pricing,
    Q,
    C: Carries<Chunk = Chunk<F>, Value = ChunkValue, Register = Q>,
    G: Gate,
    T: Wait,
    W: Write,
>(
    floors: &Floors<'_, '_, F, K, C, Q, G, T>,
    load: &mut Load,
    messages: Vec<Incoming>,
    decider: &mut Decider,
    writer: &mut Output<W>,
) -> Result<(), ReplayFault>
    requires can { AreFloorSteps F.files K.tariff C.step C.content C.count }
    requires next { MayServe F.files (served_by floors.now) messages.items decider.old }
    requires device { CanFail writer.old }
    ensures stands { OnOk result
        (DecidesComing F.files (served_by floors.now) messages.items decider.old decider.new) }
    ensures written { OnOk result
        (WritesComing F.files (served_by floors.now) messages.items decider.old
        writer.old.bytes writer.new.bytes)
        × OnErr result
        (WritesComingInPart F.files (served_by floors.now) messages.items decider.old
        writer.old.bytes writer.new.bytes) }
    ensures faults { CountsBy writer_failures writer.old.failures writer.new.failures result
        × IfErr result IsWriteOrMemory }
{
    if messages.is_empty() {
        return Ok(());
    }
    let pending_replies = decide_messages(floors, load, messages, decider)?;
    answer_all_pending(floors, load, pending_replies, writer)
}

/// Serves messages: those within the limit.
fn serve_part<
    F: Tree,
    K: Pricing,
    Q,
    C: Carries<Chunk = Chunk<F>, Value = ChunkValue, Register = Q>,
    G: Gate,
    T: Wait,
    W: Write,
>(
    floors: &Floors<'_, '_, F, K, C, Q, G, T>,
    load: &mut Load,
    messages: Vec<Incoming>,
    decider: &mut Decider,
    writer: &mut Output<W>,
) -> Result<(), ReplayFault>
    requires can { AreFloorSteps F.files K.tariff C.step C.content C.count }
    requires next { (decider.old.totals.answered ≤ decider.old.most)
        × (arrivals : List Arrival) × (more : List Arrival)
        × Upcoming F.files (served_by floors.now) arrivals more messages.items decider.old }
    requires device { CanFail writer.old }
    ensures ok { OnOk result
        (DecidesComing F.files (served_by floors.now) messages.items decider.old decider.new
        × (decider.new.totals.answered ≤ decider.new.most)
        × WritesComing F.files (served_by floors.now) messages.items decider.old
        writer.old.bytes writer.new.bytes) }
    ensures stops { IfErr result (λ f. IfTooMany f
        (FillsWithComing F.files (served_by floors.now) messages.items decider.old
        writer.old.bytes writer.new.bytes))
        × IfErr result (λ f. IfCutShort f
        (AnswersComingInPart F.files (served_by floors.now) messages.items decider.old
        writer.old.bytes writer.new.bytes)) }
    ensures faults { CountsBy writer_failures writer.old.failures writer.new.failures result
        × IfErr result IsOwn }
{
    let left = decider.most - decider.totals.answered;
    if messages.len() <= left {
        return serve_few(floors, load, messages, decider, writer);
    }
    let mut within = messages;
    within.truncate(left);
    serve_few(floors, load, within, decider, writer)?;
    Err(ReplayFault::TooMany(decider.most))
}

/// Serves the messages of a batch, part after part.
pub(crate) fn serve_parts<
    F: Tree,
    K: Pricing,
    Q,
    C: Carries<Chunk = Chunk<F>, Value = ChunkValue, Register = Q>,
    G: Gate,
    T: Wait,
    W: Write,
>(
    floors: &Floors<'_, '_, F, K, C, Q, G, T>,
    load: &mut Load,
    parts: Vec<Series<Incoming>>,
    decider: &mut Decider,
    writer: &mut Output<W>,
) -> Result<(), ReplayFault>
    requires can { AreFloorSteps F.files K.tariff C.step C.content C.count }
    requires next { (decider.old.totals.answered ≤ decider.old.most)
        × (arrivals : List Arrival) × (more : List Arrival)
        × Upcoming F.files (served_by floors.now) arrivals more (joined parts.items) decider.old }
    requires device { CanFail writer.old }
    ensures ok { OnOk result
        (DecidesComing F.files (served_by floors.now) (joined parts.items) decider.old decider.new
        × (decider.new.totals.answered ≤ decider.new.most)
        × WritesComing F.files (served_by floors.now) (joined parts.items) decider.old
        writer.old.bytes writer.new.bytes) }
    ensures stops { IfErr result (λ f. IfTooMany f
        (FillsWithComing F.files (served_by floors.now) (joined parts.items) decider.old
        writer.old.bytes writer.new.bytes))
        × IfErr result (λ f. IfCutShort f
        (AnswersComingInPart F.files (served_by floors.now) (joined parts.items) decider.old
        writer.old.bytes writer.new.bytes)) }
    ensures faults { CountsBy writer_failures writer.old.failures writer.new.failures result
        × IfErr result IsOwn }
{
    for part in parts {
        serve_part(floors, load, part.into_vec(), decider, writer)?;
    }
    Ok(())
}
