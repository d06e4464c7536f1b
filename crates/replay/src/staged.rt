//! The staged engine: records that are answered as they come, and batches that go over floors of threads.

ghost use Rattle.std.specs.Prelude.{◌≡◌, ◌≤◌, ◌-◌, ◌^◌, ◌⊎◌, min, max, IfOk, IfErr};
ghost use Rattle.devices.specs.Devices.{CanFail, CountsBy};
ghost use Rattle.reference.specs.Reference.{Answers};
ghost use Rattle.reference.specs.Outcomes.{Leaves};
ghost use Rattle.captures.specs.Passes.{AttributesReads, leaves_reads_unreported, reader_failures, writer_failures};
ghost use Rattle.reference.specs.Texts.{reply_texts};
ghost use Rattle.stage_graph.specs.Layouts.{workers};
ghost use Rattle.replay.specs.Chunks.{AreFloorSteps};
ghost use Rattle.replay.specs.Replayed.{Stopped, Replayed};

use crate::advance::serve_next;
use crate::chunks::{Chunk, ChunkValue};
use crate::decider::Decider;
use crate::engine::Engine;
use crate::floors::Floors;
use crate::groups::page_capacity;
use crate::load::Load;
use crate::plain::outcome_of;
use crate::replies::{write_first_line, write_last_line};
use crate::server::Server;
use crate::serving::{FloorSteps, Pricing, Serving};
use crate::source::FromCache;
use crate::{ReplayFault, Settings};
use arrivals::{Connections, Tiers};
use captures::CaptureReader;
use devices::{Input, Output};
use page_cache::PageCache;
use paths::{Snapshot, Tree};
use reference::Outcome;
use responses::HeadRenderer;
use stage_graph::{Carries, Gate, Helpers, Naming, Opened, Register, Steps, Travel, beside};
use std::alloc::Global;
use std::io::{Read, Write};
use std::marker::{Brand, PhantomData};
use std::sync::{Mutex, Wait};
use std::thread::{Threads, available_parallelism};

/// How many processors there are for threads; more than any, where that isn't known.
fn processors<T: Threads>(rt: &T) -> usize {
    match available_parallelism(rt) {
        Ok(count) => count.get(),
        Err(_) => usize::MAX,
    }
}

/// Replays a capture through stages of threads: a batch of its pieces at a time is cut, its messages are looked up by
/// the front floor, decided on in the order of their arrival, and answered by the back floor, with pages from a cache.
/// The replies of a batch are written before the next batch is read. `gate` sees each message, by its number, enter and
/// leave each stage, the stages of the back floor numbered after those of the front floor. Without a gate
/// ([`Gate::is_absent`]) batches are read, and floors run, where they pay; else the calling thread answers the messages
/// of a record before it reads the next.
///
/// What is written and answered is what [`plain_replay`](crate::plain_replay) writes and answers.
///
/// # Errors
///
/// As `plain_replay`.
pub fn staged_replay<
    F: Tree + Send + Sync,
    G: Gate + Sync,
    T: Threads + Wait + Sync,
    R: Read,
    W: Write,
>(
    rt: &T,
    alloc: Global,
    snapshot: &Snapshot,
    settings: &Settings,
    gate: &G,
    reader: &mut Input<R>,
    writer: &mut Output<W>,
) -> Result<Outcome, ReplayFault>
    requires snapshot { snapshot.now ≡ F.files }
    requires devices { CanFail reader.old × CanFail writer.old }
    // After a fault of the capture, the replies of the messages of the whole records before it are written; after too
    // many messages, those of the messages within the limit; else a prefix of the whole text.
    ensures fault { IfErr result (Leaves (reply_texts F.files settings.now.served)
        reader.old.bytes reader.new.bytes writer.old.bytes writer.new.bytes) }
    // A device is reported exactly where it failed in this call; but one read that failed may go unreported where the
    // messages before it are too many, where they can't be written, and where memory runs out.
    ensures reads { AttributesReads reader_failures leaves_reads_unreported
        reader.old.failures reader.new.failures result }
    ensures writes { CountsBy writer_failures writer.old.failures writer.new.failures result }
    ensures ok { IfOk result
        (Answers F.files settings.now.served reader.old.bytes writer.old.bytes writer.new.bytes) }
{
    let server = Server::<F> {
        alloc,
        snapshot,
        settings,
        tree: PhantomData,
    };
    replay_named::<F, Brand, Brand, G, T, R, W>(rt, server, gate, Opened::new(), reader, writer)
}

/// What replays a capture.
trait Replays {
    ghost use Rattle.std.specs.Prelude.{List};
    ghost use Rattle.paths.specs.declared.file.File.{File};
    ghost use Rattle.reference.specs.Reference.{Terms};

    /// What it serves: files, by these terms.
    ghost files: { Self → List File };

    ghost terms: { Self → Terms };

    /// What it asks of its threads and its helpers.
    ghost shares: { Self → Type 0 };

    /// Replays a capture.
    fn replay<R: Read, W: Write>(
        &self,
        reader: &mut Input<R>,
        writer: &mut Output<W>,
    ) -> Result<Outcome, ReplayFault>
        requires shares { shares self.now }
        requires devices { CanFail reader.old × CanFail writer.old }
        // After a fault of the capture, the replies of the messages of the whole records before it are written; after
        // too many messages, those of the messages within the limit; else a prefix of the whole text.
        ensures fault { IfErr result (Stopped (reply_texts (files self.now) (terms self.now))
            reader.old.bytes reader.new.bytes writer.old.bytes writer.new.bytes) }
        // A device is reported exactly where it failed in this call; but one read that failed may go unreported where
        // the messages before it are too many, where they can't be written, and where memory runs out.
        ensures reads { AttributesReads reader_failures leaves_reads_unreported
            reader.old.failures reader.new.failures result }
        ensures writes { CountsBy writer_failures writer.old.failures writer.new.failures result }
        ensures ok { IfOk result
            (Answers (files self.now) (terms self.now) reader.old.bytes writer.old.bytes writer.new.bytes) };
}

/// What the staged engine replays by.
#[derive(Drop)]
struct Staged<'v, 'a, F: Tree, K: Pricing, C, Q, G, T: Wait> {
    serving: &'a Serving<'a, F, K, T>,
    helpers: &'v C,
    register: &'v Mutex<Q>,
    gate: &'a G,
    threads: usize,
}

/// The same under names for what requests cost and for the register of chunks.
fn replay_named<
    'a,
    F: Tree + Send + Sync,
    K: Pricing + Send + Sync,
    J: Naming + Send + Sync,
    G: Gate + Sync,
    T: Threads + Wait + Sync,
    R: Read,
    W: Write,
>(
    rt: &'a T,
    server: Server<'a, F>,
    gate: &'a G,
    register: Opened<Chunk<F>>,
    reader: &mut Input<R>,
    writer: &mut Output<W>,
) -> Result<Outcome, ReplayFault>
    requires tariff { server.served.tariff ≡ K.tariff }
    requires book { register ≡ J.book }
    requires devices { CanFail reader.old × CanFail writer.old }
    ensures { Replayed F.files server.entry.served
        reader.old.bytes reader.new.bytes writer.old.bytes writer.new.bytes
        reader.old.failures reader.new.failures writer.old.failures writer.new.failures result }
{
    let alloc = server.alloc;
    let settings = server.settings;
    let cache = PageCache::<F>::new(alloc, settings.cache(), server.snapshot.len())?;
    let serving = Serving::<F, K, T>::new(rt, server, cache);
    replay_with(
        &serving,
        FloorSteps { serving: &serving },
        gate,
        register.named::<J>(),
        reader,
        writer,
    )
}

/// Replays by helpers that take these steps.
fn replay_with<
    'a,
    F: Tree + Send + Sync,
    K: Pricing + Send + Sync,
    J: Naming + Send + Sync,
    S: Steps<Chunk = Chunk<F>, Value = ChunkValue> + Sync + Drop,
    G: Gate + Sync,
    T: Threads + Wait + Sync,
    R: Read,
    W: Write,
>(
    serving: &'a Serving<'a, F, K, T>,
    steps: S,
    gate: &'a G,
    register: Register<Chunk<F>, J>,
    reader: &mut Input<R>,
    writer: &mut Output<W>,
) -> Result<Outcome, ReplayFault>
    requires can { AreFloorSteps F.files K.tariff S.step S.content S.count }
    requires devices { CanFail reader.old × CanFail writer.old }
    ensures { Replayed F.files serving.now.server.served
        reader.old.bytes reader.new.bytes writer.old.bytes writer.new.bytes
        reader.old.failures reader.new.failures writer.old.failures writer.new.failures result }
{
    let alloc = serving.server.alloc;
    let travel = Travel::<S, J>::new(steps);
    let helpers = Helpers::new(serving.rt, alloc, &travel, gate);
    let register = Mutex::new(register);
    replay_by(serving, &helpers, &register, gate, reader, writer)
}

/// How many threads work: as many as the larger floor has workers, and no more than there are processors.
fn threads_for(processors: usize, settings: &Settings) -> usize
    ensures { result ≡ min processors
        (max (workers settings.now.floors.front) (workers settings.now.floors.back)) }
{
    let workers = settings.front().workers().max(settings.back().workers());
    processors.min(workers)
}

/// Replays by the calling thread and as many of these helpers as make up [`threads_for`].
fn replay_by<
    'v,
    'a,
    F: Tree + Send + Sync,
    K: Pricing + Send + Sync,
    J: Naming + Send + Sync,
    S: Steps<Chunk = Chunk<F>, Value = ChunkValue> + Sync,
    G: Gate + Sync,
    T: Threads + Wait + Sync,
    R: Read,
    W: Write,
>(
    serving: &'a Serving<'a, F, K, T>,
    helpers: &'v Helpers<'_, Travel<S, J>, G, T>,
    register: &'v Mutex<Register<Chunk<F>, J>>,
    gate: &'a G,
    reader: &mut Input<R>,
    writer: &mut Output<W>,
) -> Result<Outcome, ReplayFault>
    requires can { AreFloorSteps F.files K.tariff S.step S.content S.count }
    requires devices { CanFail reader.old × CanFail writer.old }
    ensures { Replayed F.files serving.now.server.served
        reader.old.bytes reader.new.bytes writer.old.bytes writer.new.bytes
        reader.old.failures reader.new.failures writer.old.failures writer.new.failures result }
{
    let threads = threads_for(processors(serving.rt), serving.server.settings);
    let staged = Staged {
        serving,
        helpers,
        register,
        gate,
        threads,
    };
    replay_beside(helpers, threads.saturating_sub(1), &staged, reader, writer)
}

/// Replays beside so many of these helpers.
fn replay_beside<
    S: Steps + Sync,
    J: Naming + Send + Sync,
    G: Gate + Sync,
    T: Threads + Wait + Sync,
    P: Replays,
    R: Read,
    W: Write,
>(
    helpers: &Helpers<'_, Travel<S, J>, G, T>,
    helper_count: usize,
    staged: &P,
    reader: &mut Input<R>,
    writer: &mut Output<W>,
) -> Result<Outcome, ReplayFault>
where
    S::Chunk: Send,
    S::Value: Send,
    requires shares { P.shares staged.now }
    requires devices { CanFail reader.old × CanFail writer.old }
    // After a fault of the capture, the replies of the messages of the whole records before it are written; after too
    // many messages, those of the messages within the limit; else a prefix of the whole text.
    ensures fault { IfErr result (Stopped (reply_texts (P.files staged.now) (P.terms staged.now))
        reader.old.bytes reader.new.bytes writer.old.bytes writer.new.bytes) }
    // A device is reported exactly where it failed in this call; but one read that failed may go unreported where the
    // messages before it are too many, where they can't be written, and where memory runs out.
    ensures reads { AttributesReads reader_failures leaves_reads_unreported
        reader.old.failures reader.new.failures result }
    ensures writes { CountsBy writer_failures writer.old.failures writer.new.failures result }
    ensures ok { IfOk result
        (Answers (P.files staged.now) (P.terms staged.now) reader.old.bytes writer.old.bytes writer.new.bytes) }
{
    beside(
        helpers,
        helper_count,
        &mut ||
            requires { P.shares staged.now × CanFail reader.now × CanFail writer.now }
        { staged.replay(reader, writer) },
    )
}

impl<
    'v,
    'a,
    F: Tree,
    K: Pricing,
    Q,
    C: Carries<Chunk = Chunk<F>, Value = ChunkValue, Register = Q>,
    G: Gate,
    T: Threads + Wait + Sync,
> Replays for Staged<'v, 'a, F, K, C, Q, G, T> {
    ghost use denote.Param.Send.{IsSync};

    ghost files = { λ s. F.files };

    ghost terms = { λ s. s.serving.now.server.served };

    ghost shares = { λ s. IsSync T.row × AreFloorSteps F.files K.tariff C.step C.content C.count };

    fn replay<R: Read, W: Write>(
        &self,
        reader: &mut Input<R>,
        writer: &mut Output<W>,
    ) -> Result<Outcome, ReplayFault> {
        write_first_line(writer)?;
        let mut capture = match CaptureReader::open(reader) {
            Ok(capture) => capture,
            Err(fault) => return Err(ReplayFault::from(fault)),
        };
        let serving = self.serving;
        let server = &serving.server;
        let alloc = server.alloc;
        let settings = server.settings;
        let version = capture.version();
        let connections = Connections::new(alloc);
        let tiers = Tiers::new(alloc);
        let decider = Decider::new(alloc, settings, capture.start(), version.max_messages())?;
        let mut engine = Engine {
            heads: HeadRenderer::new(alloc),
            source: FromCache {
                rt: serving.rt,
                cache: &serving.cache,
            },
            messages: Vec::new(alloc),
            connections,
            tiers,
            decider,
        };
        let floors = Floors {
            serving,
            helpers: self.helpers,
            register: self.register,
            gate: self.gate,
            threads: self.threads,
            capacity: page_capacity(server.snapshot, settings.cache()),
        };
        let mut load = Load::new();
        while serve_next(&floors, &mut load, &mut engine, &mut capture, writer)? {}
        let answered = engine.decider.totals.answered;
        let outcome = outcome_of(version, engine.decider);
        write_last_line(alloc, writer, answered)?;
        Ok(outcome)
    }
}
