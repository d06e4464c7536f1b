//! Runs both engines on texts in memory.
ghost use Rattle.std.specs.Prelude.{◌≡◌, ◌<◌, ◌-◌, ◌^◌};
ghost use Rattle.devices.specs.Devices.{CanFail};

use crate::policies::{default_costs, default_policy, tight};
use admission::Policy;
use cost_model::Costs;
use devices::{Input, Output};
use paths::{Snapshot, Tree};
use replay::{Outcome, ReplayFault, Settings, Tally, plain_replay, staged_replay};
use stage_graph::{Gate, NoGate, Plan};
use std::alloc::{AllocError, AllocGlobal, Global};
use std::io::{Read, Write};
use std::marker::Brand;
use std::process::Abort;
use std::sync::Wait;
use std::thread::Threads;

/// The engine that a replay runs on.
#[derive(Clone, Copy)]
pub enum Engine {
    Plain,
    Staged,
    /// The staged one, each message through its floors.
    Floors,
}

/// All of them.
pub static ENGINES: [Engine; 3] = [Engine::Plain, Engine::Staged, Engine::Floors];

/// A gate that holds nothing, and might see each message: what goes through it goes through the floors.
#[derive(Drop)]
struct Open;

impl Gate for Open {
    fn enter(&self, _stage: usize, _number: usize) {}

    fn left(&self, _stage: usize, _number: usize) {}

    fn is_open(&self) -> bool {
        true
    }
}

/// What a replay answers, and what it has written. The answer is in a box, so that one call drops it.
#[derive(Drop)]
pub struct Ran {
    pub answer: Box<Result<Outcome, ReplayFault>>,
    pub text: Vec<u8>,
}

/// The two together; `None` without memory for the box.
pub fn ran_to(alloc: Global, answer: Result<Outcome, ReplayFault>, text: Vec<u8>) -> Option<Ran> {
    match Box::new(alloc, answer) {
        Ok(answer) => Some(Ran { answer, text }),
        Err(_) => None,
    }
}

/// The outcome of a replay that came to its end.
pub fn outcome_of<'a, T: Abort>(rt: &T, ran: &'a Ran) -> &'a Outcome {
    match &*ran.answer {
        Ok(outcome) => outcome,
        Err(_) => panic!(rt; "the replay came to no end"),
    }
}

/// The fault of one that didn't.
pub fn fault_of(ran: &Ran) -> Option<ReplayFault> {
    match &*ran.answer {
        Ok(_) => None,
        Err(fault) => Some(*fault),
    }
}

/// How the staged engine runs: its cuts, the workers and the capacity of each stage, the pieces of a batch, and the
/// bytes of the cache.
#[derive(Clone, Copy)]
pub struct Shape<'a> {
    pub front: &'a [usize],
    pub back: &'a [usize],
    pub workers: usize,
    pub capacity: usize,
    pub batch: usize,
    pub cache: usize,
}

/// The shape that a document without settings gives.
pub static DEFAULT_SHAPE: Shape<'static> = Shape {
    front: &[1, 2, 3],
    back: &[1, 2],
    workers: 2,
    capacity: 64,
    batch: 1024,
    cache: 67_108_864,
};

/// The plan of these cuts, each stage with n workers and so much capacity.
fn plan_of(alloc: Global, cuts: &[usize], workers: usize, capacity: usize) -> Option<Plan> {
    let stages = cuts.len().min(3);
    Plan::new(
        alloc,
        cuts,
        &[workers; 3][..stages],
        &[capacity; 3][..stages],
    )
    .ok()
}

/// Settings with this shape, these service times and this policy for each tier.
pub fn shaped(alloc: Global, shape: Shape, costs: Costs, policy: Policy) -> Option<Box<Settings>> {
    tiered(alloc, shape, costs, [policy; 4])
}

/// Settings with this shape, these service times and the policies of the tiers, in a box, so that one call drops them.
pub fn tiered(
    alloc: Global,
    shape: Shape,
    costs: Costs,
    policies: [Policy; 4],
) -> Option<Box<Settings>> {
    let front = plan_of(alloc, shape.front, shape.workers, shape.capacity)?;
    let back = plan_of(alloc, shape.back, shape.workers, shape.capacity)?;
    let settings = Settings::new(front, back, shape.batch, shape.cache, costs, policies, 1).ok()?;
    Box::new(alloc, settings).ok()
}

/// Those that a document without settings gives, but for the shape.
pub fn default_settings(alloc: Global, shape: Shape) -> Option<Box<Settings>> {
    shaped(alloc, shape, default_costs()?, default_policy()?)
}

/// Those with a bucket of one token, and one more each second.
pub fn tight_settings(alloc: Global, shape: Shape) -> Option<Box<Settings>> {
    shaped(alloc, shape, default_costs()?, tight(1)?)
}

/// Replays by the floors, whatever the messages are.
fn run_floors<F: Tree + Send + Sync, T: Threads + Wait + Sync, R: Read, W: Write>(
    rt: &T,
    alloc: Global,
    files: &Snapshot,
    settings: &Settings,
    reader: &mut Input<R>,
    writer: &mut Output<W>,
) -> Result<Outcome, ReplayFault>
    requires files { files.now ≡ F.files }
    requires reading { CanFail reader.old }
    requires writing { CanFail writer.old }
{
    staged_replay::<F, Open, T, R, W>(rt, alloc, files, settings, &Open, reader, writer)
}

fn run_named<F: Tree + Send + Sync, G: Gate + Sync, T: Threads + Wait + Sync, R: Read, W: Write>(
    rt: &T,
    alloc: Global,
    engine: Engine,
    files: &Snapshot,
    settings: &Settings,
    gate: &G,
    reader: &mut Input<R>,
    writer: &mut Output<W>,
) -> Result<Outcome, ReplayFault>
    requires files { files.now ≡ F.files }
    requires reading { CanFail reader.old }
    requires writing { CanFail writer.old }
{
    match engine {
        Engine::Plain => plain_replay::<F, R, W>(alloc, files, settings, reader, writer),
        Engine::Staged => {
            staged_replay::<F, G, T, R, W>(rt, alloc, files, settings, gate, reader, writer)
        }
        Engine::Floors => { run_floors::<F, T, R, W>(rt, alloc, files, settings, reader, writer) }
    }
}

/// Replays what a device gives against a snapshot's text; `None` where that is none. The gate is the staged engine's.
pub fn run_devices<G: Gate + Sync, T: Threads + Wait + Sync, R: Read, W: Write>(
    rt: &T,
    alloc: Global,
    engine: Engine,
    snapshot: &str,
    settings: &Settings,
    gate: &G,
    reader: &mut Input<R>,
    writer: &mut Output<W>,
) -> Option<Result<Outcome, ReplayFault>>
    requires reading { CanFail reader.old }
    requires writing { CanFail writer.old }
{
    let mut input = Input::new(snapshot.as_bytes());
    match Snapshot::read(alloc, &mut input) {
        Ok(files) => {
            Some(run_named::<Brand, G, T, R, W>(
                rt, alloc, engine, &files, settings, gate, reader, writer,
            ))
        }
        Err(_) => None,
    }
}

/// The capacity of a text in memory, in bytes.
pub const TEXT_CAPACITY: usize = 4096;

/// Replays a capture against a snapshot, both as texts.
pub fn run_engine<G: Gate + Sync, T: Threads + Wait + Sync>(
    rt: &T,
    alloc: Global,
    engine: Engine,
    snapshot: &str,
    settings: &Settings,
    gate: &G,
    capture: &[u8],
) -> Option<Ran> {
    // With room for the replies of a short capture, so that where memory is refused no write fails.
    let mut text = Vec::with_capacity(alloc, TEXT_CAPACITY).ok()?;
    let mut reader = Input::new(capture);
    let mut writer = Output::new(&mut text);
    let answer = run_devices(
        rt,
        alloc,
        engine,
        snapshot,
        settings,
        gate,
        &mut reader,
        &mut writer,
    )?;
    ran_to(alloc, answer, text)
}

/// Replays a capture on an engine without a gate.
pub fn run_one<T: Abort + AllocGlobal + Threads + Wait + Sync>(
    rt: &T,
    engine: Engine,
    snapshot: &str,
    settings: &Settings,
    capture: &[u8],
) -> Ran {
    let ran = run_engine(rt, rt.alloc(), engine, snapshot, settings, &NoGate, capture);
    ran.expect(rt, "a snapshot")
}

/// Whether the same became of the requests of a tier.
fn is_same_tally(one: &Tally, other: &Tally) -> bool {
    one.admitted == other.admitted
        && one.rejected == other.rejected
        && one.controls.as_slice() == other.controls.as_slice()
}

/// Whether two calls answered the same.
fn is_same_answer(one: &Ran, other: &Ran) -> bool {
    match (&*one.answer, &*other.answer) {
        (Ok(one), Ok(other)) => {
            one.rejected.as_slice() == other.rejected.as_slice()
                && one.summary.counts == other.summary.counts
                && one.summary.bypassed == other.summary.bypassed
                && one.summary.samples.as_slice() == other.summary.samples.as_slice()
                && is_same_tally(&one.summary.tiers[0], &other.summary.tiers[0])
                && is_same_tally(&one.summary.tiers[1], &other.summary.tiers[1])
                && is_same_tally(&one.summary.tiers[2], &other.summary.tiers[2])
                && is_same_tally(&one.summary.tiers[3], &other.summary.tiers[3])
        }
        (Err(one), Err(other)) => one == other,
        _ => false,
    }
}

/// Whether two replays wrote the same and answered the same.
pub fn is_same(one: &Ran, other: &Ran) -> bool {
    is_same_answer(one, other) && one.text.as_slice() == other.text.as_slice()
}

/// Replays a capture on each engine, which are to write and answer the same; what they do.
pub fn run_all<T: Abort + AllocGlobal + Threads + Wait + Sync>(
    rt: &T,
    snapshot: &str,
    settings: &Settings,
    capture: &str,
) -> Ran {
    let capture = capture.as_bytes();
    let plain = run_one(rt, Engine::Plain, snapshot, settings, capture);
    for engine in [Engine::Staged, Engine::Floors] {
        let staged = run_one(rt, engine, snapshot, settings, capture);
        assert!(rt; is_same(&plain, &staged), "the engines differ");
    }
    plain
}
