//! What a gate sees of a replay, and when replies are written.
use crate::replaying::{
    DEFAULT_SHAPE, Engine, Ran, Shape, default_settings, is_same, run_devices, run_engine, run_one,
};
use devices::{Input, Output};
use replay::Settings;
use stage_graph::{Gate, NoGate};
use std::alloc::{AllocError, AllocGlobal, Global};
use std::io;
use std::io::{Read, Write};
use std::process::Abort;
use std::sync::atomic::{AtomicBool, AtomicU64, Ordering};
use std::sync::{Mutex, Wait};
use std::thread::{Threads, available_parallelism};
use std::time::{Clock, Duration};
use test_support::{A, SNAPSHOT, capture_of};

/// The default settings with batches of n pieces.
fn in_batches(rt: &(impl Abort + AllocGlobal), batch: usize) -> Box<Settings> {
    let shape = Shape {
        batch,
        ..DEFAULT_SHAPE
    };
    default_settings(rt.alloc(), shape).expect(rt, "settings")
}

/// The unit in which a message at a stage is counted: 6 bits for each of the five stages of message 0, and then of
/// message 1. Any other message or stage has the highest.
fn unit_of(stage: usize, number: usize) -> u64 {
    if number < 2 && stage < 5 {
        1 << (6 * (5 * number + stage))
    } else {
        1 << 60
    }
}

/// Each of the two messages once at each of the five stages.
const EACH_ONCE: u64 = 0o01_01_01_01_01_01_01_01_01_01;

/// Counts the messages that enter and leave each stage, and holds message 0 in the first until message 1 has left it,
/// for at most 10,000 turns of a millisecond, where it holds.
#[derive(Drop)]
struct Hold<R: Clock + Drop> {
    rt: R,
    holds: bool,
    entered: AtomicU64,
    left: AtomicU64,
    /// Whether message 1 has left the first stage.
    gone: AtomicU64,
    /// Whether message 0 was let go because the turns were over.
    over: AtomicU64,
}

impl<R: Clock + Drop> Gate for Hold<R> {
    fn enter(&self, stage: usize, number: usize) {
        self.entered
            .fetch_add(unit_of(stage, number), Ordering::SeqCst);
        if !self.holds || number != 0 || stage != 0 {
            return;
        }
        for _ in 0..10000 {
            if self.gone.load(Ordering::SeqCst) != 0 {
                return;
            }
            let _ = std::thread::sleep(&self.rt, Duration::from_millis(1));
        }
        self.over.store(1, Ordering::SeqCst);
    }

    fn left(&self, stage: usize, number: usize) {
        self.left
            .fetch_add(unit_of(stage, number), Ordering::SeqCst);
        if stage == 0 && number == 1 {
            self.gone.store(1, Ordering::SeqCst);
        }
    }
}

/// Replays two requests in batches of n pieces behind a gate, which changes nothing. There are two replies of 165 bytes
/// with their lines.
fn check_two_requests<G: Gate + Sync, R: Abort + AllocGlobal + Threads + Wait + Sync>(
    rt: &R,
    gate: &G,
    batch: usize,
) {
    let capture = capture_of(rt.alloc(), &[(0, 0, A), (0, 1, A)]).expect(rt, "memory");
    let settings = in_batches(rt, batch);
    let bytes = capture.as_bytes();
    let plain = run_one(rt, Engine::Plain, SNAPSHOT, &settings, bytes);
    let ran = run_engine(
        rt,
        rt.alloc(),
        Engine::Staged,
        SNAPSHOT,
        &settings,
        gate,
        bytes,
    );
    let ran = ran.expect(rt, "a snapshot");
    assert!(rt; is_same(&ran, &plain));
    assert_eq!(rt; ran.text.len(), 17 + 2 * 165 + 7);
}

/// Replays two requests in batches of n pieces, with a gate that holds the first of them or doesn't.
fn check<R: Abort + AllocGlobal + Threads + Wait + Sync + Clock + Drop>(
    rt: &R,
    clock: R,
    holds: bool,
    batch: usize,
) {
    let gate = Hold {
        rt: clock,
        holds,
        entered: AtomicU64::new(0),
        left: AtomicU64::new(0),
        gone: AtomicU64::new(0),
        over: AtomicU64::new(0),
    };
    check_two_requests(rt, &gate, batch);
    let entered = gate.entered.load(Ordering::SeqCst);
    let left = gate.left.load(Ordering::SeqCst);
    let over = gate.over.load(Ordering::SeqCst);
    assert_eq!(rt; (entered, left, over), (EACH_ONCE, EACH_ONCE, 0));
}

/// Two workers are inside their handlers at once: message 1 leaves the first stage while message 0 is held there.
#[test]
fn two_workers_overlap(rt: HostRuntime) {
    check(&rt, rt.clone().expect(&rt, "memory"), true, 2);
}

/// In batches of one message each, both floors number it 0: the gate sees its number among all messages.
#[test]
fn numbers_in_batches(rt: HostRuntime) {
    check(&rt, rt.clone().expect(&rt, "memory"), false, 1);
}

/// Whether two threads are at work on a floor at once. The first item that enters waits for another, which only another
/// thread can have taken, for at most 2,000 turns of a millisecond; nobody waits after that.
#[derive(Drop)]
struct Meeting {
    entered: AtomicU64,
    /// Whether another item entered while the first waited.
    met: AtomicBool,
}

impl Meeting {
    fn new() -> Meeting {
        Meeting {
            entered: AtomicU64::new(0),
            met: AtomicBool::new(false),
        }
    }

    fn enter<R: Clock>(&self, rt: &R) {
        if self.entered.fetch_add(1, Ordering::SeqCst) != 0 {
            return;
        }
        for _ in 0..2000 {
            if self.entered.load(Ordering::SeqCst) > 1 {
                self.met.store(true, Ordering::SeqCst);
                return;
            }
            let _ = std::thread::sleep(rt, Duration::from_millis(1));
        }
    }
}

/// A gate whose calls end by themselves, with a meeting on each floor.
#[derive(Drop)]
struct Meetings<R: Clock + Drop> {
    rt: R,
    front: Meeting,
    back: Meeting,
}

impl<R: Clock + Drop> Gate for Meetings<R> {
    fn enter(&self, stage: usize, _number: usize) {
        if stage < DEFAULT_SHAPE.front.len() {
            self.front.enter(&self.rt);
        } else {
            self.back.enter(&self.rt);
        }
    }

    fn left(&self, _stage: usize, _number: usize) {}

    fn is_open(&self) -> bool {
        true
    }
}

/// Whether there are two processors for threads, or more: the engine uses no more threads than there are processors.
fn has_two_processors<R: Threads>(rt: &R) -> bool {
    match available_parallelism(rt) {
        Ok(count) => count.get() > 1,
        Err(_) => true,
    }
}

/// A request for `a` with a query of 7,000 bytes.
fn long_request(alloc: Global) -> Result<String, AllocError> {
    let query = "x".repeat(alloc, 7_000)?;
    format!(in alloc; "GET /a?{query} HTTP/1.1\r\nHost: a\r\n\r\n")
}

/// The capture of n such requests: 96 are more than two threads' worth of targets.
fn long_requests(alloc: Global, count: usize) -> Result<String, AllocError> {
    let request = long_request(alloc)?;
    let mut capture = String::from_str(alloc, "haboob-capture 1 784111777\n")?;
    for conn in 0..count {
        write!(capture, "piece 0 {conn} {}\n{request}\n", request.len())?;
    }
    write!(capture, "stop {count}\n")?;
    Ok(capture)
}

/// The snapshot of a file of 65,536 bytes.
fn long_file(alloc: Global) -> Result<String, AllocError> {
    let file = "b".repeat(alloc, 65_536)?;
    format!(in alloc; "haboob-snapshot 1\nfile 0 1 65536\na\n{file}\nend 1\n")
}

/// Replays these requests for that file behind a gate.
fn run_long<G: Gate + Sync, R: Abort + AllocGlobal + Threads + Wait + Sync>(
    rt: &R,
    engine: Engine,
    gate: &G,
) -> Ran {
    let files = long_file(rt.alloc()).expect(rt, "memory");
    let capture = long_requests(rt.alloc(), 96).expect(rt, "memory");
    let settings = in_batches(rt, 96);
    let bytes = capture.as_bytes();
    let ran = run_engine(rt, rt.alloc(), engine, &files, &settings, gate, bytes);
    ran.expect(rt, "a snapshot")
}

/// Replays these requests with a meeting on each floor. The engines are to write and answer the same.
fn check_meetings<R: Abort + AllocGlobal + Threads + Wait + Sync + Clock + Drop>(rt: &R, clock: R) {
    let gate = Meetings {
        rt: clock,
        front: Meeting::new(),
        back: Meeting::new(),
    };
    let plain = run_long(rt, Engine::Plain, &NoGate);
    let staged = run_long(rt, Engine::Staged, &gate);
    assert!(rt; is_same(&staged, &plain));
    // Each reply gives the file.
    assert!(rt; staged.text.len() > 96 * 65_536);
    if has_two_processors(rt) {
        let front = gate.front.met.load(Ordering::SeqCst);
        let back = gate.back.met.load(Ordering::SeqCst);
        assert_eq!(rt;
            (front, back),
            (true, true),
            "the front floor and the back floor"
        );
    }
}

/// Two threads work side by side on the front floor, and on the back floor, where the gate is open and there is work
/// for two.
#[test]
fn two_threads_overlap_on_both_floors(rt: HostRuntime) {
    check_meetings(&rt, rt.clone().expect(&rt, "memory"));
}

/// Without a gate 160 of them, which have more than a MiB of targets, go through the front floor too, after 256 that
/// tell that it pays.
#[test]
fn long_targets_without_a_gate(rt: HostRuntime) {
    let capture = long_requests(rt.alloc(), 416).expect(&rt, "memory");
    let settings = in_batches(&rt, 160);
    let plain = run_one(&rt, Engine::Plain, SNAPSHOT, &settings, capture.as_bytes());
    let staged = run_one(&rt, Engine::Staged, SNAPSHOT, &settings, capture.as_bytes());
    assert!(rt; is_same(&staged, &plain));
    assert!(rt; staged.text.ends_with(b"\n\nstop 416\n".as_slice()));
}

/// The stage of the back floor, where each floor has one.
const BACK: usize = 1;

/// A gate that notes how many messages enter the stage of the back floor together: until one of them leaves it.
#[derive(Drop)]
struct Together<R: Wait + Drop> {
    rt: R,
    counts: Mutex<Vec<usize>>,
    entered: AtomicU64,
}

impl<R: Wait + Drop> Gate for Together<R> {
    fn enter(&self, stage: usize, _number: usize) {
        if stage == BACK {
            self.entered.fetch_add(1, Ordering::SeqCst);
        }
    }

    fn left(&self, stage: usize, _number: usize) {
        let entered = self.entered.load(Ordering::SeqCst);
        if stage == BACK && entered > 0 {
            self.entered.store(0, Ordering::SeqCst);
            let _refused = self.counts.lock(&self.rt).push(entered as usize);
        }
    }

    fn is_open(&self) -> bool {
        true
    }
}

/// The capture of 64 requests: all for `a`, but the messages 10 and 12, which are for `b`.
fn two_targets(alloc: Global) -> Result<String, AllocError> {
    let mut capture = String::from_str(alloc, "haboob-capture 1 784111777\n")?;
    for number in 0..64usize {
        let name = if number == 10 || number == 12 {
            "b"
        } else {
            "a"
        };
        write!(
            capture,
            "piece 0 {number} 28\nGET /{name} HTTP/1.1\r\nHost: a\r\n\r\n\n"
        )?;
    }
    capture.push_str("stop 64\n")?;
    Ok(capture)
}

/// The snapshot of a small file `a`, and of `b` with these bytes.
fn two_files(alloc: Global, file: &str) -> Result<String, AllocError> {
    let bytes = file.len();
    format!(in alloc; "haboob-snapshot 1\nfile 0 1 1\na\nb\nfile 0 1 {bytes}\nb\n{file}\nend 2\n")
}

/// Replays these behind a gate by one thread, where `b` has these bytes; how many bytes were written.
fn run_targets<G: Gate + Sync, R: Abort + AllocGlobal + Threads + Wait + Sync>(
    rt: &R,
    gate: &G,
    file: &str,
) -> usize {
    let files = two_files(rt.alloc(), file).expect(rt, "memory");
    let capture = two_targets(rt.alloc()).expect(rt, "memory");
    let shape = Shape {
        front: &[3],
        back: &[2],
        workers: 1,
        batch: 64,
        ..DEFAULT_SHAPE
    };
    let settings = default_settings(rt.alloc(), shape).expect(rt, "settings");
    let bytes = capture.as_bytes();
    let ran = run_engine(
        rt,
        rt.alloc(),
        Engine::Staged,
        &files,
        &settings,
        gate,
        bytes,
    );
    ran.expect(rt, "a snapshot").text.len()
}

/// How many of these 64 messages travel together over the back floor, where `b` has n bytes.
fn travelling<R: Abort + AllocGlobal + Threads + Wait + Sync + Drop>(
    rt: &R,
    waiting: R,
    size: usize,
) -> Vec<usize> {
    let gate = Together {
        rt: waiting,
        counts: Mutex::new(Vec::new(rt.alloc())),
        entered: AtomicU64::new(0),
    };
    let file = "b".repeat(rt.alloc(), size).expect(rt, "memory");
    let written = run_targets(rt, &gate, &file);
    assert!(rt; written > size.saturating_mul(2));
    gate.counts.into_inner()
}

/// Seventeen of 64 messages travel together where one thread works, one more than a quarter; but a page of more than
/// 16,384 bytes is the last of its chunk.
#[test]
fn large_pages_end_their_chunks(rt: HostRuntime) {
    let small = travelling(&rt, rt.clone().expect(&rt, "memory"), 16_384);
    assert_eq!(rt; small.as_slice(), [17, 17, 17, 13usize].as_slice());
    let large = travelling(&rt, rt.clone().expect(&rt, "memory"), 16_385);
    assert_eq!(rt; large.as_slice(), [11, 2, 17, 17, 17usize].as_slice());
}

/// Gives one record a read, and notes how much was written when the last line is asked for.
#[derive(Drop)]
struct Records<'a> {
    bytes: &'a [u8],
    /// How many bytes each record that follows has.
    sizes: &'a [usize],
    /// How many bytes are left of this record.
    left: usize,
    written: &'a AtomicU64,
    at_last: &'a AtomicU64,
}

impl<'a> Read for Records<'a> {
    fn read(&mut self, capacity: &mut [u8]) -> io::Result<usize> {
        if self.left == 0 && !self.sizes.is_empty() {
            self.left = self.sizes[0];
            self.sizes = &self.sizes[1..];
            if self.sizes.is_empty() {
                let written = self.written.load(Ordering::SeqCst);
                self.at_last.store(written, Ordering::SeqCst);
            }
        }
        let count = capacity.len().min(self.left).min(self.bytes.len());
        capacity[..count].copy_from_slice(&self.bytes[..count]);
        self.bytes = &self.bytes[count..];
        self.left -= count;
        Ok(count)
    }
}

/// Counts the bytes that are written.
#[derive(Drop)]
struct Counted<'a> {
    written: &'a AtomicU64,
}

impl<'a> Write for Counted<'a> {
    fn write(&mut self, bytes: &[u8]) -> io::Result<usize> {
        self.written.fetch_add(bytes.len() as u64, Ordering::SeqCst);
        Ok(bytes.len())
    }

    fn flush(&mut self) -> io::Result<()> {
        Ok(())
    }
}

/// Three messages, whose replies are 150 bytes each: with its line and a line feed, 165.
static CAPTURE: &str = "haboob-capture 1 784111777\n\
     piece 0 0 32\n\
     GET /a.txt HTTP/1.1\r\n\
     Host: a\r\n\
     \r\n\
     \n\
     piece 0 0 32\n\
     GET /a.txt HTTP/1.1\r\n\
     Host: a\r\n\
     \r\n\
     \n\
     piece 0 0 32\n\
     GET /a.txt HTTP/1.1\r\n\
     Host: a\r\n\
     \r\n\
     \n\
     stop 3\n";

/// How many bytes its first line, its records and its last line have.
static SIZES: [usize; 5] = [27, 46, 46, 46, 7];

/// So many bytes of a replay in batches of n pieces are written when the last line is asked for, and in all.
fn written_by<R: Abort + AllocGlobal + Threads + Wait + Sync>(
    rt: &R,
    engine: Engine,
    batch: usize,
    capture: &str,
    sizes: &[usize],
) -> (u64, u64) {
    let (written, at_last) = (AtomicU64::new(0), AtomicU64::new(0));
    let settings = in_batches(rt, batch);
    let mut reader = Input::new(Records {
        bytes: capture.as_bytes(),
        sizes,
        left: 0,
        written: &written,
        at_last: &at_last,
    });
    let mut writer = Output::new(Counted { written: &written });
    let ran = run_devices(
        rt,
        rt.alloc(),
        engine,
        SNAPSHOT,
        &settings,
        &NoGate,
        &mut reader,
        &mut writer,
    );
    assert!(rt; ran.expect(rt, "a snapshot").is_ok());
    (
        at_last.load(Ordering::SeqCst),
        written.load(Ordering::SeqCst),
    )
}

/// The replies of a batch are written before the next batch is read; and without a floor those of a record before the
/// next record is.
#[test]
fn written_before_the_next_batch(rt: HostRuntime) {
    let all = 17 + 3 * 165;
    for (batch, before) in [(1, all), (2, 17 + 2 * 165), (4, 17)] {
        for (engine, before) in [(Engine::Staged, all), (Engine::Floors, before)] {
            let written = written_by(&rt, engine, batch, CAPTURE, &SIZES);
            assert_eq!(rt; written, (before, all + 7), "batches of {batch}");
        }
    }
}

/// The record of a request with this after its target.
fn record_with(alloc: Global, query: &str) -> Result<String, AllocError> {
    let bytes = query.len().saturating_add(32);
    format!(in alloc; "piece 0 0 {bytes}\nGET /a.txt{query} HTTP/1.1\r\nHost: a\r\n\r\n\n")
}

/// The capture of 300 such records.
fn three_hundred(alloc: Global, record: &str) -> Result<String, AllocError> {
    let records = record.repeat(alloc, 300)?;
    format!(in alloc; "haboob-capture 1 784111777\n{records}stop 300\n")
}

/// How many bytes its lines and its records have, of n bytes each.
fn sizes_of(alloc: Global, record: usize) -> Result<Vec<usize>, AllocError> {
    let mut sizes = vec![in alloc; record; 302]?;
    sizes[0] = 27;
    sizes[301] = 9;
    Ok(sizes)
}

/// 300 replies with their lines: up to number 9 one has 165 bytes, up to 99 166; the bucket holds 100 tokens, and what
/// is turned away has 176.
const REPLIES: u64 = 10 * 165 + 90 * 166 + 200 * 176;

/// How many bytes stand before the last line of the capture is read, where no gate sees the pieces and where one does.
fn check_pieces<R: Abort + AllocGlobal + Threads + Wait + Sync>(
    rt: &R,
    query: &str,
    without: u64,
    with: u64,
) {
    let record = record_with(rt.alloc(), query).expect(rt, "memory");
    let capture = three_hundred(rt.alloc(), &record).expect(rt, "memory");
    let sizes = sizes_of(rt.alloc(), record.len()).expect(rt, "memory");
    for (engine, before) in [(Engine::Staged, without), (Engine::Floors, with)] {
        let written = written_by(rt, engine, 1024, &capture, &sizes);
        assert_eq!(rt; written, (before, 17 + REPLIES + 9));
    }
}

/// Of 300 light pieces each is answered before the next is read, where no gate sees them; else all are read first.
#[test]
fn light_pieces_are_answered_as_they_come(rt: HostRuntime) {
    check_pieces(&rt, "", 17 + REPLIES, 17);
}

/// Of 300 pieces with long targets 256 are answered so, and the others are read as a batch, where a second thread may
/// look them up.
#[test]
fn long_targets_are_read_in_batches(rt: HostRuntime) {
    let letters = "x".repeat(rt.alloc(), 7_000).expect(&rt, "memory");
    let query = format!(in rt.alloc(); "?{letters}").expect(&rt, "memory");
    let before = if has_two_processors(&rt) {
        17 + REPLIES - 44 * 176
    } else {
        17 + REPLIES
    };
    check_pieces(&rt, &query, before, 17);
}
