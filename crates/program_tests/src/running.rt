//! What the runs over texts in memory share: texts, a writer, and settings.
ghost use Rattle.std.specs.Prelude.{◌≤◌};

use command_line::Engine;
use devices::{Input, Output};
use program::{Fault, Place, Wanted, run_replay};
use replay::ReplayFault;
use settings::read_settings;
use std::alloc::Global;
use std::io;
use std::io::Write;
use std::sync::Wait;
use std::thread::Threads;

/// That snapshot, and after it a capture of one request for the file.
pub static FIRST_RUN: &str = "haboob-snapshot 1\n\
     file 784111777 5 3\n\
     a.txt\n\
     hi\n\
     \n\
     end 1\n\
     haboob-capture 1 784111777\n\
     piece 0 0 32\n\
     GET /a.txt HTTP/1.1\r\n\
     Host: a\r\n\
     \r\n\
     \n\
     stop 1\n";

/// What a run came to: `ok`, or what is reported.
pub fn outcome(ran: &Result<(), Fault>) -> &'static str {
    match ran {
        Ok(()) => "ok",
        Err(Fault::Write(Place::Replies)) => "replies",
        Err(Fault::Write(Place::Report)) => "report",
        Err(Fault::Replay(ReplayFault::Capture(_))) => "capture",
        Err(_) => "another",
    }
}

/// Whether memory was refused: the status of that fault alone.
pub fn is_out_of_memory(fault: &Fault) -> bool {
    fault.status() == 7
}

/// A writer into a buffer of its own that takes at most n bytes a write, and fails at one of its writes or where
/// the buffer is full. It takes no memory.
#[derive(Drop)]
pub struct Narrow {
    capacity: [u8; 1024],
    len: usize,
    size: usize,
    /// How many writes are made before the one that fails.
    good: usize,
    ghost in_room: { len ≤ 1024 },
}

impl Narrow {
    pub fn new(size: usize, good: usize) -> Narrow {
        Narrow {
            capacity: [0; 1024],
            len: 0,
            size,
            good,
        }
    }

    /// A writer that doesn't fail.
    pub fn ample() -> Narrow {
        Narrow::new(1024, usize::MAX)
    }

    /// What was written.
    pub fn text(&self) -> &[u8] {
        &self.capacity[..self.len]
    }
}

impl Write for Narrow {
    fn write(&mut self, bytes: &[u8]) -> io::Result<usize> {
        if self.good == 0 {
            return Err(io::Error::other("refused"));
        }
        self.good -= 1;
        let start = self.len;
        let count = bytes.len().min(self.size).min(1024 - start);
        self.capacity[start..start + count].copy_from_slice(&bytes[..count]);
        self.len = start + count;
        Ok(count)
    }

    fn flush(&mut self) -> io::Result<()> {
        Ok(())
    }
}

/// Settings with one token, and one more each second; tier 1 has two.
pub static TIGHT: &str =
    "[policy]\ndepth = 1\nrate = 1000\nrate_min = 1000\nrate_max = 1000\n[tier1]\ndepth = 2\n";

/// Runs over inputs in memory on an engine with these settings, and writes a report.
pub fn run_tight<T: Threads + Wait + Sync>(
    rt: &T,
    alloc: Global,
    engine: Engine,
    snapshot: &str,
    capture: &str,
    replies: &mut Narrow,
    report: &mut Narrow,
) -> Result<(), Fault> {
    let settings = read_settings(alloc, TIGHT.as_bytes())?;
    run_replay(
        rt,
        alloc,
        &settings,
        Wanted::Replies(engine),
        &mut Input::new(snapshot.as_bytes()),
        &mut Input::new(capture.as_bytes()),
        &mut Output::new(replies),
        &mut Output::new(report),
    )
}
