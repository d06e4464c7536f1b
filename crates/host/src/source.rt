//! An input of a run, a file or standard input, and how far it has been read.

use crate::explained::Explained;
use crate::overwritten::Node;
use faults::{Fault, Place};
use std::fs::File;
use std::io;
use std::io::{IsTerminal, Read, Stdin, Write};
use std::time::Clock;

/// The name of standard input, and of standard output.
pub(crate) const STANDARD: &str = "-";

/// Where the system shows what standard input is open on.
pub const STANDARD_INPUT: &str = "/proc/self/fd/0";

/// After how many seconds of a run its progress is shown first, and then each second.
const SHOWN_AFTER: u64 = 2;

/// What a terminal takes for the beginning of the line, with nothing on it.
pub const EMPTY_LINE: &[u8] = b"\r\x1b[K";

/// How far an input was read.
#[derive(Drop)]
struct Progress {
    size: u64,
    read: u64,
    /// The second in which the reading began, of the system's clock that never goes back.
    began: u64,
    /// The second from which on progress is shown next.
    next: u64,
}

impl Progress {
    /// Nothing read yet of a file that keeps its bytes, where standard error is a terminal.
    fn of(rt: &HostRuntime, file: &File) -> Option<Progress> {
        let known = file.metadata().ok()?;
        if !known.is_file() || known.len() == 0 || !rt.stderr().is_terminal() {
            return None;
        }
        let began = rt.monotonic().ok()?.as_secs();
        Some(Progress {
            size: known.len(),
            read: 0,
            began,
            next: began.saturating_add(SHOWN_AFTER),
        })
    }

    /// How many percent of the input were read, and how many seconds are left if the rest takes as long as that.
    fn so_far(&self, now: u64) -> (u64, u64) {
        let percent = self.read.min(self.size).saturating_mul(100) / self.size.max(1);
        let left = self.size.saturating_sub(self.read);
        let seconds = now.saturating_sub(self.began).saturating_mul(left) / self.read.max(1);
        (percent, seconds)
    }

    /// Notes so many bytes more, and shows the progress where a second is over.
    fn note(&mut self, rt: &HostRuntime, count: usize) {
        self.read = self.read.saturating_add(count as u64);
        let Ok(now) = rt.monotonic() else {
            return;
        };
        let now = now.as_secs();
        if now < self.next {
            return;
        }
        self.next = now.saturating_add(1);
        let (percent, left) = self.so_far(now);
        // Nothing depends on it: where it can't be written, it is left out.
        let _ = rt.stderr().write_all(EMPTY_LINE);
        let _ = write!(rt.stderr(), "haboob: {percent}% read, {left} s left");
    }
}

/// What an input is open on.
#[derive(Drop)]
enum Opened {
    File(File),
    Standard(Stdin),
}

/// An input that is open.
#[derive(Drop)]
pub struct Source<'a> {
    rt: &'a HostRuntime,
    opened: Opened,
    progress: Option<Progress>,
}

impl<'a> Source<'a> {
    /// Opens an input: the file of this name, or standard input.
    pub fn open(rt: &'a HostRuntime, name: &str, place: Place) -> Result<Source<'a>, Explained> {
        if name == STANDARD {
            return Ok(Source {
                rt,
                opened: Opened::Standard(rt.stdin()),
                progress: None,
            });
        }
        match File::open(rt, name) {
            Ok(file) => Ok(Source {
                rt,
                opened: Opened::File(file),
                progress: None,
            }),
            Err(error) => Err(Explained::by(rt.alloc(), Fault::Open(place), name, &error)),
        }
    }

    /// The same, with its progress shown on a terminal.
    pub fn shown(self) -> Source<'a> {
        let Source { rt, opened, .. } = self;
        let progress = match &opened {
            Opened::File(file) => Progress::of(rt, file),
            Opened::Standard(_) => None,
        };
        Source {
            rt,
            opened,
            progress,
        }
    }

    /// Which file it is; none of a standard input that leads to none.
    pub fn node(&self, place: Place) -> Result<Option<Node>, Fault> {
        match &self.opened {
            Opened::File(file) => Ok(Some(Node::of(file, place)?)),
            Opened::Standard(_) => Ok(Node::at(self.rt, STANDARD_INPUT)),
        }
    }
}

impl<'a> Read for Source<'a> {
    fn read(&mut self, buffer: &mut [u8]) -> io::Result<usize> {
        let count = match &mut self.opened {
            Opened::File(file) => file.read(buffer)?,
            Opened::Standard(input) => input.read(buffer)?,
        };
        if let Some(progress) = &mut self.progress {
            progress.note(self.rt, count);
        }
        Ok(count)
    }
}
