//! An output that is emptied at its first byte, and is no input.

use crate::explained::Explained;
use crate::opening::check_standard;
use crate::source::STANDARD;
use faults::{Fault, Place};
use std::fs::{File, Metadata, OpenOptions, TryLockError, metadata};
use std::io;
use std::io::{Stdout, Write};
use std::os::unix::fs::MetadataExt;

/// Where the system shows what standard output is open on.
pub const STANDARD_OUTPUT: &str = "/proc/self/fd/1";

/// Which file this is, whatever its name: a node of a device.
#[derive(Clone, Copy, PartialEq)]
pub struct Node {
    device: u64,
    inode: u64,
    /// Whether it is a file that keeps its bytes, and no pipe or device.
    is_regular: bool,
}

impl Node {
    /// The node of which this is known.
    pub fn new(known: &Metadata) -> Node {
        Node {
            device: known.dev(),
            inode: known.ino(),
            is_regular: known.is_file(),
        }
    }

    /// The node of an open file.
    pub fn of(file: &File, place: Place) -> Result<Node, Fault> {
        match file.metadata() {
            Ok(known) => Ok(Node::new(&known)),
            Err(_) => Err(Fault::Open(place)),
        }
    }

    /// The node that a path leads to, where it leads to one.
    pub fn at(rt: &HostRuntime, path: &str) -> Option<Node> {
        Some(Node::new(&metadata(rt, path).ok()?))
    }

    /// Whether it is a file that keeps its bytes, and one of these.
    pub fn is_kept_in(self, others: &[Option<Node>]) -> bool {
        self.is_regular && others.contains(&Some(self))
    }
}

/// Locks a file up to when it is closed; whether no other run has locked it. Where its system has no locks, it is
/// written without one.
fn lock(file: &File) -> bool {
    !matches!(file.try_lock(), Err(TryLockError::WouldBlock))
}

/// Why a file that is open for writing isn't written, where it isn't.
fn refusal(file: &File, node: Node, others: &[Option<Node>]) -> Option<&'static str> {
    if node.is_kept_in(others) {
        return Some("it is an input, or standard output, too");
    }
    if node.is_regular && !lock(file) {
        return Some("another run is writing it");
    }
    None
}

/// What an output is open on.
#[derive(Drop)]
enum Opened {
    File {
        file: File,
        /// Whether it is still to be emptied.
        is_to_be_emptied: bool,
    },
    Standard(Stdout),
}

/// An output: standard output, or a file. A file that is there keeps its bytes until the first byte is written, and is
/// emptied then. What can't be emptied, as a pipe, is written as it is.
#[derive(Drop)]
pub struct Overwritten {
    opened: Opened,
}

impl Overwritten {
    /// Standard output, which is refused where it is a regular file that is among the others.
    fn standard(
        rt: &HostRuntime,
        place: Place,
        others: &[Option<Node>],
    ) -> Result<Overwritten, Explained> {
        let node = Node::at(rt, STANDARD_OUTPUT);
        check_standard(rt.alloc(), node, others, place)?;
        Ok(Overwritten {
            opened: Opened::Standard(rt.stdout()),
        })
    }

    /// Opens an output. A regular file that is among the others, the inputs and standard output, is refused and keeps
    /// its bytes; so is one that another run is writing.
    pub fn open(
        rt: &HostRuntime,
        name: &str,
        place: Place,
        others: &[Option<Node>],
    ) -> Result<Overwritten, Explained> {
        if name == STANDARD {
            return Overwritten::standard(rt, place, others);
        }
        let file = match OpenOptions::new().write(true).create(true).open(rt, name) {
            Ok(file) => file,
            Err(error) => return Err(Explained::by(rt.alloc(), Fault::Open(place), name, &error)),
        };
        let node = Node::of(&file, place)?;
        if let Some(why) = refusal(&file, node, others) {
            return Err(Explained::on(rt.alloc(), Fault::Open(place), name, why));
        }
        Ok(Overwritten {
            opened: Opened::File {
                file,
                is_to_be_emptied: node.is_regular,
            },
        })
    }

    /// Empties the file, where that is still to be done.
    pub fn empty(&mut self) -> io::Result<()> {
        if let Opened::File {
            file,
            is_to_be_emptied,
        } = &mut self.opened
            && *is_to_be_emptied
        {
            file.set_len(0)?;
            *is_to_be_emptied = false;
        }
        Ok(())
    }
}

impl Write for Overwritten {
    fn write(&mut self, bytes: &[u8]) -> io::Result<usize> {
        self.empty()?;
        match &mut self.opened {
            Opened::File { file, .. } => file.write(bytes),
            Opened::Standard(output) => output.write(bytes),
        }
    }

    fn flush(&mut self) -> io::Result<()> {
        match &mut self.opened {
            Opened::File { file, .. } => file.flush(),
            Opened::Standard(output) => output.flush(),
        }
    }
}
