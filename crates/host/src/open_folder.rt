//! Open folders, and what is reached from them. Nothing is reached by a path from the root of the system: so no link is
//! followed, whoever puts one in a folder's or a file's place meanwhile.

use crate::overwritten::Node;
use faults::FileFault;
use paths::MAX_FILE_BYTES;
use runs::{Contents, Unanswered};
use std::alloc::{AllocError, Global};
use std::fs::{File, Metadata, ReadDir, read_dir, symlink_metadata};
use std::io;
use std::io::{ErrorKind, Read};
use std::os::fd::AsRawFd;
use std::os::unix::fs::MetadataExt;

/// What the system says where the program, or the system, has too many files open (errno(3): EMFILE, ENFILE).
const TOO_MANY_OPEN: i32 = 24;

const TOO_MANY_OPEN_IN_SYSTEM: i32 = 23;

/// Why something in a folder can't be read.
#[derive(Drop)]
pub enum Unread {
    /// That says nothing of it.
    Unanswered(Unanswered),
    Fault(FileFault),
}

impl From<AllocError> for Unread {
    fn from(refused: AllocError) -> Unread {
        Unread::Unanswered(Unanswered::from(refused))
    }
}

impl From<io::Error> for Unread {
    fn from(error: io::Error) -> Unread {
        if matches!(
            error.raw_os_error(),
            Some(TOO_MANY_OPEN | TOO_MANY_OPEN_IN_SYSTEM)
        ) {
            return Unread::Unanswered(Unanswered::Descriptors);
        }
        match error.kind() {
            ErrorKind::OutOfMemory => Unread::Unanswered(Unanswered::Memory),
            ErrorKind::InvalidFilename => Unread::Fault(FileFault::Name),
            _ => Unread::Fault(FileFault::Read),
        }
    }
}

/// What was looked at is no longer what it was.
pub const CHANGED: Unread = Unread::Fault(FileFault::Changed);

/// Whether nobody has changed a file between two looks at it.
fn is_unchanged(before: &Metadata, after: &Metadata) -> bool {
    before.len() == after.len()
        && before.mtime() == after.mtime()
        && before.mtime_nsec() == after.mtime_nsec()
        && before.ctime() == after.ctime()
        && before.ctime_nsec() == after.ctime_nsec()
}

/// The bytes of an open file, up to the first that is too many. They are what the system says of it: it has so many
/// bytes, and wasn't changed while they were read. A time before 1970 is reported as 0.
fn contents_of(rt: &HostRuntime, file: &File) -> Result<Contents, Unread> {
    let before = file.metadata()?;
    if before.len() > MAX_FILE_BYTES {
        return Err(Unread::Fault(FileFault::Size));
    }
    let mut bytes = Vec::with_capacity(rt.alloc(), before.len() as usize + 1)?;
    file.take(MAX_FILE_BYTES + 1).read_to_end(&mut bytes)?;
    let after = file.metadata()?;
    if bytes.len() as u64 != after.len() || !is_unchanged(&before, &after) {
        return Err(CHANGED);
    }
    let mtime = u64::try_from(after.mtime()).unwrap_or(0);
    Ok(Contents { mtime, bytes })
}

/// An open folder.
#[derive(Drop)]
pub struct OpenFolder {
    file: File,
    node: Node,
}

impl OpenFolder {
    /// Opens the folder of this path, which ends with a slash: so nothing but a folder is opened.
    fn at(rt: &HostRuntime, path: &str) -> Result<OpenFolder, Unread> {
        let file = File::open(rt, path)?;
        let node = Node::new(&file.metadata()?);
        Ok(OpenFolder { file, node })
    }

    /// Opens the folder of a path, or the one that a link of that path leads to.
    pub fn open(rt: &HostRuntime, path: &str) -> Result<OpenFolder, Unread> {
        if path.is_empty() {
            return Err(Unread::Fault(FileFault::Read));
        }
        let path = format!(in rt.alloc(); "{path}/")?;
        OpenFolder::at(rt, path.as_str())
    }

    /// Which folder it is.
    pub fn node(&self) -> Node {
        self.node
    }

    /// The path of what has this name in the folder, by the number of the open folder.
    fn path(&self, alloc: Global, name: &str) -> Result<String, AllocError> {
        let number = self.file.as_raw_fd();
        format!(in alloc; "/proc/self/fd/{number}/{name}")
    }

    /// The folder of this name in it; by `.` itself, and by `..` the one that it is in now.
    pub fn enter(&self, rt: &HostRuntime, name: &str) -> Result<OpenFolder, Unread> {
        let mut path = self.path(rt.alloc(), name)?;
        let listed = symlink_metadata(rt, path.as_str())?;
        if !listed.is_dir() {
            return Err(CHANGED);
        }
        path.push('/')?;
        let folder = OpenFolder::at(rt, path.as_str())?;
        if Node::new(&listed) != folder.node {
            return Err(CHANGED);
        }
        Ok(folder)
    }

    /// What is in it.
    pub fn entries(&self, rt: &HostRuntime) -> Result<ReadDir, Unread> {
        let path = self.path(rt.alloc(), "")?;
        Ok(read_dir(rt, path.as_str())?)
    }

    /// Reads the file of this name in it, which is to be this one. What isn't a plain file isn't opened: a pipe would
    /// have the program wait.
    pub fn read(
        &self,
        rt: &HostRuntime,
        name: &str,
        wanted: Option<Node>,
    ) -> Result<Contents, Unread> {
        let path = self.path(rt.alloc(), name)?;
        let found = Node::new(&symlink_metadata(rt, path.as_str())?);
        if wanted != Some(found) {
            return Err(CHANGED);
        }
        let file = File::open(rt, path.as_str())?;
        if found != Node::new(&file.metadata()?) {
            return Err(CHANGED);
        }
        contents_of(rt, &file)
    }
}
