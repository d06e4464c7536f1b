//! A file of a snapshot, and the lines that announce one.

use devices::Bytes;

/// A file of a snapshot.
#[derive(Debug, Drop)]
pub struct File {
    /// The path from the root, its parts joined by `/`.
    pub name: Bytes,
    /// When the file was last changed, in seconds since 1970-01-01.
    pub mtime: u64,
    pub bytes: Bytes,
}

/// The line before a file: its time, and how many bytes its name and the file itself have. A number past 64 bits
/// stands as the greatest of 64 bits, which is past every limit.
#[derive(Clone, Copy, Debug, PartialEq, Eq)]
pub struct FileLine {
    pub mtime: u64,
    pub name_len: u64,
    pub len: u64,
}

/// What a line of a snapshot announces: a file, or the end after n files.
#[derive(Clone, Copy, Debug, PartialEq, Eq)]
pub enum EntryHeading {
    File(FileLine),
    End(u64),
}
