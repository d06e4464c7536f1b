//! Texts that are written, and read back.
use crate::writing::{ALL, Entry, files_of, write_files};
use devices::Output;
use paths::Snapshot;
use snapshots::WriteFault;
use std::alloc::Global;
use std::test::Fail;
use test_support::{Slow, snapshot};

/// Names that rise by their bytes, with folders among them, a line feed in a name and an empty file.
static TREE: [Entry; 7] = [
    ("a", 0, "end 1\n"),
    ("a!b", 253_402_300_799, ""),
    ("a!b!", 1, "\n"),
    ("b\nc/d", 2, "file 0 1 0\n"),
    ("b\nc/d.txt", 3, "x"),
    ("b\nc/e/f", 4, "\r\n"),
    ("z/\u{e9}", 5, "\u{e9}"),
];

/// The text of these files, of which 3 bytes are written at once.
fn text_of(alloc: Global) -> Result<Vec<u8>, WriteFault> {
    let files = files_of(alloc, &TREE)?;
    let mut taken = Vec::new(alloc);
    let mut output = Output::new(Slow::new(&mut taken, 3, ALL));
    write_files(alloc, &mut output, &files)?;
    drop(output);
    Ok(taken)
}

/// Whether these are the files of `TREE`.
fn is_tree(files: &Snapshot) -> bool {
    if files.len() != 7 {
        return false;
    }
    for at in 0..7usize {
        let (name, mtime, bytes) = TREE[at];
        let is_it = files.name(at) == name.as_bytes()
            && files.mtime(at) == mtime
            && files.bytes(at) == bytes.as_bytes();
        if !is_it {
            return false;
        }
    }
    true
}

#[test]
fn tree_read_back(rt: HostRuntime) -> Result<(), Fail> {
    let text = text_of(rt.alloc())?;
    let files = snapshot(rt.alloc(), &text)?;
    assert!(rt; is_tree(&files));
    Ok(())
}
