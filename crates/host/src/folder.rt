//! The walk through a folder, and the reading of its files.

use crate::cursor::Cursor;
use crate::open_folder::{OpenFolder, Unread};
use crate::overwritten::Node;
use faults::{Fault, FileFault, Place};
use paths::MAX_NAME_BYTES;
use runs::{Contents, Folder, Found, Unanswered};
use std::alloc::{AllocError, Global};
use std::cell::Cell;
use std::fs::{DirEntry, Metadata, ReadDir};
use std::io;

/// What is in a folder and in all folders in it.
#[derive(Drop)]
pub struct Listing {
    /// All that is no folder, and each folder that couldn't be read, by the bytes of their names.
    pub found: Vec<Found>,
    /// Which file each of them is, in the same order; none of what couldn't be looked at.
    pub nodes: Vec<Option<Node>>,
}

/// A walk through a folder and all folders in it.
#[derive(Drop)]
struct Walk<'a> {
    rt: &'a HostRuntime,
    found: Vec<(Found, Option<Node>)>,
    /// The folders that are still to be read: the names of what is in them begin so.
    ahead: Vec<String>,
}

/// The text of two others.
fn joined(alloc: Global, first: &str, second: &str) -> Result<String, AllocError> {
    let mut text = String::from_str(alloc, first)?;
    text.push_str(second)?;
    Ok(text)
}

/// Why what is no folder can't be taken, by its kind.
fn kind_fault(known: &Metadata) -> Option<FileFault> {
    if known.is_file() {
        None
    } else if known.is_symlink() {
        Some(FileFault::Link)
    } else {
        Some(FileFault::Special)
    }
}

impl Walk<'_> {
    /// Adds what was found.
    fn add(
        &mut self,
        name: String,
        fault: Option<FileFault>,
        node: Option<Node>,
    ) -> Result<(), AllocError> {
        self.found.push((Found { name, fault }, node))?;
        Ok(())
    }

    /// Takes what can't be read, or what of a folder can't be; the root's name is empty.
    fn take_unread(&mut self, name: &str, why: Unread) -> Result<(), Unanswered> {
        let fault = match why {
            Unread::Fault(fault) => fault,
            Unread::Unanswered(why) => return Err(why),
        };
        let name = String::from_str(self.rt.alloc(), if name.is_empty() { "./" } else { name })?;
        Ok(self.add(name, Some(fault), None)?)
    }

    /// Takes a folder. No file below one whose name is too long can be taken, so it isn't read.
    fn take_folder(&mut self, mut name: String) -> Result<(), Unanswered> {
        name.push('/')?;
        if name.len() as u64 > MAX_NAME_BYTES {
            return self.take_unread(&name, Unread::Fault(FileFault::Name));
        }
        Ok(self.ahead.push(name).map_err(AllocError::from)?)
    }

    /// Takes what has this name.
    fn take_known(&mut self, name: String, known: &Metadata) -> Result<(), Unanswered> {
        if known.is_dir() {
            return self.take_folder(name);
        }
        Ok(self.add(name, kind_fault(known), Some(Node::new(known)))?)
    }

    /// Takes what a folder has next.
    fn take(&mut self, folder: &str, entry: io::Result<DirEntry>) -> Result<(), Unanswered> {
        let entry = match entry {
            Ok(entry) => entry,
            Err(error) => return self.take_unread(folder, Unread::from(error)),
        };
        let name = joined(self.rt.alloc(), folder, entry.file_name())?;
        match entry.metadata() {
            Ok(known) => self.take_known(name, &known),
            Err(error) => self.take_unread(&name, Unread::from(error)),
        }
    }

    /// Takes all that a folder has.
    fn take_all(&mut self, name: &str, entries: ReadDir) -> Result<(), Unanswered> {
        for entry in entries {
            self.take(name, entry)?;
        }
        Ok(())
    }

    /// Takes all that the folder of this name has, which stays open meanwhile.
    fn take_below(
        &mut self,
        root: &OpenFolder,
        cursor: &mut Cursor,
        name: &str,
    ) -> Result<(), Unanswered> {
        if let Err(why) = cursor.go(self.rt, root, name) {
            return self.take_unread(name, why);
        }
        match cursor.folder(root).entries(self.rt) {
            Ok(entries) => self.take_all(name, entries),
            Err(why) => self.take_unread(name, why),
        }
    }
}

/// What it is to the run that the folder itself can't be opened or listed.
fn root_fault(why: Unread) -> Fault {
    match why {
        Unread::Unanswered(why) => Fault::from(why),
        Unread::Fault(_) => Fault::Open(Place::Folder),
    }
}

/// Opens the folder of a path.
pub fn open_root(rt: &HostRuntime, path: &str) -> Result<OpenFolder, Fault> {
    OpenFolder::open(rt, path).map_err(root_fault)
}

/// Lists what is in a folder. Links aren't followed.
pub fn list_folder(rt: &HostRuntime, root: &OpenFolder) -> Result<Listing, Fault> {
    let alloc = rt.alloc();
    let mut walk = Walk {
        rt,
        found: Vec::new(alloc),
        ahead: Vec::new(alloc),
    };
    walk.take_all("", root.entries(rt).map_err(root_fault)?)?;
    let mut cursor = Cursor::new(alloc);
    // The system's folders come to an end some time.
    for _ in 0..u64::MAX {
        let Some(name) = walk.ahead.pop() else {
            break;
        };
        walk.take_below(root, &mut cursor, &name)?;
    }
    Ok(in_order(alloc, walk.found)?)
}

/// What was found, by the bytes of the names.
fn in_order(alloc: Global, mut taken: Vec<(Found, Option<Node>)>) -> Result<Listing, AllocError> {
    taken.sort_unstable_by(|(one, _), (other, _)| one.name.cmp(&other.name));
    let mut listing = Listing {
        found: Vec::new(alloc),
        nodes: Vec::new(alloc),
    };
    for (found, node) in taken {
        listing.found.push(found)?;
        listing.nodes.push(node)?;
    }
    Ok(listing)
}

/// A folder of the system, as it was listed.
#[derive(Drop)]
pub struct FileFolder<'a> {
    rt: &'a HostRuntime,
    root: &'a OpenFolder,
    listing: &'a Listing,
    /// At the folder of the file that was read last: the names come in their order, so the next is near.
    cursor: Cell<Cursor>,
}

impl<'a> FileFolder<'a> {
    /// The folder that has this listing.
    pub fn new(rt: &'a HostRuntime, root: &'a OpenFolder, listing: &'a Listing) -> FileFolder<'a> {
        FileFolder {
            rt,
            root,
            listing,
            cursor: Cell::new(Cursor::new(rt.alloc())),
        }
    }

    /// Which file was listed under this name.
    fn listed(&self, name: &str) -> Option<Node> {
        let found = &self.listing.found;
        let place = found.binary_search_by(|one| one.name.as_str().cmp(name));
        *self.listing.nodes.get(place.ok()?)?
    }

    /// Reads the file of this name, which is to be the one that was listed, from where the cursor is.
    fn read_from(&self, cursor: &mut Cursor, name: &str) -> Result<Contents, Unread> {
        cursor.go(self.rt, self.root, name)?;
        let (_, last) = name.rsplit_once('/').unwrap_or(("", name));
        cursor
            .folder(self.root)
            .read(self.rt, last, self.listed(name))
    }

    /// Reads the file of this name.
    fn read_file(&self, name: &str) -> Result<Contents, Unread> {
        let mut cursor = self.cursor.replace(Cursor::new(self.rt.alloc()));
        let contents = self.read_from(&mut cursor, name);
        self.cursor.set(cursor);
        contents
    }
}

impl<'a> Folder for FileFolder<'a> {
    // what a folder of the system may answer, no clause can say
    ghost answers = { λ folder name answer. Unit {0} };

    fn read(&self, name: &str) -> Result<Result<Contents, FileFault>, Unanswered> {
        match self.read_file(name) {
            Ok(contents) => Ok(Ok(contents)),
            Err(Unread::Fault(fault)) => Ok(Err(fault)),
            Err(Unread::Unanswered(why)) => Err(why),
        }
    }
}
